//! Laws about the definitions. Each is a function that computes nothing: its contract is the law.

ghost use Rattle.command_words.specs.PlainLines.{FlaggedLinesAreTaken, PlainLinesAreTaken};

/// States that a program without a flag takes each plain line without one.
pub fn plain_lines_are_taken()
    ensures { PlainLinesAreTaken }
{}

/// States that a program with the flag `--relay` takes each plain line, with the flag or without it.
pub fn flagged_lines_are_taken()
    ensures { FlaggedLinesAreTaken }
{}
