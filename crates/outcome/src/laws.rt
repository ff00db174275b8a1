//! Laws of the words, for any types of values and faults. Each is a function that does nothing: its contract is the law.

ghost use Rattle.outcome.specs.Bytes.{TextsOfBytes};
ghost use Rattle.outcome.specs.Outcome.{FailsAsExpected, FaultsAreTold, FaultsEndSequences, GivesAsExpected, LeavesAsExpected, ReadsAsExpected, TookAsExpected, ValuesComeOfValues};

/// A step that fails makes the whole sequence fail in the same way.
pub fn faults_end_sequences<A, B, E>()
    ensures { FaultsEndSequences A B E }
{}

/// A lower crate's fault fails in the same way under its upper name, if the two names of "out of memory" agree.
pub fn faults_are_told<A, E, F>()
    ensures { FaultsAreTold A E F }
{}

/// A sequence has a value only if each of its steps has one.
pub fn values_come_of_values<A, B, E>()
    ensures { ValuesComeOfValues A B E }
{}

/// `Fails` holds only of the expected fault and of the fault of memory.
pub fn fails_as_expected<Y, E>()
    ensures { FailsAsExpected Y E }
{}

/// `Gives` holds only of the expected value or fault, and of the fault of memory.
pub fn gives_as_expected<X, Y, E>()
    ensures { GivesAsExpected X Y E }
{}

/// `Leaves` holds only if the state that is left is the expected one, or the old one after a fault.
pub fn leaves_as_expected<X, Y, E>()
    ensures { LeavesAsExpected X Y E }
{}

/// `Took` holds only of the expected value and rest or fault, and of the fault of memory.
pub fn took_as_expected<X, Y, R, E>()
    ensures { TookAsExpected X Y R E }
{}

/// `Reads` holds only of the expected value and rest or fault. After a fault, the place is the old one.
pub fn reads_as_expected<X, Y, R, E>()
    ensures { ReadsAsExpected X Y R E }
{}

/// A list of numbers is a text of bytes exactly if each number in it is below 256.
pub fn texts_of_bytes()
    ensures { TextsOfBytes }
{}
