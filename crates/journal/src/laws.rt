//! Laws of the format. Each is a function that does nothing: its contract is the law.

ghost use Rattle.journal.specs.Damage.{LeftFilesAreRead, LostBitsAreSeen, OpenGatesHaveBlocks};

/// A file is damaged if an open gate and its two numbers stand behind whole blocks, and their block doesn't count. So a block whose
/// length lost a bit never looks like an end that a crash tore, and nothing behind it is cut off.
pub fn open_gates_have_blocks()
    ensures { OpenGatesHaveBlocks }
{}

/// A block doesn't count if its length lost bits, however many.
pub fn lost_bits_are_seen()
    ensures { LostBitsAreSeen }
{}

/// A file that a crash left is never refused as damaged.
pub fn left_files_are_read()
    ensures { LeftFilesAreRead }
{}
