//! Scripts of calls: how a line is read, how its answer is compared, and what is told of a line that goes otherwise than it says.
//!
//! A line is a call: a verb and its words, the names of what it gives behind `as`, and the answer that must come behind `=>`.
//!
//! ```text
//! receive two ask 02*32 as ack reply => ack 2@2 of 3, sent 2>1@3
//! ```
//!
//! - A line without `=>` may have any answer but a refusal. A line that begins with `#` is for people.
//! - `loop i 2 16` plays the lines up to `end` once for each number, up or down. `{i}`, `{i+64}` and `{i*3+3}` are filled in.
//! - `why` answers with the text of the last refusal.
//! - Bytes are parts with `+` between them: hexadecimal digits, `"TEXT"`, `u32:NUMBER`, `$NAME` or `$NAME[FROM..TO]`. Behind a part, `*COUNT`
//!   repeats it. `-` is no bytes.
//!
//! A script ends at its first line that goes otherwise. [`Played`] has the line, what it wants and what came. A call that is refused must
//! leave what it was made on as it was: [`play`] looks before it and after it. [`play`] can have each growth of memory of each call refused
//! in turn ([`Growths`]).
//!
//! The crate knows no call. A type with verbs has [`Answers`].
#![tactic(auto)]

pub use answer::Answer;
pub use bytes::{read_bytes, shown};
pub use growths::Growths;
pub use mistake::Mistake;
pub use playing::{Answers, Fault, Played, play};
pub use table::Table;
pub use words::Words;

mod answer;
mod bytes;
mod growths;
mod loops;
mod mistake;
mod playing;
mod table;
mod words;
