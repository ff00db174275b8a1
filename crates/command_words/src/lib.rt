//! The words of the command line of a program with the five commands, and how the program ends.
//!
//! A program is a `main` over this crate and `commands`. It reads its words with [`read_words`]. It runs the task that they ask for with
//! `commands::task::Task::run`, under the program of its nodes. It ends as [`ended`] says. `specs/CommandLine.antt` defines the words in
//! clap's terms, and [`laws`] says which plain lines are taken.
#![tactic(auto)]

pub use ending::ended;
pub use words::{Asked, Flag, Request, read_words};

mod ending;
pub mod laws;
mod words;
