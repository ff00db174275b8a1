//! Answers to operators. Each is a value that is written in lines for people, or as JSON for programs.
//!
//! - [`shown_of`] says what a text is and what is in it, and checks nothing of it. [`Shown::write`] writes that.
//! - [`standings_text`] writes what is said of each node, a [`Standing`]. [`conviction_text`] writes whom a proof convicts, and under which
//!   program and directory.
//!
//! `specs/Showing.antt` says what is in a text. `specs/Lines.antt` and `specs/Json.antt` say how answers are written, each as a function of
//! the answer alone. [`laws`] has what follows.
#![tactic(auto)]

pub use conviction::conviction_text;
pub use form::TextForm;
pub use keys::KeyPrint;
pub use showing::{Contents, Shown, shown_of};
pub use standings::{Standing, standings_text};
pub use style::Style;
pub use tally::{Kind, Seen, Tally};

mod conviction;
mod form;
mod keys;
pub mod laws;
mod showing;
mod shown_json;
mod shown_lines;
mod standings;
mod style;
mod tally;
mod writing;
