//! What is said of a store or of a proof, in sentences that a person can read.
//!
//! - [`Explanation`] has a heading. For each node it has the indication and [`Sentence`]s. A [`Mark`] names an entry of which a sentence
//!   says that it contradicts something. [`text_of`] writes an explanation as text.
//! - [`Basis`] says under which program and directory a verdict is given, and of which bytes. [`verdict_text`] writes it before an
//!   explanation.
//! - [`Listing`] has what a directory lists, with the SHA-256 of each key.
//! - [`Lines`] takes sentences one after the other.
//! - [`Count`], [`FormCounts`], [`Kind`], [`Shown`], [`Sending`], [`Logged`] and [`Sites`] are the words for what evidence has. Each writes
//!   itself.
//! - [`Said`] reads what an entry's content says. A [`Voice`] says what a program's payload says; [`PlainVoice`] shows its bytes.
//!
//! `specs/Texts.antt` says how an explanation is written: each node has a line of its own, and its sentences follow after blanks.
//! `specs/Bases.antt` says how a basis is written. No contract of this crate says which words a sentence has.
#![tactic(auto)]

pub use authenticators::NodeId;
pub use basis::{Basis, groups_of};
pub use content::{Content, Logged, Said, Sending};
pub use counts::FormCounts;
pub use evidence_set::Indication;
pub use explanation::{Explanation, Mark, NamedHash, NodeExplanation, Sentence};
pub use lines::Lines;
pub use listing::{ListedNode, Listing, listing_lines};
pub use log_chain::Entry;
pub use outcome::Memory;
pub use payload::{MOST_SHOWN, Payload, PlainVoice, Shown, Voice};
pub use replay_verifier::Output;
pub use site::{Input, Role, Site, Sites};
pub use words::{Count, Kind};
pub use writing::{text_of, verdict_text};

mod basis;
mod content;
mod counts;
mod explanation;
mod lines;
mod listing;
mod payload;
mod site;
mod words;
mod writing;
