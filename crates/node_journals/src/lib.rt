//! Journals of nodes. What a node is given is written to its journal before the node is given it. So a node that a crash ended
//! comes back as it was.
//!
//! The first text of a journal is the encoding of a [`Beginning`]. Each further one is the encoding of a [`Recorded`]: what the
//! node was given by one call. The crate `journal` keeps each text on the disk whole, or not at all.
//!
//! 1. A node begins as it comes back: the encoding of its [`Beginning`] is written and synced, and [`rebuild`] makes the node
//!    from this one text.
//! 2. For each call, or for a group of calls, [`Recorded::draft`] makes the encodings of the records. They are written and
//!    synced. Only then [`Journalled::give`] gives each record to the node, in the order of the texts. What the node replies is
//!    sent only after that.
//! 3. After a crash [`rebuild`] makes the node from the journal's texts, and [`is_safe_to_resume`] compares it with what
//!    witnesses hold.
//!
//! A node is a function of its keys and of what it is given, down to the bytes of its signatures. So the rebuilt node signs
//! with each leaf what the first node signed with it.
//!
//! `specs/Records.antt` and `specs/Beginnings.antt` define the encodings. `specs/Giving.antt` defines what a record gives a
//! node and what the node answers, and `specs/Rebuilding.antt` which node a journal is rebuilt to. `specs/Laws.antt` has the
//! laws that follow, and [`laws`] proves them.
#![tactic(auto)]

pub use beginning::{Beginning, LONGEST_NAME};
pub use drafts::{Draft, DraftRefused, Drafted};
pub use fault::{DraftFault, GiveFault, RebuildFault, RecordFault};
pub use giving::Reply;
pub use journalled::Journalled;
pub use keys::Secret;
pub use rebuilding::rebuild;
pub use recorded::Recorded;
pub use resuming::is_safe_to_resume;

mod beginning;
mod drafts;
mod fault;
mod giving;
mod journalled;
mod keys;
pub mod laws;
mod reading;
mod rebuilding;
mod recorded;
mod resuming;
mod writing;
