//! The fields of the binary formats, the chain of hashes of a log, and logs that keep it (PeerReview, SOSP 2007).
//!
//! - `FieldReader` reads a field as `specs/Fields.antt` says. A refusal leaves its place unchanged. `FieldWriter` writes fields one
//!   after another. `proofs/Codec.antt` and the files beside it join the two for whole formats.
//! - `entry_hash` and `chain_end` compute the definitions of `specs/Chain.antt`. `laws` has what follows from the definitions alone.
//! - `SecureHistory` keeps each entry's hash, accepts only numbers that rise, and cuts segments. `place_of` finds an entry by its
//!   number in a list whose numbers rise.
#![tactic(auto)]

pub use byte_string::ByteString;
pub use entry::{Entry, chain_end, entry_hash, entry_hash_of_pieces};
pub use entry_list::EntryList;
pub use fault::{AppendFault, FieldFault, SegmentFault};
pub use field_reader::FieldReader;
pub use field_writer::FieldWriter;
pub use finding::place_of;
pub use hash::{Hash, base_hash};
pub use limits::{LONGEST_CONTENT, MOST_ENTRIES};
pub use outcome::Memory;
pub use secure_history::{AppendRefused, SecureHistory};

mod byte_string;
mod entry;
mod entry_list;
mod fault;
mod field_reader;
mod field_writer;
mod finding;
mod hash;
pub mod kind;
pub mod laws;
mod limits;
mod secure_history;
