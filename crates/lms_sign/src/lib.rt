//! LMS signatures (RFC 8554) with SHA-256 and hashes of 32 bytes.
//!
//! [`verify`] takes any bytes. It returns true exactly if they are a signature of the message under the key, as RFC 8554
//! defines it. [`verify_all`] does so for a list. [`PublicKey::from_bytes`] reads exactly the 56-byte texts of keys.
//! [`SecretKey`] is made of a seed, and signs. A signature is the RFC's text by a leaf that has not signed yet, and it
//! verifies under the public key.
//!
//! `specs/` has the definitions, in the RFC's terms.
#![tactic(auto)]

pub use key::{KeyFault, PublicKey};
pub use many::verify_all;
pub use secret_key::{MakeFault, SecretKey, SignFault};
pub use signed::Signed;
pub use types::{LONGEST_SIGNATURE, LmsType, OtsType};
pub use verification::verify;

mod chain_ends;
mod chain_lanes;
mod chain_order;
mod chain_runs;
mod coefficients;
mod key;
pub mod laws;
mod making;
mod many;
mod open_chain;
mod risings;
mod secret_key;
mod seed_chains;
mod side_by_side;
mod signature_text;
mod signed;
mod stretches;
mod text;
mod tree;
mod types;
mod verification;
