//! A list in tiers. To insert or remove an element at any place, it moves at most a part of one tier, and one element of each tier
//! behind. An element is read by its place in constant time.
//!
//! A `Vec` moves all elements behind the place of an insert. Here the elements lie in tiers of one size. Each tier is a ring, and all but
//! the last of them are full. An insert into a full tier pushes its last element out, to the front of the next tier. That moves nothing
//! else there. So an insert moves at most half a tier, and one element of each tier behind it. At the end of the list it moves none. If
//! an element is removed, each tier behind gives its first element to the one before.
//!
//! The size of the tiers grows with the square root of the list's length. If there would be more than a quarter as many tiers as each can
//! hold elements, making room moves all elements into tiers of twice the size, or more. So a growth moves all elements, as in a `Vec`. A
//! tier never holds more than 1,048,576. At ten million elements a tier has 8,192 of them, and an insert moves some 5,300 at most.
//!
//! - `TieredVec` is the list. A contract sees its elements, and the room that was made for more (`specs/Tiers.antt`).
//! - `Probe` is what a search looks for. It says how each element lies to that.
#![tactic(auto)]

pub use probe::Probe;
pub use tiered_vec::TieredVec;

mod growing;
mod probe;
mod putting;
mod removing;
mod tier;
mod tiered_vec;
mod widening;
