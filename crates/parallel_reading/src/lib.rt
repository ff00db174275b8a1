//! Several workers read evidence at once (PeerReview, SOSP 2007: evidence).
//!
//! - [`read_all_by`] reads the items of a container whose text is all there, as `containers::read_all` does. The caller's thread finds
//!   where the items' texts stand. Workers decode the items, test that they ascend, and check them.
//! - [`import_by`] adds the items of the text of a set to a store, as `Evidence::import` does.
//! - A [`Watcher`] is called meanwhile with how far the reading is.
//!
//! What an item is read as depends on its own text and on the text before it alone. So the items can be read in any order, and the call
//! still reports the first fault in the order of the items. `specs/Readings.antt` says so, and [`laws`] proves it.
#![tactic(auto)]

pub use importing::import_by;
pub use parallel_checking::MOST_WORKERS;
pub use reading::read_all_by;
pub use watching::{Unwatched, Watcher};
pub use workers::Workers;

mod batch;
mod blocks;
mod importing;
mod item;
pub mod laws;
mod limits;
mod reading;
mod texts;
mod watching;
mod workers;
