//! What a store or a proof says, as one page for a browser: the sentences of an `Explanation`, and a picture of the entries that they speak
//! of.
//!
//! - [`Rows`] has what is known of the logs of nodes. [`rows_of_proof`] returns it for a proof, and [`rows_of`] for a store. Of a store the
//!   page needs the logs that [`wanted_of`] names.
//! - [`page_of`] writes the page, with the program and the directory under which it holds. It is HTML with its style and its picture in it.
//!   The contract says that it is a page of `page_text`, and that it lists each node with what is said of it. Such a page runs nothing and
//!   loads nothing, and it escapes whatever comes from evidence.
//! - [`page_of_listing`] writes the page of what a directory lists.
#![tactic(auto)]

pub use document::page_of;
pub use drawn_logs::wanted_of;
pub use known_logs::{Rows, Wanted, rows_of, rows_of_proof};
pub use listings::page_of_listing;
pub use sentences::{Basis, Explanation};

mod basis;
mod document;
mod folding;
mod head;
mod index;
mod legend;
mod listings;
mod picture;
mod sections;
mod style;
mod tables;
