//! Which entries of the known logs a picture shows, and where each of them lies.
//!
//! - [`Marks`] has the entries of which sentences speak.
//! - [`wanted_of`] returns whose logs are needed.
//! - [`choice_of`] chooses what is drawn. In a small picture every node has a row. In a larger one those nodes have a row against which
//!   something stands, and those that have or quote a marked entry. Of a long row only a window around the marked entries is drawn.
//! - A [`View`] is what is drawn, with what is known and how payloads are said. [`draw_linked`] draws an entry. [`draw_chain`] and
//!   [`draw_arrow`] draw what leads to it. [`write_content`] writes what it says. [`markup`] has short functions that write elements.
//! - [`Grid`] puts the chosen entries into columns and lanes, and [`Layout`] gives each of them its corner.
#![tactic(auto)]

pub use boxes::{draw_linked, kind_class, source_class};
pub use choosing::{Choice, Drawn, PictureRow, choice_of};
pub use describing::{entry_name, kind_of, sentence_name, source_of, write_content};
pub use grid::Grid;
pub use known_logs::{Cell, Detail, Place, Rows, Wanted};
pub use layout::{Band, HEIGHT, LEFT, Layout, PAD, Point};
pub use lines::{draw_arrow, draw_chain};
pub use marks::{Marks, SentenceId};
pub use page_text::{Attribute, Page, Piece, Tag};
pub use ranking::wanted_of;
pub use sentences::{Explanation, Voice};
pub use view::View;

mod boxes;
mod choosing;
mod describing;
mod grid;
mod layout;
mod lines;
mod marks;
pub mod markup;
mod ranking;
mod view;
