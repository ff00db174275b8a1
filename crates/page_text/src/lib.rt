//! Pages of HTML, and how text stands in them.
//!
//! - [`escaped`] returns a text as it stands in a page. It ends no attribute and no element, and begins none. `specs/Escaping.antt`
//!   defines that.
//! - A [`Page`] has a head, and behind it [`Piece`]s. The head has a charset, and a policy by which the page runs and loads nothing. A
//!   piece is markup of a closed set ([`Tag`], [`Attribute`]), or text. No element or attribute of the set runs or loads anything. Text
//!   is escaped, and stands in no tag. `specs/Pages.antt` defines that. So nothing that comes from outside is ever markup.
#![tactic(auto)]

pub use escaping::escaped;
pub use names::{Attribute, Sign, Tag};
pub use page::{Page, Piece};

mod escaping;
mod names;
mod page;
mod places;
