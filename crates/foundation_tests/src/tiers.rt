//! The list in tiers beside a `Vec`: inserts and removals at the front, in the middle and at the end, over several
//! tiers, and what a search finds.

mod inserts;
mod removals;
mod searches;
