//! Nodes under Tally and their journals: what is written, what is rebuilt, and what is refused.

mod drafts;
mod faults;
mod files;
mod fixtures;
mod lives;
mod refusals;
mod resuming;
mod spellings;
