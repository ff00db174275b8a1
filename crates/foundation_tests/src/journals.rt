//! The bytes of a journal, what a crash may leave of it, and what is damage: over a file in memory, and once over a file.

mod damage;
mod groups;
mod restarts;
