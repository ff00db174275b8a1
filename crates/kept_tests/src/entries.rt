//! The pool of entries: which of them share one, and which stay two.

mod sharing;
