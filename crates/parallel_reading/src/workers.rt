//! The workers that read a text, and what they check its items under.

use authenticators::Directory;
use std::alloc::Global;

/// Workers that read: a number of threads of a runtime, and the allocator that they use.
#[derive(Drop)]
pub struct Workers<'a, R> {
    /// The runtime, which makes the threads.
    pub rt: &'a R,
    /// The allocator from which memory is taken.
    pub alloc: Global,
    /// How many workers there are: 1 to [`MOST_WORKERS`](crate::MOST_WORKERS).
    pub count: usize,
}

/// Workers, with the program and the directory under which they check items.
#[derive(Drop)]
pub(crate) struct Checkers<'a, R, P> {
    pub(crate) workers: &'a Workers<'a, R>,
    pub(crate) program: &'a P,
    pub(crate) directory: &'a Directory,
}
