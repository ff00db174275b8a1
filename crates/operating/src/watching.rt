//! Watchers learn how far stores are read.

pub use parallel_reading::{Unwatched, Watcher};

/// A watcher that learns of each store how far it is read. It gets only numbers, and neither what is read nor what is written. So the
/// answer is the same, whatever it does.
pub trait StoreWatcher: Watcher {
    /// Is called when the items of the store in this file begin to be read. The store's encoding has `bytes` bytes.
    fn begin(&mut self, file: usize, bytes: u64);

    /// Is called when all stores are read, or when one is refused. No call follows it.
    fn end(&mut self);
}

impl StoreWatcher for Unwatched {
    fn begin(&mut self, _file: usize, _bytes: u64) {}

    fn end(&mut self) {}
}
