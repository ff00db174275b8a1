//! Receivers of how far a reading is.

/// A receiver of how far a text is read. It gets numbers alone, so nothing that it does changes what is read.
pub trait Watcher {
    /// Is called with the number of items that are read, and with the number of bytes of the text that stand behind them.
    fn read(&mut self, items: u64, left: u64);
}

/// A watcher that does nothing.
#[derive(Clone, Copy, Debug)]
pub struct Unwatched;

impl Watcher for Unwatched {
    fn read(&mut self, _items: u64, _left: u64) {}
}
