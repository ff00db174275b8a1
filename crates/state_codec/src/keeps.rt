//! Tests of a list's items.

ghost use Rattle.std.specs.Prelude.{◌≡◌, Bool};

/// A test that says which items of a list are kept. [`Listed::kept`](crate::Listed::kept) uses it.
pub trait Keeps<T> {
    // The test as a function of values.
    ghost keeps: { Self → T → Bool };

    /// Returns whether the item is kept.
    fn keeps(&self, item: &T) -> bool
        ensures { result ≡ keeps self.now item.now };
}
