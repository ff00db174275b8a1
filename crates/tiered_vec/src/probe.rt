//! What a search looks for.

ghost use Rattle.std.specs.Prelude.{◌≡◌};
ghost use Rattle.std.specs.declared.cmp.Ordering.{Ordering};

use std::cmp::Ordering;

/// Something that is looked for among elements of type `T`. It reports of each element whether it lies before, behind or there.
pub trait Probe<T> {
    /// How an element lies to what is looked for.
    ghost order: { Self → T → Ordering };

    /// Returns `Less` for an element that lies before what is looked for, `Greater` for one that lies behind it, and `Equal` for one
    /// that lies there.
    fn compare(&self, x: &T) -> Ordering
        ensures { result ≡ order self.now x.now };
}
