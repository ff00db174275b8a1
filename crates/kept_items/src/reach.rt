//! The numbers of the statements that can contradict a segment.

ghost use Rattle.std.specs.Prelude.{◌≡◌};
ghost use Rattle.kept_items.specs.Keeping.{above, low_number};

use log_chain::{Hash, base_hash};

/// Where a segment begins and ends. If the segment's numbers do not rise, no number lies within its reach.
#[derive(Clone, Copy, Debug)]
pub struct Reach {
    /// 0 if the segment begins a log, and else one above its first number. It is the greatest `u64` if that is the first number, or if the
    /// numbers do not rise.
    pub low: u64,
    /// The segment's last number. If its numbers do not rise, it is 0.
    pub last: u64,
}

/// Returns the next number. For the greatest one it returns that number itself.
fn above(number: u64) -> u64
    ensures { result ≡ above number }
{
    number.saturating_add(1)
}

/// Returns where a segment begins that follows this hash and has this first number.
pub(crate) fn low_number(prev: Hash, first: u64) -> u64
    ensures { result ≡ low_number prev first }
{
    if prev == base_hash() {
        return 0;
    }
    above(first)
}
