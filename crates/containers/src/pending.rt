//! The bytes that are still to be read.

ghost use Rattle.std.specs.Prelude.{◌≡◌, ◌≤◌, drop, length, vec_len};

use std::marker::Model;

/// The smallest number of read bytes whose memory is freed at a time: 4 MiB.
pub const LONGEST_STRIDE: usize = 4_194_304;

/// The bytes that are still to be read. From time to time it frees the memory of the bytes that were read: as soon as they are
/// at least [`LONGEST_STRIDE`] and at least an eighth of those that are left. So reading to the end moves a byte eight times at
/// most on average, and little is kept of what was read.
///
/// A contract sees the bytes that are left.
#[derive(Drop)]
pub struct Pending {
    bytes: Vec<u8>,
    start: usize,
    ghost within: { start ≤ vec_len bytes },
}

impl Model for Pending {
    ghost use Rattle.std.specs.Prelude.{List, drop, ℕ};

    ghost Value = { List ℕ };

    ghost view = { λ p. drop p.start p.bytes.items };
}

/// Takes `count` bytes off the front, and frees their memory.
fn free_front(bytes: &mut Vec<u8>, count: usize)
    requires { count ≤ vec_len bytes.old }
    ensures { bytes.new.items ≡ drop count bytes.old.items }
{
    bytes.drain(..count);
    bytes.shrink_to_fit();
}

impl Pending {
    /// Returns a `Pending` of these bytes, all of which are left.
    pub fn new(bytes: Vec<u8>) -> Pending
        ensures { result ≡ bytes.items }
    {
        Pending { bytes, start: 0 }
    }

    /// Returns the bytes that are left.
    pub fn rest(&self) -> &[u8]
        ensures { result.now ≡ self.now }
    {
        &self.bytes[self.start..]
    }

    /// Takes `count` bytes off the front. It takes no memory.
    pub fn skip(&mut self, count: usize)
        requires { count ≤ length self.old }
        ensures { self.new ≡ drop count self.old }
    {
        self.start += count;
        let left = self.bytes.len() - self.start;
        if self.start >= LONGEST_STRIDE && self.start >= left / 8 {
            free_front(&mut self.bytes, self.start);
            self.start = 0;
        }
    }
}
