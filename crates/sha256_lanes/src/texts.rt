//! Eight texts of one length side by side, hashed block by block (FIPS 180-4, sections 5.1.1, 5.2.1
//! and 6.2).

ghost use Rattle.std.specs.Prelude.{◌≡◌, ℕ, List, [], ◌+◌, ◌*◌, ◌/◌, ◌<◌, ◌≤◌, length, take, drop, slice_index_or};
ghost use Rattle.sha2.specs.Sha256.{compress, hash_after, sha256};
ghost use Rattle.sha256_lanes.specs.Lanes.{lane, IsBlock};
ghost use Rattle.sha256_lanes.specs.within.Tails.{IsTail, tail_blocks};

use crate::blocks::{digests, words_at};
use crate::compression::{compress, initial_hash};
use crate::tails::{tail, tail_blocks};
use std::simd::u32x8;

// The block of each text from byte `at` on, in words.
fn block_at<const N: usize>(texts: &[[u8; N]; 8], at: usize) -> [u32x8; 16]
    requires { at + 64 ≤ N }
    ensures { (j : ℕ) → j < 8
        → IsBlock (take 64 (drop at (slice_index_or texts.now j []))) (lane j result) }
{
    [
        words_at(texts, at),
        words_at(texts, at + 4),
        words_at(texts, at + 8),
        words_at(texts, at + 12),
        words_at(texts, at + 16),
        words_at(texts, at + 20),
        words_at(texts, at + 24),
        words_at(texts, at + 28),
        words_at(texts, at + 32),
        words_at(texts, at + 36),
        words_at(texts, at + 40),
        words_at(texts, at + 44),
        words_at(texts, at + 48),
        words_at(texts, at + 52),
        words_at(texts, at + 56),
        words_at(texts, at + 60),
    ]
}

// The hash values after one more block. It is not inlined, so that texts of each length have the same
// code. `w` is room for the schedule.
#[inline(never)]
fn absorb(w: &mut [u32x8; 64], state: [u32x8; 8], block: [u32x8; 16]) -> [u32x8; 8]
    ensures { (j : ℕ) (b : List ℕ) → j < 8 → IsBlock b (lane j block)
        → lane j result ≡ compress (lane j state) b }
{
    compress::<false>(w, state, block)
}

// The hash values after the first `count` blocks of each text.
fn after_blocks<const N: usize>(state: [u32x8; 8], texts: &[[u8; N]; 8], count: usize) -> [u32x8; 8]
    requires { 64 * count ≤ N }
    ensures { (j : ℕ) → j < 8
        → lane j result ≡ hash_after (lane j state) (slice_index_or texts.now j []) count }
{
    let mut w = [u32x8::splat(0); 64];
    let mut now = state;
    'absorbed: for k in 0..count {
        let after = absorb(&mut w, now, block_at(texts, 64 * k));
        now = after;
    }
    now
}

// What the first `len` bytes of a text have behind their last whole block, padded.
fn front_tail<const N: usize>(text: &[u8; N], len: usize) -> [u8; 128]
    requires { len ≤ N }
    ensures tail { IsTail (take len text.now) result }
    ensures len { length text.now ≡ N }
{
    tail(&text[..len])
}

// What the first `len` bytes of each text have behind their last whole block, padded.
fn tails<const N: usize>(texts: &[[u8; N]; 8], len: usize) -> [[u8; 128]; 8]
    requires { len ≤ N }
    ensures tails { (j : ℕ) → j < 8
        → IsTail (take len (slice_index_or texts.now j [])) (slice_index_or result j []) }
    ensures len { (j : ℕ) → j < 8 → length (slice_index_or texts.now j []) ≡ N }
{
    [
        front_tail(&texts[0], len),
        front_tail(&texts[1], len),
        front_tail(&texts[2], len),
        front_tail(&texts[3], len),
        front_tail(&texts[4], len),
        front_tail(&texts[5], len),
        front_tail(&texts[6], len),
        front_tail(&texts[7], len),
    ]
}

/// Returns the SHA-256 digests of eight texts. Text `j` is the first `len` bytes of `texts[j]`.
///
/// It hashes the texts side by side, in about the time of one. A caller with fewer texts may put anything in the lanes that
/// are left.
pub fn eight_digests<const N: usize>(texts: &[[u8; N]; 8], len: usize) -> [[u8; 32]; 8]
    requires { len ≤ N }
    ensures { (j : ℕ) → j < 8
        → slice_index_or result j [] ≡ sha256 (take len (slice_index_or texts.now j [])) }
{
    let whole = after_blocks(initial_hash(), texts, len / 64);
    let last = after_blocks(whole, &tails(texts, len), tail_blocks(len));
    digests(&last)
}
