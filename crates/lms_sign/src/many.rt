//! Many signatures, verified eight at a time.

ghost use Rattle.std.specs.Prelude.{◌≡◌, ℕ, [], false, ◌+◌, ◌<◌, ◌≤◌, ◌++◌, length, map, take, slice_index_or, IfOk, IsTrue, ◌↔◌};
ghost use Rattle.lms_sign.specs.declared.signed.Signed.{Signed};
ghost use Rattle.lms_sign.specs.declared.types.OtsType.{OtsType};
ghost use Rattle.lms_sign.specs.Parameters.{height};
ghost use Rattle.lms_sign.specs.SignedMessages.{is_signed};
ghost use Rattle.lms_sign.specs.within.Eights.{IsGroup, IsLike, hash_above};

use crate::risings::root_candidates;
use crate::side_by_side::{ROOM, message_digests, one_time_keys};
use crate::signed::Signed;
use crate::verification::{has_form, is_same_hash, verify};
use std::alloc::{AllocError, Global};

/// The fewest signatures that are verified side by side. If there are fewer, it is faster to verify one after the other.
const WORTH: usize = 3;

/// Returns for each signature whether its root is that of its key.
fn have_roots(group: &[Signed; 8], roots: &[[u8; 32]; 8]) -> [bool; 8]
    requires group { (ots : OtsType) × ((n : ℕ) × IsGroup ots n group.now) }
    requires roots { (j : ℕ) (d : Signed) → j < 8 → slice_index_or roots.now j [] ≡ hash_above (slice_index_or group.now j d) (height (slice_index_or group.now j d).key.now.lms_type) }
    ensures { (j : ℕ) (d : Signed) → j < 8 → slice_index_or result j false ≡ is_signed (slice_index_or group.now j d) }
{
    let mut answers = [false; 8];
    for j in 0..8usize {
        let key = group[j].key;
        answers[j] = is_same_hash(&roots[j], &key.root);
    }
    answers
}

/// Returns for each whether it is a signature.
fn verify_eight(room: &mut [[u8; ROOM]; 8], group: &[Signed; 8]) -> [bool; 8]
    requires { (ots : OtsType) × ((n : ℕ) × (IsGroup ots n group.now × (54 + n ≤ ROOM))) }
    ensures { (j : ℕ) (d : Signed) → j < 8 → slice_index_or result j false ≡ is_signed (slice_index_or group.now j d) }
{
    let digests = message_digests(room, group, group[0].message.len());
    let keys = one_time_keys(room, group, group[0].key.ots_type, &digests);
    let roots = root_candidates(group, &keys);
    have_roots(group, &roots)
}

/// Returns whether `other` can be verified together with `first`. Its bytes have the form of a signature, its key has the type of
/// one-time signature of the first key, and its message has the length of the first message, which has room.
fn is_like(first: &Signed, other: &Signed) -> bool
    ensures { IsTrue result ↔ IsLike first.now other.now }
{
    has_form(other.key, other.signature)
        && other.key.ots_type == first.key.ots_type
        && other.message.len() == first.message.len()
        && other.message.len() <= ROOM - 54
}

/// Returns how many of the first ones can be verified together, eight at most.
fn alike(signed: &[Signed]) -> usize
    requires { 0 < length signed.now }
    ensures eight { result ≤ 8 }
    ensures within { result ≤ length signed.now }
    ensures like { (j : ℕ) (d : Signed) → j < result → IsLike (slice_index_or signed.now 0 d) (slice_index_or signed.now j d) }
    ensures most { (d : Signed) → result < 8 → result < length signed.now → IsLike (slice_index_or signed.now 0 d) (slice_index_or signed.now result d) → ⊥ }
{
    for j in 0..signed.len().min(8) {
        if !is_like(&signed[0], &signed[j]) {
            return j;
        }
    }
    signed.len().min(8)
}

/// Returns a group with the first `count` in its first lanes, and the very first one in the lanes that are left.
fn group<'a>(signed: &[Signed<'a>], count: usize) -> [Signed<'a>; 8]
    requires some { 0 < count }
    requires count { count ≤ length signed.now }
    ensures own { (j : ℕ) (d : Signed) → j < 8 → j < count → slice_index_or result j d ≡ slice_index_or signed.now j d }
    ensures others { (j : ℕ) (d : Signed) → j < 8 → count ≤ j → slice_index_or result j d ≡ slice_index_or signed.now 0 d }
{
    let mut group = [signed[0]; 8];
    for j in 0..count.min(8) {
        group[j] = signed[j];
    }
    group
}

/// Appends the answers for the first ones, and returns for how many. It does so for at least one.
fn answer_first(
    room: &mut [[u8; ROOM]],
    signed: &[Signed],
    answers: &mut Vec<bool>,
) -> Result<usize, AllocError>
    requires { 0 < length signed.now }
    ensures { IfOk result (λ n. (0 < n) × (n ≤ length signed.now) × (answers.new.items ≡ answers.old.items ++ map is_signed (take n signed.now))) }
{
    let count = alike(signed);
    match room.as_mut_array::<8>() {
        Some(room) if count >= WORTH => {
            let eight = verify_eight(room, &group(signed, count));
            answers.extend_from_slice(&eight[..count])?;
            Ok(count)
        }
        _ => {
            let first = signed[0];
            answers.push(verify(first.key, first.message, first.signature))?;
            Ok(1)
        }
    }
}

/// Bytes without a meaning.
fn zeros<const N: usize>() -> [u8; N] {
    [0; N]
}

/// Returns for each whether it is a signature of its message under its key, in the list's order. Each answer is that of
/// [`verify`]. The list may be any: the answer is false for what is no signature. It fails only if memory runs out.
///
/// It verifies up to eight consecutive signatures together, which is faster. For that, their keys have one type of one-time
/// signature, and their messages have one length, of 8,448 bytes at most. It takes some 68 KB of memory beside the answers.
pub fn verify_all(alloc: Global, signed: &[Signed]) -> Result<Vec<bool>, AllocError>
    ensures { IfOk result (λ answers. answers.items ≡ map is_signed signed.now) }
{
    let mut answers = Vec::with_capacity(alloc, signed.len())?;
    let mut room = vec![in alloc; zeros::<ROOM>(); 8]?;
    let mut at = 0;
    while at < signed.len() {
        at += answer_first(room.as_mut_slice(), &signed[at..], &mut answers)?;
    }
    Ok(answers)
}
