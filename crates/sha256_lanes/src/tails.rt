//! What a text has behind its last whole block, and its padding (FIPS 180-4, section 5.1.1).

ghost use Rattle.std.specs.Prelude.{◌≡◌, ◌+◌, ◌*◌, ◌%◌, ◌≤◌, ◌++◌, length, take, drop};
ghost use Rattle.sha256_lanes.specs.within.Tails.{IsTail, tail_blocks};

// The number of blocks behind the last whole one. It is two if fewer than nine bytes are left of the first, and else one.
pub(crate) fn tail_blocks(len: usize) -> usize
    ensures value { result ≡ tail_blocks len }
    ensures most { 64 * result ≤ 128 }
{
    (len % 64 + 72) / 64
}

// Writes the bytes into a text from a place on.
fn put(text: &mut [u8], place: usize, bytes: &[u8])
    requires { place + length bytes.now ≤ length text.old }
    ensures front { take (place + length bytes.now) text.new ≡ take place text.old ++ bytes.now }
    ensures back { drop (place + length bytes.now) text.new ≡ drop (place + length bytes.now) text.old }
{
    text[place..place + bytes.len()].copy_from_slice(bytes);
}

// The blocks that are left: the bytes behind the text's last whole block, and the padding.
pub(crate) fn tail(text: &[u8]) -> [u8; 128]
    ensures { IsTail text.now result }
{
    let mut out = [0u8; 128];
    let left = text.len() % 64;
    let end = 64 * tail_blocks(text.len());
    let bits = (text.len() as u64).wrapping_mul(8);
    put(&mut out, 0, &text[text.len() - left..]);
    put(&mut out, left, &[0x80]);
    put(&mut out, end - 8, &bits.to_be_bytes());
    out
}
