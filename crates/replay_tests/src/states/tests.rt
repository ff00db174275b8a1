//! Values in bytes that are given from outside.

use authenticators::NodeId;
use state_codec::{Coded, Listed, Text, decoded, encoded};
use std::alloc::Global;
use std::test::Fail;

/// A value of each coded type.
type Each = (u8, (u32, (NodeId, Listed<(u64, Text<3>), 2>)));

/// 1, 2, node 3, and two pairs: 4 and `abc`, 5 and nothing.
const VALUE: &[u8] =
    b"\x01\0\0\0\x02\0\0\0\x03\0\0\0\x02\0\0\0\0\0\0\0\x04\0\0\0\x03abc\0\0\0\0\0\0\0\x05\0\0\0\0";

/// Whether bytes are those of a value, and are written again so, by the value and by its copy.
fn are_read_and_written<S: Coded>(alloc: Global, value: &S, bytes: &[u8]) -> Result<bool, Fail> {
    let text = encoded(alloc, value)?;
    let copy = value.try_clone(alloc)?;
    let again = encoded(alloc, &copy)?;
    Ok(text.as_slice() == bytes && again.as_slice() == bytes)
}

/// Whether the bytes are decoded, and encoded again as they were.
fn is_value(alloc: Global, bytes: &[u8]) -> Result<bool, Fail> {
    match decoded::<Each>(alloc, bytes)? {
        Some(value) => are_read_and_written(alloc, &value, bytes),
        None => Ok(false),
    }
}

/// The numbers of a value, of which the last is the moment in the first of the pairs.
fn numbers(alloc: Global, bytes: &[u8]) -> Result<(u8, u32, u32, u64), Fail> {
    match decoded::<Each>(alloc, bytes)? {
        Some((a, (b, (c, pairs)))) => match pairs.as_slice() {
            [(d, _), ..] => Ok((a, b, c.0, *d)),
            [] => Ok((0, 0, 0, 0)),
        },
        None => Ok((0, 0, 0, 0)),
    }
}

#[test]
fn values_are_read_and_written(rt: HostRuntime) -> Result<(), Fail> {
    assert!(rt; is_value(rt.alloc(), VALUE)?);
    assert!(rt; numbers(rt.alloc(), VALUE)? == (1, 2, 3, 4));
    Ok(())
}

#[test]
fn other_bytes_are_no_values(rt: HostRuntime) -> Result<(), Fail> {
    let alloc = rt.alloc();
    for len in 0..VALUE.len() {
        assert!(rt; !is_value(alloc, &VALUE[..len])?);
    }
    let mut long = Vec::from_slice(alloc, VALUE)?;
    long.push(0)?;
    assert!(rt; !is_value(alloc, &long)?);
    let count =
        b"\x01\0\0\0\x02\0\0\0\x03\0\0\0\x03\0\0\0\0\0\0\0\x04\0\0\0\0\0\0\0\0\0\0\0\x04\0\0\0\0\0\0\0\0\0\0\0\x04\0\0\0\0";
    assert!(rt; !is_value(alloc, count)?);
    let text = b"\x01\0\0\0\x02\0\0\0\x03\0\0\0\x01\0\0\0\0\0\0\0\x04\0\0\0\x04abcd";
    assert!(rt; !is_value(alloc, text)?);
    Ok(())
}
