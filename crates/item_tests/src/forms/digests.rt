//! Digests of items, beside those of their texts by another program.

use item_digests::digest_of;
use item_forms::Item;
use std::alloc::Global;
use std::test::Fail;

const ZEROS: [u8; 32] = [0; 32];

/// The parts one behind the other.
fn join(alloc: Global, parts: &[&[u8]]) -> Result<Vec<u8>, Fail> {
    let mut text = Vec::new(alloc);
    for part in parts {
        text.extend_from_slice(part)?;
    }
    Ok(text)
}

/// The digest of the item that these parts spell.
fn digest_of_parts(alloc: Global, parts: &[&[u8]]) -> Result<[u8; 32], Fail> {
    let text = join(alloc, parts)?;
    let item = Item::decode(alloc, &text)?;
    Ok(digest_of(&item).0)
}

/// The message 7 of node 1 to node 2, with a signature of one byte and a payload of two.
const MESSAGE: [&[u8]; 3] = [
    b"\0\0\0\x01\0\0\0\x02\0\0\0\0\0\0\0\x07",
    &ZEROS,
    b"\0\0\0\x01\xab\0\0\0\x02\x05\x06",
];

#[test]
fn a_statement_has_its_digest(rt: HostRuntime) -> Result<(), Fail> {
    let parts: [&[u8]; 3] = [b"\x01\0\0\0\x01\0\0\0\0\0\0\0\x05", &ZEROS, b"\0\0\0\0"];
    assert!(rt;
        digest_of_parts(rt.alloc(), &parts)?
            == *b"\x1b\x4f\xab\x6f\xe1\x7c\xcc\x8b\x58\xad\xaf\xe9\xd9\x87\xf6\x2f\xf7\x44\xad\x25\x0e\x00\x3e\x1c\x4b\x6f\x1c\x3e\x31\x33\x92\x10"
    );
    Ok(())
}

#[test]
fn a_segment_of_two_entries_has_its_digest(rt: HostRuntime) -> Result<(), Fail> {
    let parts: [&[u8]; 4] = [
        b"\x02\0\0\0\x02",
        &ZEROS,
        b"\0\0\0\x02\0\0\0\0\0\0\0\x01\x04\0\0\0\x02\x07\x08",
        b"\0\0\0\0\0\0\0\x09\x01\0\0\0\0\0\0\0\x01\xab",
    ];
    assert!(rt;
        digest_of_parts(rt.alloc(), &parts)?
            == *b"\x11\xb0\xe8\x82\x4b\xea\xbc\x9a\xf4\xe2\x00\xd3\x85\x41\x04\x7b\x1c\x55\x4f\x0d\x34\x3c\x7e\xc5\xc8\xcf\x3e\xe9\xfa\xcc\xe8\x38"
    );
    Ok(())
}

#[test]
fn an_audit_challenge_has_its_digest(rt: HostRuntime) -> Result<(), Fail> {
    let parts: [&[u8]; 5] = [
        b"\x03\0\0\0\x02\x01\0\0\0\0\0\0\0\x03",
        &[1; 32],
        b"\0\0\0\0\0\0\0\0\0\0\0\x09",
        &[2; 32],
        b"\0\0\0\x01\xab",
    ];
    assert!(rt;
        digest_of_parts(rt.alloc(), &parts)?
            == *b"\x25\xcd\x66\x75\x93\xcc\x49\x5b\x8a\x59\xa0\xd5\x5b\xa5\x95\x75\xef\x91\x1a\xf8\xee\x29\x54\xd1\xdd\x83\x9b\xef\x8b\x92\x4a\x8a"
    );
    Ok(())
}

#[test]
fn a_message_has_its_digest(rt: HostRuntime) -> Result<(), Fail> {
    let parts: [&[u8]; 4] = [b"\x04", MESSAGE[0], MESSAGE[1], MESSAGE[2]];
    assert!(rt;
        digest_of_parts(rt.alloc(), &parts)?
            == *b"\x72\xa0\xf3\x7b\xc5\x41\xa2\x91\xd0\x2f\xf6\xb2\x5d\xa0\x0f\x76\xb6\x82\xcc\x0e\xd0\x28\xab\x22\xee\xda\xac\xb5\xd1\x4c\xa9\x94"
    );
    Ok(())
}

#[test]
fn an_acknowledged_message_has_its_digest(rt: HostRuntime) -> Result<(), Fail> {
    let parts: [&[u8]; 7] = [
        b"\x05",
        MESSAGE[0],
        MESSAGE[1],
        MESSAGE[2],
        b"\0\0\0\0\0\0\0\x0b",
        &ZEROS,
        b"\0\0\0\x01\xab",
    ];
    assert!(rt;
        digest_of_parts(rt.alloc(), &parts)?
            == *b"\x1c\x25\xe2\x0f\x67\x23\x4d\x0f\xa7\x67\xe7\x16\x96\xa1\xa5\xe7\x30\xe5\x10\x54\x76\x33\x71\x97\x5e\x65\xed\xb3\x52\x70\xc3\xb8"
    );
    Ok(())
}
