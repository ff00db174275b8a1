//! Containers whose items are decoded and not checked.

use super::{MAGIC, at, front, statement_behind};
use containers::{Cause, ImportFault, decode_all, write_all};
use std::alloc::Global;
use std::test::Fail;

/// Two statements that nobody signed, of the numbers `first` and `second` of node 0, each with a signature of one byte.
fn unsigned(first: u8, second: u8) -> [u8; 124] {
    let mut text = [0u8; 124];
    text[..8].copy_from_slice(&MAGIC);
    text[15] = 2;
    text[19] = 50;
    text[20] = 1;
    text[32] = first;
    text[68] = 1;
    text[73] = 50;
    text[74] = 1;
    text[86] = second;
    text[122] = 1;
    text
}

fn refusal(alloc: Global, text: &[u8]) -> Option<ImportFault> {
    match decode_all(alloc, MAGIC, text) {
        Ok(_) => None,
        Err(fault) => Some(fault),
    }
}

/// Whether what is decoded of a text is written as that text again.
fn is_written_again(alloc: Global, text: &[u8]) -> Result<bool, Fail> {
    let items = decode_all(alloc, MAGIC, text)?;
    Ok(items.len() == 2 && write_all(alloc, MAGIC, &items)?.as_slice() == text)
}

#[test]
fn items_are_decoded_without_a_check(rt: HostRuntime) -> Result<(), Fail> {
    assert!(rt; is_written_again(rt.alloc(), &unsigned(5, 6))?);
    Ok(())
}

#[test]
fn decoded_items_ascend(rt: HostRuntime) -> Result<(), Fail> {
    let told = [
        refusal(rt.alloc(), &unsigned(6, 5)),
        refusal(rt.alloc(), &unsigned(5, 5)),
    ];
    let bad = at(1, Cause::NotAscending);
    assert_eq!(rt; told, [bad, bad]);
    Ok(())
}

/// Why the text is refused with this byte at the place.
fn refusal_with(alloc: Global, place: usize, byte: u8) -> Option<ImportFault> {
    let mut text = unsigned(5, 6);
    if let Some(old) = text.get_mut(place) {
        *old = byte;
    }
    refusal(alloc, &text)
}

#[test]
fn faults_of_decoding_are_those_of_reading(rt: HostRuntime) -> Result<(), Fail> {
    let text = unsigned(5, 6);
    let told = [
        refusal(rt.alloc(), front(&text, 7)),
        refusal(rt.alloc(), front(&text, 15)),
        refusal(rt.alloc(), front(&text, 123)),
        refusal_with(rt.alloc(), 7, b'1'),
        refusal_with(rt.alloc(), 16, 0x21),
        refusal_with(rt.alloc(), 74, 9),
        refusal_with(rt.alloc(), 15, 1),
        refusal(rt.alloc(), &statement_behind(51)),
    ];
    assert_eq!(rt;
        told,
        [
            at(0, Cause::Truncated),
            at(0, Cause::Truncated),
            at(1, Cause::Truncated),
            at(0, Cause::BadMagic),
            at(0, Cause::TooLong),
            at(1, Cause::BadTag),
            at(1, Cause::Trailing),
            at(0, Cause::Trailing),
        ]
    );
    Ok(())
}
