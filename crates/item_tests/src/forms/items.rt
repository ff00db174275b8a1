//! Values from outside, and each public call once on its happy path. `ordering` has those on the order of items, `framing` those on
//! items behind their lengths.

mod framing;
mod ordering;

use item_forms::{
    Authenticator, ByteString, DecodeFault, Entry, Form, Hash, Item, Message, NodeId, Statement,
    TooLong, write_framed,
};
use log_chain::FieldWriter;
use std::alloc::Global;
use std::test::Fail;

/// The statement of node 1 of number 5 and a hash of zeros, with an empty signature.
fn auth_text() -> [u8; 49] {
    let mut text = [0u8; 49];
    text[0] = 1;
    text[4] = 1;
    text[12] = 5;
    text
}

/// The number by which decoding refuses the bytes, or 0 where they are an item.
fn decoding(alloc: Global, bytes: &[u8]) -> u8 {
    match Item::decode(alloc, bytes) {
        Ok(_) => 0,
        Err(fault) => fault.number(),
    }
}

/// The same of going over them.
fn scanning(bytes: &[u8]) -> u8 {
    match Item::scan(bytes) {
        Ok(()) => 0,
        Err(fault) => fault.number(),
    }
}

/// The number by which both refuse the bytes, or 0 where they are an item; 255 where the two tell different things.
fn refusal(alloc: Global, bytes: &[u8]) -> u8 {
    let number = decoding(alloc, bytes);
    if scanning(bytes) == number {
        number
    } else {
        255
    }
}

/// The refusal of all bytes but the last.
fn refusal_of_front(alloc: Global, bytes: &[u8]) -> u8 {
    match bytes {
        [front @ .., _] => refusal(alloc, front),
        [] => 0,
    }
}

/// Whether the text is an item's, and is written as it was.
fn is_written_again(alloc: Global, text: &[u8]) -> Result<bool, Fail> {
    let item = Item::decode(alloc, text)?;
    let again = item.encode(alloc)?;
    Ok(item.encoded_len() == text.len() && again.as_slice() == text)
}

/// Whether it is written so behind another byte and its length.
fn is_written_behind(alloc: Global, text: &[u8]) -> Result<bool, Fail> {
    let item = Item::decode(alloc, text)?;
    let mut writer = FieldWriter::new(alloc);
    writer.u8(7)?;
    write_framed(&mut writer, item.form())?;
    Ok(match writer.finish().as_slice() {
        [7, 0, 0, 0, 49, again @ ..] => again == text,
        _ => false,
    })
}

/// The refusals of the text with a byte more, with a byte less, and under tag 6; and that of no byte.
fn refusals(alloc: Global) -> [u8; 4] {
    let text = auth_text();
    let mut longer = [0u8; 50];
    longer[..49].copy_from_slice(&text);
    let mut other_tag = text;
    other_tag[0] = 6;
    [
        refusal(alloc, &longer),
        refusal_of_front(alloc, &text),
        refusal(alloc, &other_tag),
        refusal(alloc, &[]),
    ]
}

#[test]
fn a_statement_has_its_text(rt: HostRuntime) -> Result<(), Fail> {
    assert!(rt; is_written_again(rt.alloc(), &auth_text())?);
    assert!(rt; is_written_behind(rt.alloc(), &auth_text())?);
    assert!(rt; refusals(rt.alloc()) == [43, 40, 41, 40]);
    Ok(())
}

/// The refusal of the text with a signature of one byte and a byte more. All growth of memory is that of reading it.
fn refusal_of_signed(alloc: Global) -> u8 {
    let mut text = [0u8; 51];
    text[..49].copy_from_slice(&auth_text());
    text[48] = 1;
    refusal(alloc, &text)
}

#[test]
fn a_fault_is_told_without_memory(rt: HostRuntime) -> Result<(), Fail> {
    assert!(rt; refusal_of_signed(rt.alloc()) == 43);
    Ok(())
}

/// The refusal of the text with this length of its signature, of which no byte is there.
fn refusal_of_length(alloc: Global, len: u16) -> u8 {
    let [high, low] = len.to_be_bytes();
    let mut text = auth_text();
    text[47] = high;
    text[48] = low;
    refusal(alloc, &text)
}

#[test]
fn a_signature_that_is_read_has_a_greatest_length(rt: HostRuntime) -> Result<(), Fail> {
    let numbers = [
        refusal_of_length(rt.alloc(), 0x246d),
        refusal_of_length(rt.alloc(), 0x246e),
    ];
    assert!(rt; numbers == [40, 42]);
    Ok(())
}

fn signature(alloc: Global) -> Result<ByteString, Fail> {
    Ok(ByteString::from_slice(alloc, &[9, 8, 7])?)
}

fn statement(alloc: Global, seq: u64) -> Result<Statement, Fail> {
    let sig = signature(alloc)?;
    Ok(Statement {
        seq,
        hash: Hash([3; 32]),
        sig,
    })
}

fn message(alloc: Global, seq: u64) -> Result<Box<Message>, Fail> {
    let sig = signature(alloc)?;
    let payload = ByteString::from_slice(alloc, b"hello")?;
    let message = Message {
        from: NodeId(1),
        to: NodeId(2),
        seq,
        prev: Hash([4; 32]),
        sig,
        payload,
    };
    Ok(Box::new(alloc, message)?)
}

/// Two entries, of this number and the next.
fn entries(alloc: Global, seq: u32) -> Result<Vec<Entry>, Fail> {
    let mut entries = Vec::new(alloc);
    for place in 0..2u64 {
        let content = ByteString::from_slice(alloc, b"content")?;
        entries.push(Entry {
            seq: seq as u64 + place,
            kind: 3,
            content,
        })?;
    }
    Ok(entries)
}

fn auth(alloc: Global, seq: u32) -> Result<Item, Fail> {
    let sig = signature(alloc)?;
    Ok(Item::auth(Authenticator {
        node: NodeId(1),
        seq: seq as u64,
        hash: Hash([3; 32]),
        sig,
    })?)
}

/// An item of the form, with this number in it; under 6 an audit challenge from the beginning of the log.
fn item_of(alloc: Global, form: u8, seq: u32) -> Result<Item, Fail> {
    let number = seq as u64;
    match form {
        1 => auth(alloc, seq),
        2 => {
            let entries = entries(alloc, seq)?;
            Ok(Item::segment(NodeId(1), Hash([2; 32]), entries, signature(alloc)?)?)
        }
        3 => {
            let first = statement(alloc, number)?;
            Ok(Item::audit(NodeId(1), Some(first), statement(alloc, 400)?)?)
        }
        4 => Ok(Item::send(Box::into_inner(message(alloc, number)?))?),
        5 => {
            let message = message(alloc, 6)?;
            let sig = signature(alloc)?;
            Ok(Item::ack(Box::into_inner(message), number, Hash([5; 32]), sig)?)
        }
        _ => Ok(Item::audit(NodeId(1), None, statement(alloc, number)?)?),
    }
}

/// The same item in a box.
fn item(alloc: Global, form: u8, seq: u32) -> Result<Box<Item>, Fail> {
    let item = item_of(alloc, form, seq)?;
    Ok(Box::new(alloc, item)?)
}

/// Whether each proper prefix of the item's text is told as cut off.
fn is_cut_off(alloc: Global, form: u8) -> Result<bool, Fail> {
    let text = item(alloc, form, 5)?.encode(alloc)?;
    for len in 0..text.len() {
        if refusal(alloc, &text[..len]) != 40 {
            return Ok(false);
        }
    }
    Ok(true)
}

#[test]
fn an_item_that_is_cut_off_is_truncated(rt: HostRuntime) -> Result<(), Fail> {
    for form in 1..7 {
        assert!(rt; is_cut_off(rt.alloc(), form)?, "form {form}");
    }
    Ok(())
}

fn equals_its_copy(alloc: Global, item: &Item) -> Result<bool, Fail> {
    Ok(item.try_clone(alloc)? == *item)
}

fn is_copied(alloc: Global, form: u8) -> Result<bool, Fail> {
    let item = item(alloc, form, 5)?;
    equals_its_copy(alloc, &item)
}

#[test]
fn items_are_copied(rt: HostRuntime) -> Result<(), Fail> {
    for form in 1..7 {
        assert!(rt; is_copied(rt.alloc(), form)?, "form {form}");
    }
    Ok(())
}

fn tag(form: Form) -> u8 {
    match form {
        Form::Auth(_) => 1,
        Form::Segment(_) => 2,
        Form::Audit(_) => 3,
        Form::Send(_) => 4,
        Form::Ack(_) => 5,
    }
}

/// Whether the first byte of the text names the form.
fn has_its_tag(alloc: Global, form: u8) -> Result<bool, Fail> {
    let item = item(alloc, form, 5)?;
    let text = item.encode(alloc)?;
    Ok(text.first() == Some(&tag(item.form())))
}

#[test]
fn the_first_byte_names_the_form(rt: HostRuntime) -> Result<(), Fail> {
    for form in 1..7 {
        assert!(rt; has_its_tag(rt.alloc(), form)?, "form {form}");
    }
    Ok(())
}

/// The refusal of an item's text in which these bytes stand from the place on.
fn changed(alloc: Global, form: u8, place: u8, bytes: &[u8]) -> Result<u8, Fail> {
    let mut text = item(alloc, form, 5)?.encode(alloc)?;
    let start = place as usize;
    let end = start + bytes.len();
    if end > text.len() {
        return Ok(0);
    }
    text[start..end].copy_from_slice(bytes);
    Ok(refusal(alloc, &text))
}

#[test]
fn a_flag_and_a_count_have_their_limits(rt: HostRuntime) -> Result<(), Fail> {
    let numbers = [
        changed(rt.alloc(), 3, 5, &[2])?,
        changed(rt.alloc(), 2, 37, &[0, 0, 16, 1])?,
        changed(rt.alloc(), 2, 37, &[0, 0, 16, 0])?,
    ];
    assert!(rt; numbers == [41, 42, 40]);
    Ok(())
}

/// Whether an item with a signature of so many bytes is made.
fn is_made(alloc: Global, len: usize) -> Result<bool, Fail> {
    let sig = ByteString::from_vec(vec![in alloc; 0; len]?);
    let made = Item::auth(Authenticator {
        node: NodeId(1),
        seq: 5,
        hash: Hash([3; 32]),
        sig,
    });
    Ok(made.is_ok())
}

#[test]
fn a_signature_has_a_greatest_length(rt: HostRuntime) -> Result<(), Fail> {
    assert!(rt; is_made(rt.alloc(), 9325)? && !is_made(rt.alloc(), 9326)?);
    Ok(())
}

/// Whether the fault is shown as this text.
fn is_shown_as(alloc: Global, fault: DecodeFault, want: &str) -> Result<bool, Fail> {
    let shown = format!(in alloc; "{fault}")?;
    Ok(shown.as_str() == want)
}

#[test]
fn refusals_have_numbers_names_and_lines(rt: HostRuntime) -> Result<(), Fail> {
    assert!(rt; (TooLong.number(), DecodeFault::Trailing.number()) == (42, 43));
    assert!(rt; TooLong.name() == "TooLong" && DecodeFault::BadTag.name() == "BadTag");
    let line = "the bytes end within a field";
    assert!(rt; is_shown_as(rt.alloc(), DecodeFault::Truncated, line)?);
    Ok(())
}
