//! Items behind their lengths.

use super::{auth_text, item, tag};
use item_forms::{Item, framed_len, read_framed, scan_framed, write_framed};
use log_chain::{FieldReader, FieldWriter};
use std::alloc::Global;
use std::test::Fail;

/// Writes the item of the form and the number behind what is written.
fn write(alloc: Global, writer: &mut FieldWriter, form: u8, seq: u32) -> Result<(), Fail> {
    let item = item(alloc, form, seq)?;
    Ok(write_framed(writer, item.form())?)
}

/// The text of the statement of number 1, and behind it that of the item of the form.
fn two_texts(alloc: Global, form: u8) -> Result<Vec<u8>, Fail> {
    let mut writer = FieldWriter::new(alloc);
    write(alloc, &mut writer, 1, 1)?;
    write(alloc, &mut writer, form, 5)?;
    Ok(writer.finish())
}

fn is_next(alloc: Global, reader: &mut FieldReader, item: &Item) -> Result<bool, Fail> {
    Ok(read_framed(alloc, Some(tag(item.form())), reader)? == *item)
}

/// Whether the item that is read next is that of the form and the number.
fn reads(alloc: Global, reader: &mut FieldReader, form: u8, seq: u32) -> Result<bool, Fail> {
    let item = item(alloc, form, seq)?;
    is_next(alloc, reader, &item)
}

fn is_read_behind_another(alloc: Global, form: u8) -> Result<bool, Fail> {
    let text = two_texts(alloc, form)?;
    let mut reader = FieldReader::new(&text);
    let first = reads(alloc, &mut reader, 1, 1)?;
    let second = reads(alloc, &mut reader, form, 5)?;
    Ok(first && second && reader.left() == 0)
}

#[test]
fn items_are_read_one_behind_the_other(rt: HostRuntime) -> Result<(), Fail> {
    for form in 1..7 {
        assert!(rt; is_read_behind_another(rt.alloc(), form)?, "form {form}");
    }
    Ok(())
}

/// How many bytes the item of the form has with its length in front, as that is told and as it is written.
fn lengths(alloc: Global, form: u8) -> Result<(usize, usize), Fail> {
    let item = item(alloc, form, 5)?;
    let mut writer = FieldWriter::new(alloc);
    write_framed(&mut writer, item.form())?;
    Ok((framed_len(item.form()), writer.written()))
}

#[test]
fn a_length_takes_four_bytes(rt: HostRuntime) -> Result<(), Fail> {
    assert!(rt; lengths(rt.alloc(), 1)? == (56, 56));
    assert!(rt; lengths(rt.alloc(), 4)? == (69, 69));
    Ok(())
}

/// The number of a refusal, or 0 where there is none, and how many bytes the reader has left then.
#[derive(Clone, Copy, Debug, PartialEq, Eq)]
struct Told {
    number: u8,
    left: usize,
}

/// What is told of the item at the front of the bytes.
fn reading(alloc: Global, wanted: Option<u8>, bytes: &[u8]) -> Told {
    let mut reader = FieldReader::new(bytes);
    let number = match read_framed(alloc, wanted, &mut reader) {
        Ok(_) => 0,
        Err(fault) => fault.number(),
    };
    Told {
        number,
        left: reader.left(),
    }
}

/// The same of going over it.
fn scanning(wanted: Option<u8>, bytes: &[u8]) -> Told {
    let mut reader = FieldReader::new(bytes);
    let number = match scan_framed(wanted, &mut reader) {
        Ok(()) => 0,
        Err(fault) => fault.number(),
    };
    Told {
        number,
        left: reader.left(),
    }
}

/// The text of a statement with a signature of one byte, 50 bytes long, behind this length, and a byte more.
fn statement_behind(len: u8) -> [u8; 55] {
    let mut text = [0u8; 55];
    text[3] = len;
    text[4..53].copy_from_slice(&auth_text());
    text[52] = 1;
    text
}

#[test]
fn a_reader_stands_behind_what_it_read(rt: HostRuntime) -> Result<(), Fail> {
    let text = statement_behind(50);
    let told = Told { number: 0, left: 1 };
    for wanted in [None, Some(1)] {
        assert_eq!(rt; reading(rt.alloc(), wanted, &text), told);
        assert_eq!(rt; scanning(wanted, &text), told);
    }
    Ok(())
}

#[test]
fn a_refusal_leaves_the_reader_where_it_stood(rt: HostRuntime) -> Result<(), Fail> {
    for (wanted, bytes, number) in [
        (None, [0, 0, 0].as_slice(), 40),
        (None, [0x20, 0x00, 0xf4, 0x9a].as_slice(), 40),
        (None, [0x20, 0x00, 0xf4, 0x9b].as_slice(), 42),
        (None, [0, 0, 0, 1, 6].as_slice(), 41),
        (Some(2), [0, 0, 0, 0].as_slice(), 40),
        (Some(2), statement_behind(50).as_slice(), 41),
        (Some(2), statement_behind(49).as_slice(), 41),
        (Some(1), statement_behind(49).as_slice(), 40),
        (Some(1), statement_behind(51).as_slice(), 43),
        (Some(1), statement_behind(52).as_slice(), 40),
    ] {
        let told = Told {
            number,
            left: bytes.len(),
        };
        assert_eq!(rt; reading(rt.alloc(), wanted, bytes), told);
        assert_eq!(rt; scanning(wanted, bytes), told);
    }
    Ok(())
}
