//! Bytes, as scripts spell them and show them.

use crate::mistake::Mistake;
use crate::table::Table;
use hex::FromHexError;
use sha2::{Digest, Sha256};
use std::alloc::{AllocError, Global};

/// How many bytes are shown whole at the most.
const LONGEST_SHOWN: usize = 80;

fn number_of(place: usize, digits: &str) -> Result<u64, Mistake> {
    digits.parse::<u64>().map_err(|_| Mistake::Bytes(place))
}

/// Writes the bytes of a number with the width `u8`, `u16`, `u32` or `u64`, the highest first.
fn put_number(bytes: &mut Vec<u8>, place: usize, width: &str, digits: &str) -> Result<(), Mistake> {
    let number = number_of(place, digits)?.to_be_bytes();
    let from = match width {
        "u8" => 7,
        "u16" => 6,
        "u32" => 4,
        "u64" => 0,
        _ => return Err(Mistake::Bytes(place)),
    };
    let (high, low) = number.split_at(from);
    if high.iter().any(|byte| *byte != 0) {
        return Err(Mistake::Number(place));
    }
    bytes.extend_from_slice(low)?;
    Ok(())
}

/// Writes the bytes of hexadecimal digits, of which there is at least one.
fn put_hex(alloc: Global, bytes: &mut Vec<u8>, place: usize, digits: &str) -> Result<(), Mistake> {
    if digits.is_empty() {
        return Err(Mistake::Bytes(place));
    }
    match hex::decode(alloc, digits) {
        Ok(read) => {
            bytes.extend_from_slice(&read)?;
            Ok(())
        }
        Err(FromHexError::OutOfMemory) => Err(Mistake::Memory),
        Err(_) => Err(Mistake::Bytes(place)),
    }
}

/// Writes the bytes of `TEXT"`.
fn put_text(bytes: &mut Vec<u8>, place: usize, text: &str) -> Result<(), Mistake> {
    match text.strip_suffix("\"") {
        Some(text) => {
            bytes.extend_from_slice(text.as_bytes())?;
            Ok(())
        }
        None => Err(Mistake::Bytes(place)),
    }
}

/// Returns the numbers of `FROM..TO]`.
fn range_of(place: usize, text: &str) -> Result<(usize, usize), Mistake> {
    let Some((from, to)) = text.strip_suffix("]").unwrap_or("").split_once("..") else {
        return Err(Mistake::Bytes(place));
    };
    let from = from.parse::<usize>().map_err(|_| Mistake::Bytes(place))?;
    let to = to.parse::<usize>().map_err(|_| Mistake::Bytes(place))?;
    Ok((from, to))
}

/// Writes the bytes with this name, or some of them for `NAME[FROM..TO]`.
fn put_named(
    named: &Table<Vec<u8>>,
    bytes: &mut Vec<u8>,
    place: usize,
    word: &str,
) -> Result<(), Mistake> {
    let Some((name, range)) = word.split_once('[') else {
        bytes.extend_from_slice(named.get(place, word)?)?;
        return Ok(());
    };
    let (from, to) = range_of(place, range)?;
    match named.get(place, name)?.get(from..to) {
        Some(part) => {
            bytes.extend_from_slice(part)?;
            Ok(())
        }
        None => Err(Mistake::Bytes(place)),
    }
}

/// Writes the bytes of a part without a count: `$NAME`, `$NAME[FROM..TO]`, `u32:NUMBER`, `"TEXT"` or hexadecimal digits.
fn put_atom(
    alloc: Global,
    named: &Table<Vec<u8>>,
    bytes: &mut Vec<u8>,
    place: usize,
    atom: &str,
) -> Result<(), Mistake> {
    if let Some(name) = atom.strip_prefix("$") {
        return put_named(named, bytes, place, name);
    }
    if let Some((width, digits)) = atom.split_once(':') {
        return put_number(bytes, place, width, digits);
    }
    match atom.strip_prefix("\"") {
        Some(text) => put_text(bytes, place, text),
        None => put_hex(alloc, bytes, place, atom),
    }
}

/// Writes the bytes of a part, with a count or without.
fn put_part(
    alloc: Global,
    named: &Table<Vec<u8>>,
    bytes: &mut Vec<u8>,
    place: usize,
    part: &str,
) -> Result<(), Mistake> {
    let Some((atom, count)) = part.split_once('*') else {
        return put_atom(alloc, named, bytes, place, part);
    };
    let mut one = Vec::new(alloc);
    put_atom(alloc, named, &mut one, place, atom)?;
    for _ in 0..number_of(place, count)? {
        bytes.extend_from_slice(&one)?;
    }
    Ok(())
}

/// Returns the bytes that a word spells, which is at this place of a line: parts with `+` between them, or `-` for none.
pub fn read_bytes(
    alloc: Global,
    named: &Table<Vec<u8>>,
    place: usize,
    word: &str,
) -> Result<Vec<u8>, Mistake> {
    let mut bytes = Vec::new(alloc);
    if word == "-" {
        return Ok(bytes);
    }
    for part in word.split('+') {
        put_part(alloc, named, &mut bytes, place, part)?;
    }
    Ok(bytes)
}

/// Returns `07*32` if all bytes are equal, hexadecimal digits if there are few bytes, and else `LENGTH:` and their SHA-256.
pub fn shown(alloc: Global, bytes: &[u8]) -> Result<String, AllocError> {
    let count = bytes.len();
    match bytes.first() {
        None => String::from_str(alloc, "-"),
        Some(first) if count > 2 && bytes.iter().all(|byte| byte == first) => {
            format!(in alloc; "{first:02x}*{count}")
        }
        Some(_) if count <= LONGEST_SHOWN => hex::encode(alloc, bytes),
        Some(_) => {
            let digest = hex::encode(alloc, Sha256::digest(bytes).as_slice())?;
            format!(in alloc; "{count}:{digest}")
        }
    }
}
