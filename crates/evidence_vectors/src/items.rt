//! Items: what decoding and checking report of their bytes.

use anyhow::Result;
use authenticators::Directory;
use evidence_item::{Item, check_item};
use replay_verifier::{Program, Verdict};
use std::alloc::Global;

/// Returns what replay reports of a valid item.
fn verdict_told(alloc: Global, verdict: Option<&Verdict>) -> Result<String> {
    match verdict {
        None => Ok(String::from_str(alloc, "valid")?),
        Some(Verdict::Conforms) => Ok(String::from_str(alloc, "conforms")?),
        Some(Verdict::Deviates { at, reason }) => {
            let (number, name) = (reason.number(), reason.name());
            Ok(format!(in alloc; "deviates {at} {number} {name}")?)
        }
    }
}

/// Returns what checking reports of an item under the program.
fn checked_answer<P: Program + Drop>(
    alloc: Global,
    program: &P,
    directory: &Directory,
    item: Item,
) -> Result<String> {
    match check_item(alloc, program, directory, item) {
        Ok(checked) => verdict_told(alloc, checked.verdict()),
        Err(fault) => {
            let (number, name) = (fault.number(), fault.name());
            Ok(format!(in alloc; "refused {number} {name}")?)
        }
    }
}

/// Returns what decoding and checking report of the bytes.
fn answer<P: Program + Drop>(
    alloc: Global,
    program: &P,
    directory: &Directory,
    bytes: &[u8],
) -> Result<String> {
    let item = match Item::decode(alloc, bytes) {
        Ok(item) => item,
        Err(fault) => {
            let (number, name) = (fault.number(), fault.name());
            return Ok(format!(in alloc; "refused {number} {name}")?);
        }
    };
    checked_answer(alloc, program, directory, item)
}

/// Returns the bytes that the digits spell. `-` spells no bytes.
fn bytes_of(alloc: Global, digits: &str) -> Result<Vec<u8>> {
    if digits == "-" {
        return Ok(Vec::new(alloc));
    }
    Ok(hex::decode(alloc, digits)?)
}

/// Returns whether the line's item is answered as the line says.
pub fn agrees<P: Program + Drop>(
    alloc: Global,
    program: &P,
    directory: &Directory,
    rest: &str,
) -> Result<bool> {
    let Some((digits, expected)) = rest.split_once(' ') else {
        return Ok(false);
    };
    let bytes = bytes_of(alloc, digits)?;
    let told = answer(alloc, program, directory, &bytes)?;
    Ok(told.as_str() == expected)
}
