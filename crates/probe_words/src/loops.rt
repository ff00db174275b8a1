//! Lines of a loop, with its number filled in.

use crate::mistake::Mistake;
use crate::words::Words;
use std::alloc::Global;

/// The numbers that a loop goes through, and their name.
#[derive(Clone, Copy)]
pub struct Loop<'a> {
    pub name: &'a str,
    pub from: u64,
    pub to: u64,
}

/// Returns the loop that a line begins, or `None` if it begins none.
pub fn loop_of<'a>(alloc: Global, line: &'a str) -> Result<Option<Loop<'a>>, Mistake> {
    let words = Words::of(alloc, line)?;
    if words.verb() != "loop" {
        return Ok(None);
    }
    if words.wanted().is_some() || words.take(3, 0).is_err() {
        return Err(Mistake::Loop);
    }
    Ok(Some(Loop {
        name: words.word(1),
        from: words.number(2)?,
        to: words.number(3)?,
    }))
}

fn number_of(digits: &str) -> Result<u64, Mistake> {
    digits.parse::<u64>().map_err(|_| Mistake::Braces)
}

/// Returns the number for which `i` or `i*3` stands.
fn product(inside: &str, name: &str, number: u64) -> Result<u64, Mistake> {
    let (left, factor) = match inside.split_once('*') {
        Some((left, factor)) => (left, number_of(factor)?),
        None => (inside, 1),
    };
    match number.checked_mul(factor) {
        Some(product) if left == name => Ok(product),
        _ => Err(Mistake::Braces),
    }
}

/// Returns the number for which `i`, `i+64` or `i*3+3` stands.
fn value_of(inside: &str, name: &str, number: u64) -> Result<u64, Mistake> {
    let (left, more) = match inside.split_once('+') {
        Some((left, more)) => (left, number_of(more)?),
        None => (inside, 0),
    };
    match product(left, name, number)?.checked_add(more) {
        Some(sum) => Ok(sum),
        None => Err(Mistake::Braces),
    }
}

/// Writes what is behind a `{`: the number in its place, and the rest.
fn put_filled(text: &mut String, piece: &str, name: &str, number: u64) -> Result<(), Mistake> {
    let Some((inside, rest)) = piece.split_once('}') else {
        return Err(Mistake::Braces);
    };
    let value = value_of(inside, name, number)?;
    write!(text, "{value}{rest}")?;
    Ok(())
}

/// Returns the line with the number in the place of each pair of braces.
pub fn filled(alloc: Global, line: &str, name: &str, number: u64) -> Result<String, Mistake> {
    let mut text = String::new(alloc);
    let mut is_first = true;
    for piece in line.split('{') {
        if is_first {
            text.push_str(piece)?;
            is_first = false;
        } else {
            put_filled(&mut text, piece, name, number)?;
        }
    }
    Ok(text)
}
