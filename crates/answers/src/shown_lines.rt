//! What is in a text, in lines.

ghost use Rattle.std.specs.Prelude.{◌≡◌, ◌++◌, OnOk};
ghost use Rattle.std.specs.List.{flat_map};
ghost use Rattle.answers.specs.Lines.{contents_lines, count_line, key_line, node_line, refused_line, shown_lines, tally_lines};

use crate::keys::KeyPrint;
use crate::showing::{Contents, Shown};
use crate::tally::Tally;
use crate::writing::{put_digits, put_number};
use std::alloc::{AllocError, Global};
use std::collections::BTreeMap;

/// Writes a number behind its name.
fn put_count(alloc: Global, text: &mut Vec<u8>, name: &str, number: u64) -> Result<(), AllocError>
    ensures { OnOk result (text.new.items ≡ text.old.items ++ count_line name.now number) }
{
    text.extend_from_slice(name.as_bytes())?;
    text.extend_from_slice(b": ")?;
    put_number(alloc, text, number)?;
    text.extend_from_slice(b"\n")
}

/// Writes a key of a node.
#[tactic(auto, unfolding(crate::specs::Lines::key_line))]
fn put_key(alloc: Global, text: &mut Vec<u8>, key: &KeyPrint) -> Result<(), AllocError>
    ensures { OnOk result (text.new.items ≡ text.old.items ++ key_line key.now) }
{
    let node = key.node.0;
    text.extend_from_slice(b"key of node ")?;
    put_number(alloc, text, node as u64)?;
    text.extend_from_slice(b": SHA-256 ")?;
    put_digits(alloc, text, &key.sha256.0)?;
    text.extend_from_slice(b"\n")
}

/// Writes keys of nodes.
fn put_keys(alloc: Global, text: &mut Vec<u8>, keys: &[KeyPrint]) -> Result<(), AllocError>
    ensures { OnOk result (text.new.items ≡ text.old.items ++ flat_map key_line keys.now) }
{
    for key in keys {
        put_key(alloc, text, key)?;
    }
    Ok(())
}

/// Writes how many items there are of a node.
fn put_node(alloc: Global, text: &mut Vec<u8>, node: u32, items: usize) -> Result<(), AllocError>
    ensures { OnOk result (text.new.items ≡ text.old.items ++ node_line (node, items)) }
{
    text.extend_from_slice(b"items of node ")?;
    put_number(alloc, text, node as u64)?;
    text.extend_from_slice(b": ")?;
    put_number(alloc, text, items as u64)?;
    text.extend_from_slice(b"\n")
}

/// Writes how many items there are of each node.
fn put_nodes(
    alloc: Global,
    text: &mut Vec<u8>,
    nodes: &BTreeMap<u32, usize>,
) -> Result<(), AllocError>
    ensures { OnOk result (text.new.items ≡ text.old.items ++ flat_map node_line nodes.now.entries) }
{
    for (node, items) in nodes.iter() {
        put_node(alloc, text, *node, *items)?;
    }
    Ok(())
}

/// Writes how many items there are.
fn put_tally(alloc: Global, text: &mut Vec<u8>, tally: &Tally) -> Result<(), AllocError>
    ensures { OnOk result (text.new.items ≡ text.old.items ++ tally_lines tally.now) }
{
    put_count(alloc, text, "items", tally.items as u64)?;
    put_count(alloc, text, "signed statements", tally.statements as u64)?;
    put_count(alloc, text, "segments", tally.segments as u64)?;
    put_count(
        alloc,
        text,
        "audit challenges",
        tally.audit_challenges as u64,
    )?;
    put_count(alloc, text, "send challenges", tally.send_challenges as u64)?;
    put_count(
        alloc,
        text,
        "acknowledgements",
        tally.acknowledgements as u64,
    )?;
    put_nodes(alloc, text, &tally.nodes)
}

/// Writes why a text cannot be read.
fn put_refused(alloc: Global, text: &mut Vec<u8>, number: u8, name: &str) -> Result<(), AllocError>
    ensures { OnOk result (text.new.items ≡ text.old.items ++ refused_line number name.now) }
{
    text.extend_from_slice(b"can't be read: refused ")?;
    put_number(alloc, text, number as u64)?;
    text.extend_from_slice(b" ")?;
    text.extend_from_slice(name.as_bytes())?;
    text.extend_from_slice(b"\n")
}

/// Writes what is in a text.
fn put_contents(alloc: Global, text: &mut Vec<u8>, contents: &Contents) -> Result<(), AllocError>
    ensures { OnOk result (text.new.items ≡ text.old.items ++ contents_lines contents.now) }
{
    match contents {
        Contents::Keys(keys) => put_keys(alloc, text, keys),
        Contents::NoDirectory(fault) => put_refused(alloc, text, fault.number(), fault.name()),
        Contents::Items(tally) => put_tally(alloc, text, tally),
        Contents::NoItems(fault) => {
            put_refused(alloc, text, fault.cause.number(), fault.cause.name())?;
            put_count(alloc, text, "items before it", fault.item)
        }
        Contents::Untold => Ok(()),
    }
}

/// Writes what a text is, and what is in it.
pub(crate) fn put_shown(alloc: Global, text: &mut Vec<u8>, shown: &Shown) -> Result<(), AllocError>
    ensures { OnOk result (text.new.items ≡ text.old.items ++ shown_lines shown.now) }
{
    text.extend_from_slice(b"form: ")?;
    text.extend_from_slice(shown.form.name().as_bytes())?;
    text.extend_from_slice(b"\n")?;
    put_count(alloc, text, "bytes", shown.bytes as u64)?;
    text.extend_from_slice(b"SHA-256: ")?;
    put_digits(alloc, text, &shown.sha256.0)?;
    text.extend_from_slice(b"\n")?;
    put_contents(alloc, text, &shown.contents)
}
