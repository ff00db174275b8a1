//! What is in a text, as JSON.

ghost use Rattle.std.specs.Prelude.{◌≡◌, ◌++◌, OnOk, codes};
ghost use Rattle.std.specs.List.{flat_map, join_by};
ghost use Rattle.answers.specs.Json.{asked_members, comma, contents_members, count_member, digest_member, form_member, key_object, logged_members, name_member, node_object, nodes_member, refused_members, shown_json, tally_members};

use crate::form::TextForm;
use crate::keys::KeyPrint;
use crate::showing::{Contents, Shown};
use crate::tally::Tally;
use crate::writing::{put_digits, put_number};
use authenticators::Hash;
use std::alloc::{AllocError, Global};
use std::collections::BTreeMap;

/// Writes a number behind its name.
#[tactic(auto, unfolding(crate::specs::Json::count_member))]
fn put_count(alloc: Global, text: &mut Vec<u8>, name: &str, number: u64) -> Result<(), AllocError>
    ensures { OnOk result (text.new.items ≡ text.old.items ++ count_member name.now number) }
{
    text.extend_from_slice(b",\"")?;
    text.extend_from_slice(name.as_bytes())?;
    text.extend_from_slice(b"\":")?;
    put_number(alloc, text, number)
}

/// Writes a key of a node.
fn put_key(alloc: Global, text: &mut Vec<u8>, key: &KeyPrint) -> Result<(), AllocError>
    ensures { OnOk result (text.new.items ≡ text.old.items ++ key_object key.now) }
{
    let node = key.node.0;
    text.extend_from_slice(b"{\"node\":")?;
    put_number(alloc, text, node as u64)?;
    text.extend_from_slice(b",\"sha256\":\"")?;
    put_digits(alloc, text, &key.sha256.0)?;
    text.extend_from_slice(b"\"}")
}

/// Writes keys of nodes, each behind a comma.
fn put_further_keys(alloc: Global, text: &mut Vec<u8>, keys: &[KeyPrint]) -> Result<(), AllocError>
    ensures { OnOk result (text.new.items ≡ text.old.items ++ flat_map (λ k. codes "," ++ key_object k) keys.now) }
{
    for key in keys {
        text.extend_from_slice(b",")?;
        put_key(alloc, text, key)?;
    }
    Ok(())
}

/// Writes keys of nodes, with commas between.
fn put_keys(alloc: Global, text: &mut Vec<u8>, keys: &[KeyPrint]) -> Result<(), AllocError>
    ensures { OnOk result (text.new.items ≡ text.old.items ++ join_by key_object (codes ",") keys.now) }
{
    let Some((first, others)) = keys.split_first() else {
        return Ok(());
    };
    put_key(alloc, text, first)?;
    put_further_keys(alloc, text, others)
}

/// Writes how many items there are of a node, behind a comma unless it is the first.
fn put_node(
    alloc: Global,
    text: &mut Vec<u8>,
    is_first: bool,
    node: u32,
    items: usize,
) -> Result<(), AllocError>
    ensures { OnOk result (text.new.items ≡ text.old.items ++ (comma is_first ++ node_object (node, items))) }
{
    if !is_first {
        text.extend_from_slice(b",")?;
    }
    text.extend_from_slice(b"{\"node\":")?;
    put_number(alloc, text, node as u64)?;
    text.extend_from_slice(b",\"items\":")?;
    put_number(alloc, text, items as u64)?;
    text.extend_from_slice(b"}")
}

/// Writes how many items there are of each node, with commas between.
fn put_nodes(
    alloc: Global,
    text: &mut Vec<u8>,
    nodes: &BTreeMap<u32, usize>,
) -> Result<(), AllocError>
    ensures { OnOk result (text.new.items ≡ text.old.items ++ join_by node_object (codes ",") nodes.now.entries) }
{
    let mut is_first = true;
    for (node, items) in nodes.iter() {
        put_node(alloc, text, is_first, *node, *items)?;
        is_first = false;
    }
    Ok(())
}

/// Writes how many items there are of each node, as a member.
#[tactic(auto, unfolding(crate::specs::Json::nodes_member))]
fn put_node_list(
    alloc: Global,
    text: &mut Vec<u8>,
    nodes: &BTreeMap<u32, usize>,
) -> Result<(), AllocError>
    ensures { OnOk result (text.new.items ≡ text.old.items ++ nodes_member nodes.now.entries) }
{
    text.extend_from_slice(b",\"nodes\":[")?;
    put_nodes(alloc, text, nodes)?;
    text.extend_from_slice(b"]")
}

/// Writes how many statements and segments there are.
#[tactic(auto, unfolding(crate::specs::Json::logged_members))]
fn put_logged(alloc: Global, text: &mut Vec<u8>, tally: &Tally) -> Result<(), AllocError>
    ensures { OnOk result (text.new.items ≡ text.old.items ++ logged_members tally.now) }
{
    put_count(alloc, text, "statements", tally.statements as u64)?;
    put_count(alloc, text, "segments", tally.segments as u64)
}

/// Writes how many challenges there are.
#[tactic(auto, unfolding(crate::specs::Json::asked_members))]
fn put_asked(alloc: Global, text: &mut Vec<u8>, tally: &Tally) -> Result<(), AllocError>
    ensures { OnOk result (text.new.items ≡ text.old.items ++ asked_members tally.now) }
{
    put_count(
        alloc,
        text,
        "audit_challenges",
        tally.audit_challenges as u64,
    )?;
    put_count(alloc, text, "send_challenges", tally.send_challenges as u64)
}

/// Writes how many items there are.
fn put_tally(alloc: Global, text: &mut Vec<u8>, tally: &Tally) -> Result<(), AllocError>
    ensures { OnOk result (text.new.items ≡ text.old.items ++ tally_members tally.now) }
{
    put_count(alloc, text, "items", tally.items as u64)?;
    put_logged(alloc, text, tally)?;
    put_asked(alloc, text, tally)?;
    put_count(
        alloc,
        text,
        "acknowledgements",
        tally.acknowledgements as u64,
    )?;
    put_node_list(alloc, text, &tally.nodes)
}

/// Writes the name of a refusal.
#[tactic(auto, unfolding(crate::specs::Json::name_member))]
fn put_name(text: &mut Vec<u8>, name: &str) -> Result<(), AllocError>
    ensures { OnOk result (text.new.items ≡ text.old.items ++ name_member name.now) }
{
    text.extend_from_slice(b",\"name\":\"")?;
    text.extend_from_slice(name.as_bytes())?;
    text.extend_from_slice(b"\"")
}

/// Writes why a text cannot be read.
fn put_refused(alloc: Global, text: &mut Vec<u8>, number: u8, name: &str) -> Result<(), AllocError>
    ensures { OnOk result (text.new.items ≡ text.old.items ++ refused_members number name.now) }
{
    put_count(alloc, text, "refused", number as u64)?;
    put_name(text, name)
}

/// Writes keys as a member.
fn put_key_list(alloc: Global, text: &mut Vec<u8>, keys: &[KeyPrint]) -> Result<(), AllocError>
    ensures { OnOk result (text.new.items ≡ text.old.items ++ (codes ",\"keys\":[" ++ join_by key_object (codes ",") keys.now ++ codes "]")) }
{
    text.extend_from_slice(b",\"keys\":[")?;
    put_keys(alloc, text, keys)?;
    text.extend_from_slice(b"]")
}

/// Writes what is in a text.
fn put_contents(alloc: Global, text: &mut Vec<u8>, contents: &Contents) -> Result<(), AllocError>
    ensures { OnOk result (text.new.items ≡ text.old.items ++ contents_members contents.now) }
{
    match contents {
        Contents::Keys(keys) => put_key_list(alloc, text, keys),
        Contents::NoDirectory(fault) => put_refused(alloc, text, fault.number(), fault.name()),
        Contents::Items(tally) => put_tally(alloc, text, tally),
        Contents::NoItems(fault) => {
            put_refused(alloc, text, fault.cause.number(), fault.cause.name())?;
            put_count(alloc, text, "items_before", fault.item)
        }
        Contents::Untold => Ok(()),
    }
}

/// Begins the document, with what a text is.
#[tactic(auto, unfolding(crate::specs::Json::form_member))]
fn put_form(text: &mut Vec<u8>, form: TextForm) -> Result<(), AllocError>
    ensures { OnOk result (text.new.items ≡ text.old.items ++ form_member form) }
{
    text.extend_from_slice(b"{\"form\":\"")?;
    text.extend_from_slice(form.name().as_bytes())?;
    text.extend_from_slice(b"\"")
}

/// Writes a SHA-256 value.
#[tactic(auto, unfolding(crate::specs::Json::digest_member))]
fn put_digest(alloc: Global, text: &mut Vec<u8>, digest: &Hash) -> Result<(), AllocError>
    ensures { OnOk result (text.new.items ≡ text.old.items ++ digest_member digest.now) }
{
    text.extend_from_slice(b",\"sha256\":\"")?;
    put_digits(alloc, text, &digest.0)?;
    text.extend_from_slice(b"\"")
}

/// Writes what a text is, and what is in it.
pub(crate) fn put_shown(alloc: Global, text: &mut Vec<u8>, shown: &Shown) -> Result<(), AllocError>
    ensures { OnOk result (text.new.items ≡ text.old.items ++ shown_json shown.now) }
{
    put_form(text, shown.form)?;
    put_count(alloc, text, "bytes", shown.bytes as u64)?;
    put_digest(alloc, text, &shown.sha256)?;
    put_contents(alloc, text, &shown.contents)?;
    text.extend_from_slice(b"}\n")
}
