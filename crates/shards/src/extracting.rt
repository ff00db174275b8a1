//! What segments quote, as items of their own.

ghost use Rattle.std.specs.Prelude.{◌≡◌, ◌++◌, ◌∷◌, ◌≤◌, [], IfOk, OnOk, length};
ghost use Rattle.std.specs.List.{flat_map};
ghost use Rattle.std.specs.List.Sorted.{IsStrictlySortedBy};
ghost use Rattle.authenticators.specs.declared.signature.TheConstants.{LONGEST_SIGNATURE_TEXT};
ghost use Rattle.replay_verifier.specs.Quotes.{IsGenuine, quoted};
ghost use Rattle.item_forms.specs.declared.forms.Fields.TheVariants as form;
ghost use Rattle.item_forms.specs.Pieces.{by_bytes};
ghost use Rattle.evidence_set.specs.Valid.{fields_of};
ghost use Rattle.evidence_set.specs.Held.{quoted_statement};
ghost use Rattle.evidence_set.specs.ItemSets.{insert_all, none};
ghost use Rattle.localities.specs.Shards.{in_turn};
ghost use Rattle.shards.specs.Extracts.{AddsQuotes};
ghost use Rattle.shards.specs.within.Quotes.{quoted_by, quoted_in};

use crate::dealing::Shards;
use crate::gathering::gathered;
use authenticators::laws::keys_sign;
use authenticators::{Authenticator, Directory, NodeId};
use evidence_set::laws::{lists_what_is_held, sets_are_as_expected, sets_are_lists};
use item_forms::{Form, Item};
use localities::laws::concerns_as_expected;
use log_chain::kind::RECV;
use log_chain::laws::{bytes_fit, hash_fits};
use log_chain::{ByteString, Entry};
use outcome::Memory;
use replay_verifier::Receipt;
use std::alloc::Global;

/// Returns the item that is a statement. Its signature is within its limit.
fn item_of(auth: Authenticator) -> Item
    requires { length auth.sig ≤ LONGEST_SIGNATURE_TEXT }
    ensures { result.fields ≡ form.Auth auth }
{
    let _node = auth.node.0;
    let _seq = auth.seq;
    hash_fits(auth.hash);
    bytes_fit(auth.sig.as_slice());
    Item::auth(auth).unwrap()
}

/// Returns the statement that node `me` quotes, as an item. The quote is genuine. No signature that a key verifies is above the limit.
fn statement(
    alloc: Global,
    directory: &Directory,
    me: NodeId,
    receipt: &Receipt<'_>,
) -> Result<Item, Memory>
    requires { IsGenuine directory.now me (quoted receipt.now) }
    ensures { IfOk result (λ item. item.fields ≡ form.Auth (quoted_statement me (quoted receipt.now))) }
{
    keys_sign();
    let sig = ByteString::from_slice(alloc, receipt.sig)?;
    Ok(item_of(Authenticator {
        node: receipt.from,
        seq: receipt.seq,
        hash: receipt.signed_hash(me),
        sig,
    }))
}

/// Adds what the entry of node `me` quotes, if the quote is genuine and of a node of another shard.
fn add_quote(
    alloc: Global,
    directory: &Directory,
    shards: Shards,
    quotes: &mut Vec<Item>,
    me: NodeId,
    entry: &Entry,
) -> Result<(), Memory>
    ensures { OnOk result (fields_of quotes.new.items ≡ fields_of quotes.old.items ++ quoted_by directory.now (in_turn shards) me (entry.now ∷ [])) }
{
    if entry.kind != RECV {
        return Ok(());
    }
    let Some(receipt) = Receipt::read(entry.content.as_slice()) else {
        return Ok(());
    };
    if shards.of(me) == shards.of(receipt.from) || !receipt.is_valid(directory, me) {
        return Ok(());
    }
    let item = statement(alloc, directory, me, &receipt)?;
    quotes.push(item)?;
    Ok(())
}

/// Adds those quotes of all of the entries.
fn add_quotes(
    alloc: Global,
    directory: &Directory,
    shards: Shards,
    quotes: &mut Vec<Item>,
    me: NodeId,
    entries: &[Entry],
) -> Result<(), Memory>
    ensures { OnOk result (fields_of quotes.new.items ≡ fields_of quotes.old.items ++ quoted_by directory.now (in_turn shards) me entries.now) }
{
    for entry in entries {
        add_quote(alloc, directory, shards, quotes, me, entry)?;
    }
    Ok(())
}

/// Adds those quotes of an item.
fn add_item(
    alloc: Global,
    directory: &Directory,
    shards: Shards,
    quotes: &mut Vec<Item>,
    item: &Item,
) -> Result<(), Memory>
    ensures { OnOk result (fields_of quotes.new.items ≡ fields_of quotes.old.items ++ quoted_in directory.now (in_turn shards) item.now.fields) }
{
    if let Form::Segment(s) = item.form() {
        add_quotes(
            alloc,
            directory,
            shards,
            quotes,
            s.node,
            s.entries.as_slice(),
        )?;
    }
    Ok(())
}

/// Returns those quotes of all of the items.
fn quotes_of(
    alloc: Global,
    directory: &Directory,
    shards: Shards,
    items: &[Item],
) -> Result<Vec<Item>, Memory>
    ensures { IfOk result (λ quotes. fields_of quotes.items ≡ flat_map (quoted_in directory.now (in_turn shards)) (fields_of items.now)) }
{
    let mut quotes = Vec::new(alloc);
    for item in items {
        add_item(alloc, directory, shards, &mut quotes, item)?;
    }
    Ok(quotes)
}

/// Returns the items, and beside them each statement of a node of another shard that their segments quote, if the quote is genuine. Each
/// such statement is an item. The items stand in their order, each once.
///
/// If they are dealt by [`Dealing::Extracts`](crate::Dealing), each shard is an extract for its nodes. It verifies the signatures of
/// quotes of nodes of other shards, and no others. The error `Memory` comes if a growth is refused.
pub fn extracted(
    alloc: Global,
    directory: &Directory,
    shards: Shards,
    mut items: Vec<Item>,
) -> Result<Vec<Item>, Memory>
    ensures ascending { IfOk result (λ v. IsStrictlySortedBy by_bytes v.items) }
    ensures quoted { IfOk result (λ v. AddsQuotes directory.now (in_turn shards) (insert_all none items.items) (insert_all none v.items)) }
{
    sets_are_as_expected();
    sets_are_lists();
    lists_what_is_held();
    concerns_as_expected();
    let mut quotes = quotes_of(alloc, directory, shards, &items)?;
    items.append(&mut quotes)?;
    Ok(gathered(items))
}
