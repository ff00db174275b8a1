//! What becomes of a group: the texts of what is new, and then the items in the store.

ghost use Rattle.std.specs.Prelude.{◌≡◌, ◌≤◌, [], IfOk, OnErr, OnOk, length, not, vec_capacity};
ghost use Rattle.std.specs.List.{All};
ghost use Rattle.evidence.specs.Contents.{with_items};
ghost use Rattle.evidence_item.specs.Checking.{IsChecked};
ghost use Rattle.evidence_set.specs.ItemSets.{IsWithin, contains, insert, insert_all, pieces};
ghost use Rattle.journal.specs.Journal.{texts_of};
ghost use Rattle.durable_store.specs.Calls.{are_new, unheld};
ghost use Rattle.durable_store.specs.Keeping.{spellings};

use evidence::Evidence;
use evidence_item::Checked;
use outcome::Memory;
use replay_verifier::Program;
use std::alloc::{AllocError, Global};

/// Returns the encodings of those items that the store does not hold, in their order.
pub(crate) fn new_texts<P: Program, S: Evidence<P>>(
    alloc: Global,
    store: &S,
    group: &[Checked<P>],
) -> Result<Vec<Vec<u8>>, Memory>
    ensures { IfOk result (λ texts. texts_of texts.items ≡ spellings (unheld (S.contents store.now).items (pieces group.now))) }
{
    let mut texts = Vec::new(alloc);
    for checked in group {
        if !store.holds(checked.item()) {
            texts.push(checked.item().encode(alloc)?)?;
        }
    }
    Ok(texts)
}

/// Has the store take an item.
fn take<P: Program, S: Evidence<P>>(store: &mut S, checked: Checked<P>) -> Result<bool, Memory>
    requires { IsChecked (S.contents store.old).directory P.means checked }
    ensures told { IfOk result (λ new. new ≡ not (contains (S.contents store.old).items checked.item)) }
    ensures taken { OnOk result (S.contents store.new ≡ with_items (S.contents store.old) (insert (S.contents store.old).items checked.item)) }
    ensures refused { OnErr result (S.contents store.new ≡ S.contents store.old) }
{
    match store.take(checked) {
        Ok(is_new) => Ok(is_new),
        Err(_) => Err(AllocError),
    }
}

/// Has the store take each of the items, and returns for each whether it is new, in a vector that has room for that. After an error the
/// store has some of them.
pub(crate) fn take_each<P: Program, S: Evidence<P>>(
    store: &mut S,
    group: Vec<Checked<P>>,
    mut news: Vec<bool>,
) -> Result<Vec<bool>, Memory>
    requires checked { All (IsChecked (S.contents store.old).directory P.means) group.items }
    requires room { (news.items ≡ []) × (length group.items ≤ vec_capacity news) }
    ensures told { IfOk result (λ news. news.items ≡ are_new (S.contents store.old).items (pieces group.items)) }
    ensures taken { OnOk result (S.contents store.new ≡ with_items (S.contents store.old) (insert_all (S.contents store.old).items (pieces group.items))) }
    ensures directory { (S.contents store.new).directory ≡ (S.contents store.old).directory }
    ensures least { IsWithin (S.contents store.old).items (S.contents store.new).items }
    ensures most { IsWithin (S.contents store.new).items (insert_all (S.contents store.old).items (pieces group.items)) }
{
    for checked in group {
        let is_new = take(store, checked)?;
        news.push_reserved(is_new);
    }
    Ok(news)
}
