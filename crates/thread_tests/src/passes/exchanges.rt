//! Two stores that took one of two conflicting statements each, and what they say after an exchange.

ghost use Rattle.std.specs.Prelude.{◌≡◌, ◌∷◌, [], All, IfOk};

use authenticators::{Authenticator, Directory, NodeId, statement_text};
use evidence_item::{Item, check_item};
use evidence_set::Indication;
use evidence_store::{Evidence, IndexedStore, PlainStore};
use exchanging::{ExchangeFault, Pass, SharedStore, exchange};
use lms_sign::{LmsType, OtsType, SecretKey};
use log_chain::{ByteString, Hash};
use ref_programs::Tally;
use sha2::{Digest, Sha256};
use std::alloc::Global;
use std::sync::Wait;
use std::test::Fail;
use std::thread::Threads;

#[test]
fn refusals_have_numbers_names_and_lines(rt: HostRuntime) -> Result<(), Fail> {
    for (fault, told) in [
        (
            ExchangeFault::BadPasses,
            "94 BadPasses: there are not as many passes as stores",
        ),
        (
            ExchangeFault::PackMissing,
            "95 PackMissing: a store has another directory, a pack is missing or not as it was sent, or a thread could not go on",
        ),
        (ExchangeFault::Memory, "99 Memory: memory ran out"),
    ] {
        let line = format!(in rt.alloc(); "{} {}: {fault}", fault.number(), fault.name())?;
        assert!(rt; line.as_str() == told);
    }
    Ok(())
}

fn make_key(alloc: Global) -> Result<Box<SecretKey>, Fail> {
    let key = SecretKey::make(alloc, LmsType::H5, OtsType::W4, [1; 16], [2; 32])?;
    Ok(Box::new(alloc, key)?)
}

/// Node 1's statement that entry 5 has a hash of this byte 32 times over.
fn statement(alloc: Global, key: &mut SecretKey, byte: u8) -> Result<Item, Fail> {
    let hash = Hash([byte; 32]);
    let sig = key.sign(alloc, &statement_text(5, hash), [byte; 32])?;
    Ok(Item::auth(Authenticator {
        node: NodeId(1),
        seq: 5,
        hash,
        sig: ByteString::from_vec(sig),
    })?)
}

/// A store of one caller that was opened empty under the directory, with its caller's pass.
fn open_one<S: Evidence<Tally>>(
    alloc: Global,
    directory: &Directory,
) -> Result<(SharedStore<Tally, S>, Pass), Fail>
    ensures { IfOk result (λ r. r.0.directory ≡ directory.now) }
{
    let store = S::new(alloc, directory.try_clone()?)?;
    let (shared, mut passes) = SharedStore::open(alloc, store, 1)?;
    let Some(pass) = passes.pop() else {
        unreachable!();
    };
    Ok((shared, pass))
}

/// A store of one caller that took node 1's statement with this byte, with its caller's pass.
fn store_with<S: Evidence<Tally>, R: Wait>(
    rt: &R,
    alloc: Global,
    key: &mut SecretKey,
    directory: &Directory,
    byte: u8,
) -> Result<(SharedStore<Tally, S>, Pass), Fail>
    ensures { IfOk result (λ r. r.0.directory ≡ directory.now) }
{
    let item = statement(alloc, key, byte)?;
    let (shared, mut pass) = open_one::<S>(alloc, directory)?;
    let checked = check_item(alloc, &Tally, shared.directory(), item)?;
    shared.take(rt, &mut pass, checked)?;
    Ok((shared, pass))
}

/// Stores under one directory, and a pass for each.
#[derive(Drop)]
struct Stores<S: Evidence<Tally>> {
    directory: Directory,
    stores: Vec<SharedStore<Tally, S>>,
    passes: Vec<Pass>,
}

fn list_of_two<T: Drop>(alloc: Global, first: T, second: T) -> Result<Vec<T>, Fail>
    ensures { IfOk result (λ v. v.items ≡ first ∷ second ∷ []) }
{
    let mut list = Vec::new(alloc);
    list.push(first)?;
    list.push(second)?;
    Ok(list)
}

fn make_directory(alloc: Global, key: &SecretKey) -> Result<Directory, Fail> {
    let mut directory = Directory::new(alloc);
    directory.add(NodeId(1), key.public_key())?;
    Ok(directory)
}

/// Two stores, each of which took one of two statements on one entry with different hashes.
fn two_stores<S: Evidence<Tally>, R: Wait>(rt: &R, alloc: Global) -> Result<Stores<S>, Fail>
    ensures { IfOk result (λ r. All (λ s. s.directory ≡ r.directory) r.stores.items) }
{
    let mut key = make_key(alloc)?;
    let directory = make_directory(alloc, &key)?;
    let (first, first_pass) = store_with::<S, R>(rt, alloc, &mut key, &directory, 1)?;
    let (second, second_pass) = store_with::<S, R>(rt, alloc, &mut key, &directory, 2)?;
    let stores = list_of_two(alloc, first, second)?;
    let passes = list_of_two(alloc, first_pass, second_pass)?;
    Ok(Stores {
        directory,
        stores,
        passes,
    })
}

/// What a store says when it is closed.
#[derive(Clone, Copy, PartialEq, Eq)]
struct Left {
    /// How many calls its pass has.
    calls: usize,
    /// How many items it has.
    count: u64,
    /// What it says of node 1.
    told: Indication,
    /// The SHA-256 value of its export.
    text: Hash,
}

/// What the store says.
fn left_of<S: Evidence<Tally>>(store: &S, calls: usize) -> Result<Left, Fail> {
    let text = store.export()?;
    Ok(Left {
        calls,
        count: store.count(),
        told: store.indication(NodeId(1))?,
        text: Hash(Sha256::digest(text.as_slice())),
    })
}

/// Closes the store, and tells what it says.
fn close_one<S: Evidence<Tally>>(
    alloc: Global,
    shared: SharedStore<Tally, S>,
    pass: Pass,
) -> Result<Left, Fail> {
    let calls = pass.calls().len();
    let mut passes = Vec::new(alloc);
    passes.push(pass)?;
    let closed = shared.close(passes)?;
    left_of::<S>(&closed.store, calls)
}

/// Closes the last store with the last pass, and tells what it says.
fn close_last<S: Evidence<Tally>>(alloc: Global, on: &mut Stores<S>) -> Result<Option<Left>, Fail> {
    let (Some(shared), Some(pass)) = (on.stores.pop(), on.passes.pop()) else {
        return Ok(None);
    };
    let left = close_one(alloc, shared, pass)?;
    Ok(Some(left))
}

/// What the two stores say after an exchange, the second one first.
fn said_after_exchange<S: Evidence<Tally> + Send, R: Threads + Wait + Sync>(
    rt: &R,
    alloc: Global,
) -> Result<(Option<Left>, Option<Left>), Fail> {
    let mut on: Stores<S> = two_stores(rt, alloc)?;
    exchange(rt, alloc, &Tally, &on.directory, &on.stores, &mut on.passes)?;
    let second = close_last(alloc, &mut on)?;
    let first = close_last(alloc, &mut on)?;
    Ok((second, first))
}

/// Whether both stores say the same after an exchange: three calls, two items, and that node 1 is exposed.
fn both_have_both<S: Evidence<Tally> + Send, R: Threads + Wait + Sync>(
    rt: &R,
    alloc: Global,
) -> Result<bool, Fail> {
    let (second, first) = said_after_exchange::<S, R>(rt, alloc)?;
    let same = second == first;
    let Some(left) = first else {
        return Ok(false);
    };
    Ok(same && left.calls == 3 && left.count == 2 && left.told == Indication::Exposed)
}

#[test]
fn conflicting_statements_are_exchanged(rt: HostRuntime) -> Result<(), Fail> {
    assert!(rt; both_have_both::<PlainStore<Tally>, HostRuntime>(&rt, rt.alloc())?);
    assert!(rt; both_have_both::<IndexedStore<Tally>, HostRuntime>(&rt, rt.alloc())?);
    Ok(())
}

/// The number of the refusal of an exchange of two stores with one pass, and how many calls the pass then has.
fn with_one_pass<S: Evidence<Tally> + Send, R: Threads + Wait + Sync>(
    rt: &R,
    alloc: Global,
) -> Result<(u8, usize), Fail> {
    let mut on: Stores<S> = two_stores(rt, alloc)?;
    on.passes.truncate(1);
    let number = match exchange(rt, alloc, &Tally, &on.directory, &on.stores, &mut on.passes) {
        Ok(()) => 0,
        Err(fault) => fault.number(),
    };
    let calls = on.passes.iter().map(|p| p.calls().len()).max();
    Ok((number, calls.unwrap_or(0)))
}

#[test]
fn two_stores_and_one_pass_are_refused(rt: HostRuntime) -> Result<(), Fail> {
    let plain = with_one_pass::<PlainStore<Tally>, HostRuntime>(&rt, rt.alloc())?;
    assert!(rt; plain == (94, 1));
    let indexed = with_one_pass::<IndexedStore<Tally>, HostRuntime>(&rt, rt.alloc())?;
    assert!(rt; indexed == (94, 1));
    Ok(())
}

/// The number of the refusal to close the store with this pass; 0 where it is closed.
fn close_number<S: Evidence<Tally>>(
    alloc: Global,
    shared: SharedStore<Tally, S>,
    pass: Pass,
) -> Result<u8, Fail> {
    let mut passes = Vec::new(alloc);
    passes.push(pass)?;
    match shared.close(passes) {
        Ok(_) => Ok(0),
        Err(refused) => Ok(refused.fault.number()),
    }
}

/// The number of the refusal to close the last store with the last pass.
fn close_last_number<S: Evidence<Tally>>(alloc: Global, on: &mut Stores<S>) -> Result<u8, Fail> {
    let (Some(shared), Some(pass)) = (on.stores.pop(), on.passes.pop()) else {
        return Ok(0);
    };
    close_number(alloc, shared, pass)
}

/// The numbers of the refusals to close two stores whose passes changed places before an exchange: the second store with the first
/// one's pass, and the first store with the second one's.
fn closed_with_each_others<S: Evidence<Tally> + Send, R: Threads + Wait + Sync>(
    rt: &R,
    alloc: Global,
) -> Result<(u8, u8), Fail> {
    let mut on: Stores<S> = two_stores(rt, alloc)?;
    on.passes.reverse();
    exchange(rt, alloc, &Tally, &on.directory, &on.stores, &mut on.passes)?;
    let second = close_last_number(alloc, &mut on)?;
    let first = close_last_number(alloc, &mut on)?;
    Ok((second, first))
}

#[test]
fn a_pass_of_another_store_is_told_when_the_stores_are_closed(rt: HostRuntime) -> Result<(), Fail> {
    let plain = closed_with_each_others::<PlainStore<Tally>, HostRuntime>(&rt, rt.alloc())?;
    let indexed = closed_with_each_others::<IndexedStore<Tally>, HostRuntime>(&rt, rt.alloc())?;
    assert!(rt; (plain, indexed) == ((92, 92), (92, 92)));
    Ok(())
}
