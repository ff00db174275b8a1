//! Evidence spreads through three witnesses by packs that are lost, doubled and crossed, in three orders and against summaries of both
//! kinds.

use crate::worlds::five_items::make_items;
use crate::worlds::testing::{copy_of, make_world, take, tell};
use evidence_item::Item;
use evidence_store::{Evidence, IndexedStore, PlainStore};
use log_chain::Hash;
use ref_programs::Tally;
use replay_verifier::Program;
use sha2::{Digest, Sha256};
use std::alloc::Global;
use std::test::Fail;
use witness_core::{Event, World};

/// The witnesses take the items that these pairs of a witness and an item name.
fn give<S: Evidence<Tally>>(
    alloc: Global,
    world: &mut World<Tally, S>,
    items: &[Item],
    pairs: &[(u64, usize)],
) -> Result<(), Fail> {
    for (witness, place) in pairs {
        if let Some(item) = items.get(*place) {
            take(alloc, &Tally, world, *witness, copy_of(alloc, item)?)?;
        }
    }
    Ok(())
}

/// The text of the store that `merge` makes of the witnesses' stores.
fn merged<P: Program, S: Evidence<P>>(alloc: Global, world: &World<P, S>) -> Result<Vec<u8>, Fail> {
    let Some(first) = world.stores().first() else {
        return Ok(Vec::new(alloc));
    };
    let mut all: S = S::new(alloc, first.directory().try_clone()?)?;
    for store in world.stores() {
        if all.shares_directory(store) {
            all.merge(store)?;
        }
    }
    Ok(all.export()?)
}

/// Which summaries the witnesses make.
#[derive(Clone, Copy)]
enum Kind {
    /// Those that list all.
    Whole,
    /// Short ones, against the outlines of those who pack.
    Short,
}

/// Who packs for whom: pack k is made by the first of pair k, against a summary of the second.
const PAIRS: [(u64, u64); 6] = [(0, 1), (0, 2), (1, 0), (1, 2), (2, 0), (2, 1)];

/// The witness makes a summary for the one who packs.
fn summarise<S: Evidence<Tally>>(
    alloc: Global,
    world: &mut World<Tally, S>,
    kind: Kind,
    witness: u64,
    packer: u64,
) {
    match kind {
        Kind::Whole => tell(alloc, world, Event::Summarise { witness }),
        Kind::Short => tell(
            alloc,
            world,
            Event::Short {
                witness,
                outline: packer,
            },
        ),
    };
}

/// Each witness makes an outline, then summaries for both others, and then packs against the summaries of both others.
fn make_packs<S: Evidence<Tally>>(alloc: Global, world: &mut World<Tally, S>, kind: Kind) {
    for witness in 0..3 {
        tell(alloc, world, Event::Outline { witness });
    }
    for (packer, witness) in PAIRS {
        summarise(alloc, world, kind, witness, packer);
    }
    for (summary, (witness, _)) in PAIRS.iter().enumerate() {
        let event = Event::Pack {
            witness: *witness,
            summary: summary as u64,
        };
        tell(alloc, world, event);
    }
}

/// Delivers packs, each to a witness.
fn deliver<S: Evidence<Tally>>(
    alloc: Global,
    world: &mut World<Tally, S>,
    deliveries: &[(u64, u64)],
) {
    for (pack, witness) in deliveries {
        let event = Event::Deliver {
            pack: *pack,
            witness: *witness,
        };
        tell(alloc, world, event);
    }
}

/// What the three witnesses export at the end, and what their stores were together before any pack.
#[derive(Clone, Copy)]
struct Exports {
    first: Hash,
    second: Hash,
    third: Hash,
    together: Hash,
}

/// The SHA-256 value of what the witness exports.
fn exported<S: Evidence<Tally>>(world: &World<Tally, S>, witness: usize) -> Result<Hash, Fail> {
    match world.stores().get(witness) {
        Some(store) => Ok(Hash(Sha256::digest(&store.export()?))),
        None => Ok(Hash([0; 32])),
    }
}

/// Three witnesses take the items of these pairs, make packs, and get these deliveries.
fn spread<S: Evidence<Tally>>(
    alloc: Global,
    kind: Kind,
    pairs: &[(u64, usize)],
    deliveries: &[(u64, u64)],
) -> Result<Exports, Fail> {
    let five = make_items(alloc)?;
    let mut world: Box<World<Tally, S>> = make_world(alloc, &five.directory, 3)?;
    give::<S>(alloc, &mut world, &five.items, pairs)?;
    let together = Hash(Sha256::digest(&merged::<Tally, S>(alloc, &world)?));
    make_packs::<S>(alloc, &mut world, kind);
    deliver::<S>(alloc, &mut world, deliveries);
    Ok(Exports {
        first: exported::<S>(&world, 0)?,
        second: exported::<S>(&world, 1)?,
        third: exported::<S>(&world, 2)?,
        together,
    })
}

/// The text of the five items, by `checks/reference/transfers.py`.
pub(crate) const ALL: &str = "8af19b1037cb92115a60db6dc921667c3dfd040908060122c1c5eb1d40f0cc86";

/// Whether all four texts are that of the five items.
fn is_all(alloc: Global, exports: &Exports) -> Result<bool, Fail> {
    for hash in [
        exports.first,
        exports.second,
        exports.third,
        exports.together,
    ] {
        if format!(in alloc; "{hash}")?.as_str() != ALL {
            return Ok(false);
        }
    }
    Ok(true)
}

/// Whether all is everywhere at the end, with summaries of both kinds.
fn spreads<S: Evidence<Tally>>(
    alloc: Global,
    pairs: &[(u64, usize)],
    deliveries: &[(u64, u64)],
) -> Result<bool, Fail> {
    let whole = spread::<S>(alloc, Kind::Whole, pairs, deliveries)?;
    let short = spread::<S>(alloc, Kind::Short, pairs, deliveries)?;
    Ok(is_all(alloc, &whole)? && is_all(alloc, &short)?)
}

/// Packs 0 and 1 are lost: the second witness gets what the first has by the third one's pack, and the third by the second one's.
#[test]
fn packs_that_are_lost(rt: HostRuntime) -> Result<(), Fail> {
    let takes = [
        (0, 0),
        (0, 1),
        (1, 1),
        (1, 2),
        (1, 3),
        (2, 3),
        (2, 4),
        (2, 0),
    ];
    let deliveries = [(5, 1), (2, 0), (4, 0), (3, 2)];
    assert!(rt; spreads::<PlainStore<Tally>>(rt.alloc(), &takes, &deliveries)?);
    assert!(rt; spreads::<IndexedStore<Tally>>(rt.alloc(), &takes, &deliveries)?);
    Ok(())
}

/// Each pack comes twice, also to those for whom it was not made.
#[test]
fn packs_that_are_doubled(rt: HostRuntime) -> Result<(), Fail> {
    let takes = [(2, 4), (1, 3), (1, 3), (0, 2), (2, 1), (0, 0)];
    let twice = [
        (5, 1),
        (5, 1),
        (4, 0),
        (4, 0),
        (3, 2),
        (3, 2),
        (2, 0),
        (2, 0),
        (1, 2),
        (1, 2),
        (0, 1),
        (0, 1),
        (0, 0),
        (1, 1),
    ];
    assert!(rt; spreads::<PlainStore<Tally>>(rt.alloc(), &takes, &twice)?);
    assert!(rt; spreads::<IndexedStore<Tally>>(rt.alloc(), &takes, &twice)?);
    Ok(())
}

/// The packs cross, and each reaches another witness than the one whose summary it was made against.
#[test]
fn packs_that_cross(rt: HostRuntime) -> Result<(), Fail> {
    let takes = [(1, 4), (0, 3), (0, 2), (2, 1), (1, 0)];
    let crosswise = [(0, 2), (2, 2), (4, 1), (1, 1), (3, 0), (5, 0)];
    assert!(rt; spreads::<PlainStore<Tally>>(rt.alloc(), &takes, &crosswise)?);
    assert!(rt; spreads::<IndexedStore<Tally>>(rt.alloc(), &takes, &crosswise)?);
    Ok(())
}
