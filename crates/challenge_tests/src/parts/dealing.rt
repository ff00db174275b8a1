//! How nodes are dealt, as it is computed by hand.

use authenticators::NodeId;
use shards::{Dealing, Parting, Shards, gathered};
use std::alloc::Global;
use std::test::Fail;

#[test]
fn nodes_are_dealt_in_turn(rt: HostRuntime) {
    let parts = match Shards::new(3) {
        Some(shards) => [0, 1, 2, 3, 7, u32::MAX].map(|node| shards.of(NodeId(node))),
        None => [9; 6],
    };
    assert!(rt; parts == [0, 1, 2, 0, 1, 0]);
}

/// How a set without items says that it is dealt, where it is dealt so.
fn dealing_of(alloc: Global, dealing: Dealing) -> Result<Dealing, Fail> {
    let items = gathered(Vec::new(alloc));
    let parting = Parting::new(alloc, dealing, &items)?;
    Ok(parting.dealing())
}

/// How many parts there are, dealt in each of the two ways, and whether a set that is dealt so tells the way.
fn parts_of_each(alloc: Global, count: u32) -> Result<[(u32, bool); 2], Fail> {
    let Some(shards) = Shards::new(count) else {
        return Ok([(9, false); 2]);
    };
    let by_node = dealing_of(alloc, Dealing::ByNode(shards))?;
    let extracts = dealing_of(alloc, Dealing::Extracts(shards))?;
    Ok([
        (by_node.parts(), matches!(by_node, Dealing::ByNode(_))),
        (extracts.parts(), matches!(extracts, Dealing::Extracts(_))),
    ])
}

#[test]
fn a_dealing_has_so_many_parts(rt: HostRuntime) -> Result<(), Fail> {
    assert!(rt; parts_of_each(rt.alloc(), 3)? == [(3, true); 2]);
    Ok(())
}
