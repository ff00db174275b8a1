//! Whether a node may go on that is rebuilt of a journal, which may be an old copy.

use super::fixtures::{rebuild_of, whole};
use crate::texts::{beginning, received};
use authenticators::{Authenticator, NodeId};
use node_journals::is_safe_to_resume;
use std::alloc::Global;
use std::test::Fail;

/// The statement with another hash, as this node's.
fn changed(alloc: Global, statement: &Authenticator, node: u32) -> Result<Authenticator, Fail> {
    let mut other = statement.try_clone(alloc)?;
    other.node = NodeId(node);
    other.hash.0[31] ^= 1;
    Ok(other)
}

/// Whether the node of the whole journal may go on beside what it signed, and beside another hash under its last number, which it or another
/// node signed; and whether the node of an old copy may, beside what the former signed, and beside what it signed itself.
fn answers(alloc: Global) -> Result<[bool; 5], Fail> {
    let last = rebuild_of(alloc, &whole())?;
    let old = rebuild_of(alloc, &[beginning(), received()])?;
    let statement = last.node().signed().last().ok_or("a statement")?;
    Ok([
        is_safe_to_resume(last.node(), last.node().signed()),
        is_safe_to_resume(last.node(), &[changed(alloc, statement, 2)?]),
        is_safe_to_resume(last.node(), &[changed(alloc, statement, 1)?]),
        is_safe_to_resume(old.node(), last.node().signed()),
        is_safe_to_resume(old.node(), old.node().signed()),
    ])
}

#[test]
fn a_node_goes_on_only_behind_all_that_it_signed(rt: HostRuntime) -> Result<(), Fail> {
    assert!(rt; answers(rt.alloc())? == [true, false, true, false, true]);
    Ok(())
}
