//! What is found against nodes, by other code and by none.

use crate::testing::{equivocation, no_statements, outcome, statements};
use authenticators::NodeId;
use commands::fault::Fault;
use commands::task::Task;

/// Whether the text is these two, one behind the other, in either order.
fn is_both(text: &[u8], first: &[u8], second: &[u8]) -> bool {
    text.strip_prefix(first) == Some(second) || text.strip_prefix(second) == Some(first)
}

#[test]
fn two_hashes_of_one_number_are_a_proof(rt: HostRuntime) {
    let (answer, written) = outcome(&rt, rt.alloc(), Task::Prove(NodeId(7)), equivocation());
    let (_, first, second) = statements();
    assert!(rt; answer == Ok(()));
    assert!(rt;
        written
            .strip_prefix(b"01")
            .and_then(|proof| proof.strip_suffix(b"\n"))
            .is_some_and(|proof| is_both(proof, first, second))
    );
}

#[test]
fn nothing_is_found_against_a_trusted_node(rt: HostRuntime) {
    let (answer, written) = outcome(&rt, rt.alloc(), Task::Prove(NodeId(2)), no_statements());
    assert!(rt; answer == Ok(()));
    assert!(rt; written.as_slice() == b"none\n".as_slice());
}

#[test]
fn a_node_that_is_not_listed_is_refused(rt: HostRuntime) {
    let (answer, written) = outcome(&rt, rt.alloc(), Task::Prove(NodeId(3)), no_statements());
    assert!(rt; answer == Err(Fault::UnknownNode));
    assert!(rt; written.is_empty());
}
