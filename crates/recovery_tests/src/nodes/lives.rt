//! A node that lives by its journal, and the nodes that are rebuilt of it.

use super::fixtures::{Seen, draft_of, feed_message, give_all, hash_of, rebuild_of, whole};
use crate::texts::{
    acknowledged, began_end, began_signed, beginning, end, given, key_0, last_end, last_given,
    last_signed, last_ticked, received, received_end, received_signed, refused_given, rekeyed,
    ticked, ticked_end, ticked_message, ticked_signed,
};
use authenticators::split_signature;
use commitment::Node;
use log_chain::Hash;
use ref_programs::Tally;
use sha2::{Digest, Sha256};
use std::alloc::Global;
use std::test::Fail;

/// What comes of a node.
#[derive(Clone, Copy, Debug, PartialEq, Eq)]
struct Lived {
    /// The digest of what it gives, and the node after all calls but the last tick.
    given: Hash,
    seen: Seen,
    /// The same of the last tick.
    last_given: Hash,
    last_seen: Seen,
}

/// The node of so many texts of the journal is given what the others record, and then its timer ticks once more.
fn live_from(alloc: Global, count: usize) -> Result<Lived, Fail> {
    let texts = whole();
    let written = texts.get(..count).ok_or("so many texts")?;
    let others = texts.get(count..).ok_or("so many texts")?;
    let mut digest = Sha256::new();
    let node = give_all(alloc, rebuild_of(alloc, written)?, others, &mut digest)?;
    let seen = Seen::of(node.node());
    let mut last_digest = Sha256::new();
    let node = give_all(alloc, node, &[last_ticked()], &mut last_digest)?;
    Ok(Lived {
        given: Hash(digest.finalize()),
        seen,
        last_given: Hash(last_digest.finalize()),
        last_seen: Seen::of(node.node()),
    })
}

/// The node after all calls but the last tick, and after it, by the program in Python.
fn both_wanted() -> Result<[Seen; 2], Fail> {
    Ok([
        Seen::wanted((6, 3, 1, 32), 10, end(), ticked_signed())?,
        Seen::wanted((8, 4, 2, 31), 12, last_end(), last_signed())?,
    ])
}

#[test]
fn a_node_gives_logs_and_signs_what_the_other_program_does(rt: HostRuntime) -> Result<(), Fail> {
    let lived = live_from(rt.alloc(), 1)?;
    assert!(rt; lived.given == hash_of(given())?);
    assert!(rt; lived.last_given == hash_of(last_given())?);
    assert!(rt; [lived.seen, lived.last_seen] == both_wanted()?);
    Ok(())
}

/// Behind each text of its journal a crash may come: the node that is rebuilt goes on as it would have, down to its next signature.
#[test]
fn a_rebuilt_node_goes_on_as_before(rt: HostRuntime) -> Result<(), Fail> {
    for count in [2, 3, 4, 5, 6] {
        let lived = live_from(rt.alloc(), count)?;
        assert!(rt;
            lived.last_given == hash_of(last_given())?,
            "behind {count}"
        );
        assert!(rt;
            [lived.seen, lived.last_seen] == both_wanted()?,
            "behind {count}"
        );
    }
    Ok(())
}

/// The digest of the message with this number that the node has sent.
fn sent(node: &Node<Tally>, seq: u64) -> Option<Hash> {
    let Some(message) = node.message(seq) else {
        return None;
    };
    let mut digest = Sha256::new();
    feed_message(&mut digest, message);
    Some(Hash(digest.finalize()))
}

/// A node that received, and the one of a journal that has a tick more: each with its message 9, if it has one.
fn rebuild_with_tick(alloc: Global) -> Result<[(Seen, Option<Hash>); 2], Fail> {
    let mut digest = Sha256::new();
    let living = give_all(
        alloc,
        rebuild_of(alloc, &[beginning()])?,
        &[received()],
        &mut digest,
    )?;
    let rebuilt = rebuild_of(alloc, &[beginning(), received(), ticked()])?;
    Ok([
        (Seen::of(living.node()), sent(living.node(), 9)),
        (Seen::of(rebuilt.node()), sent(rebuilt.node(), 9)),
    ])
}

#[test]
fn a_record_that_was_written_is_acted_on(rt: HostRuntime) -> Result<(), Fail> {
    let [living, rebuilt] = rebuild_with_tick(rt.alloc())?;
    let before = Seen::wanted((3, 2, 1, 30), 7, received_end(), received_signed())?;
    let after = Seen::wanted((5, 3, 2, 29), 9, ticked_end(), ticked_signed())?;
    assert!(rt; living == (before, None));
    assert!(rt; rebuilt == (after, Some(hash_of(ticked_message())?)));
    Ok(())
}

/// The number of a key, one of its leaves, and the hash that it signed.
#[derive(Clone, Copy, Debug, PartialEq, Eq)]
struct Leaf {
    key: u8,
    leaf: [u8; 4],
    hash: Hash,
}

/// What the node signed by which leaf.
fn leaves_of(alloc: Global, node: &Node<Tally>) -> Result<Vec<Leaf>, Fail> {
    let mut leaves = Vec::new(alloc);
    for statement in node.signed() {
        let Some((key, signature)) = split_signature(statement.sig.as_slice()) else {
            return Err("a signature")?;
        };
        let [a, b, c, d, ..] = signature else {
            return Err("a leaf")?;
        };
        leaves.push(Leaf {
            key,
            leaf: [*a, *b, *c, *d],
            hash: statement.hash,
        })?;
    }
    Ok(leaves)
}

/// What a node signed in three lives.
#[derive(Drop)]
struct Lives {
    first: Vec<Leaf>,
    second: Vec<Leaf>,
    third: Vec<Leaf>,
}

/// In the first life a message is received, and a tick is drafted that is never written. In the second the timer ticks otherwise. In the
/// third the node goes over to its other key, and its timer ticks once more.
fn live_thrice(alloc: Global) -> Result<Lives, Fail> {
    let mut digest = Sha256::new();
    let first = give_all(
        alloc,
        rebuild_of(alloc, &[beginning()])?,
        &[received()],
        &mut digest,
    )?;
    let _ = draft_of(alloc, ticked())?;
    let second = rebuild_of(alloc, &[beginning(), received()])?;
    let second = give_all(alloc, second, &[last_ticked()], &mut digest)?;
    let third = rebuild_of(alloc, &[beginning(), received(), last_ticked()])?;
    let third = give_all(alloc, third, &[rekeyed(), ticked()], &mut digest)?;
    Ok(Lives {
        first: leaves_of(alloc, first.node())?,
        second: leaves_of(alloc, second.node())?,
        third: leaves_of(alloc, third.node())?,
    })
}

/// Each life repeats what those before signed, leaf by leaf, and goes on with leaves that have not signed.
#[test]
fn each_leaf_signs_one_text_over_restarts(rt: HostRuntime) -> Result<(), Fail> {
    let lives = live_thrice(rt.alloc())?;
    assert!(rt; Some(lives.first.as_slice()) == lives.third.get(..2));
    assert!(rt; Some(lives.second.as_slice()) == lives.third.get(..3));
    let used = [
        (0, [0; 4]),
        (0, [0, 0, 0, 1]),
        (0, [0, 0, 0, 2]),
        (1, [0; 4]),
    ];
    assert!(rt; lives.third.len() == 4);
    assert!(rt;
        lives
            .third
            .iter()
            .zip(&used)
            .all(|(leaf, used)| (leaf.key, leaf.leaf) == *used)
    );
    Ok(())
}

/// The digest of what a new node gives that refuses two calls, that node, and the one that is rebuilt of them.
fn refuse_two(alloc: Global) -> Result<(Hash, [Seen; 2]), Fail> {
    let mut digest = Sha256::new();
    let living = rebuild_of(alloc, &[beginning()])?;
    let living = give_all(alloc, living, &[acknowledged(), key_0()], &mut digest)?;
    let rebuilt = rebuild_of(alloc, &[beginning(), acknowledged(), key_0()])?;
    let seen = [Seen::of(living.node()), Seen::of(rebuilt.node())];
    Ok((Hash(digest.finalize()), seen))
}

#[test]
fn a_call_that_is_refused_is_refused_again(rt: HostRuntime) -> Result<(), Fail> {
    let (given, seen) = refuse_two(rt.alloc())?;
    assert!(rt; given == hash_of(refused_given())?);
    assert!(rt; seen == [Seen::wanted((1, 0, 0, 32), 5, began_end(), began_signed())?; 2]);
    Ok(())
}
