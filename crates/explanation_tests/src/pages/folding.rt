//! Pages of many nodes at fault, of many sentences, and of many marked entries.

use authenticators::{Directory, NodeId};
use evidence_set::Indication;
use explanation_pages::{page_of, rows_of_proof};
use log_chain::{ByteString, Entry, Hash, kind};
use proofs::{Item, Proof};
use sentences::{Basis, Explanation, Input, Mark, NodeExplanation, PlainVoice, Sentence};
use std::alloc::Global;
use std::test::Fail;

/// A proof of a segment of node 1 that has one entry.
fn proof(alloc: Global) -> Result<Box<Proof>, Fail> {
    let entry = Entry {
        seq: 1,
        kind: kind::INIT,
        content: ByteString::from_slice(alloc, b"")?,
    };
    let sig = ByteString::from_vec(Vec::new(alloc));
    let entries = vec![in alloc; entry]?;
    let segment = Item::segment(NodeId(1), Hash([7; 32]), entries, sig)?;
    let proof = Proof::nonconforming(segment)?;
    Ok(Box::new(alloc, proof)?)
}

/// A sentence that marks so many entries of the node, from 1 on.
fn sentence(alloc: Global, node: NodeId, count: u64) -> Result<Sentence, Fail> {
    let mut marks = Vec::new(alloc);
    for i in 0..count {
        marks.push(Mark { node, seq: i + 1 })?;
    }
    Ok(Sentence {
        text: String::from_str(alloc, "Marks some.")?,
        marks,
        named: Vec::new(alloc),
    })
}

/// A node that is exposed, with so many sentences, each of which marks so many entries.
fn exposed_node(
    alloc: Global,
    node: u32,
    sentences: u64,
    marked: u64,
) -> Result<NodeExplanation, Fail> {
    let node = NodeId(node);
    let mut all = Vec::new(alloc);
    for _ in 0..sentences {
        all.push(sentence(alloc, node, marked)?)?;
    }
    Ok(NodeExplanation {
        node,
        indication: Indication::Exposed,
        has_no_item: false,
        sentences: all,
    })
}

/// The page of so many exposed nodes, from 1 on.
fn page(alloc: Global, nodes: u32, sentences: u64, marked: u64) -> Result<Vec<u8>, Fail> {
    let directory = Box::new(alloc, Directory::new(alloc))?;
    let proof = proof(alloc)?;
    let rows = Box::new(alloc, rows_of_proof(alloc, &directory, &proof)?)?;
    let mut all = Vec::new(alloc);
    for i in 0..nodes {
        all.push(exposed_node(alloc, i + 1, sentences, marked)?)?;
    }
    let explanation = Box::new(
        alloc,
        Explanation {
            heading: String::from_str(alloc, "nodes")?,
            nodes: all,
        },
    )?;
    let basis = Basis::of(alloc, "Tally", b"", Input::Store, b"")?;
    Ok(page_of(alloc, &PlainVoice, &basis, &explanation, &rows, &[])?)
}

/// Whether the text stands in the page.
fn has(page: &[u8], text: &str) -> bool {
    match str::from_utf8(page) {
        Ok(page) => page.contains(text),
        Err(_) => false,
    }
}

/// Six stand open, and twelve have rows.
#[test]
fn of_many_nodes_at_fault_the_first_stand_open(rt: HostRuntime) -> Result<(), Fail> {
    let page = page(rt.alloc(), 20, 1, 1)?;
    for text in [
        "<li class=\"exposed\"><a href=\"#node-6\">",
        "<li class=\"exposed\"><a href=\"#further-exposed\"><span class=\"sign\" aria-hidden=\"true\">!</span> 14 nodes <strong>further exposed</strong></a></li>",
        "<details id=\"further-exposed\" class=\"fold\"><summary><span class=\"sign\" aria-hidden=\"true\">!</span> 14 further exposed nodes</summary>\n<section class=\"node\" id=\"node-7\"",
        "<section class=\"node\" id=\"node-20\"",
        "Not drawn, since a picture has no more rows than these: the logs of 8 nodes.",
        "<g id=\"entry-12-1\"",
    ] {
        assert!(rt; has(&page, text));
    }
    for text in [
        "<li class=\"exposed\"><a href=\"#node-7\">",
        "<g id=\"entry-13-1\"",
        "href=\"#entry-13-1\"",
    ] {
        assert!(rt; !has(&page, text));
    }
    Ok(())
}

/// Twelve stand open.
#[test]
fn of_many_sentences_the_first_stand_open(rt: HostRuntime) -> Result<(), Fail> {
    let page = page(rt.alloc(), 1, 14, 1)?;
    for text in [
        "<li id=\"node-1-sentence-12\">Marks some. <a class=\"mark\" href=\"#entry-1-1\">entry 1 of node 1</a></li>\n</ul>\n<details><summary>2 further sentences</summary>\n<ul class=\"sentences\">\n<li id=\"node-1-sentence-13\">",
        "<li id=\"node-1-sentence-14\">",
    ] {
        assert!(rt; has(&page, text));
    }
    Ok(())
}

/// A row has 48 entries at most, and with more than sixty in all the tables are folded.
#[test]
fn of_many_marked_entries_the_first_are_drawn(rt: HostRuntime) -> Result<(), Fail> {
    let few = page(rt.alloc(), 1, 1, 50)?;
    for text in [
        "<g id=\"entry-1-48\"",
        "<details open=\"\"><summary>What is known of the log of node 1: ",
    ] {
        assert!(rt; has(&few, text));
    }
    for text in ["<g id=\"entry-1-49\"", "href=\"#entry-1-49\""] {
        assert!(rt; !has(&few, text));
    }
    let many = page(rt.alloc(), 2, 1, 50)?;
    assert!(rt;
        has(
            &many,
            "<details><summary>What is known of the log of node 1: "
        )
    );
    Ok(())
}
