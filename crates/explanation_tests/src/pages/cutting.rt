//! The page of a long log, of which a sentence marks one entry, and one that is not there.

use authenticators::{Directory, NodeId};
use evidence_set::Indication;
use explanation_pages::{page_of, rows_of_proof};
use log_chain::{ByteString, Entry, Hash, kind};
use proofs::{Item, Proof};
use sentences::{Basis, Explanation, Input, Mark, NodeExplanation, PlainVoice, Sentence};
use std::alloc::Global;
use std::test::Fail;

/// As many SEND entries to node 2 of the message `<hi>`, from the number 1 on.
fn entries(alloc: Global, count: u64) -> Result<Vec<Entry>, Fail> {
    let mut entries = Vec::new(alloc);
    for i in 0..count {
        entries.push(Entry {
            seq: i + 1,
            kind: kind::SEND,
            content: ByteString::from_slice(alloc, b"\0\0\0\x02<hi>")?,
        })?;
    }
    Ok(entries)
}

/// A proof of a segment of them.
fn proof(alloc: Global, count: u64) -> Result<Box<Proof>, Fail> {
    let sig = ByteString::from_vec(Vec::new(alloc));
    let segment = Item::segment(NodeId(1), Hash([7; 32]), entries(alloc, count)?, sig)?;
    let proof = Proof::nonconforming(segment)?;
    Ok(Box::new(alloc, proof)?)
}

/// An explanation whose sentence marks entry 150 and entry 400.
fn explanation(alloc: Global) -> Result<Box<Explanation>, Fail> {
    let node = NodeId(1);
    let marks = [Mark { node, seq: 150 }, Mark { node, seq: 400 }];
    let sentence = Sentence {
        text: String::from_str(alloc, "Marks two.")?,
        marks: Vec::from_slice(alloc, &marks)?,
        named: Vec::new(alloc),
    };
    let told = NodeExplanation {
        node,
        indication: Indication::Exposed,
        has_no_item: false,
        sentences: vec![in alloc; sentence]?,
    };
    let explanation = Explanation {
        heading: String::from_str(alloc, "1 node")?,
        nodes: vec![in alloc; told]?,
    };
    Ok(Box::new(alloc, explanation)?)
}

/// The page of so many entries.
fn page(alloc: Global, count: u64) -> Result<Vec<u8>, Fail> {
    let directory = Box::new(alloc, Directory::new(alloc))?;
    let proof = proof(alloc, count)?;
    let rows = Box::new(alloc, rows_of_proof(alloc, &directory, &proof)?)?;
    let explanation = explanation(alloc)?;
    let basis = Basis::of(alloc, "Tally", b"", Input::Store, b"")?;
    Ok(page_of(alloc, &PlainVoice, &basis, &explanation, &rows, &[])?)
}

/// An explanation of this node, of which no sentence speaks.
fn quiet(alloc: Global, node: u32) -> NodeExplanation {
    NodeExplanation {
        node: NodeId(node),
        indication: Indication::Trusted,
        has_no_item: false,
        sentences: Vec::new(alloc),
    }
}

/// The page of 25 nodes, of which one has entries.
fn page_of_many(alloc: Global) -> Result<Vec<u8>, Fail> {
    let directory = Box::new(alloc, Directory::new(alloc))?;
    let proof = proof(alloc, 3)?;
    let rows = Box::new(alloc, rows_of_proof(alloc, &directory, &proof)?)?;
    let mut nodes = Vec::new(alloc);
    for node in 0..25 {
        nodes.push(quiet(alloc, node))?;
    }
    let explanation = Box::new(
        alloc,
        Explanation {
            heading: String::from_str(alloc, "25 nodes")?,
            nodes,
        },
    )?;
    let basis = Basis::of(alloc, "Tally", b"", Input::Store, b"")?;
    Ok(page_of(alloc, &PlainVoice, &basis, &explanation, &rows, &[])?)
}

/// Whether the text stands in the page.
fn has(page: &[u8], text: &str) -> bool {
    match str::from_utf8(page) {
        Ok(page) => page.contains(text),
        Err(_) => false,
    }
}

/// Both ends, entry 150 with two on each side, and the one that is not there.
#[test]
fn a_long_row_is_cut(rt: HostRuntime) -> Result<(), Fail> {
    let page = page(rt.alloc(), 300)?;
    for text in [
        "9 of the 300 entries of node 1 are drawn:",
        "<g id=\"entry-1-148\" class=\"entry send logged\"",
        "<g id=\"entry-1-150\" class=\"entry send logged marked\"",
        "<g id=\"entry-1-400\" class=\"entry bare absent marked\"",
        "<title>Node 1, entry 400: nothing of it is here</title>",
        "<td class=\"content\">to node 2 of &#34;&#60;hi&#62;&#34;</td>",
    ] {
        assert!(rt; has(&page, text));
    }
    assert!(rt; !has(&page, "entry-1-147"));
    assert!(rt; !has(&page, "<hi>"));
    Ok(())
}

#[test]
fn a_short_row_is_whole(rt: HostRuntime) -> Result<(), Fail> {
    let page = page(rt.alloc(), 40)?;
    assert!(rt; has(&page, "<g id=\"entry-1-17\""));
    assert!(rt; !has(&page, "are drawn"));
    Ok(())
}

#[test]
fn of_many_nodes_those_at_fault_have_a_row(rt: HostRuntime) -> Result<(), Fail> {
    let page = page_of_many(rt.alloc())?;
    assert!(rt;
        has(
            &page,
            "Not drawn, since nothing stands against them and no entry of them quotes a marked one: the logs of 25 nodes."
        )
    );
    assert!(rt; !has(&page, "<g id=\"entry-1-3\""));
    assert!(rt; has(&page, "&#10003;</span> 25 trusted nodes</summary>"));
    assert!(rt; has(&page, "<section class=\"node\" id=\"node-24\""));
    Ok(())
}
