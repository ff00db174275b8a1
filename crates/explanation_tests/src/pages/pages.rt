//! The page of a node that signed two hashes under one number.

use authenticators::{Authenticator, Directory, NodeId};
use evidence_set::Indication;
use explanation_pages::{page_of, rows_of_proof};
use log_chain::{ByteString, Hash};
use proofs::{Item, Proof};
use sentences::{Basis, Explanation, Input, Mark, NodeExplanation, PlainVoice, Sentence};
use std::alloc::Global;
use std::test::Fail;

/// Node 1's statement of the number 3 and a hash of equal bytes.
fn statement(alloc: Global, byte: u8) -> Result<Box<Item>, Fail> {
    let item = Item::auth(Authenticator {
        node: NodeId(1),
        seq: 3,
        hash: Hash([byte; 32]),
        sig: ByteString::from_vec(Vec::new(alloc)),
    })?;
    Ok(Box::new(alloc, item)?)
}

/// A proof of two such statements.
fn proof(alloc: Global) -> Result<Box<Proof>, Fail> {
    let first = statement(alloc, 0)?;
    let second = statement(alloc, 0xab)?;
    let proof = Proof::two_auths(Box::into_inner(first), Box::into_inner(second))?;
    Ok(Box::new(alloc, proof)?)
}

/// One sentence, which marks the entry.
fn sentences(alloc: Global) -> Result<Vec<Sentence>, Fail> {
    let mark = Mark {
        node: NodeId(1),
        seq: 3,
    };
    let sentence = Sentence {
        text: String::from_str(alloc, "Signed <two> & \"more\".")?,
        marks: vec![in alloc; mark]?,
        named: Vec::new(alloc),
    };
    Ok(vec![in alloc; sentence]?)
}

/// An explanation that tells it.
fn explanation(alloc: Global) -> Result<Box<Explanation>, Fail> {
    let told = NodeExplanation {
        node: NodeId(1),
        indication: Indication::Exposed,
        has_no_item: false,
        sentences: sentences(alloc)?,
    };
    let explanation = Explanation {
        heading: String::from_str(alloc, "1 node")?,
        nodes: vec![in alloc; told]?,
    };
    Ok(Box::new(alloc, explanation)?)
}

/// Its page.
fn page(alloc: Global) -> Result<Vec<u8>, Fail> {
    let directory = Box::new(alloc, Directory::new(alloc))?;
    let proof = proof(alloc)?;
    let rows = Box::new(alloc, rows_of_proof(alloc, &directory, &proof)?)?;
    let explanation = explanation(alloc)?;
    let basis = Basis::of(alloc, "Tally", b"one", Input::Proof, b"two")?;
    Ok(page_of(
        alloc,
        &PlainVoice,
        &basis,
        &explanation,
        &rows,
        &[b"one", b"two"],
    )?)
}

/// The page's beginning.
fn beginning() -> &'static str {
    "<!DOCTYPE html>\n<html lang=\"en\">\n<head>\n<meta charset=\"utf-8\">\n<meta http-equiv=\"Content-Security-Policy\" content=\"default-src 'none'; style-src 'unsafe-inline'; base-uri 'none'; form-action 'none'\">\n<meta name=\"viewport\" content=\"width=device-width, initial-scale=1\">\n<title>What the proof shows: 1 node</title>\n<style>\n"
}

/// The page from the picture's legend on, written by hand.
fn wanted() -> &'static str {
    "<ul class=\"legend\" aria-label=\"Legend\">
<li><svg width=\"26\" height=\"16\" aria-hidden=\"true\"><g class=\"bare signed\"><rect class=\"box\" x=\"1\" y=\"1\" width=\"24\" height=\"14\" rx=\"7\"/></g></svg>rounded: signed, in no segment</li>
<li><svg width=\"26\" height=\"16\" aria-hidden=\"true\"><path class=\"flag\" d=\"M13 0l9 16h-18z\"/><text class=\"sign\" x=\"13\" y=\"14\">!</text></svg>contradicts</li>
</ul>
<div class=\"scroll\" role=\"region\" aria-label=\"Picture\" tabindex=\"0\">
<div class=\"strip\">
<div class=\"start\"><svg width=\"0\" height=\"1\" viewBox=\"0 0 0 1\" preserveAspectRatio=\"xMinYMin meet\" aria-hidden=\"true\"></svg><span class=\"here\"></span></div>
<svg width=\"96\" height=\"136\" viewBox=\"0 0 96 136\" preserveAspectRatio=\"xMinYMin meet\" class=\"names\" aria-hidden=\"true\">
<rect class=\"band\" y=\"0\" width=\"96\" height=\"136\"/><text class=\"name\" x=\"14\" y=\"39\">node 1</text>
</svg><svg width=\"512\" height=\"136\" viewBox=\"0 0 512 136\" preserveAspectRatio=\"xMinYMin meet\" class=\"logs\" role=\"img\" aria-labelledby=\"picture-title picture-desc\">
<title id=\"picture-title\">The logs of the nodes</title>
<desc id=\"picture-desc\">A row for each node with what is known of its log, by number, and arrows from what was sent to the entry that quotes it. The tables below say the same.</desc>
<rect class=\"band\" y=\"0\" width=\"4512\" height=\"136\"/><text class=\"name\" x=\"14\" y=\"39\">node 1</text>
<a tabindex=\"-1\" href=\"#node-1-sentence-1\"><g id=\"entry-1-3\" class=\"entry bare signed marked\" data-node=\"1\" data-seq=\"3\" transform=\"translate(104 18)\"><title>Node 1, entry 3: what it says is not here; known from a statement; hash 0000000000000000000000000000000000000000000000000000000000000000</title><rect class=\"box\" width=\"80\" height=\"42\" rx=\"21\"/><text class=\"number\" x=\"40\" y=\"19\">3</text><text class=\"kind\" x=\"40\" y=\"33\">SIGNED</text><path class=\"flag\" d=\"M80 -14l12 21h-24z\"/><text class=\"sign\" x=\"80\" y=\"5\">!</text></g></a>
<a tabindex=\"-1\" href=\"#node-1-sentence-1\"><g id=\"entry-1-3-1\" class=\"entry bare signed marked\" data-node=\"1\" data-seq=\"3\" transform=\"translate(104 76)\"><title>Node 1, entry 3: what it says is not here; known from a statement; hash abababababababababababababababababababababababababababababababab</title><rect class=\"box\" width=\"80\" height=\"42\" rx=\"21\"/><text class=\"number\" x=\"40\" y=\"19\">3</text><text class=\"kind\" x=\"40\" y=\"33\">SIGNED</text><path class=\"flag\" d=\"M80 -14l12 21h-24z\"/><text class=\"sign\" x=\"80\" y=\"5\">!</text></g></a>
</svg><span class=\"more\"></span>
</div>
</div>
</section>
<section class=\"node\" id=\"node-1\" aria-labelledby=\"node-1-heading\">
<h2 id=\"node-1-heading\">Node 1 <span class=\"badge exposed\"><span class=\"sign\" aria-hidden=\"true\">!</span> exposed</span></h2>
<ul class=\"sentences\">
<li id=\"node-1-sentence-1\">Signed &#60;two&#62; &#38; &#34;more&#34;. <a class=\"mark\" href=\"#entry-1-3\">entry 3 of node 1</a></li>
</ul>
<details open=\"\"><summary>What is known of the log of node 1: 2 entries</summary>
<details class=\"whole\"><summary>Whole hashes</summary></details>
<div class=\"scroll\" role=\"region\" aria-label=\"Entries of node 1\" tabindex=\"0\"><table><thead><tr><th scope=\"col\">Number</th><th scope=\"col\">Kind</th><th scope=\"col\">Known from</th><th scope=\"col\">Content</th><th scope=\"col\">Hash</th><th scope=\"col\">Marked</th></tr></thead>
<tbody>
<tr class=\"marked\"><th scope=\"row\"><a tabindex=\"-1\" href=\"#entry-1-3\">3</a></th><td>not known</td><td>statement</td><td class=\"content\">what it says is not here</td><td class=\"hash\"><code>0000000000000000<span class=\"rest\">000000000000000000000000000000000000000000000000</span></code></td><td class=\"sign\"><a tabindex=\"-1\" href=\"#node-1-sentence-1\">! contradicts</a></td></tr>
<tr class=\"marked\"><th scope=\"row\"><a tabindex=\"-1\" href=\"#entry-1-3-1\">3</a></th><td>not known</td><td>statement</td><td class=\"content\">what it says is not here</td><td class=\"hash\"><code>abababababababab<span class=\"rest\">abababababababababababababababababababababababab</span></code></td><td class=\"sign\"><a tabindex=\"-1\" href=\"#node-1-sentence-1\">! contradicts</a></td></tr>
</tbody></table></div></details>
</section>
<section aria-labelledby=\"lines-heading\">
<h2 id=\"lines-heading\">To check it</h2>
<details><summary>The lines of the directory and of the proof</summary>
<pre class=\"lines\">6f6e65
74776f
</pre></details>
</section>
<section aria-labelledby=\"all-heading\">
<h2 id=\"all-heading\">All nodes</h2>
<details><summary>Each node and what is said of it: 1</summary>
<ul>
<li><a href=\"#node-1\">node 1</a> exposed</li>
</ul></details>
</section>
</main>
</body>
</html>
"
}

#[test]
fn a_page(rt: HostRuntime) -> Result<(), Fail> {
    let page = page(rt.alloc())?;
    let begins = page.starts_with(beginning().as_bytes());
    let ends = page.ends_with(wanted().as_bytes());
    assert!(rt; begins);
    assert!(rt; ends);
    Ok(())
}
