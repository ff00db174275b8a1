//! The texts that are written of what was read.

ghost use Rattle.std.specs.Prelude.{◌≡◌, ℕ, Err, IfOk, MatchResult, false, true};
ghost use Rattle.page_text.specs.Pages.{IsPage};
ghost use Rattle.proofs.specs.Convicting.{Convicts, Tells};
ghost use Rattle.explanation_pages.specs.Shown.{IsPageOf};
ghost use Rattle.explanations.specs.Whys.{ExplainsParts, IsExplained};
ghost use Rattle.explaining.specs.Explained.{ExplainsProof, PagesProof, PagesStore, TellsProof};

use crate::followed::Followed;
use authenticators::Directory;
use evidence::Evidence;
use explanation_pages::{page_of, page_of_listing, rows_of, rows_of_proof, wanted_of};
use explanations::{
    Basis, Conviction, Voice, explain_proof, explain_store, explained_text, verdict_text,
};
use outcome::Memory;
use proofs::{Proof, ProofFault};
use replay_verifier::Program;
use sentences::{Listing, listing_lines};
use std::alloc::{AllocError, Global};

/// Returns what a store says, as a page.
fn store_page<P: Program, S: Evidence<P>, V: Voice>(
    alloc: Global,
    followed: &Followed<'_, P, V>,
    basis: &Basis,
    store: &S,
) -> Result<Vec<u8>, Memory>
    ensures { IfOk result (λ text. PagesStore P.means basis.now (S.contents store.now) text.items) }
{
    let Followed {
        program,
        name: _,
        voice,
    } = *followed;
    let explanation = explain_store::<P, S, V>(alloc, program, voice, store)?;
    let wanted = wanted_of(alloc, &explanation)?;
    let rows = rows_of::<P, S>(alloc, store, wanted)?;
    let page = page_of(alloc, voice, basis, &explanation, &rows, &[])?;
    Ok(page)
}

/// Returns what a store says under a basis: a page if `is_page` is true, and else a text. `Memory` if the program, or a growth, was refused
/// memory.
pub fn store_text<P: Program, S: Evidence<P>, V: Voice>(
    alloc: Global,
    followed: &Followed<'_, P, V>,
    is_page: bool,
    basis: &Basis,
    store: &S,
) -> Result<Vec<u8>, Memory>
    ensures says { IfOk result (λ text. is_page ≡ false → IsExplained P.means basis.now (S.contents store.now) text.items) }
    ensures page { IfOk result (λ text. is_page ≡ true → PagesStore P.means basis.now (S.contents store.now) text.items) }
{
    if is_page {
        let page = store_page::<P, S, V>(alloc, followed, basis, store)?;
        return Ok(page);
    }
    let text = explained_text::<P, S, V>(alloc, followed.program, followed.voice, store, basis)?;
    Ok(text)
}

/// A proof that was read, under a directory.
#[derive(Clone, Copy)]
pub struct ReadProof<'a> {
    /// The basis under which it is judged.
    pub basis: &'a Basis,
    /// The directory.
    pub directory: &'a Directory,
    /// The directory's encoding.
    pub directory_text: &'a [u8],
    /// The proof.
    pub proof: &'a Proof,
    /// The proof's encoding.
    pub proof_text: &'a [u8],
}

/// Returns what is said of a proof, as a page. The page has the encodings of the directory and of the proof.
fn proof_page<V: Voice>(
    alloc: Global,
    voice: &V,
    read: &ReadProof<'_>,
    conviction: &Conviction,
) -> Result<Vec<u8>, Memory>
    ensures { IfOk result (λ text. IsPageOf read.now.basis.now conviction.now.explanation text.items) }
{
    let rows = rows_of_proof(alloc, read.directory, read.proof)?;
    let lines: [&[u8]; 2] = [read.directory_text, read.proof_text];
    let page = page_of(
        alloc,
        voice,
        read.basis,
        &conviction.explanation,
        &rows,
        &lines,
    )?;
    Ok(page)
}

/// Returns what is said of a conviction: a text, or a page.
fn conviction_text<V: Voice>(
    alloc: Global,
    voice: &V,
    is_page: bool,
    read: &ReadProof<'_>,
    conviction: &Conviction,
) -> Result<Vec<u8>, Memory>
    requires { ExplainsParts conviction.now.node read.now.proof.now.parts conviction.now.explanation }
    ensures says { IfOk result (λ text. is_page ≡ false → TellsProof conviction.now.node read.now.proof.now.parts read.now.basis.now text.items) }
    ensures page { IfOk result (λ text. is_page ≡ true → PagesProof conviction.now.node read.now.proof.now.parts read.now.basis.now text.items) }
{
    if is_page {
        let page = proof_page(alloc, voice, read, conviction)?;
        return Ok(page);
    }
    let text = verdict_text(alloc, read.basis, &conviction.explanation)?;
    Ok(text)
}

/// Returns whom a proof convicts, and why: a page if `is_page` is true, and else a text. If the proof is refused, the error is that of
/// checking it, or `Memory` (99).
pub fn proof_text<P: Program, V: Voice>(
    alloc: Global,
    followed: &Followed<'_, P, V>,
    is_page: bool,
    read: &ReadProof<'_>,
) -> Result<Vec<u8>, ProofFault>
    ensures { MatchResult result (λ text. (node : ℕ) × Convicts read.now.directory.now P.means node read.now.proof.now.parts × ExplainsProof is_page node read.now.proof.now.parts read.now.basis.now text.items) (λ e. Tells read.now.directory.now P.means read.now.proof.now.parts (Err e)) }
{
    let Followed {
        program,
        name: _,
        voice,
    } = *followed;
    let conviction = explain_proof(alloc, program, voice, read.directory, read.proof)?;
    let text = conviction_text(alloc, voice, is_page, read, &conviction)?;
    Ok(text)
}

/// Returns what a directory lists: a page if `is_page` is true, and else a text. No contract says what the text is.
pub fn listing_text(alloc: Global, is_page: bool, listing: &Listing) -> Result<Vec<u8>, AllocError>
    ensures { IfOk result (λ text. is_page ≡ true → IsPage text.items) }
{
    if is_page {
        return page_of_listing(alloc, listing);
    }
    listing_lines(alloc, listing)
}
