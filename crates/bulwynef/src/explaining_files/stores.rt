//! The explanation of stores: what they say.

ghost use Rattle.std.specs.Prelude.{◌≡◌, ◌<◌, ◌≤◌, IfOk, length};
ghost use Rattle.operating.specs.GatheredFiles.{under};
ghost use Rattle.operating.specs.Operating.{HasRoom, RanOnStores};
ghost use Rattle.parallel_checking.specs.declared.limits.TheConstants.{MOST_WORKERS};
ghost use Rattle.evidence.specs.Exports.{export_of};
ghost use Rattle.explaining.specs.Explained.{IsBasis};
ghost use Rattle.sentences.specs.declared.site.Input.TheVariants as kind;
ghost use Rattle.bulwynef.specs.Explained.{ExplainStores, IsBasisOfStores, fronted};

use commands::device::Sink;
use commands::fault::Fault;
use evidence::Evidence;
use explaining::{Followed, Voice, store_text};
use indexed_store::IndexedStore;
use operating::asking::{Answer, Ending, Gathered, Question, Reading, ask};
use operating::files::Opener;
use operating::refusal::Refusal;
use operating::scope::Scope;
use operating::status::ending_of;
use operating::watching::StoreWatcher;
use outcome::Memory;
use replay_verifier::Program;
use sentences::{Basis, Input};
use std::alloc::Global;
use std::thread::Threads;

/// The question of `explain`: what evidence says of nodes that follow this program, as a text or as a page.
#[derive(Drop)]
pub struct Explaining<'a, P, V> {
    /// The program that the nodes are to follow.
    pub followed: Followed<'a, P, V>,
    /// Whether a page is written in place of the text.
    pub is_page: bool,
}

/// Puts these bytes in place of the first eight.
fn put_front(text: &mut [u8], front: [u8; 8])
    ensures text { text.new ≡ fronted front text.old }
    ensures length { length front ≡ 8 }
{
    if text.len() >= 8 {
        text[..8].copy_from_slice(&front);
    }
}

/// Returns the encoding of the one store that was read. It begins with the eight bytes with which the file's encoding did.
fn own_text<P: Program, S: Evidence<P>>(read: &Gathered<S>) -> Result<Vec<u8>, Memory>
    ensures text { IfOk result (λ text. text.items ≡ fronted read.now.front (export_of (S.contents read.now.store).items)) }
    ensures length { IfOk result (λ text. length read.now.front ≡ 8) }
{
    let mut text = read.store.export()?;
    put_front(&mut text, read.front);
    Ok(text)
}

/// Returns what one store is judged under: its own encoding.
fn basis_of_one<P: Program, S: Evidence<P>>(
    alloc: Global,
    name: &str,
    read: &Gathered<S>,
) -> Result<Basis, Memory>
    ensures { IfOk result (λ b. (length read.now.front ≡ 8) × IsBasis name.now read.now.directory.items kind.Store (fronted read.now.front (export_of (S.contents read.now.store).items)) b) }
{
    let text = own_text::<P, S>(read)?;
    let basis = Basis::of(alloc, name, &read.directory, Input::Store, &text)?;
    Ok(basis)
}

/// Returns what several stores are judged under: the encoding of their union.
fn basis_of_union<P: Program, S: Evidence<P>>(
    alloc: Global,
    name: &str,
    read: &Gathered<S>,
) -> Result<Basis, Memory>
    ensures { IfOk result (λ b. IsBasis name.now read.now.directory.items kind.Union (export_of (S.contents read.now.store).items) b) }
{
    let text = read.store.export()?;
    Basis::of(alloc, name, &read.directory, Input::Union, &text)
}

/// Returns what the evidence is judged under. One store is judged by its own encoding, and several by the encoding of their union.
fn basis_of<P: Program, S: Evidence<P>>(
    alloc: Global,
    name: &str,
    read: &Gathered<S>,
) -> Result<Basis, Memory>
    ensures { IfOk result (IsBasisOfStores name.now (under read.now.directory.items (S.contents read.now.store))) }
{
    if read.stores == 1 {
        let basis = basis_of_one(alloc, name, read)?;
        return Ok(basis);
    }
    let basis = basis_of_union(alloc, name, read)?;
    Ok(basis)
}

impl<'a, P: Program, S: Evidence<P>, V: Voice> Question<P, S> for Explaining<'a, P, V> {
    ghost means = { λ q. ExplainStores q.followed.name.now q.is_page P.means };

    fn answer(&self, alloc: Global, read: &Gathered<S>) -> Result<Answer, Fault> {
        let basis = basis_of::<P, S>(alloc, self.followed.name, read)?;
        let text = store_text::<P, S, V>(alloc, &self.followed, self.is_page, &basis, &read.store)?;
        let ending = ending_of::<P, S>(&read.store, &Scope::All);
        Ok(Answer { text, ending })
    }
}

/// Reads a directory, which is file 0, and this many stores. It writes what the items of all stores say of each node, and why. It writes nothing
/// else, and it writes once, after everything has been decided.
pub fn run<
    R: Threads + Sync,
    P: Program + Send + Sync,
    V: Voice,
    O: Opener,
    F: StoreWatcher,
    W: Sink,
>(
    reading: &Reading<'_, R, P>,
    explaining: &Explaining<'_, P, V>,
    opener: &mut O,
    stores: usize,
    watcher: &mut F,
    writer: &mut W,
) -> Result<Ending, Refusal>
where
    P::State: Send,
    requires workers { (0 < reading.now.limits.workers) × (reading.now.limits.workers ≤ MOST_WORKERS) }
    requires room { HasRoom stores (O.seen opener.old) (W.seen writer.old) }
    ensures { RanOnStores (ExplainStores explaining.now.followed.name.now explaining.now.is_page P.means) reading.now.limits.most_bytes stores result (O.seen opener.old) (O.seen opener.new) W.seen writer.old writer.new }
{
    ask::<R, P, IndexedStore<P>, Explaining<'_, P, V>, O, F, W>(
        reading, explaining, opener, stores, watcher, writer,
    )
}
