//! The text of two items that comes in pieces.

ghost use Rattle.std.specs.Prelude.{◌≡◌};

use crate::texts::{Text, text_of_two};
use evidence_store::{Evidence, Importer, IndexedStore, PlainStore};
use ref_programs::Tally;
use std::alloc::Global;
use std::test::Fail;
use store_samples::new_store;

/// What an importer and a store without items make of a text in pieces: the number of the refusal of a piece, or 0; that of one more
/// piece after a refusal, or 0; that of the end, or 0; how many items the store then has; and whether it exports the text.
#[derive(Clone, Copy, Debug, PartialEq, Eq)]
struct Told {
    fed: u8,
    again: u8,
    ended: u8,
    count: u64,
    is_written: bool,
}

/// Feeds the text in pieces of this length, and the last of what is left. The number of the refusal, or 0.
fn feed(importer: &mut Importer<Tally>, text: &[u8], length: usize) -> u8
    ensures { importer.new.directory ≡ importer.old.directory }
{
    let mut rest = text;
    while !rest.is_empty() {
        let (piece, left) = rest.split_at(rest.len().min(length.max(1)));
        if let Err(fault) = importer.feed(&Tally, piece) {
            return fault.cause.number();
        }
        rest = left;
    }
    0
}

/// Feeds the front of a text after a refusal, of this number where it is not 0. The number of the refusal of that, or 0.
fn feed_again(importer: &mut Importer<Tally>, fed: u8) -> u8
    ensures { importer.new.directory ≡ importer.old.directory }
{
    if fed == 0 {
        return 0;
    }
    match importer.feed(&Tally, b"PRSTORE2") {
        Ok(()) => 0,
        Err(fault) => fault.cause.number(),
    }
}

fn refusals_by<S: Evidence<Tally>>(
    alloc: Global,
    store: &mut S,
    text: &[u8],
    length: usize,
) -> Result<[u8; 3], Fail> {
    let directory = store.directory().try_clone()?;
    let mut importer = Importer::new(alloc, directory)?;
    let fed = feed(&mut importer, text, length);
    let again = feed_again(&mut importer, fed);
    let ended = match importer.finish(&Tally, store) {
        Ok(_) => 0,
        Err(fault) => fault.cause.number(),
    };
    Ok([fed, again, ended])
}

fn read_in_pieces<S: Evidence<Tally>>(
    alloc: Global,
    on: &Text,
    text: &[u8],
    length: usize,
) -> Result<Told, Fail> {
    let mut store: Box<S> = new_store(alloc, &on.directory)?;
    let [fed, again, ended] = refusals_by::<S>(alloc, &mut store, text, length)?;
    Ok(Told {
        fed,
        again,
        ended,
        count: store.count(),
        is_written: store.export()?.as_slice() == on.text.as_slice(),
    })
}

const READ: Told = Told {
    fed: 0,
    again: 0,
    ended: 0,
    count: 2,
    is_written: true,
};

const CUT_OFF: Told = Told {
    fed: 0,
    again: 0,
    ended: 40,
    count: 0,
    is_written: false,
};

const OTHER_MAGIC: Told = Told {
    fed: 60,
    again: 60,
    ended: 60,
    count: 0,
    is_written: false,
};

/// Whether this is made of the text, in pieces of any length.
fn tells_in_pieces<S: Evidence<Tally>>(
    alloc: Global,
    on: &Text,
    text: &[u8],
    expected: Told,
) -> Result<bool, Fail> {
    for length in [1, 7, 4096] {
        if read_in_pieces::<S>(alloc, on, text, length)? != expected {
            return Ok(false);
        }
    }
    Ok(true)
}

/// Whether a store reads the text of two items that it wrote.
fn reads_the_whole<S: Evidence<Tally>>(alloc: Global) -> Result<bool, Fail> {
    let on = text_of_two::<S>(alloc)?;
    tells_in_pieces::<S>(alloc, &on, &on.text, READ)
}

#[test]
fn pieces_of_any_length_are_read_as_the_whole(rt: HostRuntime) -> Result<(), Fail> {
    assert!(rt; reads_the_whole::<PlainStore<Tally>>(rt.alloc())?);
    assert!(rt; reads_the_whole::<IndexedStore<Tally>>(rt.alloc())?);
    Ok(())
}

/// Whether a store refuses that text at its end where its last byte is missing.
fn misses_the_last_byte<S: Evidence<Tally>>(alloc: Global) -> Result<bool, Fail> {
    let on = text_of_two::<S>(alloc)?;
    let [cut @ .., _] = on.text.as_slice() else {
        return Err("no text")?;
    };
    tells_in_pieces::<S>(alloc, &on, cut, CUT_OFF)
}

#[test]
fn a_text_without_its_last_byte_is_cut_off_at_the_end(rt: HostRuntime) -> Result<(), Fail> {
    assert!(rt; misses_the_last_byte::<PlainStore<Tally>>(rt.alloc())?);
    assert!(rt; misses_the_last_byte::<IndexedStore<Tally>>(rt.alloc())?);
    Ok(())
}

/// Whether another text is refused, and stays so.
fn refuses_another<S: Evidence<Tally>>(alloc: Global) -> Result<bool, Fail> {
    let on = text_of_two::<S>(alloc)?;
    tells_in_pieces::<S>(alloc, &on, b"PRPACK01\0\0\0\0\0\0\0\0", OTHER_MAGIC)
}

#[test]
fn a_refused_piece_stays_refused(rt: HostRuntime) -> Result<(), Fail> {
    assert!(rt; refuses_another::<PlainStore<Tally>>(rt.alloc())?);
    assert!(rt; refuses_another::<IndexedStore<Tally>>(rt.alloc())?);
    Ok(())
}
