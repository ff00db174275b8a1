//! Writing a container in pieces, so that nothing holds the whole of it.

ghost use Rattle.std.specs.Prelude.{◌≡◌, ◌++◌, [], IfOk, OnOk, map};
ghost use Rattle.std.specs.Int.{w64, to_be_bytes};
ghost use Rattle.std.specs.Io.KnownBytes.{Appends};
ghost use Rattle.std.specs.List.{flat_map};
ghost use Rattle.log_chain.specs.Fields.{bytes_text};
ghost use Rattle.item_forms.specs.Spelling.{spelling};
ghost use Rattle.containers.specs.Container.{container_text};
ghost use Rattle.evidence.specs.within.Pieces.{Sends};

use crate::fault::WriteFault;
use containers::HasItem;
use log_chain::FieldWriter;
use outcome::Memory;
use std::alloc::Global;
use std::io;

/// A piece has at most this many bytes, 64 KiB, unless one item has more.
const LONGEST_PIECE: usize = 65_536;

/// Writes what was gathered, and frees it.
fn send<W: io::Write>(gathered: FieldWriter, writer: &mut W) -> Result<(), WriteFault>
    ensures { OnOk result (Appends (W.contents writer.old) (W.contents writer.new) gathered) }
{
    writer.write_all(&gathered.finish())?;
    Ok(())
}

/// Returns a place for a piece. It has room for this many bytes, or for more.
fn new_piece(alloc: Global, len: usize) -> Result<FieldWriter, Memory>
    ensures { IfOk result (λ piece. piece ≡ []) }
{
    if len <= LONGEST_PIECE {
        return FieldWriter::with_capacity(alloc, LONGEST_PIECE);
    }
    FieldWriter::with_capacity(alloc, len)
}

/// Writes what was gathered if `len` more bytes would make the piece too long. Returns what is not written.
fn make_room<W: io::Write>(
    alloc: Global,
    gathered: FieldWriter,
    len: usize,
    writer: &mut W,
) -> Result<FieldWriter, WriteFault>
    ensures { IfOk result (λ left. Sends (W.contents writer.old) (W.contents writer.new) left gathered) }
{
    if gathered.written().saturating_add(len) <= LONGEST_PIECE {
        return Ok(gathered);
    }
    send(gathered, writer)?;
    let piece = new_piece(alloc, len)?;
    Ok(piece)
}

/// Puts an item behind what was gathered, and writes before it what is to make room. Returns what is not written.
fn add<T: HasItem, W: io::Write>(
    alloc: Global,
    gathered: FieldWriter,
    item: &T,
    writer: &mut W,
) -> Result<FieldWriter, WriteFault>
    ensures { IfOk result (λ left. Sends (W.contents writer.old) (W.contents writer.new) left (gathered ++ bytes_text (spelling (T.piece item.now).fields))) }
{
    let mut piece = make_room(
        alloc,
        gathered,
        item.encoded_len().saturating_add(4),
        writer,
    )?;
    item.write(&mut piece)?;
    Ok(piece)
}

/// Puts the items behind what was gathered, and writes what makes whole pieces. Returns what is not written.
fn add_each<T: HasItem, W: io::Write>(
    alloc: Global,
    front: FieldWriter,
    items: &[T],
    writer: &mut W,
) -> Result<FieldWriter, WriteFault>
    ensures { IfOk result (λ left. Sends (W.contents writer.old) (W.contents writer.new) left (front ++ flat_map (λ x. bytes_text (spelling (T.piece x).fields)) items.now)) }
{
    let mut gathered = front;
    for x in items {
        gathered = add(alloc, gathered, x, writer)?;
    }
    Ok(gathered)
}

/// Returns what stands in front of the items: the eight bytes, and how many items there are.
fn front_of(alloc: Global, magic: [u8; 8], count: u64) -> Result<FieldWriter, Memory>
    ensures { IfOk result (λ front. front ≡ magic ++ to_be_bytes w64 count) }
{
    let mut front = new_piece(alloc, 16)?;
    front.rest(&magic)?;
    front.u64(count)?;
    Ok(front)
}

/// Writes the container of the items in their order, in pieces. It holds one piece of it at a time. After a fault it is not known how
/// much was written.
pub fn write_pieces<T: HasItem, W: io::Write>(
    alloc: Global,
    magic: [u8; 8],
    items: &[T],
    writer: &mut W,
) -> Result<(), WriteFault>
    ensures { OnOk result (Appends (W.contents writer.old) (W.contents writer.new) (container_text magic (map (λ x. spelling (T.piece x).fields) items.now))) }
{
    let front = front_of(alloc, magic, items.len() as u64)?;
    let last = add_each(alloc, front, items, writer)?;
    send(last, writer)?;
    Ok(())
}
