//! Reading records and beginnings from bytes. All fields are read once before one is copied, so a fault is reported even if
//! memory runs out.

ghost use Rattle.std.specs.Prelude.{◌≡◌, IfErr, IfOk, IsOk};
ghost use Rattle.outcome.specs.Outcome.{Gives, Reads};
ghost use Rattle.node_journals.specs.Beginnings.{FitsBeginning, beginning_of, beginning_text};
ghost use Rattle.node_journals.specs.Records.{FitsRecord, ack_at, ended, key_at, kind_at, received_at, recorded_of, recorded_text, ticked_at};
ghost use Rattle.node_journals.specs.declared.beginning.Beginning.{Beginning as TheBeginning};
ghost use Rattle.node_journals.specs.declared.fault.RecordFault.TheVariants.{Memory};
ghost use Rattle.node_journals.specs.declared.recorded.Recorded.{Recorded as TheRecorded};

use crate::beginning::{Beginning, LONGEST_NAME, MAGIC};
use crate::fault::RecordFault;
use crate::laws::{beginnings_read_back, records_read_back};
use crate::recorded::Recorded;
use authenticators::{LONGEST_SIGNATURE_TEXT, NodeId};
use item_forms::laws::framed_items_read_back;
use item_forms::{Fields, read_framed, scan_framed};
use lms_sign::PublicKey;
use log_chain::laws::bytes_fit;
use log_chain::{ByteString, FieldReader};
use messages::Ack;
use std::alloc::Global;

#[tactic(auto, unfolding(crate::specs::Records::received_at))]
fn read_received(alloc: Global, reader: &mut FieldReader) -> Result<Recorded, RecordFault>
    ensures gives { Gives Memory (λ r. r) result (ended (received_at reader.old)) }
    ensures told { IfErr result (λ e. e ≡ Memory → IsOk (ended (received_at reader.old))) }
{
    framed_items_read_back();
    let entropy = reader.hash()?;
    let mut ahead = FieldReader::new(reader.as_slice());
    bytes_fit(ahead.as_slice());
    scan_framed(Some(4), &mut ahead)?;
    if ahead.left() > 0 {
        return Err(RecordFault::Trailing);
    }
    let item = read_framed(alloc, Some(4), reader)?;
    match item.into_fields() {
        Fields::Send(message) => Ok(Recorded::Received(message, entropy.0)),
        _ => Err(RecordFault::BadTag),
    }
}

#[tactic(auto, unfolding(crate::specs::Records::ticked_at))]
fn read_ticked(reader: &mut FieldReader) -> Result<Recorded, RecordFault>
    ensures gives { Gives Memory (λ r. r) result (ended (ticked_at reader.old)) }
    ensures told { IfErr result (λ e. e ≡ Memory → IsOk (ended (ticked_at reader.old))) }
{
    let entropy = reader.hash()?;
    let moment = reader.u64()?;
    if reader.left() > 0 {
        return Err(RecordFault::Trailing);
    }
    Ok(Recorded::Ticked(moment, entropy.0))
}

#[tactic(auto, unfolding(crate::specs::Records::ack_at))]
fn read_ack(alloc: Global, reader: &mut FieldReader) -> Result<Recorded, RecordFault>
    ensures gives { Gives Memory (λ r. r) result (ended (ack_at reader.old)) }
    ensures told { IfErr result (λ e. e ≡ Memory → IsOk (ended (ack_at reader.old))) }
{
    let from = reader.u32()?;
    let send_seq = reader.u64()?;
    let seq = reader.u64()?;
    let prev = reader.hash()?;
    let sig = reader.bytes(LONGEST_SIGNATURE_TEXT)?;
    if reader.left() > 0 {
        return Err(RecordFault::Trailing);
    }
    let sig = ByteString::from_slice(alloc, sig)?;
    Ok(Recorded::Acknowledged(Ack {
        from: NodeId(from),
        send_seq,
        seq,
        prev,
        sig,
    }))
}

#[tactic(auto, unfolding(crate::specs::Records::key_at))]
fn read_key(reader: &mut FieldReader) -> Result<PublicKey, RecordFault>
    ensures reads { Reads (λ key. key) result reader.old reader.new (key_at reader.old) }
    ensures lent { IfErr result (λ e. e ≡ Memory → ⊥) }
{
    let mut ahead = FieldReader::new(reader.as_slice());
    let text = ahead.take(56)?;
    let key = PublicKey::from_bytes(text)?;
    *reader = ahead;
    Ok(key)
}

#[tactic(auto, unfolding(crate::specs::Records::kind_at))]
fn read_kind(alloc: Global, kind: u8, reader: &mut FieldReader) -> Result<Recorded, RecordFault>
    ensures gives { Gives Memory (λ r. r) result (ended (kind_at kind reader.old)) }
    ensures told { IfErr result (λ e. e ≡ Memory → IsOk (ended (kind_at kind reader.old))) }
{
    match kind {
        1 => read_received(alloc, reader),
        2 => read_ticked(reader),
        3 => {
            if reader.left() > 0 {
                return Err(RecordFault::Trailing);
            }
            Ok(Recorded::Checkpointed)
        }
        4 => read_ack(alloc, reader),
        5 => {
            let key = read_key(reader)?;
            if reader.left() > 0 {
                return Err(RecordFault::Trailing);
            }
            Ok(Recorded::Rekeyed(key))
        }
        _ => Err(RecordFault::BadTag),
    }
}

#[tactic(auto, unfolding(crate::specs::Records::recorded_of))]
fn read_recorded(alloc: Global, bytes: &[u8]) -> Result<Recorded, RecordFault>
    ensures gives { Gives Memory (λ r. r) result (recorded_of bytes.now) }
    ensures told { IfErr result (λ e. e ≡ Memory → IsOk (recorded_of bytes.now)) }
{
    let mut reader = FieldReader::new(bytes);
    let kind = reader.u8()?;
    let recorded = read_kind(alloc, kind, &mut reader)?;
    Ok(recorded)
}

impl Recorded {
    /// Reads the encoding of a record, as [`Recorded::to_bytes`] writes it. It reports the leftmost fault:
    ///
    /// - `Truncated` (40), if the bytes end within a field.
    /// - `BadTag` (41), if the kind is not 1 to 5, or the item is no send challenge.
    /// - `TooLong` (42), if a length is above its limit.
    /// - `UnknownLmsType` (2) or `UnknownOtsType` (3), if a key has an unknown type.
    /// - `Trailing` (43), if bytes are left over.
    ///
    /// `Memory` (99) may come in place of a record, but not in place of a fault.
    pub fn from_bytes(alloc: Global, bytes: &[u8]) -> Result<Recorded, RecordFault>
        // The bytes are the encoding of what is read.
        ensures found { IfOk result (λ r. FitsRecord r × (bytes.now ≡ recorded_text r)) }
        // An encoding is read, unless memory runs out.
        ensures only { (r : TheRecorded) → FitsRecord r → bytes.now ≡ recorded_text r → Gives Memory (λ x. x) result (Ok r) }
        // The fault is the one that is defined.
        ensures exact { Gives Memory (λ r. r) result (recorded_of bytes.now) }
        // Each fault is reported even if memory runs out.
        ensures told { IfErr result (λ e. e ≡ Memory → IsOk (recorded_of bytes.now)) }
    {
        records_read_back();
        bytes_fit(bytes);
        read_recorded(alloc, bytes)
    }
}

#[tactic(auto, unfolding(crate::specs::Beginnings::beginning_of, crate::specs::Beginnings::beginning_at, crate::specs::Beginnings::magic_at))]
fn read_beginning(alloc: Global, bytes: &[u8]) -> Result<Beginning, RecordFault>
    ensures gives { Gives Memory (λ b. b) result (beginning_of bytes.now) }
    ensures told { IfErr result (λ e. e ≡ Memory → IsOk (beginning_of bytes.now)) }
{
    let mut reader = FieldReader::new(bytes);
    let front = reader.take(8)?;
    if front != MAGIC.as_slice() {
        return Err(RecordFault::BadMagic);
    }
    let me = reader.u32()?;
    let first_seq = reader.u64()?;
    let directory = reader.hash()?;
    let key = read_key(&mut reader)?;
    let program = reader.bytes(LONGEST_NAME)?;
    if reader.left() > 0 {
        return Err(RecordFault::Trailing);
    }
    let program = ByteString::from_slice(alloc, program)?;
    Ok(Beginning {
        me: NodeId(me),
        first_seq,
        directory,
        key,
        program,
    })
}

impl Beginning {
    /// Reads the first text of a node's journal, as [`Beginning::to_bytes`] writes it. It reports the leftmost fault:
    ///
    /// - `Truncated` (40), if the bytes end within a field.
    /// - `BadMagic` (60), if the first eight bytes are not `PRNODEJ1`.
    /// - `UnknownLmsType` (2) or `UnknownOtsType` (3), if the key has an unknown type.
    /// - `TooLong` (42), if the program's name is above 255 bytes.
    /// - `Trailing` (43), if bytes are left over.
    ///
    /// `Memory` (99) may come in place of a beginning, but not in place of a fault.
    pub fn from_bytes(alloc: Global, bytes: &[u8]) -> Result<Beginning, RecordFault>
        // The bytes are the encoding of what is read.
        ensures found { IfOk result (λ b. FitsBeginning b × (bytes.now ≡ beginning_text b)) }
        // An encoding is read, unless memory runs out.
        ensures only { (b : TheBeginning) → FitsBeginning b → bytes.now ≡ beginning_text b → Gives Memory (λ x. x) result (Ok b) }
        // The fault is the one that is defined.
        ensures exact { Gives Memory (λ b. b) result (beginning_of bytes.now) }
        // Each fault is reported even if memory runs out.
        ensures told { IfErr result (λ e. e ≡ Memory → IsOk (beginning_of bytes.now)) }
    {
        beginnings_read_back();
        bytes_fit(bytes);
        read_beginning(alloc, bytes)
    }
}
