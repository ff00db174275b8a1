//! Checks of encodings without memory. A call goes over each field from left to right, and copies none. So bytes with a fault are
//! refused before anything of them is kept.

ghost use Rattle.std.specs.Prelude.{◌≡◌, IfErr};
ghost use Rattle.outcome.specs.Outcome.{told_as};
ghost use Rattle.log_chain.specs.Fields.{bytes_at, counted_at, parts_at};
ghost use Rattle.item_forms.specs.Reading.{ack_at, audit_at, auth_at, entry_at, flagged_at, form_at, item_at, item_of, message_at, optional_at, segment_at, statement_at};
ghost use Rattle.item_forms.specs.Refusals.{of_field};
ghost use Rattle.item_forms.specs.Skipping.{Skips, TakesNoMemory, without_value};

use crate::fault::DecodeFault;
use crate::item::Item;
use authenticators::LONGEST_SIGNATURE_TEXT;
use log_chain::{FieldReader, LONGEST_CONTENT, MOST_ENTRIES};
use messages::LONGEST_PAYLOAD;

#[tactic(auto, using(crate::proofs::Skipped::field_lends), unfolding(crate::specs::Reading::statement_at))]
fn skip_statement(reader: &mut FieldReader) -> Result<(), DecodeFault>
    ensures skips { Skips result reader.new (statement_at reader.old) }
    ensures lent { IfErr result TakesNoMemory }
{
    let _seq = reader.u64()?;
    let _hash = reader.hash()?;
    let _sig = reader.bytes(LONGEST_SIGNATURE_TEXT)?;
    Ok(())
}

#[tactic(auto, using(crate::proofs::Skipped::field_lends), unfolding(crate::specs::Reading::entry_at))]
fn skip_entry(reader: &mut FieldReader) -> Result<(), DecodeFault>
    ensures skips { Skips result reader.new (entry_at reader.old) }
    ensures lent { IfErr result TakesNoMemory }
{
    let _seq = reader.u64()?;
    let _kind = reader.u8()?;
    let _content = reader.bytes(LONGEST_CONTENT)?;
    Ok(())
}

fn skip_some(count: u32, reader: &mut FieldReader) -> Result<(), DecodeFault>
    ensures skips { Skips result reader.new (parts_at entry_at count reader.old) }
    ensures lent { IfErr result TakesNoMemory }
{
    for _ in 0..count {
        skip_entry(reader)?;
    }
    Ok(())
}

#[tactic(auto, using(crate::proofs::Skipped::field_lends), unfolding(log_chain::specs::Fields::counted_at))]
fn skip_entries(reader: &mut FieldReader) -> Result<(), DecodeFault>
    ensures skips { Skips result reader.new (counted_at of_field MOST_ENTRIES entry_at reader.old) }
    ensures lent { IfErr result TakesNoMemory }
{
    let count = reader.u32()?;
    if count as usize > MOST_ENTRIES {
        return Err(DecodeFault::TooLong);
    }
    skip_some(count, reader)
}

#[tactic(auto, using(crate::proofs::Skipped::field_lends), unfolding(crate::specs::Reading::flagged_at))]
fn skip_flagged(flag: u8, reader: &mut FieldReader) -> Result<(), DecodeFault>
    ensures skips { Skips result reader.new (flagged_at flag reader.old) }
    ensures lent { IfErr result TakesNoMemory }
{
    match flag {
        0 => Ok(()),
        1 => skip_statement(reader),
        _ => Err(DecodeFault::BadTag),
    }
}

#[tactic(auto, using(crate::proofs::Skipped::field_lends), unfolding(crate::specs::Reading::optional_at))]
fn skip_optional(reader: &mut FieldReader) -> Result<(), DecodeFault>
    ensures skips { Skips result reader.new (optional_at reader.old) }
    ensures lent { IfErr result TakesNoMemory }
{
    let flag = reader.u8()?;
    skip_flagged(flag, reader)
}

#[tactic(auto, using(crate::proofs::Skipped::field_lends), unfolding(crate::specs::Reading::auth_at))]
fn skip_auth(reader: &mut FieldReader) -> Result<(), DecodeFault>
    ensures skips { Skips result reader.new (auth_at reader.old) }
    ensures lent { IfErr result TakesNoMemory }
{
    let _node = reader.u32()?;
    let _seq = reader.u64()?;
    let _hash = reader.hash()?;
    let _sig = reader.bytes(LONGEST_SIGNATURE_TEXT)?;
    Ok(())
}

#[tactic(auto, using(crate::proofs::Skipped::field_lends), unfolding(crate::specs::Reading::segment_at))]
fn skip_segment(reader: &mut FieldReader) -> Result<(), DecodeFault>
    ensures skips { Skips result reader.new (segment_at reader.old) }
    ensures lent { IfErr result TakesNoMemory }
{
    let _node = reader.u32()?;
    let _prev = reader.hash()?;
    skip_entries(reader)?;
    let _sig = reader.bytes(LONGEST_SIGNATURE_TEXT)?;
    Ok(())
}

#[tactic(auto, using(crate::proofs::Skipped::field_lends), unfolding(crate::specs::Reading::audit_at))]
fn skip_audit(reader: &mut FieldReader) -> Result<(), DecodeFault>
    ensures skips { Skips result reader.new (audit_at reader.old) }
    ensures lent { IfErr result TakesNoMemory }
{
    let _node = reader.u32()?;
    skip_optional(reader)?;
    skip_statement(reader)
}

#[tactic(auto, using(crate::proofs::Skipped::field_lends), unfolding(crate::specs::Reading::message_at))]
fn skip_message(reader: &mut FieldReader) -> Result<(), DecodeFault>
    ensures skips { Skips result reader.new (message_at reader.old) }
    ensures lent { IfErr result TakesNoMemory }
{
    let _from = reader.u32()?;
    let _to = reader.u32()?;
    let _seq = reader.u64()?;
    let _prev = reader.hash()?;
    let _sig = reader.bytes(LONGEST_SIGNATURE_TEXT)?;
    let _payload = reader.bytes(LONGEST_PAYLOAD)?;
    Ok(())
}

#[tactic(auto, using(crate::proofs::Skipped::field_lends), unfolding(crate::specs::Reading::ack_at))]
fn skip_ack(reader: &mut FieldReader) -> Result<(), DecodeFault>
    ensures skips { Skips result reader.new (ack_at reader.old) }
    ensures lent { IfErr result TakesNoMemory }
{
    skip_message(reader)?;
    let _seq = reader.u64()?;
    let _prev = reader.hash()?;
    let _sig = reader.bytes(LONGEST_SIGNATURE_TEXT)?;
    Ok(())
}

#[tactic(auto, using(crate::proofs::Skipped::field_lends), unfolding(crate::specs::Reading::form_at))]
fn skip_form(tag: u8, reader: &mut FieldReader) -> Result<(), DecodeFault>
    ensures skips { Skips result reader.new (form_at tag reader.old) }
    ensures lent { IfErr result TakesNoMemory }
{
    match tag {
        1 => skip_auth(reader),
        2 => skip_segment(reader),
        3 => skip_audit(reader),
        4 => skip_message(reader),
        5 => skip_ack(reader),
        _ => Err(DecodeFault::BadTag),
    }
}

#[tactic(auto, using(crate::proofs::Skipped::field_lends), unfolding(crate::specs::Reading::item_at))]
fn skip_item(reader: &mut FieldReader) -> Result<(), DecodeFault>
    ensures skips { Skips result reader.new (item_at reader.old) }
    ensures lent { IfErr result TakesNoMemory }
{
    let tag = reader.u8()?;
    skip_form(tag, reader)
}

impl Item {
    /// Checks that all the bytes are an item's encoding. It reports the same faults as [`Item::decode`], but never `Memory`: it takes no
    /// memory.
    #[tactic(auto, using(crate::proofs::Skipped::field_lends), unfolding(crate::specs::Reading::item_of))]
    pub fn scan(bytes: &[u8]) -> Result<(), DecodeFault>
        ensures scans { result ≡ without_value (item_of bytes.now) }
        ensures lent { IfErr result TakesNoMemory }
    {
        let mut reader = FieldReader::new(bytes);
        skip_item(&mut reader)?;
        if reader.left() != 0 {
            return Err(DecodeFault::Trailing);
        }
        Ok(())
    }
}
