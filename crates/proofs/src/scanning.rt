//! Checks of encodings without memory. A call goes over each part from left to right, and copies none.

ghost use Rattle.std.specs.Prelude.{◌≡◌, IfErr};
ghost use Rattle.item_forms.specs.Skipping.{Skips, TakesNoMemory, without_value};
ghost use Rattle.proofs.specs.ProofTexts.{auth_part_at, auth_segment_at, form_parts_at, nonconforming_at, proof_at, proof_of, segment_part_at, two_auths_at};

use evidence_item::DecodeFault;
use item_forms::laws::framed_items_read_back;
use item_forms::scan_framed;
use log_chain::FieldReader;
use log_chain::laws::bytes_fit;

fn skip_auth_part(reader: &mut FieldReader) -> Result<(), DecodeFault>
    ensures skips { Skips result reader.new (auth_part_at reader.old) }
    ensures lent { IfErr result TakesNoMemory }
{
    framed_items_read_back();
    bytes_fit(reader.as_slice());
    scan_framed(Some(1), reader)
}

fn skip_segment_part(reader: &mut FieldReader) -> Result<(), DecodeFault>
    ensures skips { Skips result reader.new (segment_part_at reader.old) }
    ensures lent { IfErr result TakesNoMemory }
{
    framed_items_read_back();
    bytes_fit(reader.as_slice());
    scan_framed(Some(2), reader)
}

#[tactic(auto, unfolding(crate::specs::ProofTexts::two_auths_at))]
fn skip_two_auths(reader: &mut FieldReader) -> Result<(), DecodeFault>
    ensures skips { Skips result reader.new (two_auths_at reader.old) }
    ensures lent { IfErr result TakesNoMemory }
{
    skip_auth_part(reader)?;
    skip_auth_part(reader)
}

#[tactic(auto, unfolding(crate::specs::ProofTexts::auth_segment_at))]
fn skip_auth_segment(reader: &mut FieldReader) -> Result<(), DecodeFault>
    ensures skips { Skips result reader.new (auth_segment_at reader.old) }
    ensures lent { IfErr result TakesNoMemory }
{
    skip_auth_part(reader)?;
    skip_segment_part(reader)
}

#[tactic(auto, unfolding(crate::specs::ProofTexts::nonconforming_at))]
fn skip_nonconforming(reader: &mut FieldReader) -> Result<(), DecodeFault>
    ensures skips { Skips result reader.new (nonconforming_at reader.old) }
    ensures lent { IfErr result TakesNoMemory }
{
    skip_segment_part(reader)
}

#[tactic(auto, unfolding(crate::specs::ProofTexts::form_parts_at))]
fn skip_form_parts(form: u8, reader: &mut FieldReader) -> Result<(), DecodeFault>
    ensures skips { Skips result reader.new (form_parts_at form reader.old) }
    ensures lent { IfErr result TakesNoMemory }
{
    match form {
        1 => skip_two_auths(reader),
        2 => skip_auth_segment(reader),
        3 => skip_nonconforming(reader),
        _ => Err(DecodeFault::BadTag),
    }
}

#[tactic(auto, using(item_forms::proofs::Skipped::field_lends), unfolding(crate::specs::ProofTexts::proof_at))]
fn skip_proof(reader: &mut FieldReader) -> Result<(), DecodeFault>
    ensures skips { Skips result reader.new (proof_at reader.old) }
    ensures lent { IfErr result TakesNoMemory }
{
    let form = reader.u8()?;
    skip_form_parts(form, reader)
}

/// Checks that all the bytes are a proof's encoding. It reports the same faults as `Proof::decode`, but never `Memory`: it takes no memory.
#[tactic(auto, unfolding(crate::specs::ProofTexts::proof_of))]
pub(crate) fn scan(bytes: &[u8]) -> Result<(), DecodeFault>
    ensures scans { result ≡ without_value (proof_of bytes.now) }
    ensures lent { IfErr result TakesNoMemory }
{
    let mut reader = FieldReader::new(bytes);
    skip_proof(&mut reader)?;
    if reader.left() != 0 {
        return Err(DecodeFault::Trailing);
    }
    Ok(())
}
