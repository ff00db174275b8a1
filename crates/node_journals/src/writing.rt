//! Writing records as bytes.

ghost use Rattle.std.specs.Prelude.{◌≡◌, ◌++◌, IfOk, OnOk};
ghost use Rattle.node_journals.specs.Records.{FitsRecord, FitsRecordedAck, ack_text, recorded_text};

use crate::recorded::Recorded;
use item_forms::{Form, write_framed};
use log_chain::FieldWriter;
use messages::Ack;
use outcome::Memory;
use std::alloc::Global;

fn put_ack(writer: &mut FieldWriter, ack: &Ack) -> Result<(), Memory>
    requires { FitsRecordedAck ack.now }
    ensures { OnOk result (writer.new ≡ writer.old ++ ack_text ack.now) }
{
    writer.u32(ack.from.0)?;
    writer.u64(ack.send_seq)?;
    writer.u64(ack.seq)?;
    writer.hash(ack.prev)?;
    writer.bytes(ack.sig.as_slice())?;
    Ok(())
}

fn put_recorded(writer: &mut FieldWriter, recorded: &Recorded) -> Result<(), Memory>
    requires { FitsRecord recorded.now }
    ensures { OnOk result (writer.new ≡ writer.old ++ recorded_text recorded.now) }
{
    match recorded {
        Recorded::Received(message, entropy) => {
            writer.u8(1)?;
            writer.rest(entropy)?;
            write_framed(writer, Form::Send(message))?;
        }
        Recorded::Ticked(moment, entropy) => {
            writer.u8(2)?;
            writer.rest(entropy)?;
            writer.u64(*moment)?;
        }
        Recorded::Checkpointed => {
            writer.u8(3)?;
        }
        Recorded::Acknowledged(ack) => {
            writer.u8(4)?;
            put_ack(writer, ack)?;
        }
        Recorded::Rekeyed(key) => {
            writer.u8(5)?;
            writer.rest(&key.to_bytes())?;
        }
    }
    Ok(())
}

impl Recorded {
    /// Writes the encoding of the record. The error means that memory ran out.
    pub fn to_bytes(&self, alloc: Global) -> Result<Vec<u8>, Memory>
        requires { FitsRecord self.now }
        ensures { IfOk result (λ text. text.items ≡ recorded_text self.now) }
    {
        let mut writer = FieldWriter::new(alloc);
        put_recorded(&mut writer, self)?;
        Ok(writer.finish())
    }
}
