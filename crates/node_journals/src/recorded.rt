//! Records: what a node is given by one call.

ghost use Rattle.std.specs.Prelude.{◌≡◌, ◌↔◌, IsTrue};
ghost use Rattle.lms_sign.specs.KeyText.{IsKey};
ghost use Rattle.log_chain.specs.Fields.{IsBytesUpTo};
ghost use Rattle.item_forms.specs.Spelling.{FitsMessage};
ghost use Rattle.node_journals.specs.Records.{FitsRecord, FitsRecordedAck};

use authenticators::LONGEST_SIGNATURE_TEXT;
use lms_sign::PublicKey;
use log_chain::ByteString;
use log_chain::laws::{bytes_fit, hash_fits};
use messages::{Ack, LONGEST_PAYLOAD, Message};

/// What a node is given by one call. An answer to a send challenge is recorded as the receipt of its message. An answer to an
/// audit challenge changes nothing of a node, and has no record.
#[derive(Debug, Drop)]
pub enum Recorded {
    /// A message, and the entropy of the call in 32 bytes.
    Received(Message, [u8; 32]),
    /// A tick of the timer at a moment, and the entropy of the call in 32 bytes.
    Ticked(u64, [u8; 32]),
    /// A checkpoint.
    Checkpointed,
    /// An acknowledgement.
    Acknowledged(Ack),
    /// The next key to sign with. No journal has its seed.
    Rekeyed(PublicKey),
}

/// Returns whether there are at most `most` bytes.
fn is_within(text: &ByteString, most: usize) -> bool
    ensures { IsTrue result ↔ IsBytesUpTo most text.now }
{
    bytes_fit(text.as_slice());
    text.len() <= most
}

fn message_fits(message: &Message) -> bool
    ensures { IsTrue result ↔ FitsMessage message.now }
{
    let _from = message.from.0;
    let _to = message.to.0;
    let _seq = message.seq;
    hash_fits(message.prev);
    is_within(&message.sig, LONGEST_SIGNATURE_TEXT) && is_within(&message.payload, LONGEST_PAYLOAD)
}

fn ack_fits(ack: &Ack) -> bool
    ensures { IsTrue result ↔ FitsRecordedAck ack.now }
{
    let _from = ack.from.0;
    let _send_seq = ack.send_seq;
    let _seq = ack.seq;
    hash_fits(ack.prev);
    is_within(&ack.sig, LONGEST_SIGNATURE_TEXT)
}

/// Shows that a key has an identifier of 16 bytes and a root of 32. It does nothing, and is called for the prover.
pub(crate) fn key_fits(key: PublicKey)
    ensures { IsKey key }
{
    let _id = key.id;
    let _root = key.root;
}

impl Recorded {
    /// Returns whether the record has an encoding: no signature in it has more than 9,325 bytes, and no payload more than
    /// 65,536. It takes no memory.
    pub fn fits(&self) -> bool
        ensures { IsTrue result ↔ FitsRecord self.now }
    {
        match self {
            Recorded::Received(message, entropy) => {
                bytes_fit(entropy);
                message_fits(message)
            }
            Recorded::Ticked(moment, entropy) => {
                let _moment = *moment;
                bytes_fit(entropy);
                true
            }
            Recorded::Checkpointed => true,
            Recorded::Acknowledged(ack) => ack_fits(ack),
            Recorded::Rekeyed(key) => {
                key_fits(*key);
                true
            }
        }
    }
}
