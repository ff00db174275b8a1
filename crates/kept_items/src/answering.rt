//! What answers a challenge to acknowledge a message.

ghost use Rattle.std.specs.Prelude.{◌≡◌};
ghost use Rattle.kept_entries.specs.Shared.{entries_of};
ghost use Rattle.kept_evidence.specs.Telling.{is_told_receipt, told_receipt};
ghost use Rattle.kept_items.specs.within.Shared.{quotes_of};

use crate::handle::Handle;
use evidence_item::Message;
use kept_entries::SharedEntry;
use replay_verifier::Receipt;

/// Returns whether the entry is the receipt of a message with the sender and the number of this one.
fn is_receipt_of(message: &Message, shared: &SharedEntry) -> bool
    ensures { result ≡ is_told_receipt message.now shared.now.entry shared.now.quoted }
{
    if shared.quoted().is_none() {
        return false;
    }
    let Some(receipt) = Receipt::read(shared.content()) else {
        return false;
    };
    receipt.from == message.from && receipt.seq == message.seq
}

/// Returns whether one of the entries is such a receipt.
pub(crate) fn have_receipt_of(message: &Message, handles: &[Handle]) -> bool
    ensures { result ≡ told_receipt message.now (entries_of handles.now) (quotes_of handles.now) }
{
    for handle in handles {
        if is_receipt_of(message, handle.get()) {
            return true;
        }
    }
    false
}
