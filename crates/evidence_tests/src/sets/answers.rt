//! What answers a send challenge. Nothing runs here: the contract of each function is a fact of the definitions.

ghost use Rattle.std.specs.Prelude.{◌≡◌, ◌≢◌, Some};
ghost use Rattle.std.specs.List.{Contains};
ghost use Rattle.log_chain.specs.declared.entry.Entry.{Entry};
ghost use Rattle.log_chain.specs.declared.kind.TheConstants.{RECV};
ghost use Rattle.authenticators.specs.Directory.{Listing};
ghost use Rattle.replay_verifier.specs.Quotes.{IsGenuine, Quote, receipt_of};
ghost use Rattle.messages.specs.declared.message.Message.{Message};
ghost use Rattle.item_forms.specs.declared.forms.AckItem.{AckItem};
ghost use Rattle.item_forms.specs.declared.forms.Fields.TheVariants as form;
ghost use Rattle.item_forms.specs.declared.forms.Segment.{Segment};
ghost use Rattle.evidence_set.specs.Challenges.{Answers};

use std::test::Fail;

/// An acknowledgement answers where its message has the challenge's sender, receiver and number, whatever else the message says;
/// one of another sender, receiver or number does not.
fn acknowledgements_answer()
    ensures same { (ds : Listing) (m : Message) (a : AckItem) → a.message.from ≡ m.from → a.message.to ≡ m.to → a.message.seq ≡ m.seq → Answers ds (form.Send m) (form.Ack a) }
    ensures sender { (ds : Listing) (m : Message) (a : AckItem) → a.message.from ≢ m.from → Answers ds (form.Send m) (form.Ack a) → ⊥ }
    ensures receiver { (ds : Listing) (m : Message) (a : AckItem) → a.message.to ≢ m.to → Answers ds (form.Send m) (form.Ack a) → ⊥ }
    ensures number { (ds : Listing) (m : Message) (a : AckItem) → a.message.seq ≢ m.seq → Answers ds (form.Send m) (form.Ack a) → ⊥ }
{}

/// A segment of the receiver answers by a RECV entry of the challenge's sender and number that the sender signed, whatever else it
/// quotes; one without a signed quote does not.
fn receipts_answer()
    ensures signed { (ds : Listing) (m : Message) (s : Segment) (e : Entry) (q : Quote) → s.node ≡ m.to → Contains s.entries e → e.kind ≡ RECV → receipt_of e.content ≡ Some q → q.from ≡ m.from → q.seq ≡ m.seq → IsGenuine ds s.node q → Answers ds (form.Send m) (form.Segment s) }
    ensures unsigned { (ds : Listing) (m : Message) (s : Segment) → ((e : Entry) (q : Quote) → Contains s.entries e → receipt_of e.content ≡ Some q → IsGenuine ds s.node q → ⊥) → Answers ds (form.Send m) (form.Segment s) → ⊥ }
{}

#[test]
fn what_answers_a_send_challenge(_rt: HostRuntime) -> Result<(), Fail> {
    acknowledgements_answer();
    receipts_answer();
    Ok(())
}
