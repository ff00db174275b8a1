//! Laws over the definitions of `mailbox`. Each law is a function that does nothing. Its contract is the law.
//!
//! A program need not have such laws. They show that the definitions say what a user of the relay expects.
#![tactic(auto)]

ghost use Rattle.mailbox_laws.specs.MailLaws.{AnswersAreNotAnswered, FetchesAreSent, OldMailsAreDropped, RequestsAreUnderstood, TextsAreWritten, TextsArrive};

/// If a text is not too long and is left while there is room, a fetch of its receiver right after it is answered with this text.
pub fn texts_arrive()
    ensures { TextsArrive }
{}

/// All answers to a fetch are sent if its sender is another listed node.
pub fn fetches_are_sent()
    ensures { FetchesAreSent }
{}

/// After a time of the timer, the node holds no mail that came more than `LIFETIME` before it.
pub fn old_mails_are_dropped()
    ensures { OldMailsAreDropped }
{}

/// A node does not answer what another node answers, and is not changed by it.
pub fn answers_are_not_answered()
    ensures { AnswersAreNotAnswered }
{}

/// A node that leaves its draft sends one message, which the relay takes as this text for this node. A node that fetches sends one message,
/// which the relay takes as a fetch.
pub fn requests_are_understood()
    ensures { RequestsAreUnderstood }
{}

/// After the moments that write a text, the text is at the end of the draft if it fits, and the node has sent nothing.
pub fn texts_are_written()
    ensures { TextsAreWritten }
{}
