//! What lies behind handles.

use commitment::Node;
use indexed_store::IndexedStore;
use mailbox::Mailbox;
use ref_programs::{Relay, Tally};

/// What lies behind a handle.
#[derive(Drop)]
pub enum Object {
    /// A store of evidence, whose nodes follow Tally. Beside it is the SHA-256, in hexadecimal digits, of the encoding of its directory by which
    /// it was opened.
    TallyStore(IndexedStore<Tally>, [u8; 64]),
    /// A store of evidence, whose nodes follow Relay. Beside it is the SHA-256, in hexadecimal digits, of the encoding of its directory by which
    /// it was opened.
    RelayStore(IndexedStore<Relay>, [u8; 64]),
    /// A store of evidence, whose nodes follow Mailbox. Beside it is the SHA-256, in hexadecimal digits, of the encoding of its directory by
    /// which it was opened.
    MailboxStore(IndexedStore<Mailbox>, [u8; 64]),
    /// A node that follows Tally.
    TallyNode(Node<Tally>),
    /// A node that follows Relay.
    RelayNode(Node<Relay>),
    /// A node that follows Mailbox.
    MailboxNode(Node<Mailbox>),
    /// Bytes that a call gave.
    Text(Vec<u8>),
}
