//! What an entry says.

use crate::rows::Place;
use authenticators::NodeId;
use log_chain::kind::{RECV, SEND};
use log_chain::{Entry, Hash};
use sentences::{MOST_SHOWN, Said, Shown};

/// What is known of an entry beside its number and hash.
#[derive(Clone, Copy, Debug)]
pub struct Detail {
    /// The hash before it in its log.
    pub prev: Hash,
    /// Its kind.
    pub kind: u8,
    /// What it says beside its payload.
    pub said: Said,
    pub(crate) beginning: [u8; MOST_SHOWN],
    pub(crate) size: usize,
}

/// Returns the beginning of these bytes.
fn beginning_of(bytes: &[u8]) -> [u8; MOST_SHOWN] {
    let mut beginning = [0; MOST_SHOWN];
    for (to, from) in beginning.iter_mut().zip(bytes) {
        *to = *from;
    }
    beginning
}

impl Detail {
    /// Returns the detail of an entry of this kind that follows this hash.
    fn new(prev: Hash, kind: u8, said: Said, payload: &[u8]) -> Detail {
        Detail {
            prev,
            kind,
            said,
            beginning: beginning_of(payload),
            size: payload.len(),
        }
    }

    /// Returns the detail of an entry that follows this hash.
    pub(crate) fn of_entry(prev: Hash, entry: &Entry) -> Detail {
        let (said, payload) = Said::read(entry.kind, entry.content.as_slice());
        Detail::new(prev, entry.kind, said, payload)
    }

    /// Returns the detail of the SEND entry of a message.
    pub(crate) fn of_send(prev: Hash, to: NodeId, payload: &[u8]) -> Detail {
        Detail::new(prev, SEND, Said::To(to), payload)
    }

    /// Returns the detail of the RECV entry that quotes another entry.
    pub(crate) fn of_recv(prev: Hash, quoted: &Place, payload: &[u8]) -> Detail {
        Detail::new(prev, RECV, Said::From(quoted.node, quoted.seq), payload)
    }

    /// Returns the payload, or the whole content if it says nothing: the first 64 bytes, and how many there are.
    pub fn shown(&self) -> Shown<'_> {
        Shown {
            bytes: self.beginning.get(..self.size).unwrap_or(&self.beginning),
            size: self.size,
        }
    }
}
