//! What the entries of a log say.

use crate::payload::{Payload, Shown, Voice};
use crate::words::Kind;
use authenticators::NodeId;
use log_chain::kind::{INIT, RECV, SEND, TIMER};
use log_chain::{Entry, FieldReader};
use replay_verifier::{Output, Receipt};
use std::fmt;

/// What an entry's content says beside its payload, by the entry's kind.
#[derive(Clone, Copy, Debug, PartialEq, Eq)]
pub enum Said {
    /// The node of an INIT.
    Node(NodeId),
    /// The node that a SEND goes to.
    To(NodeId),
    /// The node and the number of the entry that a RECV quotes.
    From(NodeId, u64),
    /// The moment of a TIMER.
    Moment(u64),
    /// Nothing. The entry is of another kind, or its content is none of its kind.
    Plain,
}

/// Returns what a SEND says, and its payload.
fn read_send(content: &[u8]) -> (Said, &[u8]) {
    let mut reader = FieldReader::new(content);
    match reader.u32() {
        Ok(to) => (Said::To(NodeId(to)), reader.rest()),
        Err(_) => (Said::Plain, content),
    }
}

/// Returns what a RECV says, and its payload.
fn read_recv(content: &[u8]) -> (Said, &[u8]) {
    match Receipt::read(content) {
        Some(receipt) => (Said::From(receipt.from, receipt.seq), receipt.payload),
        None => (Said::Plain, content),
    }
}

impl Said {
    /// Returns what a content says in an entry of this kind, and the payload. The payload of an INIT or a TIMER is empty. If the content
    /// says nothing, the payload is the whole content.
    pub fn read(kind: u8, content: &[u8]) -> (Said, &[u8]) {
        match (kind, content) {
            (SEND, _) => read_send(content),
            (RECV, _) => read_recv(content),
            (INIT, [a, b, c, d]) => {
                let node = u32::from_be_bytes([*a, *b, *c, *d]);
                (Said::Node(NodeId(node)), &[])
            }
            (TIMER, [a, b, c, d, e, g, h, i]) => {
                let moment = u64::from_be_bytes([*a, *b, *c, *d, *e, *g, *h, *i]);
                (Said::Moment(moment), &[])
            }
            _ => (Said::Plain, content),
        }
    }
}

/// What an entry's content says, behind the word for its kind.
#[derive(Drop)]
pub struct Content<'a, V> {
    /// What it says beside its payload.
    pub said: Said,
    /// The payload.
    pub payload: Payload<'a, V>,
}

/// Writes the content, such as `of node 1`, `to node 3 of "total"`, `of entry 4 of node 1, "5"`, `of the moment 7` or `with the bytes 00`.
impl<'a, V: Voice> fmt::Display for Content<'a, V> {
    fn fmt<W: fmt::Write>(&self, f: &mut fmt::Formatter<W>) -> fmt::Result {
        let payload = &self.payload;
        match self.said {
            Said::Node(node) => write!(f, "of node {node}"),
            Said::To(node) => write!(f, "to node {node} of {payload}"),
            Said::From(node, seq) => write!(f, "of entry {seq} of node {node}, {payload}"),
            Said::Moment(moment) => write!(f, "of the moment {moment}"),
            Said::Plain => {
                let shown = self.payload.shown;
                write!(f, "with {shown}")
            }
        }
    }
}

/// What an entry says.
#[derive(Drop)]
pub struct Logged<'a, V> {
    /// The voice that says a payload.
    pub voice: &'a V,
    /// The entry.
    pub entry: &'a Entry,
}

/// Writes the entry, such as `a SEND to node 3 of "total"`, `a RECV of entry 4 of node 1, "5"` or `a TIMER of the moment 7`.
impl<'a, V: Voice> fmt::Display for Logged<'a, V> {
    fn fmt<W: fmt::Write>(&self, f: &mut fmt::Formatter<W>) -> fmt::Result {
        let kind = Kind(self.entry.kind);
        let (said, payload) = Said::read(self.entry.kind, self.entry.content.as_slice());
        let payload = Payload {
            voice: self.voice,
            shown: Shown::of(payload),
        };
        let content = Content { said, payload };
        write!(f, "{kind} {content}")
    }
}

/// A message that a program sends.
#[derive(Drop)]
pub struct Sending<'a, V> {
    /// The voice that says a payload.
    pub voice: &'a V,
    /// The message.
    pub output: &'a Output,
}

/// Writes the message, such as `a SEND to node 3 of "total"`.
impl<'a, V: Voice> fmt::Display for Sending<'a, V> {
    fn fmt<W: fmt::Write>(&self, f: &mut fmt::Formatter<W>) -> fmt::Result {
        let kind = Kind(SEND);
        let payload = Payload {
            voice: self.voice,
            shown: Shown::of(self.output.payload.as_slice()),
        };
        let content = Content {
            said: Said::To(self.output.to),
            payload,
        };
        write!(f, "{kind} {content}")
    }
}
