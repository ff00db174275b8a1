//! The places of statements and segments in an input.

use authenticators::NodeId;
use std::fmt;

/// The kind of an input.
#[derive(Clone, Copy, Debug, PartialEq, Eq)]
pub enum Input {
    /// A store. Its places are those of its items.
    Store,
    /// Several stores. Their places are those of the items of their union.
    Union,
    /// A proof. Its places are those of its parts.
    Proof,
}

/// The role that a statement or a segment has in an item or in a part.
#[derive(Clone, Copy, Debug, PartialEq, Eq)]
pub enum Role {
    /// The item or the part is the statement.
    Statement,
    /// The item or the part is the segment.
    Segment,
    /// A segment of the node's log ends with the statement.
    End,
    /// An entry of another node's segment quotes the statement.
    Quoted {
        /// The node whose log has the entry.
        by: NodeId,
        /// The entry's number.
        entry: u64,
    },
    /// An audit challenge names the statement.
    Named,
    /// A send challenge has it as the sender's statement.
    Sent,
    /// An acknowledgement has it as the sender's statement.
    Acknowledged,
    /// An acknowledgement has it as the receiver's statement.
    Acknowledging,
}

/// A place in an input, and what stands there. Items and parts are counted from 1.
#[derive(Clone, Copy, Debug, PartialEq, Eq)]
pub struct Site {
    /// The kind of input that has the place.
    pub input: Input,
    /// The number of the item or of the part.
    pub place: u64,
    /// The role of what stands there.
    pub role: Role,
}

impl Site {
    /// Returns the place of an item of a store.
    pub fn item(place: u64, role: Role) -> Site {
        Site {
            input: Input::Store,
            place,
            role,
        }
    }

    /// Returns the place of a part of a proof.
    pub fn part(place: u64, role: Role) -> Site {
        Site {
            input: Input::Proof,
            place,
            role,
        }
    }
}

/// Writes the role, such as `a statement` or `a segment of node 3, whose entry 2 quotes it`.
impl fmt::Display for Role {
    fn fmt<W: fmt::Write>(&self, f: &mut fmt::Formatter<W>) -> fmt::Result {
        match self {
            Role::Statement => f.write_str("a statement"),
            Role::Segment => f.write_str("a segment"),
            Role::End => f.write_str("a segment that ends with it"),
            Role::Quoted { by, entry } => {
                write!(f, "a segment of node {by}, whose entry {entry} quotes it")
            }
            Role::Named => f.write_str("an audit challenge that names it"),
            Role::Sent => f.write_str("a send challenge with it"),
            Role::Acknowledged => f.write_str("an acknowledgement that quotes it"),
            Role::Acknowledging => f.write_str("an acknowledgement by it"),
        }
    }
}

/// Writes the place, such as `item 1, a statement` or `part 1, a segment`.
impl fmt::Display for Site {
    fn fmt<W: fmt::Write>(&self, f: &mut fmt::Formatter<W>) -> fmt::Result {
        let place = self.place;
        let role = self.role;
        match self.input {
            Input::Store | Input::Union => write!(f, "item {place}, {role}"),
            Input::Proof => write!(f, "part {place}, {role}"),
        }
    }
}

/// Places in the order in which they are written.
#[derive(Clone, Copy)]
pub struct Sites<'a>(pub &'a [Site]);

/// The greatest number of places that are written.
const MOST_SITES: usize = 12;

/// Writes a place after others.
fn write_site<W: fmt::Write>(first: bool, site: Site, f: &mut fmt::Formatter<W>) -> fmt::Result {
    if !first {
        f.write_str("; ")?;
    }
    write!(f, "{site}")
}

/// Writes how many places are left out.
fn write_others<W: fmt::Write>(len: usize, f: &mut fmt::Formatter<W>) -> fmt::Result {
    if len <= MOST_SITES {
        return Ok(());
    }
    let others = len - MOST_SITES;
    write!(f, "; and {others} more")
}

/// Writes the first twelve places, separated by semicolons, and then how many more there are.
impl<'a> fmt::Display for Sites<'a> {
    fn fmt<W: fmt::Write>(&self, f: &mut fmt::Formatter<W>) -> fmt::Result {
        let mut first = true;
        for site in self.0.iter().take(MOST_SITES) {
            write_site(first, *site, f)?;
            first = false;
        }
        write_others(self.0.len(), f)
    }
}
