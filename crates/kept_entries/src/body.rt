//! What a shared entry says beside its number, and what it quotes.

ghost use Rattle.std.specs.Prelude.{◌≡◌, IfOk, None};
ghost use Rattle.kept_entries.specs.within.Keeping.{content_in, kind_in, quoted_in};

use crate::short_text::{LONGEST_SHORT_TEXT, ShortText};
use log_chain::{ByteString, Hash};
use outcome::Memory;
use std::alloc::Global;

/// A kind, a content of any length, and the hash of the statement that the entry quotes, if it has a genuine quote.
#[derive(Drop)]
pub(crate) struct LongBody {
    kind: u8,
    content: ByteString,
    quoted: Option<Hash>,
}

/// How the kind, the content and the quote of an entry are kept.
#[derive(Drop)]
pub(crate) enum Body {
    /// A short content in place. It quotes nothing.
    Short(u8, ShortText),
    /// Any other content.
    Long(Box<LongBody>),
}

fn boxed(alloc: Global, kind: u8, content: &[u8], quoted: Option<Hash>) -> Result<Body, Memory>
    ensures kind { IfOk result (λ s. kind_in s ≡ kind) }
    ensures content { IfOk result (λ s. content_in s ≡ content.now) }
    ensures quoted { IfOk result (λ s. quoted_in s ≡ quoted) }
{
    let long = LongBody {
        kind,
        content: ByteString::from_slice(alloc, content)?,
        quoted,
    };
    let long = Box::new(alloc, long)?;
    Ok(Body::Long(long))
}

impl Body {
    /// Returns a copy of these. It takes no memory if the content is short and quotes nothing.
    pub(crate) fn of(
        alloc: Global,
        kind: u8,
        content: &[u8],
        quoted: Option<Hash>,
    ) -> Result<Body, Memory>
        ensures kind { IfOk result (λ s. kind_in s ≡ kind) }
        ensures content { IfOk result (λ s. content_in s ≡ content.now) }
        ensures quoted { IfOk result (λ s. quoted_in s ≡ quoted) }
    {
        if quoted.is_none() && content.len() <= LONGEST_SHORT_TEXT {
            return Ok(Body::Short(kind, ShortText::from_slice(content)));
        }
        boxed(alloc, kind, content, quoted)
    }

    /// Returns the kind.
    pub(crate) fn kind(&self) -> u8
        ensures { result ≡ kind_in self.now }
    {
        match self {
            Body::Short(kind, _) => *kind,
            Body::Long(long) => long.kind,
        }
    }

    /// Returns the content.
    pub(crate) fn content(&self) -> &[u8]
        ensures { result.now ≡ content_in self.now }
    {
        match self {
            Body::Short(_, content) => content.as_slice(),
            Body::Long(long) => long.content.as_slice(),
        }
    }

    /// Returns the hash of what is quoted.
    pub(crate) fn quoted(&self) -> Option<Hash>
        ensures { result ≡ quoted_in self.now }
    {
        match self {
            Body::Short(_, _) => None,
            Body::Long(long) => long.quoted,
        }
    }
}
