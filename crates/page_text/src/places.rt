//! Where pieces may stand.

ghost use Rattle.std.specs.Prelude.{◌≡◌, option_and_then};
ghost use Rattle.page_text.specs.declared.places.Place.{Place as ThePlace};
ghost use Rattle.page_text.specs.Pages.{behind, behind_all, in_tag, in_value, outside};

use crate::page::Piece;

/// Where in a page the next piece stands.
#[derive(Clone, Copy, Debug, PartialEq, Eq)]
pub enum Place {
    /// In no tag, where an element has its elements and texts.
    Outside,
    /// In the tag by which an element begins, behind its name or an attribute.
    InTag,
    /// In the value of an attribute.
    InValue,
}

/// Returns where the next piece stands, if this one stands outside of tags. Returns `None` if it may not stand there.
#[tactic(auto, unfolding(crate::specs::Pages::outside))]
fn outside(piece: Piece<'_>) -> Option<Place>
    ensures { result ≡ outside piece.entry }
{
    match piece {
        Piece::Open(_) => Some(Place::InTag),
        Piece::Close(_)
        | Piece::Line
        | Piece::Sign(_)
        | Piece::Text(_)
        | Piece::Number(_)
        | Piece::Digits(_) => Some(Place::Outside),
        Piece::Set(_) | Piece::Link | Piece::End | Piece::Inside | Piece::Alone => None,
    }
}

/// Returns where the next piece stands, if this one stands in a tag. Returns `None` if it may not stand there.
#[tactic(auto, unfolding(crate::specs::Pages::in_tag))]
fn in_tag(piece: Piece<'_>) -> Option<Place>
    ensures { result ≡ in_tag piece.entry }
{
    match piece {
        Piece::Set(_) | Piece::Link => Some(Place::InValue),
        Piece::Inside | Piece::Alone => Some(Place::Outside),
        _ => None,
    }
}

/// Returns where the next piece stands, if this one stands in the value of an attribute. Returns `None` if it may not stand there.
#[tactic(auto, unfolding(crate::specs::Pages::in_value))]
fn in_value(piece: Piece<'_>) -> Option<Place>
    ensures { result ≡ in_value piece.entry }
{
    match piece {
        Piece::End => Some(Place::InTag),
        Piece::Text(_) | Piece::Number(_) | Piece::Digits(_) => Some(Place::InValue),
        _ => None,
    }
}

/// Returns where the next piece stands behind this one. Returns `None` if this one may not stand at this place.
fn behind(place: Place, piece: Piece<'_>) -> Option<Place>
    ensures { result ≡ behind place piece.entry }
{
    match place {
        Place::Outside => outside(piece),
        Place::InTag => in_tag(piece),
        Place::InValue => in_value(piece),
    }
}

/// Returns the same, and `None` if a piece before stood where it may not.
fn next_of(here: Option<Place>, piece: Piece<'_>) -> Option<Place>
    ensures { result ≡ option_and_then (λ (p : ThePlace). behind p piece.entry) here }
{
    match here {
        Some(place) => behind(place, piece),
        None => None,
    }
}

/// Returns where the next piece stands behind all of these. Returns `None` if one of them may not stand where it does.
pub(crate) fn behind_all(place: Option<Place>, pieces: &[Piece<'_>]) -> Option<Place>
    ensures { result ≡ behind_all place pieces.now }
{
    let mut here = place;
    for piece in pieces {
        here = next_of(here, *piece);
    }
    here
}
