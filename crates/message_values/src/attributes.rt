//! The attributes of a start tag, lent from it.
ghost use Rattle.std.specs.Prelude.{◌≡◌, ◌≢◌, ◌↔◌, [], ◌∷◌, IsTrue, Some, None, MatchOption};
ghost use Rattle.std.specs.List.{slice_split};
ghost use Rattle.yxml.specs.declared.tree.Attribute.{Attribute};
ghost use Rattle.yxml.specs.Reading.{is_y, attribute_of, attributes_of};
ghost use Rattle.message_values.specs.Attributes.{attribute};

use crate::cut::first_piece;
use std::marker::Model;

/// An attribute of an element.
#[derive(Clone, Copy)]
pub struct LentAttribute<'a> {
    /// What stands before the `=`.
    pub key: &'a str,
    /// What stands after it; it may be empty.
    pub value: &'a str,
}

/// The attributes of an element, in their order. Contracts see them as a list.
#[derive(Drop)]
pub struct LentAttributes<'a> {
    pieces: Option<&'a str>,
}

impl<'a> Model for LentAttributes<'a> {
    ghost use Rattle.std.specs.Prelude.{List};
    ghost use Rattle.std.specs.Coded.{coded_list};
    ghost use Rattle.yxml.specs.declared.tree.Attribute.{Attribute};
    ghost use Rattle.message_values.specs.Attributes.{left, AreAttributes};

    ghost Value = { List Attribute };

    ghost view = { λ a. left a.pieces };

    ghost invariant = { λ a. AreAttributes a.pieces };
}

/// The attribute that the piece spells, cut at its first `=`.
fn attribute_at(piece: &str) -> Option<LentAttribute<'_>>
    ensures { MatchOption result (attribute_of piece.now ≡ None)
        (λ a. attribute_of piece.now ≡ Some (attribute a)) }
{
    match piece.split_once('=') {
        Some((key, value)) => {
            if key.is_empty() {
                return None;
            }
            Some(LentAttribute { key, value })
        }
        None => None,
    }
}

/// Whether each piece of the text is an attribute.
fn are_attributes(text: &str) -> bool
    ensures { IsTrue result ↔ (attributes_of (slice_split is_y text.now) ≢ None) }
{
    let mut rest = text;
    while let Some((piece, more)) = first_piece(rest) {
        if attribute_at(piece).is_none() {
            return false;
        }
        rest = more;
    }
    attribute_at(rest).is_some()
}

impl<'a> LentAttributes<'a> {
    /// No attributes.
    pub(crate) fn none() -> LentAttributes<'a>
        ensures { result ≡ [] }
    {
        LentAttributes { pieces: None }
    }

    /// The attributes that the pieces of the text are, or None where one of them is none.
    pub(crate) fn of(text: &'a str) -> Option<LentAttributes<'a>>
        ensures { result ≡ attributes_of (slice_split is_y text.now) }
    {
        if are_attributes(text) {
            Some(LentAttributes { pieces: Some(text) })
        } else {
            None
        }
    }

    /// Whether there is none.
    pub fn is_empty(&self) -> bool
        ensures { IsTrue result ↔ (self.now ≡ []) }
    {
        self.pieces.is_none()
    }

    /// The next attribute, which is taken away.
    pub fn next(&mut self) -> Option<LentAttribute<'a>>
        ensures { MatchOption result ((self.old ≡ []) × (self.new ≡ []))
            (λ a. self.old ≡ attribute a ∷ self.new) }
    {
        let text = self.pieces?;
        match first_piece(text) {
            Some((piece, more)) => {
                self.pieces = Some(more);
                attribute_at(piece)
            }
            None => {
                self.pieces = None;
                attribute_at(text)
            }
        }
    }
}
