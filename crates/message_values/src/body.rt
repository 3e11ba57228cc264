//! Bodies that are lent from a text.
ghost use Rattle.std.specs.Prelude.{◌≡◌, ◌≢◌, ◌↔◌, ◌∷◌, [], ℕ, List, IsTrue, IfOk, MatchOption};
ghost use Rattle.yxml.specs.declared.tree.Attribute.{Attribute};
ghost use Rattle.yxml.specs.declared.tree.Tree.{Tree};
ghost use Rattle.yxml.specs.declared.tree.Tree.TheVariants.{Elem};
ghost use Rattle.xml_codec.specs.Data.{string_body};
ghost use Rattle.yxml.specs.Answer.{body_in};
ghost use Rattle.yxml.specs.Reading.{marks_in};
ghost use Rattle.message_values.specs.Inside.{behind};

use crate::attributes::LentAttributes;
use crate::first_fault::fault_of;
use crate::mark::{FirstMark, LentMark, first_mark};
use std::alloc::{AllocError, Global};
use std::marker::Model;
use yxml::{XmlString, YxmlFault, each_text_has_one_answer, what_is_written_is_read_back};

/// The body of an element, or of a whole text. It lends the text from where it begins, and is seen
/// by contracts as the trees that stand there: up to the end tag of the element that it is in.
#[derive(Drop)]
pub struct LentBody<'a> {
    text: &'a str,
}

impl<'a> Model for LentBody<'a> {
    ghost use Rattle.std.specs.Prelude.{List};
    ghost use Rattle.std.specs.Coded.{codes};
    ghost use Rattle.yxml.specs.contracts.tree.Tree as tree;
    ghost use Rattle.yxml.specs.declared.tree.Tree.{Tree};
    ghost use Rattle.message_values.specs.Inside.{body_at, IsClosed};

    ghost Value = { List Tree };

    ghost coded = { Prim.hlevel (codes, tree.the_row.coded) };

    ghost view = { λ b. body_at b.text.now };

    ghost invariant = { λ b. IsClosed b.text.now };
}

/// An element, lent from a text.
#[derive(Drop)]
pub struct LentElement<'a> {
    pub name: &'a str,
    pub attributes: LentAttributes<'a>,
    pub body: LentBody<'a>,
}

/// What follows the end tag of the element whose body begins with the text.
fn behind_element(text: &str) -> &str
    ensures { marks_in result.now ≡ behind 0 (marks_in text.now) }
{
    let mut rest = text;
    let mut depth: usize = 0;
    while let Some(first) = first_mark(rest) {
        rest = first.rest;
        match first.mark {
            LentMark::Opening { .. } => depth += 1,
            LentMark::Closing if depth == 0 => return rest,
            LentMark::Closing => depth -= 1,
            LentMark::Words(_) => {}
        }
    }
    ""
}

impl<'a> LentBody<'a> {
    /// The body that the text spells, or its first fault from the left. It takes no memory, and the
    /// fault is never `NoMemory`.
    pub fn of(text: &'a str) -> Result<LentBody<'a>, YxmlFault>
        ensures { result ≡ body_in text.now }
    {
        each_text_has_one_answer();
        what_is_written_is_read_back();
        match fault_of(text) {
            Some(fault) => Err(fault),
            None => Ok(LentBody { text }),
        }
    }

    /// Whether nothing stands in it.
    pub fn is_empty(&self) -> bool
        ensures { IsTrue result ↔ (self.now ≡ []) }
    {
        match first_mark(self.text) {
            Some(first) => matches!(first.mark, LentMark::Closing),
            None => true,
        }
    }

    /// The element that stands first, which is taken away, or None where a text stands first, or
    /// nothing.
    pub fn take_element(&mut self) -> Option<LentElement<'a>>
        ensures { MatchOption result
            ((name : List ℕ) (attributes : List Attribute) (body more : List Tree)
            → self.old ≢ Elem name attributes body ∷ more)
            (λ e. self.old ≡ Elem e.name.now e.attributes e.body ∷ self.new) }
    {
        let Some(FirstMark { mark, rest }) = first_mark(self.text) else {
            return None;
        };
        let LentMark::Opening { name, attributes } = mark else {
            return None;
        };
        let body = LentBody { text: rest };
        self.text = behind_element(rest);
        Some(LentElement {
            name,
            attributes,
            body,
        })
    }

    /// A copy of the text that it is, where no element stands in it.
    pub fn text(&self, alloc: Global) -> Result<Option<XmlString>, AllocError>
        ensures { IfOk result (λ found. MatchOption found
            ((text : List ℕ) → self.now ≢ string_body text) (λ text. self.now ≡ string_body text)) }
    {
        let mut text = XmlString::new(alloc);
        let mut rest = self.text;
        while let Some(first) = first_mark(rest) {
            match first.mark {
                LentMark::Words(more) => text.push_str(more)?,
                LentMark::Closing => return Ok(Some(text)),
                LentMark::Opening { .. } => return Ok(None),
            }
            rest = first.rest;
        }
        Ok(Some(text))
    }
}
