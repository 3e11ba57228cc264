//! Texts that reports share.
ghost use Rattle.std.specs.Prelude.{◌≡◌, [], IfOk, IsTrue, ◌↔◌, string_bytes};
ghost use Rattle.std.specs.Arc.{arc_str_bytes};
ghost use Rattle.yxml.specs.Normal.{IsPlain};

use std::alloc::{AllocError, Global};
use std::marker::Model;
use std::sync::ArcStr;

/// Whether a text has neither a byte 5 nor a byte 6.
pub fn is_plain(text: &str) -> bool
    ensures { IsTrue result ↔ IsPlain text.now }
{
    let bytes = text.as_bytes();
    !bytes.contains(&5) && !bytes.contains(&6)
}

/// A text of a report, or the value of a property: without bytes 5 and 6, with which YXML marks up,
/// and in memory that copies share. Contracts see it as its bytes.
#[derive(Debug, Drop)]
pub struct PlainText {
    text: Option<ArcStr>,
}

impl Model for PlainText {
    ghost use Rattle.std.specs.Prelude.{ℕ, List};
    ghost use Rattle.report_markup.specs.Texts.{text_bytes};
    ghost use Rattle.yxml.specs.Normal.{IsPlain};

    ghost Value = { List ℕ };

    ghost view = { λ t. text_bytes t.text };

    ghost invariant = { λ t. IsPlain (text_bytes t.text) };
}

impl PlainText {
    /// The empty text, which takes no memory.
    pub fn empty() -> PlainText
        ensures { result ≡ [] }
    {
        PlainText { text: None }
    }

    /// A copy of the text.
    pub fn from_str(alloc: Global, text: &str) -> Result<PlainText, AllocError>
        requires { IsPlain text.now }
        ensures { IfOk result (λ plain. plain ≡ text.now) }
    {
        if text.is_empty() {
            return Ok(PlainText { text: None });
        }
        PlainText::from_string(String::from_str(alloc, text)?)
    }

    /// The text, in the memory that it has.
    pub fn from_string(text: String) -> Result<PlainText, AllocError>
        requires { IsPlain (string_bytes text) }
        ensures { IfOk result (λ plain. plain ≡ string_bytes text) }
    {
        Ok(PlainText::shared(ArcStr::from_string(text)?))
    }

    /// The text, in the memory that it has, which others may share. It takes no memory.
    pub fn shared(text: ArcStr) -> PlainText
        requires { IsPlain (arc_str_bytes text) }
        ensures { result ≡ arc_str_bytes text }
    {
        PlainText { text: Some(text) }
    }

    /// The text, without a byte 5 or 6.
    pub fn as_str(&self) -> &str
        ensures text { result.now ≡ self.now }
        ensures plain { IsPlain self.now }
    {
        match &self.text {
            Some(text) => text.as_str(),
            None => "",
        }
    }

    /// Whether it has no bytes.
    pub fn is_empty(&self) -> bool
        ensures { IsTrue result ↔ (self.now ≡ []) }
    {
        self.as_str().is_empty()
    }

    /// The same text, in the same memory.
    pub fn share(&self) -> Result<PlainText, AllocError>
        ensures { IfOk result (λ shared. shared ≡ self.now) }
    {
        let text = match &self.text {
            Some(text) => Some(text.clone()?),
            None => None,
        };
        Ok(PlainText { text })
    }
}
