ghost use Rattle.std.specs.Prelude.{◌≡◌, ◌++◌, ◌↔◌, [], IsTrue, IfOk, OnOk, OnErr, string_bytes};

use std::alloc::{AllocError, Global};
use std::marker::Model;

/// A value or a text: a `String` that contracts see as its bytes in UTF-8.
#[derive(Debug, Drop)]
pub struct XmlString {
    inner: String,
}

impl Model for XmlString {
    ghost use Rattle.std.specs.Prelude.{ℕ, List, string_bytes};
    ghost use Rattle.std.specs.Coded.{coded_list, coded_ℕ};

    ghost Value = { List ℕ };

    ghost coded = { coded_list coded_ℕ };

    ghost view = { λ s. string_bytes s.inner };
}

impl XmlString {
    /// The empty string, which takes no memory.
    pub fn new(alloc: Global) -> XmlString
        ensures { result ≡ [] }
    {
        XmlString {
            inner: String::new(alloc),
        }
    }

    /// A copy of `text`.
    pub fn from_str(alloc: Global, text: &str) -> Result<XmlString, AllocError>
        ensures { IfOk result (λ s. s ≡ text.now) }
    {
        let inner = String::from_str(alloc, text)?;
        Ok(XmlString { inner })
    }

    /// The string of this text, which is not copied.
    pub fn from_string(text: String) -> XmlString
        ensures { result ≡ string_bytes text }
    {
        XmlString { inner: text }
    }

    /// Its text, which is not copied.
    pub fn into_string(self) -> String
        ensures { string_bytes result ≡ self }
    {
        self.inner
    }

    /// Its text.
    pub fn as_str(&self) -> &str
        ensures { result.now ≡ self.now }
    {
        self.inner.as_str()
    }

    /// Whether it has no byte.
    pub fn is_empty(&self) -> bool
        ensures { IsTrue result ↔ (self.now ≡ []) }
    {
        self.inner.as_bytes().is_empty()
    }

    /// Adds `more` at the end. For want of memory it adds nothing.
    pub fn push_str(&mut self, more: &str) -> Result<(), AllocError>
        ensures ok { OnOk result (self.new ≡ self.old ++ more.now) }
        ensures err { OnErr result (self.new ≡ self.old) }
    {
        self.inner.push_str(more)
    }
}
