ghost use Rattle.std.specs.Prelude.{◌≡◌, ◌↔◌, IsTrue, IfOk, string_bytes};
ghost use Rattle.std.specs.Arc.{arc_str_bytes};

use std::alloc::{AllocError, Global};
use std::marker::Model;
use std::sync::ArcStr;

/// An identifier that a formula holds. Contracts see it as its bytes.
#[derive(Debug, Drop)]
pub struct Name {
    text: ArcStr,
}

impl Model for Name {
    ghost use Rattle.std.specs.Prelude.{ℕ, List};
    ghost use Rattle.std.specs.Arc.{arc_str_bytes};

    ghost Value = { List ℕ };

    ghost view = { λ n. arc_str_bytes n.text };
}

impl Name {
    /// The name that the text is, in memory of its own. It fails for want of memory.
    pub fn new(alloc: Global, text: &str) -> Result<Name, AllocError>
        ensures { IfOk result (λ n. n ≡ text.now) }
    {
        let text = ArcStr::from_str(alloc, text)?;
        Ok(Name { text })
    }

    /// The name that the text is, in the memory that it has.
    pub fn from_string(text: String) -> Result<Name, AllocError>
        ensures { IfOk result (λ n. n ≡ string_bytes text) }
    {
        let text = ArcStr::from_string(text)?;
        Ok(Name { text })
    }

    /// The name's text, in the same memory.
    pub fn text(&self) -> Result<ArcStr, AllocError>
        ensures { IfOk result (λ text. arc_str_bytes text ≡ self.now) }
    {
        self.text.clone()
    }

    /// The name as a text.
    pub fn as_str(&self) -> &str
        ensures { result.now ≡ self.now }
    {
        self.text.as_str()
    }

    /// Whether the text is this name.
    pub fn is(&self, text: &str) -> bool
        ensures { IsTrue result ↔ (self.now ≡ text.now) }
    {
        self.as_str() == text
    }

    /// The same name, in constant time.
    pub fn copy(&self, _alloc: Global) -> Result<Name, AllocError>
        ensures { IfOk result (λ n. n ≡ self.now) }
    {
        let text = self.text.clone()?;
        Ok(Name { text })
    }
}
