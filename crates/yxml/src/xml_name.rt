ghost use Rattle.std.specs.Prelude.{◌≡◌, true, IfOk, IfSome, IsOk, IsSome};
ghost use Rattle.yxml.specs.Names.{chars_of, is_inline};

use std::alloc::{AllocError, Global};
use std::marker::Model;

/// What holds a name.
#[derive(Debug, Drop)]
enum Chars {
    Fixed(&'static str),
    Owned(String),
}

/// A name of an element, or a key: contracts see it as its bytes in UTF-8. The names of data, which
/// are `:` and the digits, take no memory.
#[derive(Debug, Drop)]
pub struct XmlName {
    chars: Chars,
}

impl Model for XmlName {
    ghost use Rattle.std.specs.Prelude.{ℕ, List};
    ghost use Rattle.std.specs.Coded.{coded_list, coded_ℕ};
    ghost use Rattle.yxml.specs.Names.{chars_of};

    ghost Value = { List ℕ };

    ghost coded = { coded_list coded_ℕ };

    ghost view = { λ n. chars_of n.chars };
}

/// The text itself, where it is a name of data.
fn fixed(text: &str) -> Option<&'static str>
    ensures same { IfSome result (λ name. name.now ≡ text.now) }
    ensures each { is_inline text.now ≡ true → IsSome result }
{
    match text {
        ":" => Some(":"),
        "0" => Some("0"),
        "1" => Some("1"),
        "2" => Some("2"),
        "3" => Some("3"),
        "4" => Some("4"),
        "5" => Some("5"),
        "6" => Some("6"),
        "7" => Some("7"),
        "8" => Some("8"),
        "9" => Some("9"),
        _ => None,
    }
}

impl XmlName {
    /// The name that reads so. A name of data takes no memory, so that none can be wanting.
    pub fn from_str(alloc: Global, text: &str) -> Result<XmlName, AllocError>
        ensures same { IfOk result (λ name. name ≡ text.now) }
        ensures inline { is_inline text.now ≡ true → IsOk result }
    {
        let chars = match fixed(text) {
            Some(name) => Chars::Fixed(name),
            None => Chars::Owned(String::from_str(alloc, text)?),
        };
        Ok(XmlName { chars })
    }

    /// Its text.
    pub fn as_str(&self) -> &str
        ensures { result.now ≡ self.now }
    {
        match &self.chars {
            Chars::Fixed(name) => name,
            Chars::Owned(name) => name.as_str(),
        }
    }
}
