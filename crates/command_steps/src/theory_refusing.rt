//! Why a name is refused.
ghost use Rattle.std.specs.Prelude.{◌++◌, ◌≡◌, IfOk, string_bytes};
ghost use Rattle.isar_rules.specs.Errors.{name_taken};
ghost use Rattle.command_steps.specs.Tries.{Refuses};

use crate::halt::Halt;
use std::alloc::{AllocError, Global};

/// Words before a name.
fn before(alloc: Global, words: &str, name: &str) -> Result<String, AllocError>
    ensures { IfOk result (λ text. string_bytes text ≡ words.now ++ name.now) }
{
    let mut text = String::from_str(alloc, words)?;
    text.push_str(name)?;
    Ok(text)
}

/// The theory has a fact of this name.
pub(crate) fn taken(alloc: Global, name: &str) -> Halt
    ensures { Refuses (name_taken name.now) result }
{
    match before(alloc, "name taken ", name) {
        Ok(text) => Halt::Refused(text),
        Err(_) => Halt::NoMemory,
    }
}
