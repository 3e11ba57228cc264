//! The theories of a build.
ghost use Rattle.std.specs.Prelude.{◌≡◌, [], Ok, Err, IfOk};
ghost use Rattle.message_values.specs.declared.mode.Mode.TheVariants.{Build};
ghost use Rattle.message_values.specs.Asked.{asked};
ghost use Rattle.pide_build.specs.Theories.{is_beyond, next_theories, with_message, with_theory};
ghost use Rattle.pide_build.specs.Taking.{TakesSo};

use byte_message::Message;
use doc_nodes::Shared;
use joined_results::both;
use message_values::{EditorMessage, Mode, Refusal};
use pide_base::{NodeName, are_too_many, is_too_long};
use pide_messages::{ReadError, read};
use shared_map::SharedMap;
use std::alloc::{AllocError, Global};
use text_edits::Text;

/// Theories: texts by the names of their nodes.
pub(crate) type Theories = SharedMap<NodeName, Shared<Text>>;

/// What came of a message.
#[derive(Clone, Copy, Debug, PartialEq, Eq)]
pub(crate) enum Taken {
    /// What it brings is kept.
    Kept,
    /// It was refused, and changes nothing.
    Refused(Refusal),
}

/// The value in memory that can be shared.
pub(crate) fn shared<T: Drop>(alloc: Global, value: T) -> Result<Shared<T>, AllocError>
    ensures { IfOk result (λ shared. shared ≡ value) }
{
    Shared::new(alloc, value).map_err(|_| AllocError)
}

/// Whether the text is too long, or one more than the theories there are too many.
fn is_beyond(theories: &Theories, text: &Text) -> bool
    ensures { result ≡ is_beyond theories.now text.now }
{
    are_too_many(theories.len().saturating_add(1)) || is_too_long(text.len())
}

/// Keeps a theory, unless there is one of its name, or it is one too many or too long.
fn take_theory(
    alloc: Global,
    theories: &mut Theories,
    name: NodeName,
    text: Text,
) -> Result<Taken, AllocError>
    ensures { TakesSo result (with_theory name text theories.old) theories.old theories.new }
{
    if theories.get(&name).is_some() {
        return Ok(Taken::Refused(Refusal::NodeTwice));
    }
    if is_beyond(theories, &text) {
        return Ok(Taken::Refused(Refusal::Limit));
    }
    let (name, text) = both(Ok(name), shared(alloc, text))?;
    theories.set(alloc, name, text)?;
    Ok(Taken::Kept)
}

/// Takes a message: a theory is kept, unless the message is refused.
pub(crate) fn take(
    alloc: Global,
    theories: &mut Theories,
    message: &Message,
) -> Result<Taken, AllocError>
    ensures { TakesSo result (next_theories message.now theories.old) theories.old theories.new }
{
    match read(alloc, message, Mode::Build) {
        Ok(EditorMessage::Theory { node, text }) => take_theory(alloc, theories, node, text),
        Ok(_) => Ok(Taken::Refused(Refusal::UnknownFunction)),
        Err(ReadError::Refused(reason)) => Ok(Taken::Refused(reason)),
        Err(ReadError::NoMemory) => Err(AllocError),
    }
}
