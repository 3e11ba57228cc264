//! Arguments of one kind: ids, numbers, names, and data.
ghost use Rattle.std.specs.Prelude.{◌≡◌};
ghost use Rattle.message_values.specs.declared.refusal.Refusal.TheVariants.{BadData, BadYxml};
ghost use Rattle.message_values.specs.Asked.{id_at, spelled, or_refused};
ghost use Rattle.message_values.specs.Numbers.{number_of};
ghost use Rattle.message_values.specs.Words.{name_of};
ghost use Rattle.pide_messages.specs.Arguments.{worker_at, protocol_at};
ghost use Rattle.pide_messages.specs.Gives.{Gives};

use crate::error::ReadError;
use message_values::{LentBody, Protocol, Refusal, Worker, number_of};
use pide_base::{ExecId, NodeName, VersionId};
use std::alloc::Global;

/// The number that the text writes.
pub(crate) fn number_at(text: &str) -> Result<u64, ReadError>
    ensures { Gives result (or_refused BadData (number_of text.now)) }
{
    match number_of(text) {
        Some(number) => Ok(number),
        None => Err(ReadError::Refused(Refusal::BadData)),
    }
}

/// The version whose id the text writes.
pub(crate) fn version_of(text: &str) -> Result<VersionId, ReadError>
    ensures { Gives result (or_refused BadData (id_at text.now)) }
{
    let number = number_at(text)?;
    match VersionId::new(number) {
        Some(version) => Ok(version),
        None => Err(ReadError::Refused(Refusal::BadData)),
    }
}

/// The execution whose id the text writes.
pub(crate) fn exec_of(text: &str) -> Result<ExecId, ReadError>
    ensures { Gives result (or_refused BadData (id_at text.now)) }
{
    let number = number_at(text)?;
    match ExecId::new(number) {
        Some(exec) => Ok(exec),
        None => Err(ReadError::Refused(Refusal::BadData)),
    }
}

/// The worker that the text names.
pub(crate) fn worker_of(text: &str) -> Result<Worker, ReadError>
    ensures { Gives result (or_refused BadData (worker_at text.now)) }
{
    let number = number_at(text)?;
    match Worker::new(number) {
        Some(worker) => Ok(worker),
        None => Err(ReadError::Refused(Refusal::BadData)),
    }
}

/// The protocol that the text names.
pub(crate) fn protocol_of(text: &str) -> Result<Protocol, ReadError>
    ensures { Gives result (or_refused BadData (protocol_at text.now)) }
{
    let number = number_at(text)?;
    match Protocol::new(number) {
        Some(protocol) => Ok(protocol),
        None => Err(ReadError::Refused(Refusal::BadData)),
    }
}

/// The node that the text names.
pub(crate) fn node_of(alloc: Global, text: &str) -> Result<NodeName, ReadError>
    ensures { Gives result (or_refused BadData (name_of text.now)) }
{
    match NodeName::new(String::from_str(alloc, text)?) {
        Ok(node) => Ok(node),
        Err(_) => Err(ReadError::Refused(Refusal::BadData)),
    }
}

/// The body that the text spells, lent from it.
pub(crate) fn body_of(text: &str) -> Result<LentBody<'_>, ReadError>
    ensures { Gives result (or_refused BadYxml (spelled text.now)) }
{
    match LentBody::of(text) {
        Ok(body) => Ok(body),
        Err(_) => Err(ReadError::Refused(Refusal::BadYxml)),
    }
}
