//! Each call of a session, once.
ghost use Rattle.std.specs.Prelude.{◌≡◌};
ghost use Rattle.session_rules.specs.declared.service.Service.TheVariants as service_is;

use crate::messages::{ASSIGNED, UPDATE, message};
use crate::steps::{Past, WORKER, begun, replied, told, worked};
use document_session::{Claim, Session};
use language::Language;
use reply_outbox::Item;
use session_rules::{Entry, Service};
use std::alloc::Global;
use std::process::Abort;
use std::test::Fail;
use toplevel::Isar;

/// A message is answered, its reply is sent, and the worker finishes a part.
fn is_served<L: Language>(
    alloc: Global,
    lang: &L,
    session: &mut Session<L, Past>,
) -> Result<(), Fail>
    requires worker { session.old.service ≡ service_is.Workers 1 }
    ensures service { session.new.service ≡ session.old.service }
{
    told(alloc, lang, session, message(alloc, UPDATE)?)?;
    replied(session, ASSIGNED)?;
    worked(alloc, lang, session)
}

/// The sink is lost, and the report that waits is not sent.
fn is_lost<L: Language>(session: &mut Session<L, Past>) -> Result<(), Fail>
    ensures service { session.new.service ≡ session.old.service }
{
    if session.is_lost() {
        return Err(Fail::new("lost before"));
    }
    session.lose();
    if !session.is_lost() || session.sent().is_some() {
        return Err(Fail::new("not lost"));
    }
    Ok(())
}

/// All ends, and no part is taken any more.
fn is_ended<L: Language>(
    alloc: Global,
    lang: &L,
    session: &mut Session<L, Past>,
) -> Result<(), Fail>
    requires worker { session.old.service ≡ service_is.Workers 1 }
{
    if session.ended() {
        return Err(Fail::new("ended before"));
    }
    session.end();
    if !session.ended() {
        return Err(Fail::new("not ended"));
    }
    match session.claim(alloc, lang, WORKER) {
        Claim::Nothing => Ok(()),
        Claim::Job { .. } | Claim::NoMemory => Err(Fail::new("something was claimed")),
    }
}

/// One letter for each item of the list.
fn letters<L: Language>(alloc: Global, session: &Session<L, Past>) -> Result<String, Fail> {
    let mut letters = String::new(alloc);
    for item in session.past().as_slice() {
        letters.push(match item {
            Item::Opened(_) => 'o',
            Item::Made(Entry::Call(_)) => 'm',
            Item::Made(Entry::Claimed { .. }) => 'c',
            Item::Made(Entry::Finished { .. }) => 'f',
            Item::Made(Entry::Dropped { .. }) => 'd',
            Item::Made(Entry::Ended) => 'e',
            Item::Sent { .. } => 's',
            Item::Lost { .. } => 'l',
        })?;
    }
    Ok(letters)
}

/// What was done is told, in order.
fn is_told<L: Language>(
    alloc: Global,
    lang: &L,
    session: &mut Session<L, Past>,
) -> Result<bool, Fail>
    requires worker { session.old.service ≡ service_is.Workers 1 }
{
    is_served(alloc, lang, session)?;
    is_lost(session)?;
    is_ended(alloc, lang, session)?;
    Ok(letters(alloc, session)?.as_str() == "omscfle")
}

/// A session of the language begins, and what is done in it is told.
fn begins_and_is_told<L: Language>(rt: &impl Abort, alloc: Global, lang: &L) -> Result<(), Fail> {
    let mut session = begun(alloc)?;
    assert!(rt; session.service() == Service::Workers { count: WORKER });
    assert!(rt; is_told(alloc, lang, &mut session)?);
    Ok(())
}

#[test]
fn what_is_done_in_a_session_is_told_in_order(rt: HostRuntime) -> Result<(), Fail> {
    begins_and_is_told(&rt, rt.alloc(), &Isar)
}
