//! Jobs that are asked to stop: a part that is still wanted goes on, another is let go.
ghost use Rattle.std.specs.Prelude.{◌≡◌, IfOk, Some};
ghost use Rattle.core_rules.specs.Standing.{held};
ghost use Rattle.session_rules.specs.declared.service.Service.TheVariants as service_is;
ghost use Rattle.document_session.specs.keeping_rules_below.Items.{session_in};
ghost use Rattle.document_session.specs.keeping_rules_below.Works.{IsWorkOf};

use crate::messages::{CANCEL, CANCELLED, LET_GO, PROVED, UPDATE, message};
use crate::steps::{Past, WORKER, begun, claimed, finished, replied, told, worked};
use document_session::session_replies_below::{SessionJob, SessionRan};
use document_session::{Claim, GiveUp, Session};
use language::Language;
use pide_base::{Flag, PartKind};
use pide_io::NthStop;
use std::alloc::Global;
use std::test::Fail;
use toplevel::Isar;

/// The worker works on all parts before the check of the proof, and takes that.
fn fork_of<L: Language>(
    alloc: Global,
    lang: &L,
    session: &mut Session<L, Past>,
) -> Result<SessionJob<L::State>, Fail>
    requires worker { session.old.service ≡ service_is.Workers 1 }
    ensures service { session.new.service ≡ session.old.service }
    ensures job { IfOk result (λ job. IsWorkOf L.lang (session_in L.lang session.new.service
        session.new.items) 1 job) }
{
    told(alloc, lang, session, message(alloc, UPDATE)?)?;
    worked(alloc, lang, session)?;
    worked(alloc, lang, session)?;
    worked(alloc, lang, session)?;
    worked(alloc, lang, session)?;
    let job = claimed(alloc, lang, session)?;
    match job.part().kind {
        PartKind::Fork => Ok(job),
        PartKind::Eval | PartKind::Print => Err(Fail::new("another part")),
    }
}

/// The job, which stops at its first question, as it was.
fn stopped<L: Language>(
    alloc: Global,
    lang: &L,
    job: SessionJob<L::State>,
) -> Result<SessionJob<L::State>, Fail>
    ensures { IfOk result (λ back. back ≡ job) }
{
    match job.run(alloc, lang, &mut NthStop::new(1)) {
        SessionRan::Stopped(back) => Ok(back),
        SessionRan::Done(_) | SessionRan::NoMemory(_) => Err(Fail::new("not stopped")),
    }
}

/// How long the list is.
fn length_of<L: Language>(session: &Session<L, Past>) -> usize {
    session.past().as_slice().len()
}

/// The worker would give up its part, which is still wanted: the job goes on.
fn still_wanted<L: Language>(
    session: &mut Session<L, Past>,
    job: SessionJob<L::State>,
) -> Result<SessionJob<L::State>, Fail>
    requires worker { session.old.service ≡ service_is.Workers 1 }
    requires job { IsWorkOf L.lang (session_in L.lang session.old.service session.old.items) 1
        job }
    ensures service { session.new.service ≡ session.old.service }
    ensures job { IfOk result (λ job. IsWorkOf L.lang (session_in L.lang session.new.service
        session.new.items) 1 job) }
{
    match session.give_up(WORKER, job) {
        GiveUp::GoOn(back) => Ok(back),
        GiveUp::Dropped => Err(Fail::new("let go")),
    }
}

/// The worker gives up its part, which is wanted no more.
fn let_go<L: Language>(
    session: &mut Session<L, Past>,
    job: SessionJob<L::State>,
) -> Result<(), Fail>
    requires worker { session.old.service ≡ service_is.Workers 1 }
    requires holds { held (session_in L.lang session.old.service session.old.items).events 1
        ≡ Some job.job.part }
    ensures service { session.new.service ≡ session.old.service }
{
    match session.give_up(WORKER, job) {
        GiveUp::Dropped => Ok(()),
        GiveUp::GoOn(_) => Err(Fail::new("going on")),
    }
}

/// The replies so far are sent: the assignment and the reports of four commands. The next is this.
fn replied_then<L: Language>(session: &mut Session<L, Past>, wanted: &[u8]) -> Result<(), Fail> {
    for _ in 0..5 {
        if session.sent().is_none() {
            return Err(Fail::new("no reply"));
        }
    }
    replied(session, wanted)
}

/// The check of the proof stops, and goes on since it is still wanted.
fn goes_on<L: Language>(alloc: Global, lang: &L, session: &mut Session<L, Past>) -> Result<(), Fail>
    requires worker { session.old.service ≡ service_is.Workers 1 }
{
    let taken = fork_of(alloc, lang, session)?;
    let before = length_of(session);
    let back = stopped(alloc, lang, taken)?;
    let job = still_wanted(session, back)?;
    if length_of(session) != before {
        return Err(Fail::new("an item more"));
    }
    finished(alloc, lang, session, job, &mut NthStop::new(0))?;
    replied_then(session, PROVED)
}

/// The check of the proof asks once, so it does not stop at a second question.
fn asks_once<L: Language>(
    alloc: Global,
    lang: &L,
    session: &mut Session<L, Past>,
) -> Result<(), Fail>
    requires worker { session.old.service ≡ service_is.Workers 1 }
{
    let job = fork_of(alloc, lang, session)?;
    finished(alloc, lang, session, job, &mut NthStop::new(2))?;
    replied_then(session, PROVED)
}

/// The check of the proof stops, is cancelled by a message, and is let go.
fn is_let_go<L: Language>(
    alloc: Global,
    lang: &L,
    session: &mut Session<L, Past>,
) -> Result<(), Fail>
    requires worker { session.old.service ≡ service_is.Workers 1 }
{
    let taken = fork_of(alloc, lang, session)?;
    let job = stopped(alloc, lang, taken)?;
    told(alloc, lang, session, message(alloc, CANCEL)?)?;
    let_go(session, job)?;
    replied_then(session, CANCELLED)?;
    replied(session, LET_GO)
}

/// The worker takes the first ready part: the flag that comes with its job.
fn flag_of<L: Language>(
    alloc: Global,
    lang: &L,
    session: &mut Session<L, Past>,
) -> Result<Flag, Fail>
    requires worker { session.old.service ≡ service_is.Workers 1 }
    ensures service { session.new.service ≡ session.old.service }
{
    match session.claim(alloc, lang, WORKER) {
        Claim::Job { job, flag } => {
            drop(job);
            Ok(flag)
        }
        Claim::Nothing | Claim::NoMemory => Err(Fail::new("no part was taken")),
    }
}

/// The flag that comes with the proof's job is set once the proof is cancelled, and not before.
fn is_asked_to_stop<L: Language>(
    alloc: Global,
    lang: &L,
    session: &mut Session<L, Past>,
) -> Result<bool, Fail>
    requires worker { session.old.service ≡ service_is.Workers 1 }
{
    told(alloc, lang, session, message(alloc, UPDATE)?)?;
    worked(alloc, lang, session)?;
    worked(alloc, lang, session)?;
    let flag = flag_of(alloc, lang, session)?;
    let before = flag.is_set();
    told(alloc, lang, session, message(alloc, CANCEL)?)?;
    Ok(!before && flag.is_set())
}

/// It goes on in a session that begins.
fn goes_on_from_the_beginning<L: Language>(alloc: Global, lang: &L) -> Result<(), Fail> {
    let mut session = begun(alloc)?;
    goes_on(alloc, lang, &mut session)
}

/// It asks once in a session that begins.
fn asks_once_from_the_beginning<L: Language>(alloc: Global, lang: &L) -> Result<(), Fail> {
    let mut session = begun(alloc)?;
    asks_once(alloc, lang, &mut session)
}

/// It is let go in a session that begins.
fn is_let_go_from_the_beginning<L: Language>(alloc: Global, lang: &L) -> Result<(), Fail> {
    let mut session = begun(alloc)?;
    is_let_go(alloc, lang, &mut session)
}

/// It is asked to stop in a session that begins.
fn is_asked_to_stop_from_the_beginning<L: Language>(alloc: Global, lang: &L) -> Result<bool, Fail> {
    let mut session = begun(alloc)?;
    is_asked_to_stop(alloc, lang, &mut session)
}

#[test]
fn a_cancellation_asks_the_job_to_stop(rt: HostRuntime) -> Result<(), Fail> {
    assert!(rt; is_asked_to_stop_from_the_beginning(rt.alloc(), &Isar)?);
    Ok(())
}

#[test]
fn a_part_that_is_still_wanted_goes_on_after_a_stop(rt: HostRuntime) -> Result<(), Fail> {
    goes_on_from_the_beginning(rt.alloc(), &Isar)
}

#[test]
fn a_check_of_a_proof_asks_once_whether_to_stop(rt: HostRuntime) -> Result<(), Fail> {
    asks_once_from_the_beginning(rt.alloc(), &Isar)
}

#[test]
fn a_part_that_is_cancelled_while_it_stops_is_let_go(rt: HostRuntime) -> Result<(), Fail> {
    is_let_go_from_the_beginning(rt.alloc(), &Isar)
}
