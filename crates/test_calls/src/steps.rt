//! Steps of a session that has one worker, for the tests.
ghost use Rattle.std.specs.Prelude.{◌≡◌, IfOk};
ghost use Rattle.core_rules.specs.Standing.{held};
ghost use Rattle.session_rules.specs.declared.service.Service.TheVariants as service_is;
ghost use Rattle.document_session.specs.keeping_rules_below.Items.{session_in};
ghost use Rattle.document_session.specs.keeping_rules_below.Works.{IsWorkOf};

use byte_message::Message;
use core_jobs::job_law;
use document_session::session_replies_below::{SessionJob, SessionRan};
use document_session::{Claim, Finish, Session, Taken};
use language::Language;
use message_values::a_message_is_asked_where_it_is_spelled;
use pide_io::NthStop;
use reply_outbox::Kept;
use session_rules::{Entry, Service};
use std::alloc::Global;
use std::test::Fail;

/// The list of what has happened.
pub(crate) type Past = Kept<Service, Entry>;

/// The worker.
pub(crate) const WORKER: u32 = 1;

/// A session in which nothing happened, with one worker.
pub(crate) fn begun<L: Language>(alloc: Global) -> Result<Session<L, Past>, Fail>
    ensures service { IfOk result (λ session. session.service ≡ service_is.Workers 1) }
{
    match Session::new(alloc, Service::Workers { count: WORKER }, Past::new(alloc)) {
        Ok(session) => Ok(session),
        Err(_) => Err(Fail::new("no session")),
    }
}

/// A message is answered. The worker holds what it held.
pub(crate) fn told<L: Language>(
    alloc: Global,
    lang: &L,
    session: &mut Session<L, Past>,
    message: Message,
) -> Result<(), Fail>
    requires worker { session.old.service ≡ service_is.Workers 1 }
    ensures service { session.new.service ≡ session.old.service }
    ensures holds { held (session_in L.lang session.new.service session.new.items).events 1
        ≡ held (session_in L.lang session.old.service session.old.items).events 1 }
{
    a_message_is_asked_where_it_is_spelled();
    if session.ended() {
        return Err(Fail::new("ended"));
    }
    match session.take(alloc, lang, message)? {
        Taken::Replied => Ok(()),
        Taken::Waits(_) => Err(Fail::new("not answered")),
    }
}

/// The job of the first ready part, which the worker takes.
pub(crate) fn claimed<L: Language>(
    alloc: Global,
    lang: &L,
    session: &mut Session<L, Past>,
) -> Result<SessionJob<L::State>, Fail>
    requires worker { session.old.service ≡ service_is.Workers 1 }
    ensures service { session.new.service ≡ session.old.service }
    ensures job { IfOk result (λ job. IsWorkOf L.lang (session_in L.lang session.new.service
        session.new.items) 1 job) }
{
    match session.claim(alloc, lang, WORKER) {
        Claim::Job { job, flag } => {
            drop(flag);
            Ok(job)
        }
        Claim::Nothing | Claim::NoMemory => Err(Fail::new("no part was taken")),
    }
}

/// The worker works on its part to the end, though it may be asked to stop, and that is taken in.
pub(crate) fn finished<L: Language>(
    alloc: Global,
    lang: &L,
    session: &mut Session<L, Past>,
    job: SessionJob<L::State>,
    stop: &mut NthStop,
) -> Result<(), Fail>
    requires worker { session.old.service ≡ service_is.Workers 1 }
    requires job { IsWorkOf L.lang (session_in L.lang session.old.service session.old.items) 1
        job }
    ensures service { session.new.service ≡ session.old.service }
{
    job_law::<L>();
    let SessionRan::Done(done) = job.run(alloc, lang, stop) else {
        return Err(Fail::new("not done"));
    };
    match session.finish(WORKER, done) {
        Finish::Finished => Ok(()),
        Finish::Dropped => Err(Fail::new("dropped")),
    }
}

/// The worker takes the first ready part and finishes it.
pub(crate) fn worked<L: Language>(
    alloc: Global,
    lang: &L,
    session: &mut Session<L, Past>,
) -> Result<(), Fail>
    requires worker { session.old.service ≡ service_is.Workers 1 }
    ensures service { session.new.service ≡ session.old.service }
{
    let job = claimed(alloc, lang, session)?;
    finished(alloc, lang, session, job, &mut NthStop::new(0))
}

/// The writer takes a reply of just these bytes.
pub(crate) fn replied<L: Language>(
    session: &mut Session<L, Past>,
    wanted: &[u8],
) -> Result<(), Fail>
    ensures service { session.new.service ≡ session.old.service }
{
    let Some(reply) = session.sent() else {
        return Err(Fail::new("no reply"));
    };
    if reply.as_slice() != wanted {
        return Err(Fail::new("another reply"));
    }
    Ok(())
}
