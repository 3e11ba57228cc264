//! The one thread works.
ghost use Rattle.std.specs.Prelude.{◌≡◌, ◌≢◌, ◌∷◌, true, false, None, OnOk, OnErr};
ghost use Rattle.core_rules.specs.Ready.{first_ready, is_wanted};
ghost use Rattle.core_rules.specs.Standing.{held, has_ended};
ghost use Rattle.reply_outbox.specs.declared.item.Item.TheVariants.{Made};
ghost use Rattle.session_rules.specs.declared.entry.Entry.TheVariants as entry;
ghost use Rattle.session_rules.specs.Session.{document};
ghost use Rattle.document_session.specs.keeping_rules_below.Items.{session_in};
ghost use Rattle.document_session.specs.keeping_rules_below.Legal.{AreLegal};
ghost use Rattle.document_session.specs.keeping_rules_below.Works.{IsWorkOf};
ghost use Rattle.document_serve.specs.Steps.{IsWorked, IsLeftOff};

use core_jobs::job_law;
use document_session::session_replies_below::{SessionJob, SessionRan};
use document_session::{Claim, Session};
use language::Language;
use pide_base::Never;
use reply_outbox::Past;
use session_rules::{Entry, Service};
use std::alloc::{AllocError, Global};

/// Takes the first ready part, and works on it to its end.
pub(crate) fn work<L: Language, P: Past<Service, Entry> + Drop>(
    alloc: Global,
    lang: &L,
    session: &mut Session<L, P>,
) -> Result<(), AllocError>
    requires going { has_ended (session_in L.lang session.old.service session.old.items).events
        ≡ false }
    requires idle { held (session_in L.lang session.old.service session.old.items).events 0
        ≡ None }
    requires ready { first_ready L.lang (session_in L.lang session.old.service
        session.old.items).events ≢ None }
    ensures service { session.new.service ≡ session.old.service }
    ensures ok { OnOk result (IsWorked session.old.items session.new.items) }
    ensures err { OnErr result (IsLeftOff session.old.items session.new.items) }
    ensures legal { AreLegal L.lang session.new.service session.new.items }
{
    match session.claim(alloc, lang, 0) {
        Claim::Job { job, flag } => {
            drop(flag);
            work_on(alloc, lang, session, job)
        }
        Claim::NoMemory => Err(AllocError),
        Claim::Nothing => unreachable!(),
    }
}

/// Works on the part that the reader holds, to its end.
fn work_on<L: Language, P: Past<Service, Entry> + Drop>(
    alloc: Global,
    lang: &L,
    session: &mut Session<L, P>,
    job: SessionJob<L::State>,
) -> Result<(), AllocError>
    requires holds { IsWorkOf L.lang (session_in L.lang session.old.service session.old.items) 0
        job }
    requires wanted { is_wanted (document L.lang (session_in L.lang session.old.service
        session.old.items)) job.job.part.exec ≡ true }
    requires legal { AreLegal L.lang session.old.service session.old.items }
    ensures service { session.new.service ≡ session.old.service }
    ensures ok { OnOk result (session.new.items ≡ Made (entry.Finished 0 job.job.part)
        ∷ session.old.items) }
    ensures err { OnErr result (session.new ≡ session.old) }
    ensures legal { AreLegal L.lang session.new.service session.new.items }
{
    job_law::<L>();
    match job.run(alloc, lang, &mut Never::new()) {
        SessionRan::Done(done) => {
            session.finish(0, done);
            Ok(())
        }
        SessionRan::NoMemory(_) => Err(AllocError),
        SessionRan::Stopped(_) => unreachable!(),
    }
}
