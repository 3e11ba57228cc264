//! What holds of sessions.

ghost use Rattle.std.specs.Prelude.{List};
ghost use Rattle.buffer_laws.specs.Fitting.{Agrees};
ghost use Rattle.core_rules.specs.Legal.{IsLegal as IsLegalList};
ghost use Rattle.session_rules.specs.declared.service.Service.{Service};
ghost use Rattle.session_rules.specs.Heard.{Heard};
ghost use Rattle.session_rules.specs.History.{session};
ghost use Rattle.session_rules.specs.Legal.{IsLegal};
ghost use Rattle.session_rules.specs.Session.{document};
ghost use Rattle.session_rules.specs.Worked.{AFirstVersion, ACancelledClaim, Refusals};

use buffer_laws::fits_law;
use language::Language;

/// What a legal history did to versions and executions is a legal list of events, so all that the
/// core's laws say of such lists holds of sessions; and the editor's document has the nodes of the
/// newest version.
pub fn events_law<L: Language>()
    ensures legal { (service : Service) (h : List Heard) → IsLegal L.lang service h
        → IsLegalList L.lang (session L.lang service h).events }
    ensures agree { (service : Service) (h : List Heard) → IsLegal L.lang service h
        → Agrees (session L.lang service h).buffer
        (document L.lang (session L.lang service h)) }
{
    fits_law();
}

/// What small sessions come to, computed.
pub fn worked_examples()
    ensures first_version { AFirstVersion }
    ensures cancelled_claim { ACancelledClaim }
    ensures refusals { Refusals }
{}
