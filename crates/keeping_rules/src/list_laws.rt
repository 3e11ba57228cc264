//! What holds of legal lists.

ghost use Rattle.std.specs.Prelude.{◌≡◌, ℕ, false, List, flat_map};
ghost use Rattle.session_rules.specs.buffer_laws_below.Fitting.{Agrees};
ghost use Rattle.core_rules.specs.Legal.{IsLegal as IsLegalList};
ghost use Rattle.session_rules.specs.declared.service.Service.{Service};
ghost use Rattle.session_rules.specs.Heard.{Heard};
ghost use Rattle.session_rules.specs.Legal.{IsLegal};
ghost use Rattle.session_rules.specs.Replies.{replies};
ghost use Rattle.session_rules.specs.Session.{document};
ghost use Rattle.keeping_rules.specs.Items.{SessionItem, heard_in, session_in};
ghost use Rattle.keeping_rules.specs.Legal.{AreLegal};
ghost use Rattle.keeping_rules.specs.Pieces.{pieces};
ghost use Rattle.keeping_rules.specs.Sent.{IsFrontSent};
ghost use Rattle.keeping_rules.specs.Unheard.{IsUnheard};

use language::Language;
use session_rules::events_law;

/// The history of a legal list is legal, whatever the writer did between its entries; so what it
/// did to versions and executions is legal for the core, and the editor's document has the nodes of
/// the newest version.
pub fn history_law<L: Language>()
    ensures legal { (service : Service) (items : List SessionItem)
        → AreLegal L.lang service items → IsLegal L.lang service (heard_in service items) }
    ensures events { (service : Service) (items : List SessionItem)
        → AreLegal L.lang service items
        → IsLegalList L.lang (session_in L.lang service items).events }
    ensures agree { (service : Service) (items : List SessionItem)
        → AreLegal L.lang service items → Agrees (session_in L.lang service items).buffer
        (document L.lang (session_in L.lang service items)) }
{
    events_law::<L>();
}

/// While no message came, no execution is made and nobody holds a part.
pub fn unheard_law<L: Language>()
    ensures { (service : Service) (items : List SessionItem) → AreLegal L.lang service items
        → (session_in L.lang service items).called ≡ false
        → IsUnheard L.lang (session_in L.lang service items) }
{}

/// What a legal list tells as sent is a front of the replies, each of its length and in order; and
/// the replies one by one are all that is written.
pub fn sent_law<L: Language>()
    ensures front { (service : Service) (items : List SessionItem)
        → AreLegal L.lang service items → IsFrontSent L.lang service items }
    ensures joined { (service : Service) (h : List Heard)
        → flat_map (λ bytes. bytes) (pieces L.lang service h) ≡ replies L.lang service h }
{}
