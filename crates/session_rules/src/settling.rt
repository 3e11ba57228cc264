//! What holds of histories of two updates and a settle.
ghost use Rattle.std.specs.Prelude.{◌≡◌, ℕ, List, Some, flat_map};
ghost use Rattle.core_tables.specs.Live.{version_of};
ghost use Rattle.exec_rules.specs.declared.version.Version.{Version};
ghost use Rattle.core_rules.specs.Shown.{parts_shown};
ghost use Rattle.session_rules.specs.declared.service.Service.TheVariants.{Workers};
ghost use Rattle.session_rules.specs.Heard.{Heard};
ghost use Rattle.session_rules.specs.Session.{document};
ghost use Rattle.session_rules.specs.History.{session};
ghost use Rattle.session_rules.specs.Legal.{IsLegal};
ghost use Rattle.session_rules.specs.OneThread.{reads};
ghost use Rattle.session_rules.specs.Reported.{part_reports, node_reports};
ghost use Rattle.session_rules.specs.Updates.{Updates, all_read, document_of};

use crate::laws::events_law;
use core_rules::{core_law, holders_law, homes_law, places_law};
use language::Language;

/// Once an update, another one and a settle of the other's version were answered, beside whatever
/// number of workers: the live versions are those that the updates make where nobody works, and
/// what is shown of each node of the settled version is all that checking it from nothing reports.
pub fn settled_law<L: Language>()
    ensures live { (count : ℕ) (h : List Heard) (u : Updates) → IsLegal L.lang (Workers count) h
        → reads h ≡ all_read u
        → (document L.lang (session L.lang (Workers count) h)).live
        ≡ (document_of L.lang u).live }
    ensures shown { (count : ℕ) (h : List Heard) (u : Updates) (version : Version)
        (name : List ℕ) → IsLegal L.lang (Workers count) h → reads h ≡ all_read u
        → version_of (document_of L.lang u).live u.second ≡ Some version
        → flat_map part_reports (parts_shown L.lang (session L.lang (Workers count) h).events
        (document L.lang (session L.lang (Workers count) h)) version name)
        ≡ node_reports L.lang version name }
{
    events_law::<L>();
    core_law::<L>();
    holders_law::<L>();
    homes_law::<L>();
    places_law::<L>();
}
