//! What holds of histories.
ghost use Rattle.std.specs.Prelude.{◌≡◌, ◌≢◌, ℕ, List, None};
ghost use Rattle.message_values.specs.Workers.{IsWorker};
ghost use Rattle.doc_nodes.specs.Imports.{NodeList};
ghost use Rattle.exec_rules.specs.Kept.{BlobList};
ghost use Rattle.buffer_laws.specs.buffer_rules_below.Nodes.{nodes_after};
ghost use Rattle.buffer_laws.specs.buffer_rules_below.Sheets.{SheetList};
ghost use Rattle.core_rules.specs.Scratch.{scratch};
ghost use Rattle.core_rules.specs.Standing.{held};
ghost use Rattle.session_rules.specs.declared.entry.Entry.{Entry};
ghost use Rattle.session_rules.specs.declared.service.Service.{Service};
ghost use Rattle.session_rules.specs.declared.service.Service.TheVariants as service_is;
ghost use Rattle.session_rules.specs.Services.{free_workers};
ghost use Rattle.session_rules.specs.Heard.{Heard, all_heard};
ghost use Rattle.session_rules.specs.History.{session};
ghost use Rattle.session_rules.specs.Legal.{IsLegal};
ghost use Rattle.session_rules.specs.Alone.{IsAlone};
ghost use Rattle.session_rules.specs.Checked.{checked_nodes, texts_of};
ghost use Rattle.session_rules.specs.OneThread.{reads, thread};
ghost use Rattle.session_rules.specs.Promises.{CoversSo, EachMessage, ExactSo, KeepsSo, LeavesCancelled, ShowsSo};
ghost use Rattle.session_rules.specs.Reporting.{EachFinished, ReportsSo};
ghost use Rattle.session_rules.specs.Runs.{IsWholeRun, called};

use crate::laws::events_law;
use buffer_laws::buffer_rules_below::ids_law;
use core_rules::{
    alone_law as core_alone_law, cancelled_law, core_law, covers_law, first_law,
    holders_law as core_holders_law, homes_law, places_law, rest_law, tip_law,
};
use doc_nodes::order_law;
use exec_rules::rows_law;
use language::Language;
use message_values::a_message_is_asked_where_it_is_spelled;

/// Where nobody works beside the reader, what one thread does is determined by the messages: there
/// is one whole run for them.
pub fn alone_law<L: Language>()
    ensures way { (service : Service) (h : List Entry) → free_workers service ≡ 0
        → (is : IsWholeRun L.lang service h) → all_heard service is.before
        ≡ thread L.lang service (reads (all_heard service is.before)) }
    ensures one { (service : Service) (h k : List Entry) → free_workers service ≡ 0
        → IsWholeRun L.lang service h → IsWholeRun L.lang service k → called h ≡ called k
        → h ≡ k }
    ensures some { (service : Service) (messages : List (List (List ℕ)))
        → free_workers service ≡ 0
        → (h : List Entry) × IsWholeRun L.lang service h × (called h ≡ messages) }
{
    events_law::<L>();
    first_law::<L>();
    rest_law::<L>();
    core_alone_law::<L>();
    a_message_is_asked_where_it_is_spelled();
}

/// In a history that one thread made nobody holds a part but workers whom messages name: the reader
/// has finished each part that it took.
pub fn holders_law<L: Language>()
    ensures { (service : Service) (h : List Entry) (who : ℕ) → free_workers service ≡ 0
        → IsLegal L.lang service (all_heard service h)
        → IsAlone L.lang service None (all_heard service h)
        → held (session L.lang service (all_heard service h)).events who ≢ None
        → (service ≡ service_is.Script) × IsWorker who }
{
    a_message_is_asked_where_it_is_spelled();
}

/// In each legal history a snapshot that isn't refused tells, of what checking its version from
/// nothing gives, the parts of assigned executions that are finished, and each other assigned
/// execution as pending, so where none is pending all of them are shown; and the version that an
/// update makes has an evaluation for each command that its nodes want, assigns nothing that was
/// cancelled before, and keeps the executions of a front of each node's commands, and no others.
pub fn headline_law<L: Language>()
    ensures shows { (service : Service) (h : List Heard) → IsLegal L.lang service h
        → EachMessage (ShowsSo L.lang service) h }
    ensures exact { (service : Service) (h : List Heard) → IsLegal L.lang service h
        → EachMessage (ExactSo L.lang service) h }
    ensures covers { (service : Service) (h : List Heard) → IsLegal L.lang service h
        → EachMessage (CoversSo L.lang service) h }
    ensures cancelled { (service : Service) (h : List Heard) → IsLegal L.lang service h
        → EachMessage (LeavesCancelled L.lang service) h }
    ensures kept { (service : Service) (h : List Heard) → IsLegal L.lang service h
        → EachMessage (KeepsSo L.lang service) h }
{
    events_law::<L>();
    core_law::<L>();
    covers_law::<L>();
    cancelled_law::<L>();
    homes_law::<L>();
    places_law::<L>();
    order_law();
    rows_law();
}

/// In each legal history the reply of a finished part tells what checking a version from nothing
/// gives for the part at the command to which the version assigns it: so for the version whose
/// update made the execution, for each that was live since then and assigned it, and for each that
/// is live and assigns it now, as one does.
pub fn reports_law<L: Language>()
    ensures { (service : Service) (h : List Heard) → IsLegal L.lang service h
        → EachFinished (ReportsSo L.lang service) h }
{
    events_law::<L>();
    core_law::<L>();
    core_holders_law::<L>();
    homes_law::<L>();
    places_law::<L>();
    tip_law::<L>();
    order_law();
    rows_law();
}

/// What a document comes to when it is checked from nothing depends on the names, texts and blobs
/// alone: documents of the same texts come to the same states and reports, whatever ids their
/// commands were given and whatever is visible or required. So do lists of nodes that differ in
/// this alone.
pub fn texts_law<L: Language>()
    ensures texts { (sheets others : SheetList) (tip old : NodeList) (next last : ℕ)
        (blobs : BlobList) → texts_of sheets ≡ texts_of others
        → scratch L.lang (nodes_after tip sheets next).nodes blobs
        ≡ scratch L.lang (nodes_after old others last).nodes blobs }
    ensures nodes { (nodes others : NodeList) (blobs : BlobList)
        → checked_nodes nodes ≡ checked_nodes others
        → scratch L.lang nodes blobs ≡ scratch L.lang others blobs }
{
    ids_law();
}
