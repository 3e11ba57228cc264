//! What holds of replies where the prover's side answers as it promises.
ghost use Rattle.std.specs.Prelude.{◌≡◌, ℕ, List, [], ◌∷◌, map, Some, Ok};
ghost use Rattle.text_edits.specs.declared.edit.Edit.{Edit};
ghost use Rattle.doc_nodes.specs.declared.node.Node.{Node};
ghost use Rattle.core_tables.specs.declared.versions.Removing.TheVariants as removing;
ghost use Rattle.core_tables.specs.Removal.{removing};
ghost use Rattle.exec_rules.specs.declared.version.Version.{Version};
ghost use Rattle.core_tables.specs.declared.execs.Cancelling.{Cancelling};
ghost use Rattle.message_values.specs.declared.editor_message.EditorMessage.TheVariants as asks;
ghost use Rattle.buffer_rules.specs.Texts.{edit_all};
ghost use Rattle.reply_messages.specs.Forms.{IsRising};
ghost use Rattle.reply_messages.specs.declared.told.Told.TheVariants as tells;
ghost use Rattle.core_rules.specs.declared.event.Event.{Event};
ghost use Rattle.core_rules.specs.Doc.{doc};
ghost use Rattle.core_rules.specs.Legal.{IsLegal};
ghost use Rattle.core_rules.specs.Stuck.{stuck_in};
ghost use Rattle.core_rules.specs.Updates.{node_in};
ghost use Rattle.core_jobs.specs.declared.done.Done.{Done};
ghost use Rattle.core_jobs.specs.Jobs.{JobContent};
ghost use Rattle.core_jobs.specs.Fits.{IsJobOf, IsDoneOf};
ghost use Rattle.core_jobs.specs.declared.results.NodeResults.{NodeResults};
ghost use Rattle.core_jobs.specs.Parts.{told_part};
ghost use Rattle.prover_core.specs.Answers.{CancelledSo};
ghost use Rattle.prover_core.specs.Results.{AreResultsIn};
ghost use Rattle.session_rules.specs.declared.service.Service.{Service};
ghost use Rattle.session_rules.specs.Session.{Session, document};
ghost use Rattle.session_rules.specs.Shown.{finished_reports, protocol_reports};
ghost use Rattle.session_rules.specs.Replies.{is_outdated, live_among, told_to, report_of};
ghost use Rattle.session_replies.specs.Edited.{PlacesFit};
ghost use Rattle.session_replies.specs.Marked.{shown_of, marked, AreMovable};
ghost use Rattle.session_replies.specs.Reported.{source_of};
ghost use Rattle.session_replies.specs.Cancelled.{cancelling_told};
ghost use Rattle.session_replies.specs.Removed.{IsRisen};
ghost use Rattle.session_replies.specs.Worked.{Assignments, Snapshots};

use core_rules::core_law;
use language::Language;

/// What the core answers of a node is what a snapshot of it shows: of the markup that checking the
/// version from nothing gives, that of the finished parts. The pending executions rise. And where
/// the node's text takes the pending edits, all of it can be moved to its place.
pub fn snapshot_law<L: Language>()
    ensures shown { (h : List Event) (id : ℕ) (name : List ℕ) (edits : List Edit)
        (results : NodeResults) → IsLegal L.lang h
        → (found : AreResultsIn L.lang h id name results)
        → shown_of edits (map told_part results.parts.items)
        ≡ finished_reports L.lang h found.version name edits }
    ensures rises { (h : List Event) (id : ℕ) (name : List ℕ) (results : NodeResults)
        → AreResultsIn L.lang h id name results → IsRising results.pending.items }
    ensures movable { (h : List Event) (id : ℕ) (name : List ℕ) (edits : List Edit)
        (results : NodeResults) (node : Node) → IsLegal L.lang h
        → (found : AreResultsIn L.lang h id name results)
        → node_in found.version name ≡ Some node → PlacesFit edits node.text
        → AreMovable edits (map told_part results.parts.items) }
    ensures told { (service : Service) (s : Session) (id : ℕ) (name : List ℕ) (edits : List Edit)
        (results : NodeResults) (node : Node) (text : List ℕ) → IsLegal L.lang s.events
        → (found : AreResultsIn L.lang s.events id name results)
        → node_in found.version name ≡ Some node → edit_all edits node.text ≡ Ok text
        → told_to L.lang service s (Ok (asks.Snapshot id name edits))
        ≡ tells.Markup id name (marked s.protocol text edits (map told_part results.parts.items))
        results.pending.items (is_outdated edits) ∷ [] }
{
    core_law::<L>();
}

/// What comes of a part is what is told of it, with its command's source, which its job has.
pub fn report_law<L: Language>()
    ensures told { (s : Session) (done : Done L.State)
        → IsDoneOf L.lang (document L.lang s).homes done
        → report_of L.lang s done.part ≡ tells.Report done.part (protocol_reports s.protocol
        (source_of (document L.lang s).homes done.part.exec) done.reports) }
    ensures source { (s : Session) (job : JobContent L.State)
        → IsJobOf L.lang (document L.lang s).homes job
        → source_of (document L.lang s).homes job.part.exec ≡ job.source }
{}

/// What is stuck in a version rises.
pub fn settled_law<L: Language>()
    ensures { (h : List Event) (version : Version)
        → IsRising (stuck_in L.lang h (doc L.lang h) version) }
{}

/// Versions that can be removed are told just as they are named, rising, each once.
pub fn removed_law<L: Language>()
    ensures { (h : List Event) (ids : List ℕ) → IsLegal L.lang h
        → removing (doc L.lang h).live ids ≡ removing.Removed
        → IsRisen ids (live_among (doc L.lang h) ids) }
{}

/// What the core answers to a cancellation is what is told of it.
pub fn cancelling_law<L: Language>()
    ensures { (service : Service) (s : Session) (exec : ℕ) (answer : Cancelling)
        (after : List Event) → CancelledSo L.lang exec s.events answer after
        → told_to L.lang service s (Ok (asks.Cancel exec)) ≡ cancelling_told exec answer ∷ [] }
{}

/// What small replies come to, computed.
pub fn worked_examples()
    ensures assignments { Assignments }
    ensures snapshots { Snapshots }
{}
