//! The laws.

ghost use Rattle.std.specs.Prelude.{ℕ, List, [], ◌∷◌};
ghost use Rattle.std.specs.List.{AllByRecursion};
ghost use Rattle.doc_nodes.specs.declared.inherited.NodeAliases.{NodeAliases};
ghost use Rattle.doc_nodes.specs.declared.node.Node.{Node};
ghost use Rattle.doc_nodes.specs.Imports.{NodeList};
ghost use Rattle.exec_rules.specs.Kept.{BlobList};
ghost use Rattle.language.specs.declared.made.Imports.TheVariants.{Ordered};
ghost use Rattle.core_rules.specs.Scratch.{final, run_node, scratch};
ghost use Rattle.isar_rules.specs.Isar.{isar};
ghost use Rattle.isar_rules.specs.Starts.{start_state};
ghost use Rattle.soundness_laws.specs.Axioms.{IsAxiomOf};
ghost use Rattle.soundness_laws.specs.Clean.{AreClean};
ghost use Rattle.soundness_laws.specs.Facts.{FactsFollow};
ghost use Rattle.soundness_laws.specs.Imports.{AreCleanFrom, IsAxiomFrom};

use doc_nodes::rounds_law;
use proof_checks::checks_law;
use proof_state::kept_law;

/// A node without imports: where its commands report no error, each fact of its theory follows by
/// natural deduction from the theory's axioms.
pub fn node_law()
    ensures { (name : List ℕ) (aliases : NodeAliases) (node : Node) (blobs : BlobList)
        → let run = run_node isar node blobs (start_state name (Ordered []) aliases) in
        AreClean run.commands → FactsFollow (IsAxiomOf run.commands) (final isar run) }
{
    kept_law();
    checks_law();
}

/// A document: where neither a node nor any of its imports, direct or not, reports an error, each
/// fact of the node's theory follows by natural deduction from axioms of these theories.
pub fn sound_facts_law()
    ensures { (nodes : NodeList) (blobs : BlobList) → AllByRecursion (λ one.
        AreCleanFrom nodes blobs one.0
        → FactsFollow (IsAxiomFrom nodes blobs one.0) (final isar one.1))
        (scratch isar nodes blobs) }
{
    kept_law();
    checks_law();
}

/// A document of one node: where its commands report no error, each fact of its theory follows by
/// natural deduction from the theory's own axioms.
pub fn alone_law()
    ensures { (name : List ℕ) (node : Node) (blobs : BlobList) → AllByRecursion (λ one.
        AreClean one.1.commands → FactsFollow (IsAxiomOf one.1.commands) (final isar one.1))
        (scratch isar ((name, node) ∷ []) blobs) }
{
    kept_law();
    checks_law();
    rounds_law();
}
