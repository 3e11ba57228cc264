//! Which facts theories have.

ghost use Rattle.std.specs.Prelude.{ℕ, ◌<◌, List, [], length};
ghost use Rattle.std.specs.List.{AllByRecursion};
ghost use Rattle.doc_nodes.specs.declared.inherited.NodeAliases.{NodeAliases};
ghost use Rattle.doc_nodes.specs.declared.node.Node.{Node};
ghost use Rattle.doc_nodes.specs.Imports.{NodeList};
ghost use Rattle.exec_rules.specs.Kept.{BlobList};
ghost use Rattle.language.specs.declared.made.Imports.TheVariants.{Ordered};
ghost use Rattle.core_rules.specs.Scratch.{final, run_node, scratch};
ghost use Rattle.isar_rules.specs.Isar.{isar};
ghost use Rattle.isar_rules.specs.Starts.{start_state};
ghost use Rattle.soundness_laws.specs.Clean.{AreClean};
ghost use Rattle.soundness_laws.specs.Imports.{AreCleanFrom};
ghost use Rattle.soundness_laws.specs.Theories.{IsStatedFrom, IsStatedIn, IsTheoryOf};

use doc_nodes::order_law;

/// Where commands report no error, and there is one, they come to a theory whose facts are just
/// those that they state, each under its name: in a node without imports its own axioms, lemmas
/// that are proved and lines of loaded blobs; in a document those of the node and of all its
/// imports, direct or not, which report no error either.
pub fn facts_law()
    ensures node { (name : List ℕ) (aliases : NodeAliases) (node : Node) (blobs : BlobList)
        → let run = run_node isar node blobs (start_state name (Ordered []) aliases) in
        AreClean run.commands → 0 < length run.commands
        → IsTheoryOf (IsStatedIn name run.commands) (final isar run) }
    ensures document { (nodes : NodeList) (blobs : BlobList) → AllByRecursion (λ one.
        AreCleanFrom nodes blobs one.0 → 0 < length one.1.commands
        → IsTheoryOf (IsStatedFrom nodes blobs one.0) (final isar one.1))
        (scratch isar nodes blobs) }
{
    order_law();
}
