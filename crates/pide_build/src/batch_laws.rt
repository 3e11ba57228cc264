//! What holds of documents that are checked batch by batch.

ghost use Rattle.std.specs.Prelude.{◌≡◌, ℕ, [], List};
ghost use Rattle.doc_nodes.specs.Imports.{NodeList};
ghost use Rattle.exec_rules.specs.Kept.{BlobList};
ghost use Rattle.core_rules.specs.Scratch.{scratch};
ghost use Rattle.pide_build.specs.Batches.{AreBatches};
ghost use Rattle.pide_build.specs.Running.{run_batches};

use doc_nodes::order_law;
use language::Language;

/// Checked batch by batch, the nodes come to what they come to one after the other in the order of
/// imports.
pub fn scratch_law<L: Language>()
    ensures { (nodes : NodeList) (blobs : BlobList) (batches : List (List ℕ))
        → AreBatches nodes batches
        → run_batches L.lang nodes blobs batches [] ≡ scratch L.lang nodes blobs }
{
    order_law();
    crate::order_law::batches_law();
}
