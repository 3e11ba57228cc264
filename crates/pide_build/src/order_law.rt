//! What holds of the batches of all nodes.

ghost use Rattle.std.specs.Prelude.{◌≡◌, ℕ, true, List, ◌∷◌, ◌++◌};
ghost use Rattle.std.specs.List.{concat, list_all};
ghost use Rattle.text_words.specs.Members.{has};
ghost use Rattle.doc_nodes.specs.Rounds.{is_known};
ghost use Rattle.doc_nodes.specs.Looks.{aims_at};
ghost use Rattle.doc_nodes.specs.Imports.{NodeList, aims, is_ordered, order};
ghost use Rattle.pide_build.specs.Batches.{AreBatches};

/// The batches are the order of imports, and all imports of an ordered node stand in batches before
/// its own.
pub fn batches_law()
    ensures join { (nodes : NodeList) (batches : List (List ℕ)) → AreBatches nodes batches
        → concat batches ≡ order nodes }
    ensures before { (nodes : NodeList) (front rest : List (List ℕ)) (batch : List ℕ) (p : ℕ)
        → AreBatches nodes (front ++ batch ∷ rest) → has batch p ≡ true
        → is_ordered nodes p ≡ true
        → list_all (is_known (concat front)) (aims_at (aims nodes) p) ≡ true }
{}
