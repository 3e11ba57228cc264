//! What holds of the order of every graph.

ghost use Rattle.std.specs.Prelude.{◌≡◌, ℕ, ◌<◌, true, false, List, ◌∷◌, ◌++◌, length, Option};
ghost use Rattle.std.specs.List.{list_all};
ghost use Rattle.text_words.specs.Members.{has};
ghost use Rattle.doc_nodes.specs.Rounds.{is_known, in_rounds};
ghost use Rattle.doc_nodes.specs.Looks.{aims_at};

/// A node is ordered exactly where each of its imports is a node that is ordered. It is ordered
/// once, and each of its imports before it.
pub fn rounds_law()
    ensures nodes { (rows : List (List (Option ℕ))) (p : ℕ) → has (in_rounds rows) p ≡ true
        → p < length rows }
    ensures once { (rows : List (List (Option ℕ))) (front rest : List ℕ) (p : ℕ)
        → in_rounds rows ≡ front ++ p ∷ rest → has front p ≡ false }
    ensures behind { (rows : List (List (Option ℕ))) (front rest : List ℕ) (p : ℕ)
        → in_rounds rows ≡ front ++ p ∷ rest
        → list_all (is_known front) (aims_at rows p) ≡ true }
    ensures all { (rows : List (List (Option ℕ))) (p : ℕ) → p < length rows
        → list_all (is_known (in_rounds rows)) (aims_at rows p) ≡ true
        → has (in_rounds rows) p ≡ true }
{}
