//! What holds of the nodes of every version.

ghost use Rattle.std.specs.Prelude.{◌≡◌, ◌↔◌, ℕ, ◌<◌, true, false, List, ◌∷◌, ◌++◌, length, slice_get, Some, None};
ghost use Rattle.std.specs.List.{list_all};
ghost use Rattle.text_words.specs.Members.{has};
ghost use Rattle.doc_nodes.specs.Rounds.{is_known};
ghost use Rattle.doc_nodes.specs.declared.node.Node.{Node};
ghost use Rattle.doc_nodes.specs.declared.node.Entry.{Entry};
ghost use Rattle.doc_nodes.specs.Imports.{place_of, is_ordered, order, placed_node};
ghost use Rattle.shared_map.specs.Pairs.{found};
ghost use Rattle.doc_nodes.specs.Names.{in_order};
ghost use Rattle.doc_nodes.specs.Aliases.{is_target, no_aliases, folded, own_at, aliases_at};
ghost use Rattle.doc_nodes.specs.HandedDown.{handed_down};
ghost use Rattle.doc_nodes.specs.Prefix.{wanted_prefix, IsWantedPrefix};
ghost use Rattle.doc_nodes.specs.Wanted.{is_reached};
ghost use Rattle.doc_nodes.specs.Reached.{Reached};

/// Each node stands once in the order of imports, and an ordered one behind all its imports. A node
/// is ordered exactly where none of its imports is bad.
pub fn order_law()
    ensures every { (nodes : List (List ℕ × Node)) (p : ℕ)
        → (has (order nodes) p ≡ true) ↔ (p < length nodes) }
    ensures once { (nodes : List (List ℕ × Node)) (front rest : List ℕ) (p : ℕ)
        → order nodes ≡ front ++ p ∷ rest → has front p ≡ false }
    ensures behind { (nodes : List (List ℕ × Node)) (front rest : List ℕ) (p : ℕ)
        (pair : List ℕ × Node) → order nodes ≡ front ++ p ∷ rest → slice_get nodes p ≡ Some pair
        → is_ordered nodes p ≡ true
        → list_all (λ name. is_known front (place_of nodes name)) pair.1.imports ≡ true }
    ensures ordered { (nodes : List (List ℕ × Node)) (p : ℕ) (pair : List ℕ × Node)
        → slice_get nodes p ≡ Some pair
        → (is_ordered nodes p ≡ true) ↔ ((placed_node nodes pair).bad ≡ None) }
{}

/// The wanted prefix is the one front of the commands that ends with the last visible one.
pub fn prefix_law()
    ensures { (entries : List Entry) (n : ℕ)
        → IsWantedPrefix entries n ↔ (n ≡ wanted_prefix entries) }
{}

/// A node is wanted as a whole, though it is not required, exactly where an ordered node that wants
/// a command imports it, directly or not.
pub fn wanted_law()
    ensures { (nodes : List (List ℕ × Node)) (p : ℕ)
        → (is_reached nodes p ≡ true) ↔ Reached nodes p }
{}

/// The aliases of a node are the fold over those of its imports, where it is ordered, then over its
/// own pairs. Each stands for a target, and no other before it has its name.
pub fn aliases_law()
    ensures fold { (nodes : List (List ℕ × Node)) (p : ℕ) → p < length nodes
        → aliases_at nodes p ≡ folded no_aliases (handed_down nodes p ++ own_at nodes p) }
    ensures each { (nodes : List (List ℕ × Node)) (p : ℕ) (front rest : List (List ℕ × List ℕ))
        (pair : List ℕ × List ℕ) → (aliases_at nodes p).pairs ≡ front ++ pair ∷ rest
        → (is_target pair.1 ≡ true) × (found in_order pair.0 front ≡ None) }
{}
