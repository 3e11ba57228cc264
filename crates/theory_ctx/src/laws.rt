ghost use Rattle.std.specs.Prelude.{◌≡◌, ◌≢◌, ℕ, List, [], ◌∷◌, None};
ghost use Rattle.shared_map.specs.Pairs.{Each, IsSorted};
ghost use Rattle.theory_ctx.specs.declared.local.Local.{Local};
ghost use Rattle.theory_ctx.specs.Facts.{Fact, fact_of};
ghost use Rattle.theory_ctx.specs.Order.{by_name};
ghost use Rattle.theory_ctx.specs.Answers.{found};
ghost use Rattle.theory_ctx.specs.Looked.{name_parts, looked};
ghost use Rattle.theory_ctx.specs.Locals.{Scoped, looked_in};
ghost use Rattle.theory_ctx.specs.Merged.{merged_facts, all_of};
ghost use Rattle.theory_ctx.specs.Agreement.{DoAgree, AreSame};

/// A law: merged facts have, for each theory and name, the fact of the earliest part that has one.
pub fn merge_law()
    ensures first { (parts : List (List Fact)) (t n : List ℕ) → Each (IsSorted by_name) parts
        → fact_of t n (merged_facts parts) ≡ fact_of t n (all_of parts) }
    ensures sorted { (parts : List (List Fact)) → Each (IsSorted by_name) parts
        → IsSorted by_name (merged_facts parts) }
{}

/// A law: where the parts agree, what a name means depends neither on the order in which they are
/// merged nor on how often each is named.
pub fn order_law()
    ensures { (parts others : List (List Fact)) (own name : List ℕ)
        → Each (IsSorted by_name) parts → Each (IsSorted by_name) others
        → DoAgree parts → AreSame parts others
        → looked (merged_facts parts) own name ≡ looked (merged_facts others) own name }
{}

/// A law: a local fact hides what else has its name, the innermost first; it hides no other name,
/// and no long name.
pub fn local_law()
    ensures innermost { (scope : Scoped) (local : Local) (name : List ℕ)
        → name_parts name ≡ local.name ∷ []
        → looked_in (record scope { locals = local ∷ scope.locals }) name
        ≡ found None local.name local.formula }
    ensures others { (scope : Scoped) (local : Local) (name n : List ℕ)
        → name_parts name ≡ n ∷ [] → local.name ≢ n
        → looked_in (record scope { locals = local ∷ scope.locals }) name ≡ looked_in scope name }
    ensures long { (scope : Scoped) (name t n : List ℕ) → name_parts name ≡ t ∷ n ∷ []
        → looked_in scope name ≡ looked scope.facts scope.theory name }
{}
