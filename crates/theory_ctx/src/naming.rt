//! What names mean after a fact is added, and where they are ambiguous.
ghost use Rattle.std.specs.Prelude.{◌≡◌, ◌≢◌, ◌↔◌, ℕ, List, [], ◌∷◌, Some, None};
ghost use Rattle.std.specs.declared.cmp.Ordering.TheVariants.{Less};
ghost use Rattle.shared_map.specs.Pairs.{IsSorted};
ghost use Rattle.theory_ctx.specs.Facts.{Fact, fact_of, facts_elsewhere};
ghost use Rattle.theory_ctx.specs.Order.{by_bytes, by_name};
ghost use Rattle.theory_ctx.specs.Answers.{found, ambiguous};
ghost use Rattle.theory_ctx.specs.Looked.{name_parts, first_of, looked};
ghost use Rattle.theory_ctx.specs.Merged.{extended_facts};
ghost use Rattle.theory_ctx.specs.Ambiguity.{HasTwo, IsAmbiguous};

/// A law: a fact that is added is what its name means in its theory, and what its long name means
/// everywhere. In another theory its name means that theory's own fact, where there is one; else it
/// is one more of the imported facts. All other names mean what they meant.
pub fn add_law()
    ensures own { (facts : List Fact) (x : Fact) (name : List ℕ) → name_parts name ≡ x.0.name ∷ []
        → looked (extended_facts x facts) x.0.theory name ≡ found (Some x.0.theory) x.0.name x.1 }
    ensures long { (facts : List Fact) (x : Fact) (own name : List ℕ)
        → name_parts name ≡ x.0.theory ∷ x.0.name ∷ []
        → looked (extended_facts x facts) own name ≡ found (Some x.0.theory) x.0.name x.1 }
    ensures elsewhere { (facts : List Fact) (x : Fact) (own name : List ℕ)
        → name_parts name ≡ x.0.name ∷ [] → own ≢ x.0.theory
        → looked (extended_facts x facts) own name ≡ first_of (fact_of own x.0.name facts)
        (extended_facts x (facts_elsewhere own x.0.name facts)) }
    ensures others { (facts : List Fact) (x : Fact) (own name : List ℕ)
        → IsSorted by_name facts → fact_of x.0.theory x.0.name facts ≡ None
        → name_parts name ≢ x.0.name ∷ [] → name_parts name ≢ x.0.theory ∷ x.0.name ∷ []
        → looked (extended_facts x facts) own name ≡ looked facts own name }
{}

/// A law: a name is ambiguous exactly where it is plain, the own theory has no fact of it, and
/// other theories have two or more; the first two are told, in the order of their theories' names.
pub fn ambiguous_law()
    ensures exactly { (facts : List Fact) (own name one other : List ℕ)
        → (looked facts own name ≡ ambiguous one other)
        ↔ IsAmbiguous facts own name one other }
    ensures order { (facts : List Fact) (own n : List ℕ) (first second : Fact)
        → IsSorted by_name facts → HasTwo facts own n first second
        → by_bytes first.0.theory second.0.theory ≡ Less }
{}
