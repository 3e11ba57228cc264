//! Suggested proofs as commands.
ghost use Rattle.std.specs.Prelude.{◌≡◌, ℕ, List, [], Option, Some, None, codes};
ghost use Rattle.shared_map.specs.Pairs.{found};
ghost use Rattle.doc_nodes.specs.declared.inherited.NodeAliases.{NodeAliases};
ghost use Rattle.doc_nodes.specs.Names.{in_order};
ghost use Rattle.language.specs.declared.made.Imports.{Imports};
ghost use Rattle.proof_terms.specs.declared.term.Term.{Term};
ghost use Rattle.suggest_rules.specs.TermText.{by_text};
ghost use Rattle.isar_rules.specs.declared.state.State.{State};
ghost use Rattle.isar_rules.specs.Shown.{suggested_at};
ghost use Rattle.isar_rules.specs.Starts.{start_state};
ghost use Rattle.isar_rules.specs.Steps.{step};
ghost use Rattle.soundness_laws.specs.Insertion.{IsCommandText};
ghost use Rattle.soundness_laws.specs.CitableStates.{alias_names, IsCitableState};
ghost use Rattle.soundness_laws.specs.Proving.{IsProvedBy};

/// A node begins in a state in which what a suggested proof may cite can be written, and each
/// command leaves such a state behind such a state.
pub fn citable_states()
    ensures begins { (name : List ℕ) (imports : Imports State) (aliases : NodeAliases)
        → IsCitableState (start_state name imports aliases) }
    ensures kept { (source : List ℕ) (blob : Option (List ℕ)) (state : State)
        → IsCitableState state → IsCitableState (step source blob state).state }
{}

/// In such a state a suggested proof is one command by itself, under the aliases and under the
/// language's own names alone; and where no alias is named as the command `by`, it reports no
/// error, and neither does its fork.
pub fn suggested_by()
    ensures aliased { (state : State) (t : Term) → IsCitableState state
        → suggested_at (alias_names state) state.place ≡ Some t
        → IsCommandText (alias_names state) (by_text t) }
    ensures bare { (state : State) (t : Term) → IsCitableState state
        → suggested_at (alias_names state) state.place ≡ Some t
        → IsCommandText [] (by_text t) }
    ensures proved { (state : State) (blob : Option (List ℕ)) (t : Term) → IsCitableState state
        → found in_order (codes "by") state.aliases ≡ None
        → suggested_at (alias_names state) state.place ≡ Some t
        → IsProvedBy state (by_text t) blob }
{
    crate::suggested_texts::suggested_command();
    crate::suggested_texts::suggested_proof();
}
