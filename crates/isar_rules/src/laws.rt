//! What holds of the commands.

ghost use Rattle.std.specs.Prelude.{ℕ, List, Option};
ghost use Rattle.language.specs.Laws.{AreTidy};
ghost use Rattle.isar_rules.specs.declared.state.State.{State};
ghost use Rattle.isar_rules.specs.Steps.{step};
ghost use Rattle.isar_rules.specs.Isar.{isar};
ghost use Rattle.isar_rules.specs.Kept.{IsDoneOrRefused};
ghost use Rattle.isar_rules.specs.Places.{EachPlace, FirstErrors};
ghost use Rattle.isar_rules.specs.WorkedTheories.{ATheory, StatedFacts, Headers};
ghost use Rattle.isar_rules.specs.WorkedNames.{TakenNames};
ghost use Rattle.isar_rules.specs.WorkedProofs.{AProof, ProofReports, ProofErrors};
ghost use Rattle.isar_rules.specs.WorkedAliases.{AnAlias, AMissingAlias};
ghost use Rattle.isar_rules.specs.WorkedBlobs.{ALoad, BlobLines};
ghost use Rattle.isar_rules.specs.WorkedPrints.{Prints, SuggestingPrints};
ghost use Rattle.isar_rules.specs.WorkedForks.{Forks};

/// What the commands of small theories make, computed.
pub fn worked_examples()
    ensures each_place { EachPlace }
    ensures first_errors { FirstErrors }
    ensures theory { ATheory }
    ensures stated_facts { StatedFacts }
    ensures headers { Headers }
    ensures taken_names { TakenNames }
    ensures proof { AProof }
    ensures proof_reports { ProofReports }
    ensures proof_errors { ProofErrors }
    ensures alias { AnAlias }
    ensures missing_alias { AMissingAlias }
    ensures load { ALoad }
    ensures blob_lines { BlobLines }
    ensures prints { Prints }
    ensures suggesting_prints { SuggestingPrints }
    ensures forks { Forks }
{}

/// A command reports no error, or just one. After an error the state is as before, but a first
/// command begins no theory then, and nothing is worked on behind it.
pub fn refused_law()
    ensures { (source : List ℕ) (blob : Option (List ℕ)) (before : State)
        → IsDoneOrRefused before (step source blob before) }
{}

/// What is reported of a command, by its evaluation, its fork and its print, lies in its source;
/// any two of these reports are equal in range, nested or disjoint.
pub fn tidy_law()
    ensures { AreTidy isar }
{}
