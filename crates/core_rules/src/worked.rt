//! What small documents come to.

ghost use Rattle.core_rules.specs.Worked.{ACancelledEvaluation, ACancelledFork, AReplacedText, ALegalList};
ghost use Rattle.core_rules.specs.WorkedNodes.{AnImport, BadImports, APerspective};
ghost use Rattle.core_rules.specs.WorkedVersions.{AnInsertedCommand, ARemovedVersion, AnAlias, ABlob};

/// What events come to in small documents, computed.
pub fn worked_examples()
    ensures cancelled_evaluation { ACancelledEvaluation }
    ensures cancelled_fork { ACancelledFork }
    ensures replaced_text { AReplacedText }
    ensures legal { ALegalList }
    ensures import { AnImport }
    ensures bad_imports { BadImports }
    ensures perspective { APerspective }
    ensures inserted_command { AnInsertedCommand }
    ensures removed_version { ARemovedVersion }
    ensures alias { AnAlias }
    ensures blob { ABlob }
{}
