//! What small editors know, computed.

ghost use Rattle.mirror_rules.specs.Worked.{AnEditor, CountedSymbols, Blobs};
ghost use Rattle.mirror_rules.specs.WorkedFaults.{Faults, NoFaults, AScript, TheFirstFault};

/// What small editors see of two nodes that are edited, and which replies they don't expect.
pub fn worked_cases()
    ensures editor { AnEditor }
    ensures symbols { CountedSymbols }
    ensures blobs { Blobs }
    ensures faults { Faults }
    ensures no_faults { NoFaults }
    ensures script { AScript }
    ensures first_fault { TheFirstFault }
{}
