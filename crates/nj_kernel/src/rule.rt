ghost use Rattle.std.specs.Prelude.{◌≡◌};
ghost use Rattle.nj_kernel.specs.RuleNames.{rule_name};

/// The rules of NJ, I for those that introduce and E for those that eliminate.
#[derive(Clone, Copy, Debug, PartialEq, Eq)]
pub enum Rule {
    ConjI,
    ConjE1,
    ConjE2,
    DisjI1,
    DisjI2,
    DisjE,
    ImpI,
    ImpE,
    NotI,
    NotE,
    FalseE,
    AllI,
    AllE,
    ExI,
    ExE,
}

impl Rule {
    /// Its name, as it is printed and as a proof term has it.
    pub fn name(self) -> &'static str
        ensures { result.now ≡ rule_name self }
    {
        match self {
            Rule::ConjI => "conjI",
            Rule::ConjE1 => "conjE1",
            Rule::ConjE2 => "conjE2",
            Rule::DisjI1 => "disjI1",
            Rule::DisjI2 => "disjI2",
            Rule::DisjE => "disjE",
            Rule::ImpI => "impI",
            Rule::ImpE => "impE",
            Rule::NotI => "notI",
            Rule::NotE => "notE",
            Rule::FalseE => "falseE",
            Rule::AllI => "allI",
            Rule::AllE => "allE",
            Rule::ExI => "exI",
            Rule::ExE => "exE",
        }
    }
}
