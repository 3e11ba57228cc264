ghost use Rattle.std.specs.Prelude.{◌≡◌};
ghost use Rattle.std.specs.Str.{bytes_eq};
ghost use Rattle.nj_kernel.specs.RuleNames.{rule_name};
ghost use Rattle.proof_terms.specs.RuleNames.{rule_of};

use nj_kernel::Rule;
use outer_syntax::spells;

/// All rules of natural deduction.
const RULES: [Rule; 15] = [
    Rule::ConjI,
    Rule::ConjE1,
    Rule::ConjE2,
    Rule::DisjI1,
    Rule::DisjI2,
    Rule::DisjE,
    Rule::ImpI,
    Rule::ImpE,
    Rule::NotI,
    Rule::NotE,
    Rule::FalseE,
    Rule::AllI,
    Rule::AllE,
    Rule::ExI,
    Rule::ExE,
];

/// The rule of this name.
pub fn rule_named(name: &[char]) -> Option<Rule>
    ensures { result ≡ rule_of name.now }
{
    RULES.iter().copied().find(|rule| is_named(*rule, name))
}

/// Whether the rule has this name.
fn is_named(rule: Rule, name: &[char]) -> bool
    ensures { result ≡ bytes_eq (rule_name rule) name.now }
{
    spells(name, rule.name())
}
