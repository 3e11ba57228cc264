use nj_formula::Name;
use nj_kernel::Rule;
use std::alloc::AllocError;
use std::fmt;

/// Why a text behind `by` is no proof of its goal.
#[derive(Debug, Drop)]
pub enum TermFault {
    /// It is no proof term, or tokens follow the term.
    Malformed,
    /// What is quoted is no formula, or no term, from this scalar of its content on.
    BadFormula { at: usize },
    /// What is quoted is nested too deeply.
    FormulaTooDeep,
    /// More than 200 rules are nested.
    ProofTooDeep,
    /// There is no fact of this name.
    UnknownName { name: Name },
    /// Several imported theories have a fact of this name.
    AmbiguousName { name: Name },
    /// The fact of this name says something else than is to be shown.
    ProvesAnother { name: Name },
    /// What is to be shown, or a quoted formula, has not the rule's shape.
    RuleDoesNotFit { rule: Rule },
    /// The name of a variable is free where the rule forbids it.
    NotFresh { name: Name },
}

impl fmt::Display for TermFault {
    ghost use Rattle.std.specs.Prelude.{Some};
    ghost use Rattle.proof_terms.specs.Texts.{fault_text};

    ghost output = { λ fault. Some (fault_text fault) };

    fn fmt<W: fmt::Write>(&self, f: &mut fmt::Formatter<W>) -> fmt::Result {
        match self {
            TermFault::Malformed => f.write_str("malformed proof"),
            TermFault::BadFormula { at } => write!(f, "bad formula at {at}"),
            TermFault::FormulaTooDeep => f.write_str("formula too deep"),
            TermFault::ProofTooDeep => f.write_str("proof too deep"),
            TermFault::UnknownName { name } => {
                let name = name.as_str();
                write!(f, "unknown name {name}")
            }
            TermFault::AmbiguousName { name } => {
                let name = name.as_str();
                write!(f, "ambiguous name {name}")
            }
            TermFault::ProvesAnother { name } => {
                let name = name.as_str();
                write!(f, "{name} proves another formula")
            }
            TermFault::RuleDoesNotFit { rule } => {
                let rule = rule.name();
                write!(f, "rule {rule} does not fit")
            }
            TermFault::NotFresh { name } => {
                let name = name.as_str();
                write!(f, "variable {name} is not fresh")
            }
        }
    }
}

/// Why no term was read.
#[derive(Debug, Drop)]
pub enum TermError {
    Fault(TermFault),
    NoMemory,
}

impl From<AllocError> for TermError {
    ghost use Rattle.std.specs.Prelude.{◌≡◌};
    ghost use Rattle.proof_terms.specs.declared.fault.TermError.TheVariants.{NoMemory};

    ghost from_gives = { λ _ e. e ≡ NoMemory };

    fn from(_error: AllocError) -> TermError {
        TermError::NoMemory
    }
}
