//! The editor's functions.
ghost use Rattle.std.specs.Prelude.{◌≡◌};
ghost use Rattle.message_values.specs.Functions.{word, named_in, function_named, takes};

use crate::mode::Mode;

/// A function that an editor's message names.
#[derive(Clone, Copy, Debug, PartialEq, Eq)]
pub enum Function {
    Update,
    Snapshot,
    Cancel,
    RemoveVersions,
    Settle,
    Protocol,
    Claim,
    Finish,
    Theory,
}

/// The functions of a session.
const SESSION: [Function; 6] = [
    Function::Update,
    Function::Snapshot,
    Function::Cancel,
    Function::RemoveVersions,
    Function::Settle,
    Function::Protocol,
];

/// The functions with which the messages say who works on what.
const WORK: [Function; 2] = [Function::Claim, Function::Finish];

/// The functions of a build.
const BUILD: [Function; 1] = [Function::Theory];

/// The one of these functions that has this name.
fn named_in(functions: &[Function], name: &[u8]) -> Option<Function>
    ensures { result ≡ named_in functions.now name.now }
{
    'functions: for function in functions {
        if function.word().as_bytes() == name {
            return Some(*function);
        }
    }
    None
}

impl Function {
    /// The function of the mode that has this name, or None where it has none.
    pub fn named(mode: Mode, name: &[u8]) -> Option<Function>
        ensures { result ≡ function_named mode name.now }
    {
        match mode {
            Mode::Serve => named_in(&SESSION, name),
            Mode::Replay => named_in(&SESSION, name).or(named_in(&WORK, name)),
            Mode::Build => named_in(&BUILD, name),
        }
    }

    /// The name with which its messages begin.
    pub fn word(self) -> &'static str
        ensures { result.now ≡ word self }
    {
        match self {
            Function::Update => "Session.update",
            Function::Snapshot => "Session.snapshot",
            Function::Cancel => "Session.cancel",
            Function::RemoveVersions => "Session.remove_versions",
            Function::Settle => "Session.settle",
            Function::Protocol => "Session.protocol",
            Function::Claim => "Step.claim",
            Function::Finish => "Step.finish",
            Function::Theory => "Build.theory",
        }
    }

    /// Whether it takes so many arguments.
    pub fn takes(self, count: usize) -> bool
        ensures { result ≡ takes self count }
    {
        match self {
            Function::Update => count == 2 || count == 3,
            Function::Snapshot => count == 3,
            Function::Cancel => count == 1,
            Function::RemoveVersions => count == 1,
            Function::Settle => count == 1,
            Function::Protocol => count == 1,
            Function::Claim => count == 1,
            Function::Finish => count == 1,
            Function::Theory => count == 2,
        }
    }
}
