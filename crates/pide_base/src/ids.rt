//! Ids, each kind a type of its own. A contract sees one as its number.
ghost use Rattle.std.specs.Prelude.{◌≡◌, ◌↔◌, IsTrue};
ghost use Rattle.std.specs.Option.{SomeIff};
ghost use Rattle.pide_base.specs.Ids.{IsId};

use std::marker::Model;

/// The smallest number that is no id any more.
pub const ID_END: u64 = 1_000_000_000_000_000_000;

fn is_id(number: u64) -> bool
    ensures { IsTrue result ↔ IsId number }
{
    1 <= number && number < ID_END
}

/// A version of the document, as the editor numbers them.
#[derive(Clone, Copy, Debug, PartialEq, Eq, PartialOrd, Ord, Hash)]
pub struct VersionId {
    number: u64,
}

impl Model for VersionId {
    ghost use Rattle.std.specs.Prelude.{ℕ};
    ghost use Rattle.pide_base.specs.Ids.{IsId};

    ghost Value = { ℕ };

    ghost view = { λ id. id.number };

    ghost invariant = { λ id. IsId id.number };

    ghost inverse = { λ n. record { number = n } };
}

impl VersionId {
    /// The id of this number, or None where it is not 1 to 10^18 - 1.
    pub fn new(number: u64) -> Option<VersionId>
        ensures { SomeIff result (IsId number) number }
    {
        if !is_id(number) {
            return None;
        }
        Some(VersionId { number })
    }

    /// The id of a number that is known to be one's.
    pub fn numbered(number: u64) -> VersionId
        requires { IsId number }
        ensures { result ≡ number }
    {
        VersionId { number }
    }

    /// Its number.
    pub fn number(self) -> u64
        ensures value { result ≡ self }
        ensures range { IsId result }
    {
        self.number
    }
}

/// A command of a node, as the prover side numbers them.
#[derive(Clone, Copy, Debug, PartialEq, Eq, PartialOrd, Ord, Hash)]
pub struct CommandId {
    number: u64,
}

impl Model for CommandId {
    ghost use Rattle.std.specs.Prelude.{ℕ};
    ghost use Rattle.pide_base.specs.Ids.{IsId};

    ghost Value = { ℕ };

    ghost view = { λ id. id.number };

    ghost invariant = { λ id. IsId id.number };

    ghost inverse = { λ n. record { number = n } };
}

impl CommandId {
    /// The id of this number, or None where it is not 1 to 10^18 - 1.
    pub fn new(number: u64) -> Option<CommandId>
        ensures { SomeIff result (IsId number) number }
    {
        if !is_id(number) {
            return None;
        }
        Some(CommandId { number })
    }

    /// The id of a number that is known to be one's.
    pub fn numbered(number: u64) -> CommandId
        requires { IsId number }
        ensures { result ≡ number }
    {
        CommandId { number }
    }

    /// Its number.
    pub fn number(self) -> u64
        ensures value { result ≡ self }
        ensures range { IsId result }
    {
        self.number
    }
}

/// An execution of a command: one evaluation or one print.
#[derive(Clone, Copy, Debug, PartialEq, Eq, PartialOrd, Ord, Hash)]
pub struct ExecId {
    number: u64,
}

impl Model for ExecId {
    ghost use Rattle.std.specs.Prelude.{ℕ};
    ghost use Rattle.pide_base.specs.Ids.{IsId};

    ghost Value = { ℕ };

    ghost view = { λ id. id.number };

    ghost invariant = { λ id. IsId id.number };

    ghost inverse = { λ n. record { number = n } };
}

impl ExecId {
    /// The id of this number, or None where it is not 1 to 10^18 - 1.
    pub fn new(number: u64) -> Option<ExecId>
        ensures { SomeIff result (IsId number) number }
    {
        if !is_id(number) {
            return None;
        }
        Some(ExecId { number })
    }

    /// The id of a number that is known to be one's.
    pub fn numbered(number: u64) -> ExecId
        requires { IsId number }
        ensures { result ≡ number }
    {
        ExecId { number }
    }

    /// Its number.
    pub fn number(self) -> u64
        ensures value { result ≡ self }
        ensures range { IsId result }
    {
        self.number
    }
}
