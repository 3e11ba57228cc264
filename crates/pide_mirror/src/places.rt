//! The commands of a version that have an execution.
ghost use Rattle.std.specs.Prelude.{◌≡◌, ◌↔◌, ◌==◌, ◌&&◌, ℕ, Some, None, IfOk, OnOk, IsTrue, if◌then◌else◌};
ghost use Rattle.std.specs.Option.{option_copied, option_map};
ghost use Rattle.std.specs.Ordering.{nat_cmp};
ghost use Rattle.pide_base.specs.Ids.{IsId};
ghost use Rattle.shared_map.specs.Pairs.{found};
ghost use Rattle.pide_mirror.specs.Places.{told_at, told_in};
ghost use Rattle.pide_mirror.specs.Tables.{table_of, as_report, AreTaken, IsTaken};

use crate::place::Place;
use crate::told_part::ToldPart;
use pide_base::{CommandId, ExecId};
use shared_map::SharedMap;
use std::alloc::{AllocError, Global};

/// Places by the numbers of their commands.
pub(crate) type ByCommand = SharedMap<u64, Place>;

/// The commands of a version that have an execution, by the numbers of the execution and of the
/// command. A copy shares all with its source.
#[derive(Drop)]
pub struct Places {
    pub(crate) by_exec: SharedMap<u64, ByCommand>,
}

/// Commands with what was told of their execution, and whether one of them took it.
#[derive(Drop)]
struct ToldCommands {
    commands: ByCommand,
    taken: bool,
}

/// The commands, each with what is told where it takes it.
fn told_to_each(
    alloc: Global,
    commands: &ByCommand,
    told: &ToldPart,
) -> Result<ToldCommands, AllocError>
    ensures places { IfOk result (λ made. (command : ℕ) → found nat_cmp command made.commands
        ≡ option_map (told_at (as_report told.now)) (found nat_cmp command commands.now)) }
    ensures taken { IfOk result (λ made. IsTrue made.taken
        ↔ AreTaken (as_report told.now) commands.now) }
{
    let mut places = commands.copy()?;
    let mut taken = false;
    let mut rest = commands.iter();
    'commands: while let Some((command, place)) = rest.next() {
        if let Some(place) = told.at(alloc, place)? {
            places.set(alloc, *command, place)?;
            taken = true;
        }
    }
    Ok(ToldCommands {
        commands: places,
        taken,
    })
}

/// Places with what was told of a part, and whether a command took it.
#[derive(Drop)]
pub(crate) struct ToldPlaces {
    pub(crate) places: Places,
    pub(crate) taken: bool,
}

impl Places {
    /// None.
    pub(crate) fn new() -> Places
        ensures { (exec command : ℕ) → table_of result exec command ≡ None }
    {
        Places {
            by_exec: SharedMap::new(),
        }
    }

    /// The same, in the same memory.
    pub(crate) fn copy(&self) -> Result<Places, AllocError>
        ensures { IfOk result (λ places. places ≡ self.now) }
    {
        Ok(Places {
            by_exec: self.by_exec.copy()?,
        })
    }

    /// The command, where it has the execution.
    pub fn get(&self, exec: ExecId, command: CommandId) -> Option<&Place>
        ensures place { option_copied result ≡ table_of self.now exec command }
        ensures execution { IsId exec }
    {
        match self.by_exec.get(&exec.number()) {
            Some(commands) => commands.get(&command.number()),
            None => None,
        }
    }

    /// The commands that have the execution.
    fn commands_of(&self, exec: u64) -> Result<ByCommand, AllocError>
        ensures { IfOk result (λ commands. (command : ℕ)
            → found nat_cmp command commands ≡ table_of self.now exec command) }
    {
        match self.by_exec.get(&exec) {
            Some(commands) => commands.copy(),
            None => Ok(SharedMap::new()),
        }
    }

    /// Puts a command there that has the execution, in the place of the one that was.
    pub(crate) fn put(
        &mut self,
        alloc: Global,
        exec: ExecId,
        command: CommandId,
        place: Place,
    ) -> Result<(), AllocError>
        ensures { OnOk result ((e c : ℕ) → table_of self.new e c
            ≡ (if (exec == e) && (command == c) then Some place else table_of self.old e c)) }
    {
        let mut commands = self.commands_of(exec.number())?;
        commands.set(alloc, command.number(), place)?;
        self.by_exec.set(alloc, exec.number(), commands)
    }

    /// Takes the command out that had the execution.
    pub(crate) fn take_out(
        &mut self,
        alloc: Global,
        exec: ExecId,
        command: CommandId,
    ) -> Result<(), AllocError>
        ensures { OnOk result ((e c : ℕ) → table_of self.new e c
            ≡ (if (exec == e) && (command == c) then None else table_of self.old e c)) }
    {
        let mut commands = self.commands_of(exec.number())?;
        commands.remove(alloc, &command.number())?;
        if commands.is_empty() {
            drop(commands);
            self.by_exec.remove(alloc, &exec.number())?;
            return Ok(());
        }
        self.by_exec.set(alloc, exec.number(), commands)
    }

    /// With what is told of a part, at the commands that have its execution and in whose sources
    /// all of it lies.
    pub(crate) fn told(&self, alloc: Global, told: &ToldPart) -> Result<ToldPlaces, AllocError>
        ensures places { IfOk result (λ made. (exec command : ℕ) → table_of made.places exec command
            ≡ told_in (as_report told.now) (table_of self.now) exec command) }
        ensures taken { IfOk result (λ made. IsTrue made.taken
            ↔ IsTaken (as_report told.now) (table_of self.now)) }
    {
        let exec = told.part.exec.number();
        let mut places = self.copy()?;
        let Some(commands) = self.by_exec.get(&exec) else {
            return Ok(ToldPlaces {
                places,
                taken: false,
            });
        };
        let ToldCommands { commands, taken } = told_to_each(alloc, commands, told)?;
        places.by_exec.set(alloc, exec, commands)?;
        Ok(ToldPlaces { places, taken })
    }
}
