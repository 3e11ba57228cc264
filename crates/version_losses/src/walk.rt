//! A walk over live versions, oldest first, by which a removal finds what goes.
ghost use Rattle.std.specs.Prelude.{◌≡◌, ◌++◌, ◌∷◌, [], nat_lt, not, true, false, List, filter, if◌then◌else◌, IfOk, OnOk};
ghost use Rattle.version_losses.specs.declared.losses.Loss.{Loss};
ghost use Rattle.version_losses.specs.Leaving.{below, from, left_from, gone_from};

use crate::leaving::Leaving;
use crate::losses::{Loss, Losses};
use doc_nodes::Shared;
use pide_base::{ExecId, VersionId};
use sqlite_items::Items;
use std::alloc::{AllocError, Global};
use std::mem;

/// How far the walk is.
#[derive(Drop)]
struct Walk {
    /// The versions that stay.
    left: Vec<Loss>,
    /// What goes.
    gone: Vec<ExecId>,
    /// What the last version that stays has, and was lost by versions behind it that go.
    carried: Vec<ExecId>,
    /// Whether the version right before stays.
    whole: bool,
    /// The number that came next at the last version that stays.
    next: u64,
}

/// What comes of a removal of the versions of these ids.
pub(crate) fn walked(
    alloc: Global,
    losses: &[Loss],
    ids: &[VersionId],
) -> Result<Leaving, AllocError>
    ensures left { IfOk result (λ leaving. leaving.losses.losses
        ≡ left_from ids.now true 0 [] losses.now) }
    ensures gone { IfOk result (λ leaving. leaving.gone.items
        ≡ gone_from ids.now true 0 losses.now) }
{
    let mut walk = Walk {
        left: Vec::new(alloc),
        gone: Vec::new(alloc),
        carried: Vec::new(alloc),
        whole: true,
        next: 0,
    };
    'versions: for loss in losses {
        walk.step(alloc, ids, loss)?;
    }
    Ok(Leaving {
        losses: Losses { losses: walk.left },
        gone: walk.gone,
    })
}

impl Walk {
    /// One version more.
    fn step(&mut self, alloc: Global, ids: &[VersionId], loss: &Loss) -> Result<(), AllocError>
        ensures left { OnOk result ((later : List Loss) → self.new.left.items
            ++ left_from ids.now self.new.whole self.new.next self.new.carried.items later
            ≡ self.old.left.items ++ left_from ids.now self.old.whole self.old.next
            self.old.carried.items (loss.now ∷ later)) }
        ensures gone { OnOk result ((later : List Loss) → self.new.gone.items
            ++ gone_from ids.now self.new.whole self.new.next later
            ≡ self.old.gone.items ++ gone_from ids.now self.old.whole self.old.next
            (loss.now ∷ later)) }
    {
        if ids.contains(&loss.id) {
            return self.go(loss);
        }
        if self.whole {
            return self.stay(loss);
        }
        self.take_over(alloc, loss)
    }

    /// The version goes.
    fn go(&mut self, loss: &Loss) -> Result<(), AllocError>
        ensures left { OnOk result (self.new.left.items ≡ self.old.left.items) }
        ensures gone { OnOk result (self.new.gone.items
            ≡ self.old.gone.items ++ from self.old.next loss.now.lost) }
        ensures carried { OnOk result (self.new.carried.items
            ≡ self.old.carried.items ++ below self.old.next loss.now.lost) }
        ensures whole { OnOk result (self.new.whole ≡ false) }
        ensures next { OnOk result (self.new.next ≡ self.old.next) }
    {
        let lost = loss.lost.get().as_slice();
        add_below(&mut self.carried, lost, self.next)?;
        add_from(&mut self.gone, lost, self.next)?;
        self.whole = false;
        Ok(())
    }

    /// The version stays as it is.
    fn stay(&mut self, loss: &Loss) -> Result<(), AllocError>
        ensures left { OnOk result (self.new.left.items ≡ self.old.left.items ++ loss.now ∷ []) }
        ensures gone { OnOk result (self.new.gone.items ≡ self.old.gone.items) }
        ensures carried { OnOk result (self.new.carried.items ≡ self.old.carried.items) }
        ensures whole { OnOk result (self.new.whole ≡ true) }
        ensures next { OnOk result (self.new.next ≡ loss.now.next) }
    {
        let lost = loss.lost.copy()?;
        self.push(loss, lost)
    }

    /// The version stays, and takes over what those right before it lost.
    fn take_over(&mut self, alloc: Global, loss: &Loss) -> Result<(), AllocError>
        ensures left { OnOk result (self.new.left.items ≡ self.old.left.items ++ record loss.now {
          lost = self.old.carried.items ++ below self.old.next loss.now.lost;
        } ∷ []) }
        ensures gone { OnOk result (self.new.gone.items
            ≡ self.old.gone.items ++ from self.old.next loss.now.lost) }
        ensures carried { OnOk result (self.new.carried.items ≡ []) }
        ensures whole { OnOk result (self.new.whole ≡ true) }
        ensures next { OnOk result (self.new.next ≡ loss.now.next) }
    {
        self.go(loss)?;
        let carried = mem::replace(&mut self.carried, Vec::new(alloc));
        let lost = shared(alloc, carried)?;
        self.push(loss, lost)
    }

    /// The version stays, and lost this.
    fn push(&mut self, loss: &Loss, lost: Shared<Items<ExecId>>) -> Result<(), AllocError>
        ensures left { OnOk result (self.new.left.items
            ≡ self.old.left.items ++ record loss.now { lost = lost } ∷ []) }
        ensures gone { OnOk result (self.new.gone.items ≡ self.old.gone.items) }
        ensures carried { OnOk result (self.new.carried.items ≡ self.old.carried.items) }
        ensures whole { OnOk result (self.new.whole ≡ true) }
        ensures next { OnOk result (self.new.next ≡ loss.now.next) }
    {
        let stays = Loss {
            id: loss.id,
            next: loss.next,
            lost,
        };
        if self.left.push(stays).is_err() {
            return Err(AllocError);
        }
        self.whole = true;
        self.next = loss.next;
        Ok(())
    }
}

fn shared(alloc: Global, lost: Vec<ExecId>) -> Result<Shared<Items<ExecId>>, AllocError>
    ensures { IfOk result (λ shared. shared ≡ lost.items) }
{
    match Shared::new(alloc, Items::from_vec(lost)) {
        Ok(shared) => Ok(shared),
        Err(_) => Err(AllocError),
    }
}

/// Adds those of the executions that are below the number.
pub fn add_below(execs: &mut Vec<ExecId>, more: &[ExecId], next: u64) -> Result<(), AllocError>
    ensures { OnOk result (execs.new.items ≡ execs.old.items ++ below next more.now) }
{
    'executions: for exec in more {
        if exec.number() < next {
            execs.push(*exec)?;
        }
    }
    Ok(())
}

/// Adds those of the lost ones that are from the number on.
fn add_from(execs: &mut Vec<ExecId>, lost: &[ExecId], next: u64) -> Result<(), AllocError>
    ensures { OnOk result (execs.new.items ≡ execs.old.items ++ from next lost.now) }
{
    'executions: for exec in lost {
        if exec.number() >= next {
            execs.push(*exec)?;
        }
    }
    Ok(())
}
