//! Updates.
ghost use Rattle.std.specs.Prelude.{◌≡◌, ◌∷◌, false, map};
ghost use Rattle.exec_assign.specs.Told.{told_node};
ghost use Rattle.exec_rules.specs.Listed.{listed};
ghost use Rattle.core_rules.specs.declared.event.Event.TheVariants as event;
ghost use Rattle.core_rules.specs.Standing.{has_ended};
ghost use Rattle.core_rules.specs.Doc.{doc};
ghost use Rattle.core_rules.specs.Legal.{IsLegal};
ghost use Rattle.prover_core.specs.Plans.{IsPlanOf, HasRoom, made_version};

use crate::adding::add_all;
use crate::changing::{drop_all, see_all};
use crate::laws::plan_laws;
use crate::plan::Plan;
use crate::prover::Core;
use exec_assign::ToldNode;
use language::Language;
use version_losses::Loss;

impl<L: Language> Core<L> {
    /// Makes a version as it was planned: executions that the tip had and the version hasn't, with
    /// an unfinished part, are cancelled, and their jobs asked to stop. Answers the nodes whose
    /// rows are others than the tip's, in the order of names. It takes no memory.
    pub fn update(&mut self, plan: Plan) -> Vec<ToldNode>
        requires going { has_ended self.old.past ≡ false }
        requires planned { IsPlanOf L.lang self.old.past plan }
        requires room { HasRoom self.old.room plan }
        ensures past { self.new.past
            ≡ event.Update plan.version plan.nodes plan.blobs ∷ self.old.past }
        ensures told { map told_node result.items
            ≡ listed (doc L.lang self.old.past).tip (made_version plan) }
        ensures legal { IsLegal L.lang self.new.past }
    {
        plan_laws::<L>();
        let Plan {
            id,
            version,
            event,
            next,
            fresh,
            dropped,
            sights,
            told,
        } = plan;
        drop_all(
            &mut self.execs,
            &self.known,
            &mut self.queue,
            dropped.get().as_slice(),
        );
        add_all(&mut self.execs, &mut self.known, &mut self.queue, fresh);
        see_all(&mut self.queue, &sights);
        self.versions.push(id, version);
        self.losses.push(Loss {
            id,
            next,
            lost: dropped,
        });
        self.next = next;
        self.cancelled.clear();
        self.past.add(event);
        told
    }
}
