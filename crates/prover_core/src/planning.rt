//! Planning an update.
ghost use Rattle.std.specs.Prelude.{◌≡◌, ◌≤◌, ◌<◌, false, Err, IfOk};
ghost use Rattle.pide_base.specs.Ids.{id_end};
ghost use Rattle.exec_assign.specs.declared.fault.AssignFault.TheVariants.{Limit};
ghost use Rattle.exec_assign.specs.Untouched.{AreChanged};
ghost use Rattle.core_rules.specs.declared.event.Event.TheVariants.{Update};
ghost use Rattle.core_rules.specs.Standing.{has_ended};
ghost use Rattle.core_rules.specs.Doc.{doc, assignment_of};
ghost use Rattle.core_rules.specs.Updates.{FitsUpdate};
ghost use Rattle.update_plans.specs.Alive.{HaveCommands};
ghost use Rattle.prover_core.specs.Plans.{IsPlanOf, HasRoom};
ghost use Rattle.prover_core.specs.Planned.{plan_of};

use crate::laws::plan_laws;
use crate::plan::Plan;
use crate::prover::Core;
use crate::spare::make_room;
use core_rules::Event;
use core_tables::Version as SharedVersion;
use doc_nodes::{Nodes, Shared};
use exec_assign::{AssignFault, ChangedBlobs};
use exec_rules::{Blobs, Version};
use joined_results::{both, each_of_three};
use language::Language;
use pide_base::{ExecId, VersionId};
use sqlite_items::Items;
use std::alloc::{AllocError, Global};
use update_plans::{Steps, work_out};

/// Why an update can't be planned: the number of a new execution would be no id, or there is not
/// enough memory.
pub type PlanFault = AssignFault;

impl<L: Language> Core<L> {
    /// Works an update out, and makes all room for it: nothing but spare room changes. The names of
    /// the blobs that changed are told, and by marks, in the order of names, which nodes have the
    /// commands that they had. `Limit` comes only where a new execution would have no id, and there
    /// nothing is planned.
    pub fn plan(
        &mut self,
        alloc: Global,
        id: VersionId,
        nodes: &Nodes,
        blobs: &Blobs,
        changed: &ChangedBlobs,
        marks: &[bool],
    ) -> Result<Plan, PlanFault>
        requires going { has_ended self.old.past ≡ false }
        requires fits { (assignment_of (doc L.lang self.old.past) nodes.now blobs.now).next ≤ id_end
            → FitsUpdate (doc L.lang self.old.past) id nodes.now blobs.now }
        requires changed { AreChanged changed.now (doc L.lang self.old.past).tip.blobs blobs.now }
        requires commands { HaveCommands (doc L.lang self.old.past).tip nodes.now marks.now }
        ensures past { self.new.past ≡ self.old.past }
        ensures version { IfOk result (λ plan. plan.version ≡ id) }
        ensures nodes { IfOk result (λ plan. plan.nodes ≡ nodes.now) }
        ensures blobs { IfOk result (λ plan. plan.blobs ≡ blobs.now) }
        ensures ok { IfOk result (λ plan. IsPlanOf L.lang self.new.past plan) }
        ensures room { IfOk result (λ plan. HasRoom self.new.room plan) }
        ensures limit { result ≡ Err Limit
            → id_end < (assignment_of (doc L.lang self.old.past) nodes.now blobs.now).next }
    {
        let steps = self.steps(alloc, id, nodes, blobs, changed, marks)?;
        let plan = planned(alloc, id, steps)?;
        let roomy = self.with_room(plan)?;
        Ok(roomy)
    }

    /// The same plan, once there is room for it.
    fn with_room(&mut self, plan: Plan) -> Result<Plan, AllocError>
        ensures past { self.new.past ≡ self.old.past }
        ensures same { IfOk result (λ roomy. roomy ≡ plan) }
        ensures room { IfOk result (λ roomy. HasRoom self.new.room roomy) }
    {
        let made = make_room(
            &mut self.versions,
            &mut self.losses,
            &mut self.execs,
            &mut self.known,
            &mut self.queue,
            &mut self.cancelled,
            self.holders.len(),
            &plan.fresh,
        );
        let ((), plan) = both(made, Ok(plan))?;
        Ok(plan)
    }

    /// What the update will do.
    fn steps(
        &self,
        alloc: Global,
        id: VersionId,
        nodes: &Nodes,
        blobs: &Blobs,
        changed: &ChangedBlobs,
        marks: &[bool],
    ) -> Result<Steps, PlanFault>
        requires going { has_ended self.now.past ≡ false }
        requires fits { (assignment_of (doc L.lang self.now.past) nodes.now blobs.now).next ≤ id_end
            → FitsUpdate (doc L.lang self.now.past) id nodes.now blobs.now }
        requires changed { AreChanged changed.now (doc L.lang self.now.past).tip.blobs blobs.now }
        requires commands { HaveCommands (doc L.lang self.now.past).tip nodes.now marks.now }
        ensures nodes { IfOk result (λ steps. steps.version.nodes ≡ nodes.now) }
        ensures blobs { IfOk result (λ steps. steps.version.blobs ≡ blobs.now) }
        ensures ok { IfOk result (λ steps. IsPlanOf L.lang self.now.past (plan_of id steps)) }
        ensures limit { result ≡ Err Limit
            → id_end < (assignment_of (doc L.lang self.now.past) nodes.now blobs.now).next }
    {
        plan_laws::<L>();
        let tip = self.versions.tip().get();
        let steps = work_out(
            alloc,
            &self.execs,
            self.next,
            tip,
            nodes,
            blobs,
            changed,
            marks,
            self.cancelled.is_empty(),
        )?;
        Ok(steps)
    }
}

/// The plan of these steps.
fn planned(alloc: Global, id: VersionId, steps: Steps) -> Result<Plan, AllocError>
    ensures { IfOk result (λ plan. plan ≡ plan_of id steps) }
{
    let event = event_of(id, &steps.version);
    let Steps {
        version,
        next,
        fresh,
        dropped,
        sights,
        told,
    } = steps;
    let shared = both(shared_version(alloc, version), shared_list(alloc, dropped));
    let (event, (version, dropped), (fresh, sights, told)) = each_of_three(
        event,
        shared,
        Ok((fresh, sights, told)),
    )?;
    Ok(Plan {
        id,
        version,
        event,
        next,
        fresh,
        dropped,
        sights,
        told,
    })
}

/// What happens when this version is made.
fn event_of(id: VersionId, version: &Version) -> Result<Event, AllocError>
    ensures { IfOk result (λ event. event ≡ Update id version.now.nodes version.now.blobs) }
{
    let (nodes, blobs) = both(version.nodes.copy(), version.blobs.copy())?;
    Ok(Event::Update {
        version: id,
        nodes,
        blobs,
    })
}

/// The version, to be shared.
pub(crate) fn shared_version(
    alloc: Global,
    version: Version,
) -> Result<SharedVersion<Version>, AllocError>
    ensures { IfOk result (λ shared. shared ≡ version) }
{
    SharedVersion::new(alloc, version).map_err(|_| AllocError)
}

/// The executions, to be shared.
fn shared_list(alloc: Global, execs: Vec<ExecId>) -> Result<Shared<Items<ExecId>>, AllocError>
    ensures { IfOk result (λ shared. shared ≡ execs.items) }
{
    Shared::new(alloc, Items::from_vec(execs)).map_err(|_| AllocError)
}
