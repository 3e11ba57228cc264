//! What came of a node.
ghost use Rattle.std.specs.Prelude.{IfOk};
ghost use Rattle.prover_core.specs.Results.{AreResults};

use crate::prover::Core;
use core_jobs::{NodeResults, results_at};
use core_rules::places_law;
use language::Language;
use pide_base::{NodeName, VersionId};
use shared_map::Exactly;
use std::alloc::AllocError;

impl<L: Language> Core<L> {
    /// What came of a node of a live version so far: None exactly where no such version is live, or
    /// it has no such node.
    pub fn results(
        &self,
        id: VersionId,
        name: &NodeName,
    ) -> Result<Option<NodeResults<'_>>, AllocError>
        ensures { IfOk result (λ found. AreResults L.lang self.now.past id name.now found) }
    {
        places_law::<L>();
        let Some(version) = self.versions.get(id) else {
            return Ok(None);
        };
        let version = version.get();
        let Some(place) = version.nodes.place_in(&Exactly(name)) else {
            return Ok(None);
        };
        let results = results_at(self.alloc, &self.execs, version, place)?;
        Ok(Some(results))
    }
}
