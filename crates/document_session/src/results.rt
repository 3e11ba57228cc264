//! What a session came to, for callers that look at it.
ghost use Rattle.std.specs.Prelude.{◌≡◌, IfOk};
ghost use Rattle.core_rules.specs.Ready.{first_ready};
ghost use Rattle.prover_core.specs.Results.{AreResults};
ghost use Rattle.session_rules.specs.Session.{document};
ghost use Rattle.keeping_rules.specs.Items.{session_in};

use crate::session::Session;
use core_jobs::NodeResults;
use core_tables::Live;
use exec_rules::Version;
use language::Language;
use pide_base::{NodeName, Part, VersionId};
use reply_outbox::Past;
use session_rules::{Entry, Service};
use std::alloc::AllocError;

impl<L: Language, P: Past<Service, Entry> + Drop> Session<L, P> {
    /// The live versions, oldest first.
    pub fn live(&self) -> &[Live<Version>]
        ensures { result.now ≡ (document L.lang (session_in L.lang self.now.service
            self.now.items)).live }
    {
        self.core.live()
    }

    /// The first ready part: None exactly where none is ready.
    pub fn first(&self) -> Option<Part>
        ensures { result ≡ first_ready L.lang (session_in L.lang self.now.service
            self.now.items).events }
    {
        self.core.first()
    }

    /// What came of a node of a live version so far: None exactly where no such version is live, or
    /// it has no such node.
    pub fn results(
        &self,
        version: VersionId,
        node: &NodeName,
    ) -> Result<Option<NodeResults<'_>>, AllocError>
        ensures { IfOk result (λ found. AreResults L.lang (session_in L.lang self.now.service
            self.now.items).events version node.now found) }
    {
        self.core.results(version, node)
    }
}
