//! The live versions.
ghost use Rattle.std.specs.Prelude.{◌≡◌};
ghost use Rattle.std.specs.Option.{option_copied};
ghost use Rattle.core_tables.specs.Live.{version_of};
ghost use Rattle.core_rules.specs.Doc.{doc};

use crate::prover::Core;
use core_tables::Live;
use exec_rules::Version;
use language::Language;
use pide_base::VersionId;

impl<L: Language> Core<L> {
    /// The live versions, oldest first.
    pub fn live(&self) -> &[Live<Version>]
        ensures { result.now ≡ (doc L.lang self.now.past).live }
    {
        self.versions.live()
    }

    /// The live version of this id: None exactly where none is.
    pub fn version(&self, id: VersionId) -> Option<&Version>
        ensures { option_copied result ≡ version_of (doc L.lang self.now.past).live id }
    {
        match self.versions.get(id) {
            Some(version) => Some(version.get()),
            None => None,
        }
    }
}
