//! What is known of a version.
ghost use Rattle.std.specs.Prelude.{◌≡◌, ◌↔◌, true, List, [], map, IfOk, IsTrue};
ghost use Rattle.std.specs.List.{list_any};
ghost use Rattle.core_tables.specs.declared.versions.Live.{Live};
ghost use Rattle.mirror_rules.specs.Images.{Image, start_image};
ghost use Rattle.mirror_rules.specs.Replies.{live_with};
ghost use Rattle.mirror_rules.specs.Reports.{belongs_in, with_report};
ghost use Rattle.pide_mirror.specs.Tables.{as_report};
ghost use Rattle.pide_mirror.specs.Kept.{IsKept, AreKept};

use crate::aliases::{AllAliases, no_aliases};
use crate::places::{Places, ToldPlaces};
use crate::told_part::ToldPart;
use doc_nodes::{Nodes, Shared};
use joined_results::{both, each_of_three};
use pide_base::VersionId;
use reply_messages::CommandRow;
use shared_map::SharedMap;
use sqlite_items::Items;
use std::alloc::{AllocError, Global};

/// A node's commands with their executions, in the order of the commands' places.
pub type Rows = Shared<Items<CommandRow>>;

/// What is known of a version: its nodes; the rows of each and the aliases in force there, in the
/// order of names; and the commands that have executions. A copy takes constant time.
#[derive(Drop)]
pub struct Known {
    pub nodes: Nodes,
    pub rows: Shared<Items<Rows>>,
    pub aliases: AllAliases,
    pub places: Places,
}

/// A version with what was told of a part, and whether a command took it.
#[derive(Drop)]
pub struct ToldVersion {
    pub known: Known,
    pub taken: bool,
}

/// No rows, for no nodes.
fn no_rows(alloc: Global) -> Result<Shared<Items<Rows>>, AllocError>
    ensures { IfOk result (λ rows. rows ≡ []) }
{
    match Shared::new(alloc, Items::new(alloc)) {
        Ok(rows) => Ok(rows),
        Err(rows) => {
            drop(rows);
            Err(AllocError)
        }
    }
}

impl Known {
    /// The version before any update.
    pub fn new(alloc: Global) -> Result<Known, AllocError>
        ensures { IfOk result (λ known. IsKept known start_image) }
    {
        let (rows, aliases) = both(no_rows(alloc), no_aliases(alloc))?;
        Ok(Known {
            nodes: SharedMap::new(),
            rows,
            aliases,
            places: Places::new(),
        })
    }

    /// The same, in the same memory.
    pub fn copy(&self) -> Result<Known, AllocError>
        ensures { IfOk result (λ known. known ≡ self.now) }
    {
        let nodes = each_of_three(self.nodes.copy(), self.rows.copy(), self.aliases.copy());
        let ((nodes, rows, aliases), places) = both(nodes, self.places.copy())?;
        Ok(Known {
            nodes,
            rows,
            aliases,
            places,
        })
    }

    /// The version with what is told of a part.
    pub fn told(&self, alloc: Global, told: &ToldPart) -> Result<ToldVersion, AllocError>
        ensures known { IfOk result (λ made. (image : Image) → IsKept self.now image
            → IsKept made.known (with_report (as_report told.now) image)) }
        ensures taken { IfOk result (λ made. (image : Image) → IsKept self.now image
            → IsTrue made.taken ↔ (belongs_in (as_report told.now) image ≡ true)) }
    {
        let nodes = each_of_three(self.nodes.copy(), self.rows.copy(), self.aliases.copy());
        let ((nodes, rows, aliases), ToldPlaces { places, taken }) = both(
            nodes,
            self.places.told(alloc, told),
        )?;
        Ok(ToldVersion {
            known: Known {
                nodes,
                rows,
                aliases,
                places,
            },
            taken,
        })
    }
}

/// A live version.
#[derive(Drop)]
pub struct LiveVersion {
    pub id: VersionId,
    pub known: Known,
}

/// Live versions with what was told of a part, and whether a command of one took it.
#[derive(Drop)]
pub struct ToldLive {
    pub live: Vec<LiveVersion>,
    pub taken: bool,
}

/// The live versions with what is told of a part.
pub fn told_to_all(
    alloc: Global,
    live: &[LiveVersion],
    told: &ToldPart,
) -> Result<ToldLive, AllocError>
    ensures live { IfOk result (λ made. (images : List (Live Image)) → AreKept live.now images
        → AreKept made.live.items (map (live_with (as_report told.now)) images)) }
    ensures taken { IfOk result (λ made. (images : List (Live Image)) → AreKept live.now images
        → IsTrue made.taken
        ↔ (list_any (λ one. belongs_in (as_report told.now) one.version) images ≡ true)) }
{
    let mut all = Vec::new(alloc);
    let mut taken = false;
    let mut rest = live;
    'versions: while let [one, more @ ..] = rest {
        let made = one.known.told(alloc, told)?;
        taken = taken || made.taken;
        all.push(LiveVersion {
            id: one.id,
            known: made.known,
        })?;
        rest = more;
    }
    Ok(ToldLive { live: all, taken })
}
