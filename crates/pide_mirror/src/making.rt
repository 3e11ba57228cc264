//! The version of an update.
ghost use Rattle.std.specs.Prelude.{◌≡◌, ℕ, true, false, map, slice_get, IfOk, IfSome, MatchOption, Some, if◌then◌else◌};
ghost use Rattle.std.specs.Option.{option_copied};
ghost use Rattle.std.specs.List.{list_any};
ghost use Rattle.shared_map.specs.Pairs.{IsSorted};
ghost use Rattle.doc_nodes.specs.Names.{in_order};
ghost use Rattle.buffer_rules.specs.Preparing.{Buffer};
ghost use Rattle.mirror_rules.specs.Images.{Image};
ghost use Rattle.mirror_rules.specs.Rows.{is_unknown, rows_by};
ghost use Rattle.mirror_rules.specs.Updates.{image_after};
ghost use Rattle.pide_mirror.specs.Kept.{IsKept, told_rows};
ghost use Rattle.pide_mirror.specs.Listing.{listed_at};
ghost use Rattle.pide_mirror.specs.Making.{FitsTip, IsMadeBy, AreMadeBy, tip_rows, is_marked};

use crate::aliases::{AllAliases, all_aliases};
use crate::known::{Known, Rows};
use crate::listed_nodes::{Listing, listed_at, listing};
use crate::places::Places;
use crate::renewing::{NewRows, all_places};
use crate::rows::rows_of;
use doc_nodes::{Entry, Node, Nodes, Shared};
use joined_results::{both, each_of_three};
use pide_base::NodeName;
use reply_messages::{CommandRow, NodeRows};
use shared_map::Exactly;
use sqlite_items::Items;
use std::alloc::{AllocError, Global};

/// The version of an update that makes these nodes, of which marked ones are the tip's, with the
/// rows that it is assigned: listed nodes have the listed rows, others those of the tip. None,
/// where a node is listed, or a command of one, that the version doesn't have. Time is that of the
/// reply, of the commands of nodes that aren't marked, and of the headers of all nodes, and a
/// logarithm for each row that is another one than the tip's.
pub fn renewed(
    alloc: Global,
    tip: &Known,
    nodes: &Nodes,
    untouched: &[bool],
    listed: &[NodeRows],
) -> Result<Option<Known>, AllocError>
    ensures { IfOk result (λ found. (image : Image) (buffer : Buffer) → IsKept tip.now image
        → FitsTip image untouched.now nodes.now → buffer.nodes ≡ nodes.now → MatchOption found
        (list_any (is_unknown nodes.now) listed.now ≡ true)
        (λ known. (list_any (is_unknown nodes.now) listed.now ≡ false)
        × IsKept known (image_after image listed.now buffer))) }
{
    let Some(listing) = listing(alloc, nodes, listed)? else {
        return Ok(None);
    };
    let made = all_rows(alloc, tip, nodes, untouched, &listing)?;
    let places = all_places(alloc, tip, nodes, &made);
    let aliases = all_aliases(alloc, nodes);
    Ok(Some(known_of(alloc, nodes, made, aliases, places)?))
}

/// The rows of the node of a name in a version.
fn rows_named<'a>(known: &'a Known, name: &NodeName) -> Option<&'a Rows>
    ensures { option_copied result ≡ tip_rows known.now name.now }
{
    match known.nodes.place_in(&Exactly(name)) {
        Some(place) => known.rows.get().as_slice().get(place),
        None => None,
    }
}

/// The rows of each node of the new version, in the order of names.
fn all_rows(
    alloc: Global,
    tip: &Known,
    nodes: &Nodes,
    untouched: &[bool],
    listing: &Listing<'_>,
) -> Result<Vec<NewRows>, AllocError>
    ensures made { IfOk result
        (λ made. AreMadeBy tip.now untouched.now listing.now.entries nodes.now made.items) }
    ensures sorted { IfOk result (λ made. IsSorted in_order nodes.now) }
{
    let mut all = Vec::new(alloc);
    let mut rest = nodes.iter();
    let mut place = 0;
    'nodes: while let Some((name, node)) = rest.next() {
        let stays = is_marked(untouched, place);
        all.push(node_rows(alloc, tip, name, node, listed_at(listing, place), stays)?)?;
        place += 1;
    }
    Ok(all)
}

/// Whether there is a mark at the place.
fn is_marked(marks: &[bool], place: usize) -> bool
    ensures { result ≡ is_marked marks.now place }
{
    match marks.get(place) {
        Some(mark) => *mark,
        None => false,
    }
}

/// The rows of a node: the listed ones, or else those that the tip has.
fn node_rows(
    alloc: Global,
    tip: &Known,
    name: &NodeName,
    node: &Node,
    listed: Option<&NodeRows>,
    untouched: bool,
) -> Result<NewRows, AllocError>
    ensures { IfOk result (λ new. IsMadeBy tip.now untouched (option_copied listed.entry)
        (name.now, node.now) new) }
{
    let entries = node.entries.get().as_slice();
    match (listed, rows_named(tip, name)) {
        (Some(listed), _) => changed(alloc, entries, listed.rows.as_slice()),
        (None, Some(rows)) if untouched => Ok(NewRows {
            rows: rows.copy()?,
            stays: true,
        }),
        (None, Some(rows)) => changed(alloc, entries, rows.get().as_slice()),
        (None, None) => changed(alloc, entries, &[]),
    }
}

/// Rows of these commands that may be others than the tip's.
fn changed(alloc: Global, entries: &[Entry], rows: &[CommandRow]) -> Result<NewRows, AllocError>
    ensures { IfOk result (λ new. (new.stays ≡ false)
        × (told_rows new.rows ≡ rows_by entries.now (told_rows rows.now))) }
{
    match Shared::new(alloc, rows_of(alloc, entries, rows)?) {
        Ok(rows) => Ok(NewRows { rows, stays: false }),
        Err(rows) => {
            drop(rows);
            Err(AllocError)
        }
    }
}

/// The rows of all nodes, without their marks.
fn without_marks(alloc: Global, made: Vec<NewRows>) -> Result<Shared<Items<Rows>>, AllocError>
    ensures { IfOk result (λ rows. rows ≡ map (λ new. new.rows) made.items) }
{
    let mut all = Items::new(alloc);
    'nodes: for new in made {
        all.push(new.rows)?;
    }
    match Shared::new(alloc, all) {
        Ok(rows) => Ok(rows),
        Err(rows) => {
            drop(rows);
            Err(AllocError)
        }
    }
}

/// The version of these.
fn known_of(
    alloc: Global,
    nodes: &Nodes,
    made: Vec<NewRows>,
    aliases: Result<AllAliases, AllocError>,
    places: Result<Places, AllocError>,
) -> Result<Known, AllocError>
    ensures { IfOk result (λ known. (known.nodes ≡ nodes.now)
        × (known.rows ≡ map (λ new. new.rows) made.items)
        × (aliases ≡ Ok known.aliases) × (places ≡ Ok known.places)) }
{
    let rows = each_of_three(nodes.copy(), without_marks(alloc, made), aliases);
    let ((nodes, rows, aliases), places) = both(rows, places)?;
    Ok(Known {
        nodes,
        rows,
        aliases,
        places,
    })
}
