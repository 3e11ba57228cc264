//! What a reply lists of the nodes of a version.
ghost use Rattle.std.specs.Prelude.{◌≡◌, ℕ, true, false, not, find, IfOk, MatchOption, if◌then◌else◌, None};
ghost use Rattle.std.specs.Option.{option_copied};
ghost use Rattle.std.specs.List.{list_any};
ghost use Rattle.doc_nodes.specs.Imports.{place_of};
ghost use Rattle.mirror_rules.specs.Rows.{has_command, is_unknown};
ghost use Rattle.pide_mirror.specs.Listing.{listed_at, is_of};

use crate::rows::has_unknown;
use doc_nodes::{Node, Nodes};
use reply_messages::NodeRows;
use shared_map::Exactly;
use std::alloc::{AllocError, Global};
use std::collections::HashMap;
use std::hash::{BuildHasherDefault, FoldHasher};

/// Nodes that a reply lists, by their places in a version: of two lists of one node the first.
pub(crate) type Listing<'a> = HashMap<u64, &'a NodeRows, BuildHasherDefault<FoldHasher>, Global>;

/// What is listed, by the places of nodes. None, where the version doesn't have a node that is
/// listed, or a node not the command of a row.
pub(crate) fn listing<'a>(
    alloc: Global,
    nodes: &Nodes,
    listed: &'a [NodeRows],
) -> Result<Option<Listing<'a>>, AllocError>
    ensures { IfOk result (λ found. MatchOption found
        (list_any (is_unknown nodes.now) listed.now ≡ true)
        (λ listing. (list_any (is_unknown nodes.now) listed.now ≡ false)
        × ((place : ℕ) → listed_at listing.entries place
        ≡ find (is_of nodes.now place) listed.now))) }
{
    let mut listing = HashMap::new(alloc);
    let mut rest = listed;
    'listed: while let [more @ .., one] = rest {
        let Some(place) = known_place(alloc, nodes, one)? else {
            return Ok(None);
        };
        listing.insert(place as u64, one)?;
        rest = more;
    }
    Ok(Some(listing))
}

/// The place of a node that is listed, where the version has it and all of its commands.
fn known_place(alloc: Global, nodes: &Nodes, listed: &NodeRows) -> Result<Option<usize>, AllocError>
    ensures { IfOk result (λ found. found ≡ (if is_unknown nodes.now listed.now then None
        else place_of nodes.now listed.now.node)) }
{
    let Some(node) = nodes.get(&listed.node) else {
        return Ok(None);
    };
    if lists_unknown(alloc, node, listed)? {
        return Ok(None);
    }
    Ok(nodes.place_in(&Exactly(&listed.node)))
}

/// Whether a row is of no command of the node.
fn lists_unknown(alloc: Global, node: &Node, listed: &NodeRows) -> Result<bool, AllocError>
    ensures { IfOk result (λ unknown. unknown ≡ list_any (λ row. not
        (has_command node.now row.command)) listed.now.rows) }
{
    let entries = node.entries.get().as_slice();
    has_unknown(alloc, entries, listed.rows.as_slice())
}

/// What is listed of the node at a place.
pub(crate) fn listed_at<'a>(listing: &Listing<'a>, place: usize) -> Option<&'a NodeRows>
    ensures { option_copied result ≡ listed_at listing.now.entries place }
{
    match listing.get(&(place as u64)) {
        Some(listed) => Some(*listed),
        None => None,
    }
}
