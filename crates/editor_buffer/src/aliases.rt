//! Aliases compared.
ghost use Rattle.std.specs.Prelude.{◌≡◌, Some, slice_get};
ghost use Rattle.std.specs.Option.{option_copied, option_and_then};
ghost use Rattle.std.specs.Bool.{OnTrue};
ghost use Rattle.doc_nodes.specs.Needs.{AliasList};

use crate::open_node::OpenNode;
use doc_nodes::Aliases;

/// Whether both have the same alias at the place.
fn same_at(aliases: &Aliases, others: &Aliases, place: usize) -> bool
    ensures { OnTrue result (slice_get aliases.now place ≡ slice_get others.now place) }
{
    match (aliases.at(place), others.at(place)) {
        (Some((name, target)), Some((other, aim))) => name == other && target == aim,
        _ => false,
    }
}

/// Whether both have the same aliases in the same order.
fn same_aliases(aliases: &Aliases, others: &Aliases) -> bool
    ensures { OnTrue result (aliases.now ≡ others.now) }
{
    if aliases.len() != others.len() {
        return false;
    }
    'pairs: for place in 0..aliases.len() {
        if !same_at(aliases, others, place) {
            return false;
        }
    }
    true
}

/// Whether the commands of the node were cut under these aliases.
pub(crate) fn is_cut_under(opened: Option<&OpenNode>, aliases: &Aliases) -> bool
    ensures { OnTrue result
        (option_and_then (λ o. o.cut_under) (option_copied opened.entry) ≡ Some aliases.now) }
{
    let Some(opened) = opened else {
        return false;
    };
    let Some(under) = opened.cut_under() else {
        return false;
    };
    same_aliases(under.get(), aliases)
}

/// Whether the commands of the node were cut under these aliases. Where headers stand, they were
/// cut under no others.
pub(crate) fn stays(opened: &OpenNode, aliases: &Aliases, headers_stand: bool) -> bool
    requires { OnTrue headers_stand ((under : AliasList) → opened.now.cut_under ≡ Some under
        → under ≡ aliases.now) }
    ensures { OnTrue result (opened.now.cut_under ≡ Some aliases.now) }
{
    if headers_stand {
        return opened.cut_under().is_some();
    }
    is_cut_under(Some(opened), aliases)
}
