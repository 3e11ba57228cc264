//! How the nodes of a version are cut, one after the other.
ghost use Rattle.std.specs.Prelude.{◌≡◌, ◌+◌, ◌≤◌, ◌<◌, ◌++◌, ◌∷◌, [], ℕ, List, length, slice_get, Some, IsTrue, IfOk, IfErr, true};
ghost use Rattle.std.specs.List.{AllZip};
ghost use Rattle.std.specs.Bool.{OnTrue};
ghost use Rattle.doc_nodes.specs.Needs.{AliasList};
ghost use Rattle.pide_base.specs.Ids.{id_end};
ghost use Rattle.command_spans.specs.CutTexts.{AreCutsOf};
ghost use Rattle.doc_nodes.specs.declared.node.Node.{Node};
ghost use Rattle.doc_nodes.specs.Aliases.{aliases_at};
ghost use Rattle.buffer_rules.specs.Nodes.{before_in, uncut_all};
ghost use Rattle.editor_buffer.specs.Commands.{commands_in, AskUnder};
ghost use Rattle.editor_buffer.specs.OpenSheet.{OpenSheet};
ghost use Rattle.editor_buffer.specs.Standing.{Stands, Drafted, DraftedUnder, sheets_of};
ghost use Rattle.doc_nodes.specs.Heads.{heads};
ghost use Rattle.editor_buffer.specs.Cutting.{GivesRemade, IsPut, IsCutUpTo, IsCutWhole, PassesLast, whole};

use crate::aliases::{is_cut_under, stays};
use crate::cut::cut;
use crate::draft::{Draft, OpenNodes};
use crate::fault::PrepareError;
use crate::named::with_named;
use crate::old::OldCommands;
use crate::open_node::OpenNode;
use buffer_rules::ids_law;
use command_spans::Spans;
use doc_nodes::{Aliases, ImportGraph, Node, NodeAliases, Nodes, Shared, aliases_of};
use joined_results::each_of_three;
use pide_base::NodeName;
use std::alloc::{AllocError, Global};

/// What the buffer has before an update, lent.
#[derive(Drop)]
pub(crate) struct Tip<'a> {
    pub(crate) opened: &'a OpenNodes,
    pub(crate) nodes: &'a Nodes,
    pub(crate) next: u64,
}

impl<'a> Tip<'a> {
    /// The commands that the node of the name has.
    fn commands(&self, name: &NodeName, aliases: &Aliases) -> OldCommands<'a>
        requires { AllZip Stands self.now.opened.now self.now.nodes.now }
        ensures commands { commands_in result.text.now result.entries.now
            ≡ before_in self.now.nodes.now name.now }
        ensures asked { IsTrue result.same_aliases
            → AskUnder aliases.now result.text.now result.entries.now }
    {
        match self.nodes.get(name) {
            Some(node) => OldCommands {
                text: node.text.get().as_slice(),
                entries: node.entries.get().as_slice(),
                same_aliases: is_cut_under(self.opened.get(name), aliases),
            },
            None => OldCommands {
                text: &[],
                entries: &[],
                same_aliases: false,
            },
        }
    }
}

/// A node that is cut again, and the next id after it.
#[derive(Drop)]
pub(crate) struct Remade {
    pub(crate) opened: OpenNode,
    pub(crate) node: Node,
    pub(crate) next: u64,
}

/// The same node, after its commands were cut under these aliases, to these spans.
fn cut_under(
    opened: &OpenNode,
    spans: Shared<Spans>,
    aliases: &Shared<Aliases>,
) -> Result<OpenNode, AllocError>
    requires { AreCutsOf opened.now.sheet.text spans }
    ensures { IfOk result (λ made. made ≡ record {
      sheet = opened.now.sheet;
      cut_under = Some aliases.now;
    }) }
{
    let aliases = aliases.copy()?;
    opened.with_cut(spans, aliases)
}

/// The node of the name under these aliases, where it has to be cut; else None, and it stays.
/// `Limit` comes where the ids of its commands pass the last one.
fn cut_again(
    alloc: Global,
    tip: &Tip,
    name: &NodeName,
    opened: &OpenNode,
    node: &Node,
    aliases: &Shared<Aliases>,
    next: u64,
    headers_stand: bool,
) -> Result<Option<Remade>, PrepareError>
    requires under { OnTrue headers_stand ((under : AliasList)
        → opened.now.cut_under ≡ Some under → under ≡ aliases.now) }
    requires stands { AllZip Stands tip.now.opened.now tip.now.nodes.now }
    requires drafted { DraftedUnder tip.now.nodes.now opened.now.cut_under name.now opened.now.sheet
        node.now }
    requires first { 1 ≤ next }
    requires last { next ≤ id_end }
    ensures { GivesRemade tip.now.nodes.now name.now opened.now node.now aliases.now next result }
{
    ids_law();
    if stays(opened, aliases.get(), headers_stand) {
        return Ok(None);
    }
    let spans = opened.spans_under(alloc, aliases.get())?;
    let old = tip.commands(name, aliases.get());
    let made = cut(
        alloc,
        opened.sheet(),
        node,
        spans.get(),
        aliases.get(),
        &old,
        next,
    )?;
    let opened = cut_under(opened, spans, aliases)?;
    Ok(Some(Remade {
        opened,
        node: made.node,
        next: made.next,
    }))
}

/// Open nodes and nodes of which so many are cut, by name; the next id then, and which of them
/// stayed.
#[derive(Drop)]
pub(crate) struct Cutting {
    pub(crate) opened: OpenNodes,
    pub(crate) nodes: Nodes,
    pub(crate) next: u64,
    pub(crate) untouched: Vec<bool>,
}

/// The name of the node at the place.
fn name_at(opened: &OpenNodes, place: usize) -> Result<NodeName, AllocError>
    requires { place < length opened.now }
    ensures { (pair : List ℕ × OpenSheet) → slice_get opened.now place ≡ Some pair
        → IfOk result (λ name. name ≡ pair.0) }
{
    let Some((name, _)) = opened.at(place) else {
        unreachable!()
    };
    name.clone()
}

/// The marks with one more.
fn marked(marks: Vec<bool>, mark: bool) -> Result<Vec<bool>, AllocError>
    ensures { IfOk result (λ more. more.items ≡ marks.items ++ mark ∷ []) }
{
    let mut marks = marks;
    marks.push(mark)?;
    Ok(marks)
}

impl Cutting {
    /// The node at the place, where it has to be cut.
    fn remade_at(
        &self,
        alloc: Global,
        tip: &Tip,
        aliases: &Shared<Aliases>,
        place: usize,
        headers_stand: bool,
    ) -> Result<Option<Remade>, PrepareError>
        requires headers { OnTrue headers_stand (heads tip.now.nodes.now
            ≡ heads (uncut_all (sheets_of self.now.opened))) }
        requires stands { AllZip Stands tip.now.opened.now tip.now.nodes.now }
        requires cut { IsCutUpTo tip.now.nodes.now (sheets_of self.now.opened) tip.now.next place
            self.now }
        requires aliases { aliases.now
            ≡ (aliases_at (uncut_all (sheets_of self.now.opened)) place).pairs }
        requires within { place < length self.now.opened }
        ensures { (opened : List ℕ × OpenSheet) (node : List ℕ × Node)
            → slice_get self.now.opened place ≡ Some opened
            → slice_get self.now.nodes place ≡ Some node
            → GivesRemade tip.now.nodes.now opened.0 opened.1 node.1 aliases.now self.now.next
            result }
    {
        let Some((name, opened)) = self.opened.at(place) else {
            unreachable!()
        };
        let Some((_, node)) = self.nodes.at(place) else {
            unreachable!()
        };
        cut_again(
            alloc,
            tip,
            name,
            opened,
            node,
            aliases,
            self.next,
            headers_stand,
        )
    }

    /// With a node that was cut in its place.
    fn put(self, alloc: Global, place: usize, made: Remade) -> Result<Cutting, AllocError>
        requires within { place < length self.opened }
        ensures { (opened : List ℕ × OpenSheet) → slice_get self.opened place ≡ Some opened
            → IfOk result (λ cutting. IsPut self opened.0 made cutting) }
    {
        let Ok(name) = name_at(&self.opened, place) else {
            drop(self);
            drop(made);
            return Err(AllocError);
        };
        let Remade { opened, node, next } = made;
        let (opened, nodes, untouched) = each_of_three(
            with_named(alloc, self.opened, &name, opened),
            with_named(alloc, self.nodes, &name, node),
            marked(self.untouched, false),
        )?;
        Ok(Cutting {
            opened,
            nodes,
            next,
            untouched,
        })
    }

    /// With the node at the next place left as it is.
    fn stayed(self) -> Result<Cutting, AllocError>
        ensures { IfOk result (λ cutting. (cutting.opened ≡ self.opened)
            × (cutting.nodes ≡ self.nodes) × (cutting.next ≡ self.next)
            × (cutting.untouched.items ≡ self.untouched.items ++ true ∷ [])) }
    {
        let Cutting {
            opened,
            nodes,
            next,
            untouched,
        } = self;
        let untouched = marked(untouched, true)?;
        Ok(Cutting {
            opened,
            nodes,
            next,
            untouched,
        })
    }

    /// With one node more cut.
    fn step(
        self,
        alloc: Global,
        tip: &Tip,
        aliases: &Shared<Aliases>,
        place: usize,
        headers_stand: bool,
    ) -> Result<Cutting, PrepareError>
        requires headers { OnTrue headers_stand (heads tip.now.nodes.now
            ≡ heads (uncut_all (sheets_of self.opened))) }
        requires stands { AllZip Stands tip.now.opened.now tip.now.nodes.now }
        requires cut { IsCutUpTo tip.now.nodes.now (sheets_of self.opened) tip.now.next place self }
        requires aliases { aliases.now
            ≡ (aliases_at (uncut_all (sheets_of self.opened)) place).pairs }
        requires within { place < length self.opened }
        ensures cut { IfOk result (λ cutting. IsCutUpTo tip.now.nodes.now
            (sheets_of self.opened) tip.now.next (place + 1) cutting) }
        ensures refused { IfErr result (PassesLast
            (whole tip.now.nodes.now (sheets_of self.opened) tip.now.next)) }
    {
        match self.remade_at(alloc, tip, aliases, place, headers_stand)? {
            None => Ok(self.stayed()?),
            Some(made) => Ok(self.put(alloc, place, made)?),
        }
    }
}

/// The aliases that are in force in each of the nodes.
fn aliases_in(alloc: Global, nodes: &Nodes) -> Result<Vec<NodeAliases>, AllocError>
    ensures len { IfOk result (λ all. length all.items ≡ length nodes.now) }
    ensures each { IfOk result (λ all. (p : ℕ) → p < length nodes.now
        → slice_get all.items p ≡ Some (aliases_at nodes.now p)) }
{
    let graph = ImportGraph::of(alloc, nodes)?;
    aliases_of(alloc, nodes, &graph)
}

/// All nodes of a draft, cut under the aliases that are in force in them. `Limit` comes where the
/// ids of new commands pass the last one.
pub(crate) fn cut_all(alloc: Global, tip: &Tip, draft: Draft) -> Result<Cutting, PrepareError>
    requires stands { AllZip Stands tip.now.opened.now tip.now.nodes.now }
    requires drafted { AllZip (Drafted tip.now.nodes.now) draft.opened draft.nodes }
    requires headers { OnTrue draft.headers_stand (heads draft.nodes ≡ heads tip.now.nodes.now) }
    requires least { 1 ≤ tip.now.next }
    requires most { tip.now.next ≤ id_end }
    ensures cut { IfOk result (λ cutting. IsCutWhole tip.now.nodes.now (sheets_of draft.opened)
        tip.now.next cutting) }
    ensures refused { IfErr result (PassesLast
        (whole tip.now.nodes.now (sheets_of draft.opened) tip.now.next)) }
{
    let Draft {
        opened,
        nodes,
        headers_stand,
    } = draft;
    let aliases = aliases_in(alloc, &nodes)?;
    let mut cutting = Cutting {
        opened,
        nodes,
        next: tip.next,
        untouched: Vec::new(alloc),
    };
    let _sorted = cutting.opened.iter();
    let _by_name = cutting.nodes.iter();
    'nodes: for (place, in_force) in aliases.iter().enumerate() {
        cutting = cutting.step(alloc, tip, &in_force.pairs, place, headers_stand)?;
    }
    Ok(cutting)
}
