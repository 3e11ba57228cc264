//! What the new executions of a node go by.
ghost use Rattle.std.specs.Prelude.{◌≡◌, ◌<◌, ◌≤◌, ◌∷◌, ◌++◌, [], if◌then◌else◌, length, drop, slice_get, Some, IfOk, OnOk};
ghost use Rattle.text_words.specs.Pieces.{text_between};
ghost use Rattle.exec_rules.specs.Kept.{blob_of};
ghost use Rattle.exec_rules.specs.declared.home.Input.TheVariants.{Print};
ghost use Rattle.exec_rules.specs.Rows.{takes_print};
ghost use Rattle.exec_rules.specs.Homes.{home, taken_up_inputs, eval_homes, print_homes};
ghost use Rattle.exec_rules.specs.Assigning.{head_at};

use crate::cancelled::Cancelled;
use crate::printing::{live_at, takes_print};
use crate::sharing::shared;
use crate::update::Update;
use doc_nodes::{BlobName, Entry, Node, NodeAliases, Shared};
use exec_rules::{Head, Home, Input, Key};
use joined_results::{both, each_of_three};
use pide_base::{ExecId, NodeName, Range};
use sqlite_items::Items;
use std::alloc::{AllocError, Global};
use text_edits::Text;

/// The text in a range. What lies outside of the text is left out.
fn text_between(text: &[char], range: Range) -> &[char]
    ensures { result.now ≡ text_between text.now range.start range.stop }
{
    let rest = &text[range.start.min(text.len())..];
    &rest[..range.stop.saturating_sub(range.start).min(rest.len())]
}

/// The same aliases, in the same memory.
fn copied(alloc: Global, aliases: &NodeAliases) -> Result<NodeAliases, AllocError>
    ensures { IfOk result (λ copy. copy ≡ aliases.now) }
{
    let (pairs, bad) = both(aliases.pairs.copy(), bad_copied(alloc, &aliases.bad))?;
    Ok(NodeAliases { pairs, bad })
}

fn bad_copied(alloc: Global, bad: &Option<Items<char>>) -> Result<Option<Items<char>>, AllocError>
    ensures { IfOk result (λ copy. copy ≡ bad.now) }
{
    match bad {
        Some(name) => Ok(Some(Items::from_slice(alloc, name.as_slice())?)),
        None => Ok(None),
    }
}

/// A command's source.
fn source_of(alloc: Global, node: &Node, entry: &Entry) -> Result<Shared<Text>, AllocError>
    ensures { IfOk result (λ source. source
        ≡ text_between node.now.text entry.now.range.start entry.now.range.stop) }
{
    let source = text_between(node.text.get().as_slice(), entry.range);
    shared(alloc, Text::from_slice(alloc, source)?)
}

impl<'a, C: Cancelled> Update<'a, C> {
    /// How the node at the place begins.
    pub(crate) fn head(
        &self,
        alloc: Global,
        place: usize,
        name: &NodeName,
        node: &Node,
        key: Shared<Key>,
    ) -> Result<Shared<Head>, AllocError>
        requires { slice_get self.now.nodes place ≡ Some (name.now, node.now) }
        ensures { IfOk result (λ head. head ≡ head_at self.now place (name.now, node.now) key) }
    {
        let copies = both(node.imports.copy(), copied(alloc, &self.aliases[place]));
        let (node, (imports, aliases), key) = each_of_three(name.clone(), copies, Ok(key))?;
        let head = Head {
            node,
            imports,
            aliases,
            key,
        };
        shared(alloc, head)
    }

    /// The text of the blob that a command asks for, where both are there.
    fn blob_of(&self, needs: &Option<BlobName>) -> Result<Option<Shared<Text>>, AllocError>
        ensures { IfOk result (λ text. text ≡ blob_of self.now.blobs needs.now) }
    {
        let Some(name) = needs else {
            return Ok(None);
        };
        match self.blobs.get(name) {
            Some(text) => Ok(Some(text.copy()?)),
            None => Ok(None),
        }
    }

    /// The home of an execution of a node's command, by what it takes up.
    fn home(
        &self,
        alloc: Global,
        node: &Node,
        entry: &Entry,
        input: Input,
    ) -> Result<Home, AllocError>
        ensures { IfOk result
            (λ made. made ≡ home node.now self.now.blobs entry.now input) }
    {
        let source = source_of(alloc, node, entry);
        let blob = self.blob_of(&entry.needs);
        let (source, blob, input) = each_of_three(source, blob, Ok(input))?;
        Ok(Home {
            source,
            blob,
            input,
        })
    }

    /// The homes of the new executions of a node: of the evaluations that are not kept, then of the
    /// prints.
    pub(crate) fn homes(
        &self,
        alloc: Global,
        node: &Node,
        head: &Shared<Head>,
        evaluations: &[ExecId],
        live: &[Option<ExecId>],
        kept: usize,
    ) -> Result<Vec<Home>, AllocError>
        requires { length evaluations.now ≤ length node.now.entries }
        ensures { IfOk result (λ homes. homes.items
            ≡ drop kept (eval_homes node.now self.now.blobs head.now evaluations.now)
            ++ print_homes node.now self.now.blobs node.now.entries evaluations.now live.now) }
    {
        let mut homes = self.eval_homes(alloc, node, head, evaluations, kept)?;
        self.add_print_homes(alloc, &mut homes, node, evaluations, live)?;
        Ok(homes)
    }

    /// The homes of the evaluations that are not kept.
    fn eval_homes(
        &self,
        alloc: Global,
        node: &Node,
        head: &Shared<Head>,
        evaluations: &[ExecId],
        kept: usize,
    ) -> Result<Vec<Home>, AllocError>
        requires { length evaluations.now ≤ length node.now.entries }
        ensures { IfOk result (λ homes. homes.items
            ≡ drop kept (eval_homes node.now self.now.blobs head.now evaluations.now)) }
    {
        let entries = node.entries.get().as_slice();
        let mut homes = Vec::new(alloc);
        'fresh: for place in kept..evaluations.len() {
            let input = taken_up(head, evaluations, place)?;
            homes.push(self.home(alloc, node, &entries[place], input)?)?;
        }
        Ok(homes)
    }

    /// Adds the homes of the prints that are not kept.
    fn add_print_homes(
        &self,
        alloc: Global,
        homes: &mut Vec<Home>,
        node: &Node,
        evaluations: &[ExecId],
        live: &[Option<ExecId>],
    ) -> Result<(), AllocError>
        requires { length evaluations.now ≤ length node.now.entries }
        ensures { OnOk result (homes.new.items ≡ homes.old.items ++ print_homes node.now
            self.now.blobs node.now.entries evaluations.now live.now) }
    {
        let entries = node.entries.get().as_slice();
        'prints: for place in 0..evaluations.len() {
            let kept = live_at(live, place);
            self.add_print_home(
                alloc,
                homes,
                node,
                &entries[place],
                evaluations[place],
                &kept,
            )?;
        }
        Ok(())
    }

    /// Adds the home of a command's print, if that is not kept.
    fn add_print_home(
        &self,
        alloc: Global,
        homes: &mut Vec<Home>,
        node: &Node,
        entry: &Entry,
        evaluation: ExecId,
        live: &Option<ExecId>,
    ) -> Result<(), AllocError>
        ensures { OnOk result (homes.new.items ≡ homes.old.items
            ++ (if takes_print entry.now live.now
            then home node.now self.now.blobs entry.now (Print evaluation) ∷ [] else [])) }
    {
        if !takes_print(entry, live) {
            return Ok(());
        }
        let home = self.home(alloc, node, entry, Input::Print(evaluation))?;
        homes.push(home)?;
        Ok(())
    }
}

/// What the evaluation at the place takes up: the first the node's beginning, each other the one
/// before it.
fn taken_up(head: &Shared<Head>, evaluations: &[ExecId], place: usize) -> Result<Input, AllocError>
    requires { place < length evaluations.now }
    ensures { IfOk result (λ input. Some input
        ≡ slice_get (taken_up_inputs head.now evaluations.now) place) }
{
    match place.checked_sub(1) {
        Some(before) => Ok(Input::Next(evaluations[before])),
        None => Ok(Input::First(head.copy()?)),
    }
}
