//! What the commands of a text go by besides its text.
ghost use Rattle.std.specs.Prelude.{◌≡◌, [], codes, IfOk};
ghost use Rattle.text_check.specs.OneText.{name_or_scratch};
ghost use Rattle.text_check.specs.Headings.{alone, begins, bare, heading_of, headed, imports_of};

use doc_nodes::{ImportGraph, Node, NodeAliases, Nodes, Shared, aliases_of, import_order};
use joined_results::{both, each_of_three};
use language::{Imports, Language};
use outer_syntax::{Header, KeywordPair, header, one_header};
use pide_base::NodeName;
use sqlite_items::Items;
use std::alloc::{AllocError, Global};
use text_edits::Text;
use text_words::text_of;

/// The name of a text's node, the first of its imports, which is no node, and its aliases.
#[derive(Drop)]
pub(crate) struct Heading {
    pub(crate) name: NodeName,
    pub(crate) bad: Option<Items<char>>,
    pub(crate) aliases: NodeAliases,
}

impl Heading {
    /// That of a text. No more of the text is read than its header.
    pub(crate) fn of(alloc: Global, text: &[char]) -> Result<Heading, AllocError>
        ensures { IfOk result (λ heading. heading ≡ heading_of text.now) }
    {
        one_header();
        match header(alloc, text)? {
            Some(header) => {
                let name = named(alloc, header.name.as_slice())?;
                headed(alloc, name, header.imports, header.keywords)
            }
            None => headed(alloc, scratch(alloc)?, Items::new(alloc), Items::new(alloc)),
        }
    }

    /// The state in which the first command begins.
    pub(crate) fn begins<L: Language>(
        &self,
        alloc: Global,
        language: &L,
    ) -> Result<L::State, AllocError>
        ensures { IfOk result (λ state. state ≡ begins L.lang self.now) }
    {
        let imports = imports_of(alloc, &self.bad)?;
        language.start(alloc, &self.name, &imports, &self.aliases)
    }
}

/// The name `Scratch`.
fn scratch(alloc: Global) -> Result<NodeName, AllocError>
    ensures { IfOk result (λ name. name ≡ codes "Scratch") }
{
    match NodeName::new(String::from_str(alloc, "Scratch")?) {
        Ok(name) => Ok(name),
        Err(_) => unreachable!(),
    }
}

/// The name, where a node can have it, else `Scratch`.
fn named(alloc: Global, name: &[char]) -> Result<NodeName, AllocError>
    ensures { IfOk result (λ found. found ≡ name_or_scratch name.now) }
{
    match NodeName::new(text_of(alloc, name)?) {
        Ok(name) => Ok(name),
        Err(_) => scratch(alloc),
    }
}

/// The value in memory that can be shared.
fn shared<T: Drop>(alloc: Global, value: T) -> Result<Shared<T>, AllocError>
    ensures { IfOk result (λ shared. shared ≡ value) }
{
    Shared::new(alloc, value).map_err(|_| AllocError)
}

/// A node of a header alone.
fn bare(
    alloc: Global,
    imports: Items<Items<char>>,
    keywords: Items<KeywordPair>,
) -> Result<Node, AllocError>
    ensures { IfOk result (λ node. node ≡ bare imports keywords) }
{
    let header = both(shared(alloc, imports), shared(alloc, keywords));
    let body = both(
        shared(alloc, Text::new(alloc)),
        shared(alloc, Items::new(alloc)),
    );
    let ((imports, keywords), (text, entries)) = both(header, body)?;
    Ok(Node {
        text,
        entries,
        required: true,
        imports,
        keywords,
    })
}

/// A node of this name and header as the only one of a document.
fn alone(
    alloc: Global,
    name: &NodeName,
    imports: Items<Items<char>>,
    keywords: Items<KeywordPair>,
) -> Result<Nodes, AllocError>
    ensures { IfOk result (λ nodes. nodes ≡ alone name.now imports keywords) }
{
    let (name, node) = both(name.clone(), bare(alloc, imports, keywords))?;
    let mut nodes = Nodes::new();
    nodes.set(alloc, name, node)?;
    Ok(nodes)
}

/// The heading of a text whose header is this.
fn headed(
    alloc: Global,
    name: NodeName,
    imports: Items<Items<char>>,
    keywords: Items<KeywordPair>,
) -> Result<Heading, AllocError>
    ensures { IfOk result (λ heading. heading ≡ headed name imports keywords) }
{
    let nodes = alone(alloc, &name, imports, keywords)?;
    let graph = ImportGraph::of(alloc, &nodes)?;
    let order = import_order(alloc, &nodes, &graph);
    let all = aliases_of(alloc, &nodes, &graph);
    drop(graph);
    drop(nodes);
    let (name, mut order, mut all) = each_of_three(Ok(name), order, all)?;
    match (order.pop(), all.pop()) {
        (Some(placed), Some(aliases)) => Ok(Heading {
            name,
            bad: placed.bad,
            aliases,
        }),
        _ => unreachable!(),
    }
}

/// What the node has from its imports, by the first of them.
fn imports_of<S>(alloc: Global, bad: &Option<Items<char>>) -> Result<Imports<S>, AllocError>
    ensures { IfOk result (λ imports. imports ≡ imports_of bad.now) }
{
    match bad {
        Some(name) => Ok(Imports::Bad(Items::from_slice(alloc, name.as_slice())?)),
        None => Ok(Imports::Ordered(Items::new(alloc))),
    }
}
