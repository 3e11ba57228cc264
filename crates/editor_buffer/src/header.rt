//! The node that a sheet makes, before its text is cut.
ghost use Rattle.std.specs.Prelude.{◌≡◌, [], IfOk};
ghost use Rattle.buffer_rules.specs.Nodes.{uncut};

use crate::open_node::shared;
use buffer_rules::Sheet;
use doc_nodes::Node;
use joined_results::both;
use outer_syntax::{KeywordPair, header, one_header};
use sqlite_items::Items;
use std::alloc::{AllocError, Global};

/// The node of a sheet with these imports and keyword pairs, and no commands.
fn bare_node(
    alloc: Global,
    sheet: &Sheet,
    imports: Items<Items<char>>,
    keywords: Items<KeywordPair>,
) -> Result<Node, AllocError>
    ensures { IfOk result (λ node. node ≡ record {
      text = sheet.now.text;
      entries = [];
      required = sheet.now.required;
      imports = imports;
      keywords = keywords;
    }) }
{
    let ((text, entries), (imports, keywords)) = both(
        both(sheet.text.copy(), shared(alloc, Items::new(alloc))),
        both(shared(alloc, imports), shared(alloc, keywords)),
    )?;
    Ok(Node {
        text,
        entries,
        required: sheet.required,
        imports,
        keywords,
    })
}

/// The node of a sheet, with the imports and keyword pairs of its header and no commands yet. No
/// more of the text is read than its header.
#[tactic(auto, using(crate::proofs::HeaderNodes::uncut_steps))]
pub fn uncut(alloc: Global, sheet: &Sheet) -> Result<Node, AllocError>
    ensures { IfOk result (λ node. node ≡ uncut sheet.now) }
{
    one_header();
    match header(alloc, sheet.text.get().as_slice())? {
        Some(header) => bare_node(alloc, sheet, header.imports, header.keywords),
        None => bare_node(alloc, sheet, Items::new(alloc), Items::new(alloc)),
    }
}
