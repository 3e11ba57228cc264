//! Names of aliases.
ghost use Rattle.std.specs.Prelude.{◌≡◌, ℕ, true, List, None};
ghost use Rattle.std.specs.List.{AllByRecursion};
ghost use Rattle.outer_syntax.specs.Words.{is_base_command};
ghost use Rattle.shared_map.specs.Pairs.{found};
ghost use Rattle.doc_nodes.specs.Aliases.{aliases_at};
ghost use Rattle.doc_nodes.specs.Names.{in_order};
ghost use Rattle.buffer_rules.specs.Nodes.{uncut_all};
ghost use Rattle.buffer_rules.specs.Sheets.{SheetList};
ghost use Rattle.soundness_laws.specs.AliasNames.{IsAliasName};
ghost use Rattle.soundness_laws.specs.SameHeaders.{SameHeaders};

/// The name of each alias in force in a node of a document is an identifier that is neither a
/// command of the language's own nor a minor keyword; so none is named as such a command.
pub fn names_law()
    ensures names { (sheets : SheetList) (p : ℕ) → AllByRecursion (λ pair. IsAliasName pair.0)
        (aliases_at (uncut_all sheets) p).pairs }
    ensures unnamed { (sheets : SheetList) (p : ℕ) (name : List ℕ) → is_base_command name ≡ true
        → found in_order name (aliases_at (uncut_all sheets) p).pairs ≡ None }
{
    outer_syntax::one_header();
}

/// Where the headers of a document stay, so do the aliases in force in each node.
pub fn headers_law()
    ensures { (sheets others : SheetList) (p : ℕ) → SameHeaders sheets others
        → aliases_at (uncut_all sheets) p ≡ aliases_at (uncut_all others) p }
{}
