//! The laws.

ghost use Rattle.std.specs.Prelude.{◌≡◌, ℕ, List, length, slice_get, Some};
ghost use Rattle.std.specs.List.{AllByRecursion};
ghost use Rattle.outer_syntax.specs.Reading.{header_in};
ghost use Rattle.outer_syntax.specs.declared.parts.Header.{Header};
ghost use Rattle.doc_nodes.specs.Imports.{NodeList};
ghost use Rattle.buffer_rules.specs.Nodes.{nodes_after};
ghost use Rattle.buffer_rules.specs.Sheets.{SheetList};
ghost use Rattle.exec_rules.specs.Kept.{BlobList};
ghost use Rattle.language.specs.Laws.{reports_of};
ghost use Rattle.core_rules.specs.Scratch.{scratch_at};
ghost use Rattle.core_rules.specs.Settings.{Setting};
ghost use Rattle.isar_rules.specs.declared.state.State.{State};
ghost use Rattle.isar_rules.specs.Isar.{isar};
ghost use Rattle.reply_messages.specs.Fits.{IsWide, FitsReport};
ghost use Rattle.editor_laws.specs.Headed.{AreNamed, AreHeaded};
ghost use Rattle.editor_laws.specs.OddSources.{OddSources};
ghost use Rattle.editor_laws.specs.PlainReports.{ArePlain};

/// The errors of sources with odd scalars, computed.
pub fn worked_examples()
    ensures { OddSources }
{}

/// The imports and the names of keyword pairs that a text's header tells are identifiers.
pub fn header_law()
    ensures { (text : List ℕ) (header : Header) → header_in text ≡ Some header
        → AreNamed header.imports header.keywords }
{
    outer_syntax::one_header();
}

/// So are those of the nodes that are made of a document's texts.
pub fn sheets_law()
    ensures { (tip : NodeList) (sheets : SheetList) (next : ℕ)
        → AreHeaded (nodes_after tip sheets next).nodes }
{
    outer_syntax::one_header();
}

/// Where the headers of all nodes are such, each command of the document, when it is checked from
/// nothing with whatever blobs, reports words that a reply can tell; and where the command's source
/// is shorter than 2^64 scalars, a reply can tell its reports with their ranges.
pub fn plain_law()
    ensures plain { (nodes : NodeList) (blobs : BlobList) (p i : ℕ) (s : Setting State)
        → AreHeaded nodes → slice_get (scratch_at isar nodes blobs p) i ≡ Some s → ArePlain s }
    ensures fits { (nodes : NodeList) (blobs : BlobList) (p i : ℕ) (s : Setting State)
        → AreHeaded nodes → slice_get (scratch_at isar nodes blobs p) i ≡ Some s
        → IsWide (length s.source)
        → AllByRecursion FitsReport (reports_of isar s.source s.blob s.state) }
{
    outer_syntax::one_header();
    proof_terms::one_answer();
}
