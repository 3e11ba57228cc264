//! Suggested proofs in a document.
ghost use Rattle.std.specs.Prelude.{◌≡◌, ◌+◌, ℕ, List, None, Some, codes, slice_get, map};
ghost use Rattle.text_edits.specs.Edits.{Applies};
ghost use Rattle.nj_suggest.specs.Edits.{edit};
ghost use Rattle.shared_map.specs.Pairs.{found};
ghost use Rattle.doc_nodes.specs.declared.node.Entry.{Entry};
ghost use Rattle.outer_syntax.specs.Reading.{header_in};
ghost use Rattle.doc_nodes.specs.Aliases.{aliases_at};
ghost use Rattle.doc_nodes.specs.Names.{in_order};
ghost use Rattle.doc_nodes.specs.Imports.{NodeList};
ghost use Rattle.exec_rules.specs.Assigning.{entries_at};
ghost use Rattle.exec_rules.specs.Kept.{BlobList};
ghost use Rattle.core_rules.specs.Scratch.{Run};
ghost use Rattle.core_rules.specs.Settings.{Setting};
ghost use Rattle.isar_rules.specs.declared.state.State.{State};
ghost use Rattle.buffer_rules.specs.declared.sheet.Sheet.{Sheet};
ghost use Rattle.buffer_rules.specs.Nodes.{nodes_after, uncut_all};
ghost use Rattle.buffer_rules.specs.Numbers.{Command};
ghost use Rattle.buffer_rules.specs.Sheets.{SheetList};
ghost use Rattle.language.specs.declared.made.Imports.{Imports};
ghost use Rattle.soundness_laws.specs.Insertion.{IsUnbroken};
ghost use Rattle.soundness_laws.specs.Edited.{NodeComesTo, IsTakenAt};
ghost use Rattle.soundness_laws.specs.Suggesting.{Beginning, beginning_at, IsEditedAt, node_of, run_of, Suggests, IsTaken};

/// Where a command's print suggests a proof and the command's last token is no error: after the
/// edit that puts it in behind the command, the node has the same header, its commands are the old
/// ones with the proof behind that command, and neither the proof's evaluation nor its fork reports
/// an error; whatever ids there are. No alias is named as the command `by`, and blobs stay.
pub fn suggest_law()
    ensures { (begins : Beginning) (sheet : Sheet) (before later : List Command) (next last : ℕ)
        (blobs : BlobList) (k : ℕ) (e : Entry) (s : Setting State) (text new : List ℕ)
        → let run = run_of begins sheet before next blobs in
        found in_order (codes "by") begins.aliases.pairs ≡ None
        → slice_get (node_of begins sheet before next).entries k ≡ Some e
        → slice_get run.commands k ≡ Some s → Suggests s text
        → IsUnbroken sheet.text (map (λ pair. pair.0) begins.aliases.pairs) e.range.stop
        → Applies (edit e.range.stop text) sheet.text new
        → IsTaken run (run_of begins (record sheet { text = new }) later last blobs)
        sheet.text new text k }
{
    buffer_rules::ids_law();
    crate::insertion::insertion_law();
    crate::commands::citable_states();
    crate::commands::suggested_by();
}

/// The same in a node of a document, where no alias can be named as the command `by`; and the
/// aliases of all nodes stay.
pub fn document_law()
    ensures taken { (sheets others : SheetList) (p : ℕ) (name : List ℕ) (imports : Imports State)
        (sheet : Sheet) (before later : List Command) (next last : ℕ)
        (blobs : BlobList) (k : ℕ) (e : Entry) (s : Setting State) (text new : List ℕ)
        → let begins = beginning_at sheets p name imports in
        let run = run_of begins sheet before next blobs in
        IsEditedAt sheets others p sheet new
        → slice_get (node_of begins sheet before next).entries k ≡ Some e
        → slice_get run.commands k ≡ Some s → Suggests s text
        → IsUnbroken sheet.text (map (λ pair. pair.0) begins.aliases.pairs) e.range.stop
        → Applies (edit e.range.stop text) sheet.text new
        → IsTaken run (run_of (beginning_at others p name imports)
        (record sheet { text = new }) later last blobs) sheet.text new text k }
    ensures aliases { (sheets others : SheetList) (p : ℕ) (sheet : Sheet) (new : List ℕ)
        → IsEditedAt sheets others p sheet new → header_in new ≡ header_in sheet.text → (q : ℕ)
        → aliases_at (uncut_all others) q ≡ aliases_at (uncut_all sheets) q }
{
    suggest_law();
    crate::aliases::names_law();
    crate::aliases::headers_law();
}

/// The same over what documents come to when they are checked from nothing. Where the print of a
/// node's command suggests a proof, and the edit puts it in behind the command, the document with
/// the new text is checked from nothing: there the node begins with what its own imports come to,
/// and comes to the old commands with the proof behind that one, which reports no error.
pub fn edited_law()
    ensures { (sheets others : SheetList) (p : ℕ) (sheet : Sheet) (tip old : NodeList)
        (next last : ℕ) (blobs : BlobList) (run : Run State) (k : ℕ) (e : Entry)
        (s : Setting State) (text new : List ℕ)
        → let nodes = (nodes_after tip sheets next).nodes in
        IsEditedAt sheets others p sheet new → NodeComesTo nodes blobs p run
        → slice_get (entries_at nodes p) k ≡ Some e
        → slice_get run.commands k ≡ Some s → Suggests s text
        → IsUnbroken sheet.text (map (λ pair. pair.0) (aliases_at nodes p).pairs) e.range.stop
        → Applies (edit e.range.stop text) sheet.text new
        → IsTakenAt (nodes_after old others last).nodes blobs p run sheet.text new text k }
{
    document_law();
    buffer_rules::ids_law();
    doc_nodes::order_law();
}
