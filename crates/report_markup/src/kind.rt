//! What reports are about.
ghost use Rattle.std.specs.Prelude.{◌≡◌};
ghost use Rattle.report_markup.specs.Words.{kind_word};

/// What a report says of its range. Each kind has a word, its element's name in YXML.
#[derive(Clone, Copy, Debug, PartialEq, Eq)]
pub enum ReportKind {
    /// The name of a command.
    Command,
    /// The name of a theory.
    Theory,
    /// The name of an imported theory.
    Import,
    /// A name that the command introduces.
    Def,
    /// A formula, printed.
    Formula,
    /// Why the command failed.
    Error,
    /// A proof that was checked.
    Proved,
    /// A name that a proof cites.
    Ref,
    /// The state after the command, printed.
    State,
    /// A fact that was loaded from a blob.
    Loaded,
    /// A proof that would do.
    Suggest,
}

impl ReportKind {
    /// The kind's word.
    pub fn word(self) -> &'static str
        ensures { result.now ≡ kind_word self }
    {
        match self {
            ReportKind::Command => "command",
            ReportKind::Theory => "theory",
            ReportKind::Import => "import",
            ReportKind::Def => "def",
            ReportKind::Formula => "formula",
            ReportKind::Error => "error",
            ReportKind::Proved => "proved",
            ReportKind::Ref => "ref",
            ReportKind::State => "state",
            ReportKind::Loaded => "loaded",
            ReportKind::Suggest => "suggest",
        }
    }
}
