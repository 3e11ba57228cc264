ghost use Rattle.std.specs.Prelude.{◌≡◌, ◌≤◌, ℕ, Bool, List, [], map, Result, IsTrue};
ghost use Rattle.nj_formula.specs.declared.argument.Argument.{Argument};
ghost use Rattle.nj_formula.specs.declared.formula.Formula.{Formula};
ghost use Rattle.nj_formula.specs.Meaning.{meaning};
ghost use Rattle.nj_syntax.specs.declared.token.Placed.{Placed};
ghost use Rattle.nj_syntax.specs.Tokens.{AreTokens};
ghost use Rattle.nj_syntax.specs.declared.fault.FormulaFault.{FormulaFault};
ghost use Rattle.nj_syntax.specs.Terms.{Deep};
ghost use Rattle.nj_syntax.specs.Answers.{IsFormula, IsTerm, Answers};
ghost use Rattle.nj_syntax.specs.ArgumentText.{argument_text};
ghost use Rattle.nj_syntax.specs.Prints.{Prints};
ghost use Rattle.nj_syntax.specs.Spellable.{is_spellable_argument, IsSpellable};
ghost use Rattle.nj_syntax.specs.ReadBack.{IsTextOf, IsReadBack, IsParsed};
ghost use Rattle.nj_syntax.specs.Opens.{opens};
ghost use Rattle.nj_syntax.specs.Readable.{PrintsAreRead, PartsAreReadable, InstancesAreSpellable};

/// A law: a formula has a print, and no other one.
pub fn one_print()
    ensures some { (a : Formula) → (text : List ℕ) × Prints 10 [] a text }
    ensures no_other { (a : Formula) (text other : List ℕ)
        → Prints 10 [] a text → Prints 10 [] a other → text ≡ other }
{}

/// A law: the print of a formula is read as the formula, up to bound names.
pub fn reads_back()
    ensures { (a : Formula) (text : List ℕ)
        → IsSpellable a → Prints 10 [] a text → IsReadBack a text }
{}

/// A law: reading the print of a formula answers the formula, up to bound names, unless the print
/// is too deep or there is no memory.
pub fn print_is_parsed()
    ensures { (a : Formula) (text : List ℕ) (answer : Result Formula FormulaFault)
        → IsSpellable a → Prints 10 [] a text → Answers IsFormula text answer → IsParsed a answer }
{}

/// A law: the print of a term is read as the term.
pub fn term_reads_back()
    ensures { (t : Argument)
        → IsTrue (is_spellable_argument 0 t) → IsTextOf IsTerm (argument_text [] t) t }
{}

/// A law: no tokens that are a formula which says the same have fewer pairs of parentheses than the
/// print has.
pub fn fewest_parentheses()
    ensures { (a b : Formula) (text : List ℕ) (tokens : List Placed) (stop : ℕ) (whole : Bool)
        (deep : List Deep)
        → IsSpellable a → Prints 10 [] a text → AreTokens 0 text tokens stop whole
        → IsFormula deep b → meaning b ≡ meaning a
        → opens (map (λ t. t.token) tokens) ≤ opens (map (λ t. t.0) deep) }
{}

/// A law: what a text was read as is read again from its print, up to bound names, so that printing
/// and reading again finds no fault and nothing too deep.
pub fn prints_are_read()
    ensures { PrintsAreRead }
{}

/// A law: so are the parts of such a formula, and its instances at an identifier.
pub fn parts_are_readable()
    ensures { PartsAreReadable }
{}

/// A law: a text can say the instance of a formula at a term, if it can say both.
pub fn instances_are_spellable()
    ensures { InstancesAreSpellable }
{}
