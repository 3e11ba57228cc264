ghost use Rattle.std.specs.Prelude.{◌≡◌, [], ◌∷◌, ◌++◌, OnOk, IfOk, string_bytes};
ghost use Rattle.nj_formula.specs.Meaning.{meaning};
ghost use Rattle.nj_formula.specs.declared.formula.Formula.TheVariants.{Atom};
ghost use Rattle.nj_syntax.specs.ArgumentText.{argument_text};
ghost use Rattle.nj_syntax.specs.Prints.{Prints, PrintsBody};
ghost use Rattle.nj_syntax.specs.Primed.{IsPrimed};

use crate::names::primed;
use crate::print_arguments::{write_argument, write_arguments};
use crate::priority::{AND, IMPLIES, NOT, OR, QUANTIFIER, is_enclosed};
use nj_formula::{Argument, Formula, Name};
use sqlite_items::Items;
use std::alloc::{AllocError, Global};
use std::collections::VecDeque;

/// The text so far, and the printed names of the bound places, innermost first.
#[derive(Drop)]
struct Printer {
    alloc: Global,
    text: String,
    names: VecDeque<Name>,
}

impl Printer {
    ghost use Rattle.nj_syntax.specs.Adds.{Adds};

    /// Adds the predicate, and its arguments in parentheses where it has any.
    fn atom(&mut self, predicate: &Name, arguments: &Items<Argument>) -> Result<(), AllocError>
        ensures text { OnOk result (Adds (string_bytes self.old.text) (string_bytes self.new.text)
            (Prints 10 self.old.names.items (Atom predicate.now arguments.now))) }
        ensures names { OnOk result (self.new.names.items ≡ self.old.names.items) }
    {
        self.text.push_str(predicate.as_str())?;
        if arguments.is_empty() {
            return Ok(());
        }
        self.text.push_str("(")?;
        write_arguments(&mut self.text, &self.names, arguments.as_slice())?;
        self.text.push_str(")")
    }

    /// Adds the formula in a place for this priority and higher ones.
    #[cycle(formula)]
    fn formula(&mut self, formula: &Formula, place: usize) -> Result<(), AllocError>
        ensures text { OnOk result (Adds (string_bytes self.old.text) (string_bytes self.new.text)
            (Prints place self.old.names.items formula.now)) }
        ensures names { OnOk result (self.new.names.items ≡ self.old.names.items) }
    {
        if !is_enclosed(formula, place) {
            return self.bare(formula);
        }
        self.text.push_str("(")?;
        self.bare(formula)?;
        self.text.push_str(")")
    }

    /// Adds the formula with no parentheses around it.
    #[cycle(formula)]
    fn bare(&mut self, formula: &Formula) -> Result<(), AllocError>
        ensures text { OnOk result (Adds (string_bytes self.old.text) (string_bytes self.new.text)
            (Prints 10 self.old.names.items formula.now)) }
        ensures names { OnOk result (self.new.names.items ≡ self.old.names.items) }
    {
        match formula {
            Formula::False => self.text.push_str("False"),
            Formula::Atom(predicate, arguments) => self.atom(predicate, arguments.get()),
            Formula::Not(a) => self.behind("~", a.get(), NOT),
            Formula::And(a, b) => {
                self.formula(a.get(), AND + 1)?;
                self.behind(" & ", b.get(), AND)
            }
            Formula::Or(a, b) => {
                self.formula(a.get(), OR + 1)?;
                self.behind(" | ", b.get(), OR)
            }
            Formula::Implies(a, b) => {
                self.formula(a.get(), IMPLIES + 1)?;
                self.behind(" --> ", b.get(), IMPLIES)
            }
            Formula::All(name, body) => self.quantified("ALL ", name, body.get()),
            Formula::Exists(name, body) => self.quantified("EX ", name, body.get()),
        }
    }

    /// Adds the sign, and behind it the formula in a place for this priority and higher ones.
    #[cycle(formula)]
    fn behind(&mut self, sign: &str, formula: &Formula, place: usize) -> Result<(), AllocError>
        ensures text { OnOk result (Adds (string_bytes self.old.text ++ sign.now)
            (string_bytes self.new.text) (Prints place self.old.names.items formula.now)) }
        ensures names { OnOk result (self.new.names.items ≡ self.old.names.items) }
    {
        self.text.push_str(sign)?;
        self.formula(formula, place)
    }

    /// Adds the quantifier's word, and behind it what it binds.
    #[cycle(formula)]
    fn quantified(&mut self, word: &str, name: &Name, body: &Formula) -> Result<(), AllocError>
        ensures text { OnOk result (Adds (string_bytes self.old.text ++ word.now)
            (string_bytes self.new.text) (PrintsBody self.old.names.items name.now body.now)) }
        ensures names { OnOk result (self.new.names.items ≡ self.old.names.items) }
    {
        self.text.push_str(word)?;
        self.body(name, body)
    }

    /// Adds the name that the quantifier binds, the dot and the body.
    #[cycle(formula)]
    fn body(&mut self, name: &Name, body: &Formula) -> Result<(), AllocError>
        ensures text { OnOk result (Adds (string_bytes self.old.text) (string_bytes self.new.text)
            (PrintsBody self.old.names.items name.now body.now)) }
        ensures names { OnOk result (self.new.names.items ≡ self.old.names.items) }
    {
        let name = primed(self.alloc, name, &self.names, body)?;
        self.text.push_str(name.as_str())?;
        self.text.push_str(". ")?;
        self.names.push_front(name)?;
        self.formula(body, QUANTIFIER)?;
        let _outer = self.names.pop_front();
        Ok(())
    }
}

/// The text of the formula, with the fewest parentheses. A bound name has `'` after it where it
/// would capture a name; a place that nothing binds has no text. An error says that there was no
/// memory.
pub fn print(alloc: Global, formula: &Formula) -> Result<String, AllocError>
    ensures { IfOk result (λ text. Prints 10 [] formula.now (string_bytes text)) }
{
    let mut printer = Printer {
        alloc,
        text: String::new(alloc),
        names: VecDeque::new(alloc),
    };
    printer.formula(formula, QUANTIFIER)?;
    Ok(printer.text)
}

/// The text of the term; a place in it that is bound has no text. An error says that there was no
/// memory.
pub fn print_term(alloc: Global, term: &Argument) -> Result<String, AllocError>
    ensures { IfOk result (λ text. string_bytes text ≡ argument_text [] term.now) }
{
    let mut text = String::new(alloc);
    write_argument(&mut text, &VecDeque::new(alloc), term)?;
    Ok(text)
}

/// The name that a quantifier binds and its body, as they are printed.
#[derive(Debug, Drop)]
pub struct BodyPrint {
    pub name: Name,
    pub body: String,
}

/// What the print of a quantifier shows after its word: its name, with `'` after it where it would
/// capture a name of the body, and the body. An error says that there was no memory.
pub fn print_body(alloc: Global, name: &Name, body: &Formula) -> Result<BodyPrint, AllocError>
    ensures name { IfOk result (λ print. IsPrimed [] name.now (meaning body.now) print.name) }
    ensures body { IfOk result (λ print.
        Prints 10 (print.name ∷ []) body.now (string_bytes print.body)) }
{
    let mut names = VecDeque::new(alloc);
    let printed = primed(alloc, name, &names, body)?;
    names.push_front(printed.copy(alloc)?)?;
    let mut printer = Printer {
        alloc,
        text: String::new(alloc),
        names,
    };
    printer.formula(body, QUANTIFIER)?;
    Ok(BodyPrint {
        name: printed,
        body: printer.text,
    })
}
