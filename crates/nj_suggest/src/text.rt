//! Proof terms written out.
ghost use Rattle.std.specs.Prelude.{◌≡◌, ◌∷◌, [], ◌++◌, IfOk, OnOk, codes, string_bytes};
ghost use Rattle.nj_kernel.specs.RuleNames.{rule_name};
ghost use Rattle.nj_syntax.specs.ArgumentText.{argument_text};
ghost use Rattle.proof_terms.specs.declared.term.Term.{out-Term};
ghost use Rattle.suggest_rules.specs.TermText.{quoted, formula, ruled, term_text, by_text};
ghost use Rattle.nj_suggest.specs.Forms.{IsEliminating, IsInstancing};

use nj_formula::{Formula, Name, ObjTerm};
use nj_kernel::Rule;
use nj_syntax::{formula_text, print_term as print_object};
use proof_terms::Term;
use std::alloc::{AllocError, Global};

/// Adds `(` and the rule's name.
fn add_rule(text: &mut String, rule: Rule) -> Result<(), AllocError>
    ensures { OnOk result (string_bytes text.new
        ≡ string_bytes text.old ++ (codes "(" ++ rule_name rule)) }
{
    text.push_str("(")?;
    text.push_str(rule.name())
}

/// Adds `(`, the rule's name, and a formula.
fn add_quoting(alloc: Global, text: &mut String, rule: Rule, a: &Formula) -> Result<(), AllocError>
    ensures { OnOk result (string_bytes text.new ≡ string_bytes text.old
        ++ ((codes "(" ++ rule_name rule) ++ 32 ∷ formula a.now)) }
{
    add_rule(text, rule)?;
    add_formula(alloc, text, a)
}

/// Adds `(`, the rule's name, and a name.
fn add_naming(text: &mut String, rule: Rule, name: &Name) -> Result<(), AllocError>
    ensures { OnOk result (string_bytes text.new ≡ string_bytes text.old
        ++ ((codes "(" ++ rule_name rule) ++ 32 ∷ name.now)) }
{
    add_rule(text, rule)?;
    add_name(text, name)
}

/// Adds a name after a space.
fn add_name(text: &mut String, name: &Name) -> Result<(), AllocError>
    ensures { OnOk result (string_bytes text.new ≡ string_bytes text.old ++ 32 ∷ name.now) }
{
    text.push_str(" ")?;
    text.push_str(name.as_str())
}

/// Adds a text in quotes after a space.
fn add_quoted(text: &mut String, inner: &str) -> Result<(), AllocError>
    ensures { OnOk result (string_bytes text.new ≡ string_bytes text.old ++ 32 ∷ quoted inner.now) }
{
    text.push_str(" \"")?;
    text.push_str(inner)?;
    text.push_str("\"")
}

/// Adds a formula in quotes after a space.
fn add_formula(alloc: Global, text: &mut String, a: &Formula) -> Result<(), AllocError>
    ensures { OnOk result (string_bytes text.new ≡ string_bytes text.old ++ 32 ∷ formula a.now) }
{
    let inner = formula_text(alloc, a)?;
    add_quoted(text, inner.as_str())
}

/// Adds a term of the object language in quotes after a space.
fn add_object(alloc: Global, text: &mut String, s: &ObjTerm) -> Result<(), AllocError>
    ensures { OnOk result (string_bytes text.new
        ≡ string_bytes text.old ++ 32 ∷ quoted (argument_text [] s.now)) }
{
    let inner = print_object(alloc, s.argument())?;
    add_quoted(text, inner.as_str())
}

/// Adds a part of a rule after a space.
#[cycle(add_term)]
fn add_part(alloc: Global, text: &mut String, part: &Term) -> Result<(), AllocError>
    ensures { OnOk result (string_bytes text.new ≡ string_bytes text.old
        ++ 32 ∷ term_text part.now) }
{
    text.push_str(" ")?;
    add_term(alloc, text, part)
}

/// Adds the last part of a rule after a space, and `)`.
#[cycle(add_term)]
fn add_last(alloc: Global, text: &mut String, part: &Term) -> Result<(), AllocError>
    ensures { OnOk result (string_bytes text.new ≡ string_bytes text.old
        ++ 32 ∷ (term_text part.now ++ codes ")")) }
{
    text.push_str(" ")?;
    add_term(alloc, text, part)?;
    text.push_str(")")
}

/// Adds a rule of one part.
#[cycle(add_term)]
fn add_one(alloc: Global, text: &mut String, rule: Rule, t: &Term) -> Result<(), AllocError>
    ensures { OnOk result (string_bytes text.new
        ≡ string_bytes text.old ++ ruled rule (term_text t.now ∷ [])) }
{
    add_rule(text, rule)?;
    add_last(alloc, text, t)
}

/// Adds a rule of a name and a part.
#[cycle(add_term)]
fn add_under(
    alloc: Global,
    text: &mut String,
    rule: Rule,
    x: &Name,
    t: &Term,
) -> Result<(), AllocError>
    ensures { OnOk result (string_bytes text.new
        ≡ string_bytes text.old ++ ruled rule (x.now ∷ term_text t.now ∷ [])) }
{
    add_naming(text, rule, x)?;
    add_last(alloc, text, t)
}

/// Adds a rule of a part and a formula, which stands before it.
#[cycle(add_term)]
fn add_by(
    alloc: Global,
    text: &mut String,
    rule: Rule,
    t: &Term,
    a: &Formula,
) -> Result<(), AllocError>
    ensures { OnOk result (string_bytes text.new
        ≡ string_bytes text.old ++ ruled rule (formula a.now ∷ term_text t.now ∷ [])) }
{
    add_quoting(alloc, text, rule, a)?;
    add_last(alloc, text, t)
}

/// Adds a name and a part, each after a space.
#[cycle(add_term)]
fn add_case(alloc: Global, text: &mut String, x: &Name, t: &Term) -> Result<(), AllocError>
    ensures { OnOk result (string_bytes text.new ≡ string_bytes text.old
        ++ (32 ∷ x.now ++ 32 ∷ term_text t.now)) }
{
    add_name(text, x)?;
    add_part(alloc, text, t)
}

/// Adds a name and the last part of a rule, each after a space, and `)`.
#[cycle(add_term)]
fn add_last_case(alloc: Global, text: &mut String, x: &Name, t: &Term) -> Result<(), AllocError>
    ensures { OnOk result (string_bytes text.new ≡ string_bytes text.old
        ++ (32 ∷ x.now ++ 32 ∷ (term_text t.now ++ codes ")"))) }
{
    add_name(text, x)?;
    add_last(alloc, text, t)
}

/// Adds the text of a term.
#[cycle(add_term)]
fn add_term(alloc: Global, text: &mut String, term: &Term) -> Result<(), AllocError>
    ensures { OnOk result (string_bytes text.new ≡ string_bytes text.old ++ term_text term.now) }
{
    match term {
        Term::Fact(cite) => text.push_str(cite.name.as_str()),
        Term::ConjI(t, u) => {
            add_rule(text, Rule::ConjI)?;
            add_part(alloc, text, t.get())?;
            add_last(alloc, text, u.get())
        }
        Term::ConjE1(b, t) => add_by(alloc, text, Rule::ConjE1, t.get(), b.get()),
        Term::ConjE2(a, t) => add_by(alloc, text, Rule::ConjE2, t.get(), a.get()),
        Term::DisjI1(t) => add_one(alloc, text, Rule::DisjI1, t.get()),
        Term::DisjI2(t) => add_one(alloc, text, Rule::DisjI2, t.get()),
        Term::ImpI(x, t) => add_under(alloc, text, Rule::ImpI, x, t.get()),
        Term::NotI(x, t) => add_under(alloc, text, Rule::NotI, x, t.get()),
        Term::FalseE(t) => add_one(alloc, text, Rule::FalseE, t.get()),
        Term::AllI(x, t) => add_under(alloc, text, Rule::AllI, x, t.get()),
        _ => add_eliminating(alloc, text, term),
    }
}

/// The same where the rule eliminates and has several parts, or for what comes below.
#[cycle(add_term)]
fn add_eliminating(alloc: Global, text: &mut String, term: &Term) -> Result<(), AllocError>
    requires { IsEliminating (out-Term term.now) }
    ensures { OnOk result (string_bytes text.new ≡ string_bytes text.old ++ term_text term.now) }
{
    match term {
        Term::DisjE(a, b, t, x, u, y, v) => {
            add_quoting(alloc, text, Rule::DisjE, a.get())?;
            add_formula(alloc, text, b.get())?;
            add_part(alloc, text, t.get())?;
            add_case(alloc, text, x, u.get())?;
            add_last_case(alloc, text, y, v.get())
        }
        Term::ImpE(a, t, u) => {
            add_quoting(alloc, text, Rule::ImpE, a.get())?;
            add_part(alloc, text, t.get())?;
            add_last(alloc, text, u.get())
        }
        Term::NotE(a, t, u) => {
            add_quoting(alloc, text, Rule::NotE, a.get())?;
            add_part(alloc, text, t.get())?;
            add_last(alloc, text, u.get())
        }
        _ => add_instancing(alloc, text, term),
    }
}

/// The same where the rule is about an instance of a quantifier's body.
#[cycle(add_term)]
fn add_instancing(alloc: Global, text: &mut String, term: &Term) -> Result<(), AllocError>
    requires { IsInstancing (out-Term term.now) }
    ensures { OnOk result (string_bytes text.new ≡ string_bytes text.old ++ term_text term.now) }
{
    match term {
        Term::AllE(q, s, t) => {
            add_quoting(alloc, text, Rule::AllE, q.get())?;
            add_object(alloc, text, s.get())?;
            add_last(alloc, text, t.get())
        }
        Term::ExI(s, t) => {
            add_rule(text, Rule::ExI)?;
            add_object(alloc, text, s.get())?;
            add_last(alloc, text, t.get())
        }
        Term::ExE(q, x, h, t, u) => {
            add_quoting(alloc, text, Rule::ExE, q.get())?;
            add_name(text, x)?;
            add_case(alloc, text, h, t.get())?;
            add_last(alloc, text, u.get())
        }
        _ => unreachable!(),
    }
}

/// The text of the term, as it may stand behind `by`. An error says that there was no memory.
pub fn print_term(alloc: Global, term: &Term) -> Result<String, AllocError>
    ensures { IfOk result (λ text. string_bytes text ≡ term_text term.now) }
{
    let mut text = String::new(alloc);
    add_term(alloc, &mut text, term)?;
    Ok(text)
}

/// The command that proves a goal by the term. An error says that there was no memory.
pub fn by_text(alloc: Global, term: &Term) -> Result<String, AllocError>
    ensures { IfOk result (λ text. string_bytes text ≡ by_text term.now) }
{
    let mut text = String::from_str(alloc, "by ")?;
    add_term(alloc, &mut text, term)?;
    Ok(text)
}
