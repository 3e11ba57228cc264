//! What is reported of the proof behind a command that forks.
ghost use Rattle.std.specs.Prelude.{◌≡◌, ◌∷◌, [], ℕ, IfOk, drop};
ghost use Rattle.pide_base.specs.Questions.{risen_by};
ghost use Rattle.report_markup.specs.declared.kind.ReportKind.TheVariants as kinds;
ghost use Rattle.report_markup.specs.Sorting.{ordered_reports};
ghost use Rattle.proof_terms.specs.Marks.{marks};
ghost use Rattle.proof_terms.specs.Reading.{proof_of};
ghost use Rattle.proof_terms.specs.Texts.{fault_text};
ghost use Rattle.proof_checks.specs.Checks.{checked};
ghost use Rattle.proof_checks.specs.Questions.{rules_judged};
ghost use Rattle.language.specs.Answers.{IsAnswer};
ghost use Rattle.language.specs.Questions.{AsksSo};
ghost use Rattle.isar_rules.specs.Reports.{report, whole, error_report};
ghost use Rattle.isar_rules.specs.Cites.{refs};
ghost use Rattle.isar_rules.specs.Forks.{verdict, judged_reports, forked_at};
ghost use Rattle.fork_steps.specs.Questions.{questions_of, questions_at};

use crate::citing::add_cites;
use command_steps::{error_report, proved_report};
use isar_rules::Place;
use language::Answer;
use nj_formula::Formula;
use outer_syntax::Token;
use pide_base::Stop;
use proof_checks::{Checked, check};
use proof_terms::{Term, TermError, TermFault, one_answer, read};
use report_markup::{Report, sorted};
use sqlite_items::Items;
use std::alloc::{AllocError, Global};
use theory_ctx::Scope;

/// What was made, as the answer of a job that was not stopped.
pub fn given<T>(made: Result<T, AllocError>) -> Answer<T>
    ensures answer { (value : T) (before now : ℕ) → IfOk made (λ x. x ≡ value)
        → IsAnswer result value before now }
    ensures asks { (questions before now : ℕ) → now ≡ risen_by questions before
        → AsksSo result questions before now }
{
    match made {
        Ok(made) => Answer::Given(made),
        Err(_) => Answer::NoMemory,
    }
}

/// What is reported of a proof that was checked: that it was, and what its names mean.
fn accepted(
    alloc: Global,
    source: &[char],
    scope: &Scope,
    term: &Term,
) -> Result<Items<Report>, AllocError>
    ensures { IfOk result (λ reports. reports ≡ ordered_reports
        (report kinds.Proved (whole source.now) [] [] ∷ refs scope.now term.now)) }
{
    let mut reports = Items::new(alloc);
    reports.push(proved_report(alloc, source))?;
    add_cites(alloc, scope, term, &mut reports)?;
    sorted(alloc, reports)
}

/// The report of a fault.
fn fault_report(alloc: Global, source: &[char], fault: &TermFault) -> Result<Report, AllocError>
    ensures { IfOk result (λ report. report ≡ error_report source.now (fault_text fault.now)) }
{
    let text = format!(in alloc; "{fault}")?;
    error_report(alloc, source, text)
}

/// What is reported of a fault.
fn faulty(alloc: Global, source: &[char], fault: TermFault) -> Result<Items<Report>, AllocError>
    ensures { IfOk result (λ reports. reports
        ≡ error_report source.now (fault_text fault) ∷ []) }
{
    let report = fault_report(alloc, source, &fault);
    drop(fault);
    let mut reports = Items::new(alloc);
    reports.push(report?)?;
    Ok(reports)
}

/// What is reported of a term, as a proof of the goal.
fn checked<P: Stop>(
    alloc: Global,
    source: &[char],
    goal: &Formula,
    scope: &Scope,
    term: &Term,
    stop: &mut P,
) -> Answer<Items<Report>>
    ensures answer { IsAnswer result (verdict source.now (refs scope.now term.now)
        (checked term.now goal.now scope.now)) (P.yeses stop.old) (P.yeses stop.new) }
    ensures asks { AsksSo result (rules_judged term.now goal.now scope.now)
        (P.questions stop.old) (P.questions stop.new) }
{
    match check(alloc, term, goal, scope, stop) {
        Checked::Proved(theorem) => {
            drop(theorem);
            given(accepted(alloc, source, scope, term))
        }
        Checked::Wrong(fault) => given(faulty(alloc, source, fault)),
        Checked::Stopped => Answer::Stopped,
        Checked::NoMemory => Answer::NoMemory,
    }
}

/// What is reported of these tokens, as a proof of the goal.
fn judged<P: Stop>(
    alloc: Global,
    source: &[char],
    tokens: &[Token],
    goal: &Formula,
    scope: &Scope,
    stop: &mut P,
) -> Answer<Items<Report>>
    ensures answer { IsAnswer result (judged_reports source.now goal.now scope.now
        (proof_of (marks source.now tokens.now))) (P.yeses stop.old) (P.yeses stop.new) }
    ensures asks { AsksSo result
        (questions_of goal.now scope.now (proof_of (marks source.now tokens.now)))
        (P.questions stop.old) (P.questions stop.new) }
{
    one_answer();
    match read(alloc, source, tokens) {
        Ok(term) => {
            let answer = checked(alloc, source, goal, scope, &term, stop);
            drop(term);
            answer
        }
        Err(TermError::Fault(fault)) => given(faulty(alloc, source, fault)),
        Err(TermError::NoMemory) => Answer::NoMemory,
    }
}

/// The tokens behind the first.
fn behind_first(tokens: &[Token]) -> &[Token]
    ensures { result.now ≡ drop 1 tokens.now }
{
    match tokens {
        [] => tokens,
        [_, behind @ ..] => behind,
    }
}

/// What is reported of the tokens of a command at a place: nothing where no goal is open. `stop` is
/// asked once before each rule of the proof that is judged, and nowhere else.
pub fn forked_at<P: Stop>(
    alloc: Global,
    source: &[char],
    tokens: &[Token],
    place: &Place,
    stop: &mut P,
) -> Answer<Items<Report>>
    ensures answer { IsAnswer result (forked_at source.now tokens.now place.now)
        (P.yeses stop.old) (P.yeses stop.new) }
    ensures asks { AsksSo result (questions_at source.now tokens.now place.now)
        (P.questions stop.old) (P.questions stop.new) }
{
    let Place::Proof { theory, proof, .. } = place else {
        return Answer::Given(Items::new(alloc));
    };
    let Some(goal) = proof.goal() else {
        return Answer::Given(Items::new(alloc));
    };
    match proof.scope(alloc, theory.name.as_str(), &theory.facts) {
        Ok(scope) => {
            let answer = judged(alloc, source, behind_first(tokens), goal, &scope, stop);
            drop(scope);
            answer
        }
        Err(_) => Answer::NoMemory,
    }
}
