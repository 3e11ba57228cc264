//! Calls of the rules of `nj_kernel`. A number names a theorem, by how many were made before it.
use crate::logic::reading::known;
use nj_formula::{Formula, ObjTerm};
use nj_kernel::{
    RuleError, Thm, all_e, all_i, assume, conj_e1, conj_e2, conj_i, disj_e, disj_i1, disj_i2, ex_e,
    ex_i, false_e, imp_e, imp_i, not_e, not_i,
};
use script_lines::{Call, Fault, place};
use std::alloc::Global;

/// What a rule answers, where the line is a call of one.
type Called = Result<Result<Thm, RuleError>, Fault>;

/// What the call answers, where the theorems before it have been made.
pub(crate) fn called(alloc: Global, made: &[Thm], call: &Call<'_>) -> Called {
    match call.words {
        [one] => of_one(alloc, call.verb, made, one),
        [one, other] => of_two(alloc, call.verb, made, one, other),
        [one, other, third] => of_three(alloc, call.verb, made, one, other, third),
        _ => Err(Fault::Line),
    }
}

/// The theorem of this number.
fn at<'a>(made: &'a [Thm], number: &str) -> Result<&'a Thm, Fault> {
    match made.get(place(number)?) {
        Some(thm) => Ok(thm),
        None => Err(Fault::Line),
    }
}

/// What a rule answers that is called with a formula, or with a theorem.
fn of_one(alloc: Global, rule: &str, made: &[Thm], one: &str) -> Called {
    match rule {
        "assume" => assumed(alloc, one),
        "conjE1" => Ok(conj_e1(alloc, at(made, one)?)),
        "conjE2" => Ok(conj_e2(alloc, at(made, one)?)),
        _ => Err(Fault::Line),
    }
}

fn assumed(alloc: Global, text: &str) -> Called {
    let formula = known(alloc, text)?;
    Ok(Ok(assume(alloc, &formula)?))
}

/// What a rule answers that is called with two theorems, or with a theorem and something else.
fn of_two(alloc: Global, rule: &str, made: &[Thm], one: &str, other: &str) -> Called {
    match rule {
        "conjI" => Ok(conj_i(alloc, at(made, one)?, at(made, other)?)),
        "impE" => Ok(imp_e(alloc, at(made, one)?, at(made, other)?)),
        "notE" => Ok(not_e(alloc, at(made, one)?, at(made, other)?)),
        "allE" => instance(alloc, at(made, one)?, other),
        _ => beside(alloc, rule, at(made, one)?, other),
    }
}

fn instance(alloc: Global, thm: &Thm, name: &str) -> Called {
    let term = ObjTerm::name(alloc, name)?;
    Ok(all_e(alloc, thm, &term))
}

/// What a rule answers that is called with a theorem and a formula.
fn beside(alloc: Global, rule: &str, thm: &Thm, text: &str) -> Called {
    let formula = known(alloc, text)?;
    match rule {
        "disjI1" => Ok(disj_i1(alloc, thm, &formula)),
        "disjI2" => Ok(disj_i2(alloc, thm, &formula)),
        "impI" => Ok(imp_i(alloc, &formula, thm)),
        "notI" => Ok(not_i(alloc, &formula, thm)),
        "falseE" => Ok(false_e(alloc, thm, &formula)),
        _ => Err(Fault::Line),
    }
}

/// What a rule answers that is called with three theorems, with a name and two, or with a name, a
/// theorem and a formula.
fn of_three(
    alloc: Global,
    rule: &str,
    made: &[Thm],
    one: &str,
    other: &str,
    third: &str,
) -> Called {
    match rule {
        "disjE" => Ok(disj_e(alloc, at(made, one)?, at(made, other)?, at(made, third)?)),
        "exE" => Ok(ex_e(alloc, one, at(made, other)?, at(made, third)?)),
        _ => quantified(alloc, rule, one, at(made, other)?, third),
    }
}

/// What a rule answers that is called with a name, a theorem and a formula.
fn quantified(alloc: Global, rule: &str, name: &str, thm: &Thm, text: &str) -> Called {
    let formula = known(alloc, text)?;
    match rule {
        "allI" => Ok(all_i(alloc, name, thm, &formula)),
        "exI" => shown_by(alloc, name, thm, &formula),
        _ => Err(Fault::Line),
    }
}

/// What the rule of existence answers at the term that is a name.
fn shown_by(alloc: Global, name: &str, thm: &Thm, formula: &Formula) -> Called {
    let term = ObjTerm::name(alloc, name)?;
    Ok(ex_i(alloc, &term, thm, formula))
}
