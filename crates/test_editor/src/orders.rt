//! All orders in which two workers take and finish the parts of a small document of the nodes `A`
//! and `B`, each from its beginning; in between an execution is cancelled, or a version made.
use crate::asking::Asked;
use crate::running::Run;
use crate::telling::Shown;
use pide_base::{ExecId, VersionId};
use script_lines::Fault;
use std::alloc::{AllocError, Global};

/// What comes once between the steps of the workers.
#[derive(Drop)]
pub(crate) enum Between {
    Nothing,
    Cancel(ExecId),
    /// Version 2 is made.
    Update,
}

/// The update that makes the first version, what comes in between, and the update that makes the
/// second version where that is one.
#[derive(Drop)]
pub(crate) struct Orders<'a> {
    pub(crate) opening: &'a Asked,
    pub(crate) between: Between,
    pub(crate) second: &'a Asked,
}

/// The number of the step that comes in between; those of the workers' steps are below it.
const IN_BETWEEN: usize = 4;

/// The longest order has fewer steps.
const MOST_STEPS: usize = 64;

fn version(number: u64) -> Result<VersionId, Fault> {
    VersionId::new(number).ok_or(Fault::Line)
}

/// Whether the step in between is done.
fn is_between_done(alloc: Global, run: &mut Run, orders: &Orders<'_>) -> Result<bool, Fault> {
    match &orders.between {
        Between::Nothing => Ok(false),
        Between::Cancel(exec) => {
            run.cancels(*exec);
            Ok(true)
        }
        Between::Update => {
            drop(run.make(alloc, version(2)?, orders.second)?);
            Ok(true)
        }
    }
}

/// Does a step, told by its number: one of two workers takes a part, or finishes what it holds, or
/// the step in between is done. False where that can't be.
fn is_done(
    alloc: Global,
    run: &mut Run,
    orders: &Orders<'_>,
    number: usize,
) -> Result<bool, Fault> {
    match number {
        0 => run.claims(alloc, 1),
        1 => run.claims(alloc, 2),
        2 => run.finishes(alloc, 1),
        3 => run.finishes(alloc, 2),
        _ => is_between_done(alloc, run, orders),
    }
}

/// Does the first step that can be done, from this number to the last one.
fn next(
    alloc: Global,
    run: &mut Run,
    orders: &Orders<'_>,
    from: usize,
    last: usize,
) -> Result<Option<usize>, Fault> {
    for number in from..=last {
        if is_done(alloc, run, orders, number)? {
            return Ok(Some(number));
        }
    }
    Ok(None)
}

/// Sets a number at a place, or at the end.
fn put(path: &mut Vec<usize>, place: usize, number: usize) -> Result<(), AllocError> {
    match path.get_mut(place) {
        Some(there) => *there = number,
        None => path.push(number)?,
    }
    Ok(())
}

/// Follows a path, but for its last step, in place of which the first one is done that has its
/// number or a greater one; and goes on by the first steps that can be done. False where the last
/// step has no such one: then the path ends before it.
fn goes_on(
    alloc: Global,
    run: &mut Run,
    orders: &Orders<'_>,
    path: &mut Vec<usize>,
) -> Result<bool, Fault> {
    let mut last = IN_BETWEEN;
    for place in 0..MOST_STEPS {
        let from = path.get(place).copied().unwrap_or(0);
        let Some(number) = next(alloc, run, orders, from, last)? else {
            path.truncate(place);
            return Ok(from == 0);
        };
        put(path, place, number)?;
        if number == IN_BETWEEN {
            last = IN_BETWEEN - 1;
        }
    }
    Err(Fault::Line)
}

/// What was counted of orders.
#[derive(Clone, Copy)]
struct Counts {
    orders: u64,
    /// At the end of which nothing is stuck.
    whole: u64,
    /// At the end of which a version is not settled, or something is shown of it that a check from
    /// nothing doesn't report, or something else is missing than what is stuck.
    wrong: u64,
}

/// Whether both nodes are shown whole.
fn are_whole(one: Shown, other: Shown) -> bool {
    matches!((one, other), (Shown::All, Shown::All))
}

/// Whether something is shown that a check from nothing doesn't report.
fn are_other(one: Shown, other: Shown) -> bool {
    matches!(one, Shown::Other) || matches!(other, Shown::Other)
}

/// Whether the version is settled, and all is shown of it that a check from nothing reports but for
/// what is stuck; and whether nothing is stuck.
fn judged(alloc: Global, run: &Run, version: VersionId) -> Result<(bool, bool), Fault> {
    let mut pending = Vec::new(alloc);
    let one = run.look(alloc, version, "A", &mut pending)?;
    let other = run.look(alloc, version, "B", &mut pending)?;
    let Some(stuck) = run.stuck(version)? else {
        return Ok((false, false));
    };
    let is_whole = are_whole(one, other);
    let is_right = !are_other(one, other) && pending == stuck && is_whole == stuck.is_empty();
    Ok((is_right, is_whole))
}

/// How many versions there are at the end.
fn count_of(between: &Between) -> u64 {
    match between {
        Between::Update => 2,
        Between::Nothing | Between::Cancel(_) => 1,
    }
}

/// Counts the order that has come to its end.
fn count(alloc: Global, run: &Run, versions: u64, counts: &mut Counts) -> Result<(), Fault> {
    let mut all_right = true;
    let mut all_whole = true;
    for number in 1..=versions {
        let (is_right, is_whole) = judged(alloc, run, version(number)?)?;
        all_right = all_right && is_right;
        all_whole = all_whole && is_whole;
    }
    counts.orders = counts.orders.saturating_add(1);
    counts.whole = counts.whole.saturating_add(u64::from(all_whole));
    counts.wrong = counts.wrong.saturating_add(u64::from(!all_right));
    Ok(())
}

/// Counts the order of the path from the beginning, where it is one.
fn count_next(
    alloc: Global,
    orders: &Orders<'_>,
    path: &mut Vec<usize>,
    counts: &mut Counts,
) -> Result<(), Fault> {
    let mut run = Run::new(alloc)?;
    let counted = count_in(alloc, &mut run, orders, path, counts);
    drop(run);
    counted
}

/// The same, of a document in which nothing has happened.
fn count_in(
    alloc: Global,
    run: &mut Run,
    orders: &Orders<'_>,
    path: &mut Vec<usize>,
    counts: &mut Counts,
) -> Result<(), Fault> {
    drop(run.make(alloc, version(1)?, orders.opening)?);
    if goes_on(alloc, run, orders, path)? {
        count(alloc, run, count_of(&orders.between), counts)?;
    }
    Ok(())
}

/// Counts all orders: the next path after each differs from it at the last place where it can.
fn counted(alloc: Global, orders: &Orders<'_>, counts: &mut Counts) -> Result<(), Fault> {
    let mut path = Vec::new(alloc);
    for _ in 0..1_000_000 {
        count_next(alloc, orders, &mut path, counts)?;
        let Some(last) = path.pop() else {
            return Ok(());
        };
        path.push(last.saturating_add(1))?;
    }
    Err(Fault::Line)
}

/// How many orders there are of a document that opens so, how many show all, and how many show
/// something wrong.
pub(crate) fn put_orders(
    alloc: Global,
    orders: &Orders<'_>,
    out: &mut String,
) -> Result<(), Fault> {
    let mut counts = Counts {
        orders: 0,
        whole: 0,
        wrong: 0,
    };
    counted(alloc, orders, &mut counts)?;
    let Counts {
        orders,
        whole,
        wrong,
    } = counts;
    Ok(write!(out, "orders {orders}, whole {whole}, wrong {wrong}")?)
}
