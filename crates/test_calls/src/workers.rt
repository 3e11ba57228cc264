//! Workers over a board of tasks, in threads.
ghost use Rattle.std.specs.Prelude.{◌≡◌, ◌+◌, ◌<◌, ◌^◌, [], vec_len, IfOk};
ghost use Rattle.hist_lock.specs.Callers.{first_view};
ghost use Rattle.hist_lock.specs.Known.{IsSameCaller};
ghost use Rattle.hist_lock.specs.Passes.{view, IsPassOf};
ghost use Rattle.worker_loop.specs.Crew.{AreWorkers};

mod board;
mod hands;
mod pen;
mod writing;

use board::{Board, Count, End, Tally, Task};
use hands::Hands;
use hist_lock::{Pass, Role, Shared};
use pide_base::{ExecId, Flag, Gate, Part, PartKind, Point};
use pide_io::{HoldGate, LetGo, NoGate};
use std::alloc::{AllocError, AllocFailed, Global};
use std::sync::Wait;
use std::sync::atomic::{AtomicBool, AtomicU64, Ordering};
use std::test::Fail;
use std::thread;
use std::thread::{Threads, join};
use worker_loop::{Shift, run_workers};

/// The most looks of a gate.
const LOOKS: u64 = 10_000_000;

/// Holds the first worker whose job asks whether to stop until another has come to six points after
/// that.
#[derive(Drop)]
struct SixPoints {
    /// The worker that is held, one more than its number.
    held: AtomicU64,
    points: AtomicU64,
    by_limit: AtomicBool,
}

impl SixPoints {
    fn hold(&self) {
        for _ in 0..LOOKS {
            if self.points.load(Ordering::SeqCst) >= 6 {
                return;
            }
            thread::yield_now();
        }
        self.by_limit.store(true, Ordering::SeqCst);
    }
}

impl Gate for SixPoints {
    fn at(&self, worker: u32, point: Point) {
        let me = u64::from(worker) + 1;
        let held = self.held.load(Ordering::SeqCst);
        if held != 0 && held != me {
            self.points.fetch_add(1, Ordering::SeqCst);
        }
        if !matches!(point, Point::Asked(_)) {
            return;
        }
        if self
            .held
            .compare_exchange(0, me, Ordering::SeqCst, Ordering::SeqCst)
            .is_ok()
        {
            self.hold();
        }
    }
}

fn part(number: u64) -> Option<Part> {
    Some(Part {
        exec: ExecId::new(number)?,
        kind: PartKind::Eval,
    })
}

fn task(alloc: Global, part: Part, is_stopped: bool) -> Result<Task, AllocError> {
    let flag = Flag::new(alloc)?;
    if is_stopped {
        flag.set();
    }
    Ok(Task { part, flag })
}

fn push_task(
    alloc: Global,
    open: &mut Vec<Task>,
    number: u64,
    is_stopped: bool,
) -> Result<(), AllocError> {
    if let Some(part) = part(number) {
        open.push(task(alloc, part, is_stopped)?)?;
    }
    Ok(())
}

// A board of so many tasks, with the executions 1, 2 and so on. Those after `wanted` are to be
// stopped.
fn board_of(alloc: Global, tasks: u64, wanted: u64) -> Result<Board, AllocError>
    ensures { IfOk result (λ b. b.marks.items ≡ []) }
{
    let mut open = Vec::new(alloc);
    for number in 1..=tasks {
        push_task(alloc, &mut open, number, wanted < number)?;
    }
    Ok(Board {
        marks: Vec::new(alloc),
        open,
        sent: 0,
    })
}

fn opened(
    alloc: Global,
    tasks: u64,
    wanted: u64,
) -> Result<(Shared<Board>, Pass<Board>), AllocError>
    ensures { IfOk result (λ r. IsPassOf r.0 r.1 × (view r.1 ≡ first_view [])) }
{
    match Shared::new(alloc, board_of(alloc, tasks, wanted)?) {
        Ok(both) => Ok(both),
        Err(_) => Err(AllocError),
    }
}

// Adds the pass of the next worker.
fn add_pass(
    lock: &Shared<Board>,
    first: &mut Pass<Board>,
    passes: &mut Vec<Pass<Board>>,
) -> Result<(), AllocError>
    requires own { IsPassOf lock.now first.old }
    requires first { ((view first.old).caller ≡ 0) × ((view first.old).made ≡ vec_len passes.old) }
    requires few { vec_len passes.old + 1 < 2 ^ 32 }
    requires workers { AreWorkers (λ m. m.what) lock.now 1 passes.old.items }
    ensures own { IsPassOf lock.now first.new }
    ensures first { ((view first.new).caller ≡ 0)
        × IfOk result (λ _. (view first.new).made ≡ vec_len passes.new) }
    ensures workers { IfOk result (λ _. AreWorkers (λ m. m.what) lock.now 1 passes.new.items) }
    ensures count { IfOk result (λ _. vec_len passes.new ≡ vec_len passes.old + 1) }
{
    passes.push(lock.split(first, Role::Worker))?;
    Ok(())
}

// Ends the work once all tasks are done.
fn end<R: Wait>(rt: &R, lock: &Shared<Board>, first: Pass<Board>, tasks: usize) -> Pass<Board>
    requires own { IsPassOf lock.now first }
    requires first { (view first).caller ≡ 0 }
    ensures own { IsPassOf lock.now result }
    ensures same { IsSameCaller (view first) (view result) }
{
    let mut first = first;
    'ending: for _ in rt.forever() {
        if lock.turn(rt, &mut first, End { by: 0, tasks }).is_some() {
            return first;
        }
        lock.wait_change(rt, &mut first);
    }
    unreachable!()
}

// So many workers work through so many tasks, each in a thread of its own, until those up to
// `wanted` are finished: what was made of the tasks.
fn work_through<R: Threads + Wait + Sync, G: Gate + Sync>(
    rt: &R,
    alloc: Global,
    tasks: u64,
    wanted: u64,
    workers: u32,
    gate: &G,
) -> Result<Tally, AllocError>
    requires { workers < 17 }
{
    let (lock, mut first) = opened(alloc, tasks, wanted)?;
    let mut passes = Vec::new(alloc);
    'splitting: for done in 0..workers {
        add_pass(&lock, &mut first, &mut passes)?;
    }
    let shared = &lock;
    let (_, mut first) = join(
        rt,
        move || -> Result<Vec<Shift<Board>>, AllocFailed<Vec<Pass<Board>>>>
            requires few { vec_len passes < 2 ^ 32 }
            requires workers { AreWorkers (λ m. m.what) shared.now 1 passes.items }
        { run_workers(rt, alloc, &Hands, shared, passes, gate) },
        move || -> Pass<Board>
            requires own { IsPassOf shared.now first }
            requires first { (view first).caller ≡ 0 }
            ensures own { IsPassOf shared.entry.now result }
        { end(rt, shared, first, wanted as usize) },
    );
    Ok(lock.turn(rt, &mut first, Count))
}

// All of so many tasks are finished.
fn all_of(tasks: usize) -> Tally {
    Tally {
        claimed: tasks,
        finished: tasks,
        dropped: 0,
    }
}

#[test]
fn two_workers_finish_each_task_once(rt: HostRuntime) -> Result<(), Fail> {
    let tally = work_through(&rt, rt.alloc(), 100, 100, 2, &NoGate)?;
    assert!(rt; tally == all_of(100));
    Ok(())
}

#[test]
fn four_workers_finish_each_task_once(rt: HostRuntime) -> Result<(), Fail> {
    let tally = work_through(&rt, rt.alloc(), 100, 100, 4, &NoGate)?;
    assert!(rt; tally == all_of(100));
    Ok(())
}

#[test]
fn a_held_worker_is_let_go_by_another(rt: HostRuntime) -> Result<(), Fail> {
    let gate = HoldGate::new(1, LOOKS);
    let tally = work_through(&rt, rt.alloc(), 3, 3, 2, &gate)?;
    assert!(rt; tally == all_of(3));
    assert!(rt; gate.let_go() == LetGo::ByOther);
    Ok(())
}

#[test]
fn jobs_run_while_another_is_held(rt: HostRuntime) -> Result<(), Fail> {
    let gate = SixPoints {
        held: AtomicU64::new(0),
        points: AtomicU64::new(0),
        by_limit: AtomicBool::new(false),
    };
    let tally = work_through(&rt, rt.alloc(), 4, 4, 2, &gate)?;
    assert!(rt; tally == all_of(4));
    assert!(rt; !gate.by_limit.load(Ordering::SeqCst));
    Ok(())
}

#[test]
fn a_gate_on_one_thread_lets_go_by_its_limit(rt: HostRuntime) -> Result<(), Fail> {
    let part = part(1).ok_or("an id")?;
    let gate = HoldGate::new(1, 10);
    assert!(rt; gate.let_go() == LetGo::NotHeld);
    gate.at(1, Point::Claimed(part));
    assert!(rt; gate.let_go() == LetGo::ByLimit);
    Ok(())
}

// The worker claims the last tasks first.
#[test]
fn stopped_jobs_are_dropped(rt: HostRuntime) -> Result<(), Fail> {
    let tally = work_through(&rt, rt.alloc(), 5, 3, 1, &NoGate)?;
    let wanted = Tally {
        claimed: 5,
        finished: 3,
        dropped: 2,
    };
    assert!(rt; tally == wanted);
    Ok(())
}
