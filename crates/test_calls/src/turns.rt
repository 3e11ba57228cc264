//! Turns at the lock, on one thread and in several (`hist_lock`).
ghost use Rattle.std.specs.Prelude.{◌≡◌, ℕ, ◌+◌, ◌<◌, ◌≤◌, ◌^◌, ◌-◌, [], IfOk};
ghost use Rattle.std.specs.Thread.{IsSync};
ghost use Rattle.hist_lock.specs.Known.{IsSameCaller};
ghost use Rattle.hist_lock.specs.Passes.{view, IsPassOf};
ghost use Rattle.hist_lock.specs.Callers.{HasJoinedUpTo, KeepsJoined, first_view};

mod book;

use book::{Book, IsAlone, Note, Read, Write};
use hist_lock::{Pass, Role, Shared};
use std::alloc::{AllocError, Global};
use std::process::Abort;
use std::sync::Wait;
use std::test::Fail;
use std::thread::{Threads, join};

fn new_book(alloc: Global) -> Result<(Shared<Book>, Pass<Book>), AllocError>
    ensures { IfOk result (λ r. IsPassOf r.0 r.1 × (view r.1 ≡ first_view [])) }
{
    let book = Book {
        notes: Vec::new(alloc),
    };
    match Shared::new(alloc, book) {
        Ok(both) => Ok(both),
        Err(_) => Err(AllocError),
    }
}

fn write<R: Wait>(
    rt: &R,
    lock: &Shared<Book>,
    pass: &mut Pass<Book>,
    by: u32,
    text: u64,
) -> Option<u64>
    requires own { IsPassOf lock.now pass.old }
    requires by { (view pass.old).caller ≡ by }
    ensures own { IsPassOf lock.now pass.new }
    ensures same { IsSameCaller (view pass.old) (view pass.new) }
{
    lock.turn(rt, pass, Write { by, text })
}

fn read<R: Wait>(
    rt: &R,
    lock: &Shared<Book>,
    pass: &mut Pass<Book>,
    alloc: Global,
) -> Result<Vec<Note>, AllocError>
    requires own { IsPassOf lock.now pass.old }
    ensures own { IsPassOf lock.now pass.new }
    ensures same { IsSameCaller (view pass.old) (view pass.new) }
{
    lock.turn(rt, pass, Read { alloc })
}

fn has_notes(rt: &impl Abort, seen: &[Note], wanted: &[Note]) {
    assert!(rt; seen == wanted);
}

const BOTH: &[Note] = &[
    Note {
        by: 0,
        number: 0,
        text: 7,
    },
    Note {
        by: 0,
        number: 1,
        text: 5,
    },
];

#[test]
fn a_look_sees_both_notes_in_order(rt: HostRuntime) -> Result<(), Fail> {
    let (lock, mut pass) = new_book(rt.alloc())?;
    let first = write(&rt, &lock, &mut pass, 0, 7);
    let second = write(&rt, &lock, &mut pass, 0, 5);
    let seen = read(&rt, &lock, &mut pass, rt.alloc());
    let book = lock.close(pass);
    assert!(rt; first == Some(0));
    assert!(rt; second == Some(1));
    has_notes(&rt, seen?.as_slice(), BOTH);
    has_notes(&rt, book.notes.as_slice(), BOTH);
    Ok(())
}

// Writes so many notes, with the texts 0, 1, 2 and so on.
fn work<R: Wait>(
    rt: &R,
    lock: &Shared<Book>,
    mut pass: Pass<Book>,
    by: u32,
    times: u64,
) -> Pass<Book>
    requires own { IsPassOf lock.now pass }
    requires by { (view pass).caller ≡ by }
    ensures own { IsPassOf lock.now result }
    ensures same { IsSameCaller (view pass) (view result) }
{
    for text in 0..times {
        write(rt, lock, &mut pass, by, text);
    }
    pass
}

// The first caller and `more` others work, each in a thread of its own.
fn crew<R: Threads + Wait + Sync>(
    rt: &R,
    lock: &Shared<Book>,
    mut first: Pass<Book>,
    made: u32,
    more: u32,
    times: u64,
) -> Pass<Book>
    requires own { IsPassOf lock.now first }
    requires first { ((view first).caller ≡ 0) × ((view first).made ≡ made) }
    requires room { made + more + 1 < 2 ^ 32 }
    ensures own { IsPassOf lock.now result }
    ensures first { ((view result).caller ≡ 0) × ((view result).made ≡ made + more) }
    ensures kept { KeepsJoined (view first) (view result) }
    ensures joined { HasJoinedUpTo made (made + more) (view result) }
{
    if more == 0 {
        return work(rt, lock, first, 0, times);
    }
    let by = made + 1;
    let next = lock.split(&mut first, Role::Worker);
    let (mut first, next) = join(
        rt,
        move || -> Pass<Book>
            requires sync { IsSync R.row }
            requires own { IsPassOf lock.now first }
            requires first { ((view first).caller ≡ 0) × ((view first).made ≡ by) }
            requires room { (0 < more) × (by + (more - 1) + 1 < 2 ^ 32) }
            ensures own { IsPassOf lock.entry.now result }
            ensures first { ((view result).caller ≡ 0) × ((view result).made ≡ by + (more - 1)) }
            ensures kept { KeepsJoined (view first) (view result) }
            ensures joined { HasJoinedUpTo by (by + (more - 1)) (view result) }
        { crew(rt, lock, first, by, more - 1, times) },
        move || -> Pass<Book>
            requires own { IsPassOf lock.now next }
            requires by { (view next).caller ≡ by }
            ensures own { IsPassOf lock.entry.now result }
            ensures same { IsSameCaller (view next) (view result) }
        { work(rt, lock, next, by, times) },
    );
    lock.join(&mut first, next);
    first
}

// The texts of one caller, in the order of the book.
fn texts_of(alloc: Global, notes: &[Note], by: u32) -> Result<Vec<u64>, AllocError> {
    let mut texts = Vec::new(alloc);
    for note in notes {
        if note.by == by {
            texts.push(note.text)?;
        }
    }
    Ok(texts)
}

// The texts 0, 1, 2 and so on, so many.
fn first_texts(alloc: Global, times: u64) -> Result<Vec<u64>, AllocError> {
    let mut texts = Vec::new(alloc);
    for text in 0..times {
        texts.push(text)?;
    }
    Ok(texts)
}

fn has_texts(
    rt: &impl Abort,
    alloc: Global,
    notes: &[Note],
    by: u32,
    wanted: &[u64],
) -> Result<(), Fail> {
    let texts = texts_of(alloc, notes, by)?;
    assert!(rt; texts.as_slice() == wanted, "caller {by}");
    Ok(())
}

fn all_have_texts(
    rt: &impl Abort,
    alloc: Global,
    notes: &[Note],
    others: u32,
    wanted: &[u64],
) -> Result<(), Fail> {
    for by in 0..others {
        has_texts(rt, alloc, notes, by, wanted)?;
    }
    has_texts(rt, alloc, notes, others, wanted)
}

// The book that the first caller and so many others wrote.
fn book_of<R: Threads + Wait + Sync>(
    rt: &R,
    alloc: Global,
    others: u32,
    times: u64,
) -> Result<Book, AllocError>
    requires { others + 1 < 2 ^ 32 }
{
    let (lock, first) = new_book(alloc)?;
    let first = crew(rt, &lock, first, 0, others, times);
    Ok(lock.close(first))
}

// Each caller's notes stand in the book once and in order, and the book has no others.
fn works_in_threads<R: Threads + Wait + Abort + Sync>(
    rt: &R,
    alloc: Global,
    others: u32,
    times: u64,
) -> Result<(), Fail>
    requires { others + 1 < 2 ^ 32 }
{
    let book = book_of(rt, alloc, others, times)?;
    let notes = book.notes.as_slice();
    let count = (u64::from(others) + 1).wrapping_mul(times);
    assert!(rt; notes.len() as u64 == count);
    let wanted = first_texts(alloc, times)?;
    all_have_texts(rt, alloc, notes, others, wanted.as_slice())
}

#[test]
fn two_threads_write_each_note_once_and_in_order(rt: HostRuntime) -> Result<(), Fail> {
    works_in_threads(&rt, rt.alloc(), 1, 5000)
}

#[test]
fn eight_threads_write_each_note_once_and_in_order(rt: HostRuntime) -> Result<(), Fail> {
    works_in_threads(&rt, rt.alloc(), 7, 5000)
}

// Waits until the book has another caller's note.
fn wait_for_another<R: Wait>(rt: &R, lock: &Shared<Book>, pass: &mut Pass<Book>, by: u32)
    requires own { IsPassOf lock.now pass.old }
    requires by { (view pass.old).caller ≡ by }
    ensures own { IsPassOf lock.now pass.new }
    ensures same { IsSameCaller (view pass.old) (view pass.new) }
{
    for _ in rt.forever() {
        if !lock.turn(rt, pass, IsAlone { by }) {
            return;
        }
        lock.wait_change(rt, pass);
    }
    unreachable!()
}

// Looks many times before it writes, and waits for the answer.
fn ask<R: Wait>(rt: &R, lock: &Shared<Book>, mut pass: Pass<Book>) -> Pass<Book>
    requires own { IsPassOf lock.now pass }
    requires by { (view pass).caller ≡ 0 }
    ensures own { IsPassOf lock.now result }
    ensures same { IsSameCaller (view pass) (view result) }
{
    for _ in 0..1000 {
        lock.turn(rt, &mut pass, IsAlone { by: 0 });
    }
    write(rt, lock, &mut pass, 0, 1);
    wait_for_another(rt, lock, &mut pass, 0);
    pass
}

// Waits for a first note, and then writes one.
fn answer<R: Wait>(rt: &R, lock: &Shared<Book>, mut pass: Pass<Book>) -> Pass<Book>
    requires own { IsPassOf lock.now pass }
    requires by { ((view pass).caller ≡ 1) × ((view pass).seen ≡ []) }
    ensures own { IsPassOf lock.now result }
    ensures same { IsSameCaller (view pass) (view result) }
{
    lock.wait_change(rt, &mut pass);
    write(rt, lock, &mut pass, 1, 2);
    pass
}

const ANSWERED: &[Note] = &[
    Note {
        by: 0,
        number: 0,
        text: 1,
    },
    Note {
        by: 1,
        number: 1,
        text: 2,
    },
];

#[test]
fn a_wait_ends_with_another_threads_note(rt: HostRuntime) -> Result<(), Fail> {
    let (lock, mut first) = new_book(rt.alloc())?;
    let next = lock.split(&mut first, Role::Worker);
    let shared = &lock;
    let (mut first, next) = join(
        &rt,
        || -> Pass<Book>
            requires own { IsPassOf shared.now first }
            requires by { (view first).caller ≡ 0 }
            ensures own { IsPassOf shared.entry.now result }
            ensures same { IsSameCaller (view first) (view result) }
        { ask(&rt, shared, first) },
        || -> Pass<Book>
            requires own { IsPassOf shared.now next }
            requires by { ((view next).caller ≡ 1) × ((view next).seen ≡ []) }
            ensures own { IsPassOf shared.entry.now result }
            ensures same { IsSameCaller (view next) (view result) }
        { answer(&rt, shared, next) },
    );
    lock.join(&mut first, next);
    let book = lock.close(first);
    has_notes(&rt, book.notes.as_slice(), ANSWERED);
    Ok(())
}
