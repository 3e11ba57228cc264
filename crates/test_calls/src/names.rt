//! Names, ids, statuses and pushes (`pide_base`).
ghost use Rattle.std.specs.Prelude.{None};

use pide_base::{CommandId, ExecId, NodeName, Pushed, Sink, Status, VersionId, push_whole};
use std::alloc::{AllocError, Global};
use std::process::Abort;
use std::test::Fail;

/// So many letters.
fn letters(alloc: Global, count: usize) -> Result<String, AllocError> {
    let mut text = String::new(alloc);
    for _ in 0..count {
        text.push('x')?;
    }
    Ok(text)
}

/// The name of so many letters.
fn name_of(alloc: Global, count: usize) -> Result<Option<NodeName>, AllocError> {
    Ok(NodeName::new(letters(alloc, count)?).ok())
}

fn has_letters(rt: &impl Abort, alloc: Global, name: &NodeName) -> Result<(), AllocError> {
    let longest = letters(alloc, 64)?;
    assert!(rt; name.as_str() == longest.as_str());
    Ok(())
}

fn is_copied(rt: &impl Abort, name: &NodeName) -> Result<(), AllocError> {
    let copy = name.clone()?;
    assert!(rt; copy == *name);
    Ok(())
}

#[test]
fn a_node_name_has_at_most_64_characters(rt: HostRuntime) -> Result<(), Fail> {
    assert!(rt; name_of(rt.alloc(), 65)?.is_none());
    let name = name_of(rt.alloc(), 64)?.ok_or("64 characters")?;
    has_letters(&rt, rt.alloc(), &name)?;
    is_copied(&rt, &name)?;
    Ok(())
}

#[test]
fn ids_are_1_to_18_digits(rt: HostRuntime) {
    assert!(rt; VersionId::new(0).is_none());
    assert!(rt; CommandId::new(1_000_000_000_000_000_000).is_none());
    let last = ExecId::new(999_999_999_999_999_999).map(|id| id.number());
    assert!(rt; last == Some(999_999_999_999_999_999));
}

/// Statuses, and the number that the process ends with.
const EXITS: &[(Status, u8)] = &[
    (Status::Done, 0),
    (Status::Usage, 2),
    (Status::ReadFault, 3),
    (Status::WriteFault, 4),
    (Status::BadFrame { at: 7 }, 5),
    (Status::Truncated { at: 7 }, 6),
    (Status::LongInput, 7),
    (Status::NoMemory, 8),
    (Status::BadText { at: 0 }, 9),
    (Status::BadReply { len: 7 }, 10),
];

#[test]
fn statuses_have_their_exit_numbers(rt: HostRuntime) {
    for (status, number) in EXITS {
        assert!(rt; status.exit_number() == *number);
    }
}

/// Counts what it is given and takes at most two bytes at a time.
#[derive(Drop)]
struct Pairs {
    taken: usize,
}

impl Sink for Pairs {
    ghost contents = { λ _. None };

    ghost faults = { λ _. 0 };

    fn push(&mut self, piece: &[u8]) -> Pushed {
        let count = piece.len().min(2);
        self.taken = self.taken.saturating_add(count);
        Pushed::Took(count)
    }
}

#[test]
fn a_whole_text_is_pushed_piece_by_piece(rt: HostRuntime) {
    let mut sink = Pairs { taken: 0 };
    assert!(rt; push_whole(&mut sink, b"seven b"));
    assert!(rt; sink.taken == 7);
}
