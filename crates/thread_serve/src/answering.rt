//! How the reader has a message answered.
ghost use Rattle.std.specs.Prelude.{◌≡◌, [], ◌∷◌, None, Option, OnOk, OnErr, IfErr};
ghost use Rattle.hist_lock.specs.Known.{IsSameCaller};
ghost use Rattle.hist_lock.specs.Passes.{view, IsPassOf};
ghost use Rattle.worker_loop.specs.Held.{held_in};
ghost use Rattle.worker_loop.specs.Rounds.{GoesOn};
ghost use Rattle.view_laws.specs.Says.{says};
ghost use Rattle.thread_serve.specs.Reading.{HasClaimed};
ghost use Rattle.thread_serve.specs.Reader.{Answers, IsAtRest, IsReader, SeesWhy};
ghost use Rattle.thread_serve.specs.Waiting.{MayPassTime};
ghost use Rattle.pide_base.specs.declared.part.Part.{Part};

use crate::crew::Crew;
use crate::locked::Locked;
use crate::taking::Taking;
use byte_message::Message;
use document_session::Claim;
use hist_lock::{Pass, Shared};
use language::Language;
use message_input::Halt;
use pide_base::Gate;
use reply_outbox::Past;
use session_rules::{Entry, Service};
use std::alloc::AllocError;
use std::sync::Wait;
use worker_loop::help;

/// The reader's number.
const READER: u32 = 0;

/// While a message waits, the reader works on the part that it claimed; without one it waits for a
/// change.
fn pass_time<L: Language, P: Past<Service, Entry> + Drop, R: Wait, G: Gate>(
    rt: &R,
    crew: &Crew<'_, L>,
    lock: &Shared<Locked<L, P>>,
    pass: &mut Pass<Locked<L, P>>,
    gate: &G,
    claim: Claim<L::State>,
) -> Result<(), AllocError>
    requires own { IsPassOf lock.now pass.old }
    requires reader { (view pass.old).caller ≡ 0 }
    requires claimed { MayPassTime L.lang claim (view pass.old) }
    ensures own { IsPassOf lock.now pass.new }
    ensures same { IsSameCaller (view pass.old) (view pass.new) }
    ensures ok { OnOk result (GoesOn says (view pass.old) (held_in says (view pass.old).mine)
        (view pass.new) None) }
    ensures err { OnErr result ((after : Option Part) × GoesOn says (view pass.old)
        (held_in says (view pass.old).mine) (view pass.new) after) }
{
    match claim {
        Claim::Job { job, flag } => {
            help(rt, crew.alloc, crew, lock, pass, READER, gate, job, &flag)
        }
        Claim::Nothing => {
            lock.wait_change(rt, pass);
            Ok(())
        }
        Claim::NoMemory => Err(AllocError),
    }
}

/// Has a message answered at the reader's turn, and passes the time while it waits.
pub(crate) fn answer<L: Language, P: Past<Service, Entry> + Drop, R: Wait, G: Gate>(
    rt: &R,
    crew: &Crew<'_, L>,
    lock: &Shared<Locked<L, P>>,
    pass: &mut Pass<Locked<L, P>>,
    gate: &G,
    message: Message,
) -> Result<(), Halt>
    requires { IsAtRest lock.now pass.old }
    ensures ok { OnOk result (IsAtRest lock.now pass.new
        × Answers (view pass.old) (message ∷ []) (view pass.new)) }
    ensures err { IfErr result (λ halt. IsReader lock.now pass.new
        × Answers (view pass.old) [] (view pass.new) × SeesWhy halt (view pass.new)) }
{
    let mut message = message;
    'waiting: for _ in rt.forever() {
        match crew.take(rt, lock, pass, message) {
            Taking::Replied => return Ok(()),
            Taking::Lost => return Err(Halt::WriteFault),
            Taking::NoMemory => return Err(Halt::NoMemory),
            Taking::Waits {
                message: back,
                claim,
            } => {
                message = back;
                pass_time(rt, crew, lock, pass, gate, claim)?;
            }
        }
    }
    unreachable!()
}
