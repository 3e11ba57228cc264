//! The calls of a script on a mirror, and the mirror that they are about.
use crate::mirror::client::turn;
use crate::mirror::hearing::answer_heard;
use crate::mirror::looks::look;
use crate::mirror::shapes::message_of;
use crate::mirror::telling::put_fault;
use byte_message::Message;
use message_values::Mode;
use pide_mirror::Mirror;
use script_lines::{Answer, Call, Fault};
use std::alloc::{AllocError, Global};
use std::mem;

/// The mirror that calls are about.
#[derive(Drop)]
pub(crate) struct Calls {
    mirror: Mirror,
}

impl Calls {
    pub(crate) fn new(alloc: Global) -> Result<Calls, AllocError> {
        let mirror = Mirror::new(alloc, Mode::Serve)?;
        Ok(Calls { mirror })
    }

    /// A new mirror, for messages of the mode that a call names.
    fn renew(&mut self, alloc: Global, call: &Call<'_>) -> Answer {
        let mode = mode_of(call.word(0)?)?;
        let mirror = Mirror::new(alloc, mode)?;
        drop(mem::replace(&mut self.mirror, mirror));
        Ok(())
    }

    /// Messages are sent.
    fn send(&mut self, alloc: Global, shown: &[&str]) -> Answer {
        for message in shown {
            send(&mut self.mirror, message_of(alloc, *message)?)?;
        }
        Ok(())
    }

    /// `mirror serve` and `mirror replay` begin anew, and `sent` tells messages. `look 1 A` asks what
    /// is seen of a node in a version, behind edits as `insert 0 'text'` or `remove 0 'text'`, and
    /// `fault` for the first fault. `turn` is a turn of a client's loop, and the other calls tell
    /// what is heard.
    pub(crate) fn answer(&mut self, alloc: Global, call: &Call<'_>, out: &mut String) -> Answer {
        match call.verb {
            "mirror" => self.renew(alloc, call),
            "sent" => self.send(alloc, call.words),
            "look" => look(alloc, &self.mirror, call, out),
            "turn" => turn(alloc, &mut self.mirror, call, out),
            "fault" => put_fault(out, self.mirror.fault()),
            _ => answer_heard(alloc, &mut self.mirror, *call, out),
        }
    }
}

/// A message is sent.
pub(crate) fn send(mirror: &mut Mirror, message: Message) -> Answer {
    let sent = mirror.sent(&message);
    drop(message);
    Ok(sent?)
}

/// The mode that the word names.
fn mode_of(word: &str) -> Result<Mode, Fault> {
    match word {
        "serve" => Ok(Mode::Serve),
        "replay" => Ok(Mode::Replay),
        _ => Err(Fault::Line),
    }
}
