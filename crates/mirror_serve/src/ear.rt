//! What hears the replies.
ghost use Rattle.std.specs.Prelude.{◌≡◌, None, OnOk, IfErr};
ghost use Rattle.mirror_serve.specs.Heard.{HearsOne, StopsAt};

use byte_message::long_chunk;
use document_serve::Listener;
use pide_mirror::Mirror;

/// Why a reply isn't heard.
#[derive(Clone, Copy)]
pub(crate) enum Unheard {
    /// It has a chunk that is too long for a byte message, of so many bytes.
    LongChunk(u64),
    /// It is at fault, which no reply of the session's own is.
    Fault,
    /// There is not enough memory.
    NoMemory,
}

/// A mirror that hears replies, and why it hears no more, if it doesn't.
#[derive(Drop)]
pub(crate) struct Ear {
    pub(crate) mirror: Mirror,
    pub(crate) unheard: Option<Unheard>,
}

impl Listener for Ear {
    ghost use Rattle.std.specs.Prelude.{[]};
    ghost use Rattle.mirror_serve.specs.Heard.{HearsSo};
    ghost use Rattle.mirror_serve.specs.HeardOn.{hears_none, hears_later};

    ghost hears = { λ a replies b. HearsSo a.unheard a.mirror replies b.unheard b.mirror };

    fn hear(&mut self, reply: &[u8]) {
        if self.unheard.is_some() {
            return;
        }
        if let Err(unheard) = hear_one(&mut self.mirror, reply) {
            self.unheard = Some(unheard);
        }
    }

    ghost stays = { λ a. hears_none a.unheard a.mirror };

    ghost hears_on = { λ a b c first then one more. hears_later a.unheard b.unheard c.unheard
        a.mirror b.mirror c.mirror first then one more };
}

/// Has the mirror hear a reply, unless a chunk of it is too long for a byte message.
fn hear_one(mirror: &mut Mirror, reply: &[u8]) -> Result<(), Unheard>
    ensures ok { OnOk result (HearsOne mirror.old reply.now mirror.new) }
    ensures err { IfErr result (λ unheard. StopsAt unheard mirror.old reply.now) }
{
    if let Some(len) = long_chunk(reply) {
        return Err(Unheard::LongChunk(len));
    }
    if mirror.feed(reply).is_ok() {
        return Ok(());
    }
    match mirror.fault() {
        Some(_) => Err(Unheard::Fault),
        None => Err(Unheard::NoMemory),
    }
}
