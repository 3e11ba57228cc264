//! The mirror.
ghost use Rattle.std.specs.Prelude.{◌≡◌, List, [], ◌∷◌, None, Err, IfOk, IfSome, OnOk, OnErr};
ghost use Rattle.message_values.specs.Asked.{asked};
ghost use Rattle.mirror_rules.specs.Events.{MirrorEvent, Given};
ghost use Rattle.mirror_rules.specs.Moves.{Sent, mirrored};
ghost use Rattle.mirror_rules.specs.Small.{fault_in};
ghost use Rattle.pide_mirror.specs.Feeding.{FeedsSo, FeedsFirst, HearsReply};
ghost use Rattle.pide_mirror.specs.Hearing.{HasHeard};
ghost use Rattle.pide_mirror.specs.Showing.{ShowsSo};

use crate::error::MirrorError;
use crate::going::Going;
use crate::known::Known;
use crate::note::Note;
use crate::notes::Notes;
use byte_message::{FeedError, Frames, Message};
use message_values::Mode;
use mirror_rules::MirrorFault;
use pide_base::VersionId;
use pide_messages::{ReadError, read};
use reply_messages::read_reply;
use std::alloc::{AllocError, Global};
use std::marker::Model;

/// How much of a piece was taken: its bytes, and the replies that they made whole.
#[derive(Clone, Copy)]
struct Taken {
    used: usize,
    count: usize,
}

/// What an editor knows of a document by the messages that it sent and the replies that it heard.
/// Contracts see what was sent and heard, and what is kept of the next reply; what is known is the
/// fold of the former.
#[derive(Drop)]
pub struct Mirror {
    alloc: Global,
    mode: Mode,
    frames: Frames,
    going: Going,
    ended: Option<MirrorError>,
    moves: Notes,
}

impl Model for Mirror {
    ghost use Rattle.std.specs.Prelude.{map};
    ghost use Rattle.pide_mirror.specs.Hearing.{Hearing};
    ghost use Rattle.pide_mirror.specs.Mirroring.{as_move, IsMirror};

    ghost Value = { Hearing };

    ghost view = { λ m. record {
      mode = m.mode;
      moves = map as_move m.moves;
      frames = m.frames;
      ended = m.ended;
    } };

    ghost invariant = { λ m. IsMirror m.mode (map as_move m.moves) m.frames m.going m.ended };
}

impl Mirror {
    /// A mirror before anything was sent or heard, whose messages are read so.
    pub fn new(alloc: Global, mode: Mode) -> Result<Mirror, AllocError>
        ensures mode { IfOk result (λ mirror. mirror.mode ≡ mode) }
        ensures moves { IfOk result (λ mirror. mirror.moves ≡ []) }
        ensures ended { IfOk result (λ mirror. mirror.ended ≡ None) }
        ensures heard { IfOk result (λ mirror. HasHeard [] mirror) }
    {
        Ok(Mirror {
            alloc,
            mode,
            frames: Frames::new(alloc),
            going: Going::new(alloc)?,
            ended: None,
            moves: Notes::new(),
        })
    }

    /// The first fault of what was heard, if there was one.
    pub fn fault(&self) -> Option<MirrorFault>
        ensures { result ≡ fault_in (mirrored self.now.mode self.now.moves) }
    {
        match self.ended {
            Some(MirrorError::Fault(fault)) => Some(fault),
            Some(MirrorError::NoMemory) | None => None,
        }
    }

    /// What is known of the live version of this number, if there is one. Behind a fault nothing is.
    pub fn version(&self, id: VersionId) -> Result<Option<&Known>, MirrorFault>
        ensures { ShowsSo (mirrored self.now.mode self.now.moves) id result }
    {
        match self.fault() {
            Some(fault) => Err(fault),
            None => Ok(self.going.document.known(id)),
        }
    }

    /// Notes that a message is sent. At want of memory nothing has changed.
    pub fn sent(&mut self, message: &Message) -> Result<(), AllocError>
        ensures sent { OnOk result (self.new ≡ record self.old {
          moves = Sent (asked self.old.mode message.now) ∷ self.old.moves;
        }) }
        ensures heard { OnOk result ((events : List MirrorEvent) → HasHeard events self.old
            → HasHeard (Given message.now ∷ events) self.new) }
        ensures err { OnErr result (self.new ≡ self.old) }
    {
        let read = match read(self.alloc, message, self.mode) {
            Ok(message) => Ok(message),
            Err(ReadError::Refused(reason)) => Err(reason),
            Err(ReadError::NoMemory) => return Err(AllocError),
        };
        let note = Note::Sent(read);
        let moves = self.moves.with(&note);
        self.going.sent(note)?;
        self.moves = moves;
        Ok(())
    }

    /// Takes the next bytes of the replies, and answers how many replies they made whole. A fault
    /// is answered from then on, and want of memory too: then what is known is what was after a
    /// front of the bytes.
    pub fn feed(&mut self, piece: &[u8]) -> Result<usize, MirrorError>
        ensures feeds { FeedsSo self.old piece.now self.new result }
        ensures ended { IfSome self.old.ended (λ error.
            (result ≡ Err error) × (self.new ≡ self.old)) }
    {
        if let Some(error) = self.ended {
            return Err(error);
        }
        let mut used = 0;
        let mut count = 0;
        'messages: while used < piece.len() {
            let taken = self.feed_first(&piece[used..])?;
            used += taken.used;
            count += taken.count;
        }
        Ok(count)
    }

    /// Takes the bytes up to the end of the first reply that they make whole, or all.
    fn feed_first(&mut self, piece: &[u8]) -> Result<Taken, MirrorError>
        requires { self.old.ended ≡ None }
        ensures { FeedsFirst self.old piece.now self.new result }
    {
        let at = self.frames.place();
        match self.frames.feed_first(piece) {
            Ok(used) => match self.frames.next() {
                Some(message) => {
                    self.hear(at, &message)?;
                    Ok(Taken { used, count: 1 })
                }
                None => Ok(Taken { used, count: 0 }),
            },
            Err(FeedError::Frame(fault)) => {
                let note = Note::Broken(fault);
                self.moves = self.moves.with(&note);
                drop(note);
                let error = MirrorError::Fault(MirrorFault::Frame(fault));
                self.ended = Some(error);
                Err(error)
            }
            Err(FeedError::NoMemory) => {
                self.ended = Some(MirrorError::NoMemory);
                Err(MirrorError::NoMemory)
            }
        }
    }

    /// Takes a whole message, which begins at a place.
    fn hear(&mut self, at: u64, message: &Message) -> Result<(), MirrorError>
        requires { self.old.ended ≡ None }
        ensures { HearsReply self.old at message.now self.new result }
    {
        let Ok(reply) = read_reply(self.alloc, message) else {
            self.ended = Some(MirrorError::NoMemory);
            return Err(MirrorError::NoMemory);
        };
        let note = Note::Heard { at, reply };
        let moves = self.moves.with(&note);
        match self.going.reply(self.alloc, self.mode, note) {
            Ok(true) => {
                self.moves = moves;
                Ok(())
            }
            Ok(false) => {
                let error = MirrorError::Fault(MirrorFault::Unexpected { at });
                self.moves = moves;
                self.ended = Some(error);
                Err(error)
            }
            Err(AllocError) => {
                self.ended = Some(MirrorError::NoMemory);
                Err(MirrorError::NoMemory)
            }
        }
    }
}
