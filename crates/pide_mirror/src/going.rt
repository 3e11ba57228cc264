//! What is known while there was no fault.
ghost use Rattle.std.specs.Prelude.{◌≡◌, ℕ, [], ◌∷◌, ◌++◌, true, Option, Some, IfOk, OnOk, OnErr};
ghost use Rattle.reply_messages.specs.declared.told.Told.{Told};
ghost use Rattle.mirror_rules.specs.Answers.{Read, is_answer};
ghost use Rattle.mirror_rules.specs.Images.{Mirror, empty_mirror};
ghost use Rattle.mirror_rules.specs.Replies.{mirror_after, without_finish};
ghost use Rattle.pide_mirror.specs.Knowing.{IsGoing};
ghost use Rattle.pide_mirror.specs.Taking.{TakenSo};
ghost use Rattle.pide_mirror.specs.declared.note.Note.TheVariants as noted;

use crate::answering::{can_answer, names_another};
use crate::document::Document;
use crate::note::{Note, Read};
use message_values::{EditorMessage, Mode};
use reply_messages::Told;
use std::alloc::{AllocError, Global};
use std::collections::VecDeque;

/// What an editor knows of its document, and what was sent and is not answered, oldest first.
#[derive(Drop)]
pub struct Going {
    pub(crate) document: Document,
    pub(crate) unanswered: VecDeque<Read>,
}

impl Going {
    /// Before anything was sent or heard.
    pub(crate) fn new(alloc: Global) -> Result<Going, AllocError>
        ensures { IfOk result (λ going. IsGoing going empty_mirror) }
    {
        Ok(Going {
            document: Document::new(alloc)?,
            unanswered: VecDeque::new(alloc),
        })
    }

    /// Has a message that is noted wait for its answer. At want of memory nothing is known that
    /// wasn't.
    pub(crate) fn sent(&mut self, note: Note) -> Result<(), AllocError>
        ensures ok { OnOk result ((m : Mirror) (read : Read) → IsGoing self.old m
            → note ≡ noted.Sent read
            → IsGoing self.new (record m { unanswered = m.unanswered ++ read ∷ [] })) }
        ensures err { OnErr result ((m : Mirror) → IsGoing self.old m → IsGoing self.new m) }
    {
        let Note::Sent(read) = note else {
            return Ok(());
        };
        match self.unanswered.push_back(read) {
            Ok(()) => Ok(()),
            Err(failed) => {
                drop(failed);
                Err(AllocError)
            }
        }
    }

    /// Takes a reply, or what was none, as it is noted, and answers whether it is expected. At want
    /// of memory nothing is known that wasn't.
    pub(crate) fn reply(
        &mut self,
        alloc: Global,
        mode: Mode,
        note: Note,
    ) -> Result<bool, AllocError>
        ensures taken { IfOk result (λ expected. (m : Mirror) (at : ℕ) (reply : Option Told)
            → IsGoing self.old m → note ≡ noted.Heard at reply
            → TakenSo (mirror_after mode m reply) self.new expected) }
        ensures err { OnErr result ((m : Mirror) → IsGoing self.old m → IsGoing self.new m) }
    {
        match note {
            Note::Heard {
                reply: Some(told),
                ..
            } => self.hear(alloc, mode, told),
            _ => Ok(false),
        }
    }

    fn hear(&mut self, alloc: Global, mode: Mode, told: Told) -> Result<bool, AllocError>
        ensures taken { IfOk result (λ expected. (m : Mirror) → IsGoing self.old m
            → TakenSo (mirror_after mode m (Some told)) self.new expected) }
        ensures err { OnErr result ((m : Mirror) → IsGoing self.old m → IsGoing self.new m) }
    {
        match told {
            Told::Report { part, reports } => {
                let taken = self.document.report(alloc, part, reports)?;
                if taken {
                    self.step(mode);
                }
                Ok(taken)
            }
            Told::Dropped { .. } => {
                self.step(mode);
                Ok(true)
            }
            told => self.answer(alloc, mode, told),
        }
    }

    /// Where a script's finish waits first, it is answered.
    fn step(&mut self, mode: Mode)
        ensures document { self.new.document ≡ self.old.document }
        ensures unanswered { self.new.unanswered.items
            ≡ without_finish mode self.old.unanswered.items }
    {
        if mode != Mode::Replay {
            return;
        }
        if let Some(Ok(EditorMessage::Finish { .. })) = self.unanswered.front() {
            drop(self.unanswered.pop_front());
        }
    }

    /// Takes a reply to the first message that is not answered.
    fn answer(&mut self, alloc: Global, mode: Mode, told: Told) -> Result<bool, AllocError>
        requires { is_answer told ≡ true }
        ensures taken { IfOk result (λ expected. (m : Mirror) → IsGoing self.old m
            → TakenSo (mirror_after mode m (Some told)) self.new expected) }
        ensures err { OnErr result ((m : Mirror) → IsGoing self.old m → IsGoing self.new m) }
    {
        let Some(read) = self.unanswered.front() else {
            drop(told);
            return Ok(false);
        };
        if !can_answer(read, &told) || names_another(read, &told) {
            drop(told);
            return Ok(false);
        }
        let expected = self.document.answer(alloc, read, told)?;
        drop(self.unanswered.pop_front());
        Ok(expected)
    }
}
