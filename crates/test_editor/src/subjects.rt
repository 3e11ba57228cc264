//! All that the calls of a script are about.
use crate::editor::Editor;
use crate::mirror::calls::Calls;
use joined_results::both;
use script_lines::{Answer, Call, Script};
use std::alloc::{AllocError, Global};
use std::mem;

/// What the calls of a script work on: documents, and an editor's mirror.
#[derive(Drop)]
pub(crate) struct Subjects {
    editor: Editor,
    mirror: Calls,
}

impl Subjects {
    pub(crate) fn new(alloc: Global) -> Result<Subjects, AllocError> {
        let (editor, mirror) = both(Editor::new(alloc), Calls::new(alloc))?;
        Ok(Subjects { editor, mirror })
    }
}

impl Script for Subjects {
    fn begin(&mut self, alloc: Global) -> Answer {
        let new = Subjects::new(alloc)?;
        drop(mem::replace(self, new));
        Ok(())
    }

    fn answer(&mut self, alloc: Global, words: &[&str], out: &mut String) -> Answer {
        let call = Call::of(words)?;
        match call.verb {
            "mirror" | "sent" | "heard" | "padded" | "cut" | "bytes" | "fault" | "look" | "turn" =>
                self.mirror.answer(alloc, &call, out),
            _ => self.editor.answer(alloc, &call, out),
        }
    }
}
