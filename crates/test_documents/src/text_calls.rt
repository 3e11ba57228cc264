//! What the calls of a script about texts and formats work on.
use crate::formats::{frames, messages, replies, values, yxml_texts};
use crate::texts::cut_text::{CutText, cut};
use crate::texts::{
    edits, headers, kept, places, spans, symbol_places, text_scripts, tokens, walk,
};
use crate::{formats, texts};
use byte_message::Frames;
use script_lines::{Answer, Call, Fault};
use std::alloc::{AllocError, Global};

/// A stream that comes in pieces, and a text under edits.
#[derive(Drop)]
pub(crate) struct Texts {
    frames: Frames,
    text: CutText,
}

impl Texts {
    pub(crate) fn new(alloc: Global) -> Result<Texts, AllocError> {
        let text = cut(alloc, "", "-")?;
        Ok(Texts {
            frames: Frames::new(alloc),
            text,
        })
    }

    /// Answers a call of this subject.
    pub(crate) fn answer(
        &mut self,
        alloc: Global,
        subject: &str,
        words: &[&str],
        out: &mut String,
    ) -> Answer {
        let call = Call::of(words)?;
        match subject {
            "frames" => frames::answer(alloc, out, &mut self.frames, &call),
            "text" => text_scripts::answer(alloc, out, &mut self.text, &call),
            _ => of_texts(alloc, out, subject, &call),
        }
    }
}

/// Answers of what stands in the call alone.
fn of_texts(alloc: Global, out: &mut String, subject: &str, call: &Call<'_>) -> Answer {
    match subject {
        "edit" => edits::answer(alloc, out, call),
        "place" => places::answer(alloc, out, call),
        "symbol" => symbol_places::answer(alloc, out, call),
        "token" => tokens::answer(alloc, out, call),
        "header" => headers::answer(alloc, out, call),
        "span" => spans::answer(alloc, out, call),
        "reparse" => kept::answer(alloc, out, call),
        "walk" => walk::answer(alloc, out, call),
        _ => of_formats(alloc, out, subject, call),
    }
}

/// The same, of formats.
fn of_formats(alloc: Global, out: &mut String, subject: &str, call: &Call<'_>) -> Answer {
    match subject {
        "message" => messages::answer(alloc, out, call),
        "yxml" => yxml_texts::answer(alloc, out, call),
        "data" => values::answer(alloc, out, call),
        "reply" => replies::answer(alloc, out, call),
        "law" => of_laws(out, call.verb),
        _ => Err(Fault::Line),
    }
}

/// Answers where laws are called.
fn of_laws(out: &mut String, laws: &str) -> Answer {
    match laws {
        "places" => texts::laws::of_places(out),
        "texts" => texts::laws::of_texts(out),
        "streams" => formats::laws::of_streams(out),
        "values" => formats::laws::of_values(out),
        _ => Err(Fault::Line),
    }
}
