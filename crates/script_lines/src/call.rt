//! A call, word by word.
use crate::fault::Fault;
use crate::words::{number, place};

/// A call: its verb, and the words behind it.
#[derive(Clone, Copy)]
pub struct Call<'a> {
    pub verb: &'a str,
    pub words: &'a [&'a str],
}

impl<'a> Call<'a> {
    /// The call of these words; a fault where there are none.
    pub fn of(words: &'a [&'a str]) -> Result<Call<'a>, Fault> {
        match words {
            [verb, words @ ..] => Ok(Call { verb, words }),
            [] => Err(Fault::Line),
        }
    }

    /// The call of the words behind the verb; a fault where there are none.
    pub fn inner(&self) -> Result<Call<'a>, Fault> {
        Call::of(self.words)
    }

    /// The word at this place behind the verb; a fault where there are fewer.
    pub fn word(&self, at: usize) -> Result<&'a str, Fault> {
        match self.words.get(at) {
            Some(word) => Ok(word),
            None => Err(Fault::Line),
        }
    }

    /// The number that the word at this place spells; a fault where it spells none.
    pub fn number(&self, at: usize) -> Result<u64, Fault> {
        number(self.word(at)?)
    }

    /// The place that the word at this place spells; a fault where it spells none.
    pub fn place(&self, at: usize) -> Result<usize, Fault> {
        place(self.word(at)?)
    }
}
