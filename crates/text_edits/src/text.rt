//! Texts. A contract sees one as the list of its scalars.
ghost use Rattle.std.specs.Prelude.{◌≡◌, ◌+◌, ◌≤◌, ◌↔◌, [], ◌++◌, length, take, drop, IsTrue, IfOk, OnOk, OnErr};
ghost use Rattle.std.specs.Str.{chars};

use std::alloc::{AllocError, Global};
use std::marker::Model;

/// A text: a list of Unicode scalars.
#[derive(Debug, Drop)]
pub struct Text {
    scalars: Vec<char>,
}

impl Model for Text {
    ghost use Rattle.std.specs.Prelude.{ℕ, List};

    ghost Value = { List ℕ };

    ghost view = { λ text. text.scalars.items };
}

impl Text {
    /// The empty text. It takes no memory.
    pub fn new(alloc: Global) -> Text
        ensures { result ≡ [] }
    {
        Text {
            scalars: Vec::new(alloc),
        }
    }

    /// The text of these scalars.
    pub fn from_slice(alloc: Global, scalars: &[char]) -> Result<Text, AllocError>
        ensures { IfOk result (λ text. text ≡ scalars.now) }
    {
        let scalars = Vec::from_slice(alloc, scalars)?;
        Ok(Text { scalars })
    }

    /// The text whose scalars a `str` spells.
    #[tactic(auto, using(std::proofs::lemmas::Str::chars_from_encodes))]
    pub fn from_str(alloc: Global, spelling: &str) -> Result<Text, AllocError>
        ensures { IfOk result (λ text. text ≡ chars spelling.now) }
    {
        let scalars = spelling.chars().collect(alloc)?;
        Ok(Text { scalars })
    }

    /// A text of the same scalars.
    pub fn copy(&self, alloc: Global) -> Result<Text, AllocError>
        ensures { IfOk result (λ text. text ≡ self.now) }
    {
        Text::from_slice(alloc, self.as_slice())
    }

    /// Its scalars.
    pub fn as_slice(&self) -> &[char]
        ensures { result.now ≡ self.now }
    {
        self.scalars.as_slice()
    }

    /// How many scalars it has.
    pub fn len(&self) -> usize
        ensures { result ≡ length self.now }
    {
        self.scalars.len()
    }

    /// Whether it has none.
    pub fn is_empty(&self) -> bool
        ensures { IsTrue result ↔ (self.now ≡ []) }
    {
        self.scalars.is_empty()
    }

    /// The text where what stands between the places is replaced by these scalars.
    pub(crate) fn replaced(
        &self,
        alloc: Global,
        start: usize,
        stop: usize,
        put: &[char],
    ) -> Result<Text, AllocError>
        requires order { start ≤ stop }
        requires within { stop ≤ length self.now }
        ensures { IfOk result
            (λ text. text ≡ take start self.now ++ put.now ++ drop stop self.now) }
    {
        let old = self.as_slice();
        let kept = old.len() - (stop - start);
        let mut scalars = Vec::with_capacity(alloc, kept.saturating_add(put.len()))?;
        scalars.extend_from_slice(&old[..start])?;
        scalars.extend_from_slice(put)?;
        scalars.extend_from_slice(&old[stop..])?;
        Ok(Text { scalars })
    }

    /// Puts a text in at a place. Where memory runs out nothing has changed.
    pub(crate) fn insert(&mut self, start: usize, inserted: &[char]) -> Result<(), AllocError>
        requires { start ≤ length self.old }
        ensures ok { OnOk result
            (self.new ≡ take start self.old ++ inserted.now ++ drop start self.old) }
        ensures err { OnErr result (self.new ≡ self.old) }
    {
        self.scalars.extend_from_slice(inserted)?;
        self.scalars[start..].rotate_right(inserted.len());
        Ok(())
    }

    /// Takes so many scalars out at a place.
    pub(crate) fn remove(&mut self, start: usize, count: usize)
        requires { start + count ≤ length self.old }
        ensures { self.new ≡ take start self.old ++ drop (start + count) self.old }
    {
        self.scalars.drain(start..start + count);
    }
}
