//! The tokens and spans of a text.

use crate::cut::spans_of;
use crate::names::Names;
use crate::span::Span;
use outer_syntax::{Token, lex};
use sqlite_items::Items;
use std::alloc::{AllocError, Global};
use std::marker::Model;

/// The tokens and the spans of a text, and the aliases under which it has them. The text itself
/// stands beside them, in memory of its own.
#[derive(Debug, Drop)]
pub struct Spans {
    names: Names,
    tokens: Vec<Token>,
    spans: Vec<Span>,
}

impl Model for Spans {
    ghost use Rattle.command_spans.specs.CutTexts.{Cuts};

    ghost Value = { Cuts };

    ghost view = { λ s. record {
      aliases = s.names;
      tokens = s.tokens.items;
      spans = s.spans.items;
    } };
}

impl Spans {
    ghost use Rattle.std.specs.Prelude.{◌≡◌, IfOk};
    ghost use Rattle.std.specs.Bool.{OnTrue};
    ghost use Rattle.command_spans.specs.Cutting.{spans_of};
    ghost use Rattle.command_spans.specs.CutTexts.{cut};

    /// The tokens and the spans of the text. The aliases are commands after its header's `begin`.
    pub fn of(alloc: Global, text: &[char], aliases: &[Items<char>]) -> Result<Spans, AllocError>
        ensures { IfOk result (λ s. s ≡ cut text.now aliases.now) }
    {
        let names = Names::of(alloc, aliases)?;
        let tokens = lex(alloc, text, names.as_slice())?;
        Spans::of_tokens(alloc, names, tokens)
    }

    /// These tokens, and their spans.
    pub(crate) fn of_tokens(
        alloc: Global,
        names: Names,
        tokens: Vec<Token>,
    ) -> Result<Spans, AllocError>
        ensures { IfOk result (λ s. s ≡ record {
          aliases = names;
          tokens = tokens.items;
          spans = spans_of tokens.items;
        }) }
    {
        let spans = spans_of(alloc, &tokens)?;
        Ok(Spans {
            names,
            tokens,
            spans,
        })
    }

    /// The aliases.
    pub fn aliases(&self) -> &[Items<char>]
        ensures { result.now ≡ self.now.aliases }
    {
        self.names.as_slice()
    }

    /// The aliases, in the same memory where they are these, else a copy of these.
    pub(crate) fn names_as(
        &self,
        alloc: Global,
        aliases: &[Items<char>],
        same: bool,
    ) -> Result<Names, AllocError>
        requires { OnTrue same (self.now.aliases ≡ aliases.now) }
        ensures { IfOk result (λ n. n ≡ aliases.now) }
    {
        if same {
            self.names.share()
        } else {
            Names::of(alloc, aliases)
        }
    }

    /// The tokens of the text, which join to it.
    pub fn tokens(&self) -> &[Token]
        ensures { result.now ≡ self.now.tokens }
    {
        &self.tokens
    }

    /// The spans of the text, which join to it.
    pub fn spans(&self) -> &[Span]
        ensures { result.now ≡ self.now.spans }
    {
        &self.spans
    }
}
