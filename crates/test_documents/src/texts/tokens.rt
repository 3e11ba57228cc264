//! Tokens of texts (`outer_syntax`).
use crate::shared::{names_of, put_quoted, scalars_of};
use joined_results::both;
use outer_syntax::{
    Kind, Stage, Token, after_token, content, given, is_proper, lex, lex_under, next_proper,
    next_token, proper_after, renamed, scalars,
};
use pide_base::Range;
use script_lines::{Answer, Call, Fault};
use sqlite_items::Items;
use std::alloc::{AllocError, Global};

/// The tokens of a text.
type Tokens = Result<Vec<Token>, AllocError>;

/// Answers of the tokens of a text: `cut`, or a `piece` under names, tell the kind and the stop of
/// each, `commands` and `piece-commands` the starts of the commands, `renamed` the tokens under the
/// first names where they become those under the others.
pub(crate) fn answer(alloc: Global, out: &mut String, call: &Call<'_>) -> Answer {
    match call.verb {
        "cut" => Ok(put_tokens(out, lexed(alloc, "-", call.word(0)?))?),
        "commands" => Ok(put_commands(out, lexed(alloc, call.word(0)?, call.word(1)?))?),
        "piece" => Ok(put_tokens(out, piece(alloc, call.word(0)?, call.word(1)?))?),
        "piece-commands" => Ok(put_commands(out, piece(alloc, call.word(0)?, call.word(1)?))?),
        "renamed" => renamed_told(alloc, out, call),
        _ => of_place(alloc, out, call),
    }
}

/// Answers of places in a text: `next` tells the token there, `proper-from` the proper ones from
/// there on, `between` the scalars from one to another; `stages` tells how far the header is read
/// behind each token; and what is in a token, its `content`.
fn of_place(alloc: Global, out: &mut String, call: &Call<'_>) -> Answer {
    match call.verb {
        "next" => Ok(put_next(alloc, out, call.word(1)?, call.place(0)?)?),
        "proper-from" => Ok(put_proper_from(alloc, out, call.word(1)?, call.place(0)?)?),
        "between" => between(alloc, out, call),
        "stages" => Ok(put_stages(alloc, out, scalars_of(alloc, call.word(0)?))?),
        "content" => content_told(alloc, out, kind_of(call.word(0)?)?, call.word(1)?),
        _ => of_kinds(alloc, out, call),
    }
}

/// Answers whether tokens of a kind are `proper`, or how many aliases are `given` at a stage.
fn of_kinds(alloc: Global, out: &mut String, call: &Call<'_>) -> Answer {
    match call.verb {
        "proper" => Ok(put_proper(out, kind_of(call.word(0)?)?)?),
        "given" => given_told(alloc, out, stage_of(call.word(0)?)?, call.word(1)?),
        _ => Err(Fault::Line),
    }
}

/// The kind of this name.
fn kind_of(word: &str) -> Result<Kind, Fault> {
    match word {
        "string" => Ok(Kind::String),
        "cartouche" => Ok(Kind::Cartouche),
        "word" => Ok(Kind::Ident),
        "comment" => Ok(Kind::Comment),
        "error" => Ok(Kind::Error),
        _ => Err(Fault::Line),
    }
}

/// The stage of this name.
fn stage_of(word: &str) -> Result<Stage, Fault> {
    match word {
        "name" => Ok(Stage::Name),
        "ended" => Ok(Stage::Ended),
        _ => Err(Fault::Line),
    }
}

/// Adds the kind and the stop of each of the tokens, behind a blank.
fn put_each(out: &mut String, tokens: &[Token]) -> Result<(), AllocError> {
    for token in tokens {
        let kind = token.kind;
        let stop = token.range.stop;
        write!(out, " {kind:?} {stop}")?;
    }
    Ok(())
}

/// The same, where there are tokens.
fn put_tokens(out: &mut String, tokens: Tokens) -> Result<(), AllocError> {
    put_each(out, &tokens?)
}

/// Adds the starts of the command tokens.
fn put_commands(out: &mut String, tokens: Tokens) -> Result<(), AllocError> {
    for token in &tokens? {
        if token.kind == Kind::Command {
            let start = token.range.start;
            write!(out, " {start}")?;
        }
    }
    Ok(())
}

/// The tokens of a text under the aliases.
fn lexed(alloc: Global, names: &str, text: &str) -> Tokens {
    let (text, aliases) = both(scalars_of(alloc, text), names_of(alloc, names))?;
    lex(alloc, &text, &aliases)
}

/// The tokens of a piece under the names.
fn piece(alloc: Global, names: &str, text: &str) -> Tokens {
    let (text, names) = both(scalars_of(alloc, text), names_of(alloc, names))?;
    lex_under(alloc, &text, &names)
}

/// The tokens under the names.
fn all_renamed(alloc: Global, text: &[char], names: &[Items<char>], tokens: &[Token]) -> Tokens {
    let mut found = Vec::new(alloc);
    for token in tokens {
        found.push(renamed(text, names, *token))?;
    }
    Ok(found)
}

/// The tokens under some names, renamed to others.
fn renamed_to(alloc: Global, from: &str, to: &str, text: &str) -> Tokens {
    let tokens = piece(alloc, from, text)?;
    let (text, names) = both(scalars_of(alloc, text), names_of(alloc, to))?;
    all_renamed(alloc, &text, &names, &tokens)
}

/// Answers the renamed tokens, where they are those of the text under the other names.
fn renamed_told(alloc: Global, out: &mut String, call: &Call<'_>) -> Answer {
    let from = call.word(0)?;
    let to = call.word(1)?;
    let text = call.word(2)?;
    Ok(put_renamed(
        out,
        both(renamed_to(alloc, from, to, text), piece(alloc, to, text)),
    )?)
}

/// Adds the tokens, where they are the other ones.
fn put_renamed(
    out: &mut String,
    tokens: Result<(Vec<Token>, Vec<Token>), AllocError>,
) -> Result<(), AllocError> {
    let (found, tokens) = tokens?;
    if found.as_slice() != tokens.as_slice() {
        return out.push_str("other tokens");
    }
    put_each(out, &found)
}

/// Adds the token at the place, which the text must reach.
fn put_next(alloc: Global, out: &mut String, text: &str, place: usize) -> Result<(), AllocError> {
    let text = scalars_of(alloc, text)?;
    if text.len() < place {
        return out.push_str("behind the end");
    }
    match next_token(&text, &[], place) {
        Some(token) => put_each(out, &[token]),
        None => Ok(()),
    }
}

/// Adds the proper tokens from the place on.
fn put_proper_from(
    alloc: Global,
    out: &mut String,
    text: &str,
    place: usize,
) -> Result<(), AllocError> {
    let text = scalars_of(alloc, text)?;
    if text.len() < place {
        return out.push_str("behind the end");
    }
    match next_proper(&text, &[], place) {
        Some(first) => put_tokens(out, proper_after(alloc, &text, &[], first)),
        None => Ok(()),
    }
}

/// Adds the stage behind each token, behind a blank.
fn put_stages_of(out: &mut String, text: &[char], tokens: Tokens) -> Result<(), AllocError> {
    let mut stage = Stage::Start;
    for token in &tokens? {
        stage = after_token(text, stage, *token);
        write!(out, " {stage:?}")?;
    }
    Ok(())
}

/// The same, of a text.
fn put_stages(
    alloc: Global,
    out: &mut String,
    text: Result<Vec<char>, AllocError>,
) -> Result<(), AllocError> {
    let text = text?;
    put_stages_of(out, &text, lex(alloc, &text, &[]))
}

/// Answers the scalars of a range.
fn between(alloc: Global, out: &mut String, call: &Call<'_>) -> Answer {
    let start = call.place(0)?;
    let stop = call.place(1)?;
    let text = scalars_of(alloc, call.word(2)?)?;
    Ok(put_quoted(out, scalars(&text, Range { start, stop }))?)
}

/// Answers the content of a token.
fn content_told(alloc: Global, out: &mut String, kind: Kind, token: &str) -> Answer {
    let token = scalars_of(alloc, token)?;
    Ok(put_quoted(out, &content(alloc, kind, &token)?)?)
}

/// Adds whether tokens of the kind are proper.
fn put_proper(out: &mut String, kind: Kind) -> Result<(), AllocError> {
    out.push_str(if is_proper(kind) {
        "proper"
    } else {
        "improper"
    })
}

/// Answers how many aliases are given at the stage.
fn given_told(alloc: Global, out: &mut String, stage: Stage, names: &str) -> Answer {
    let aliases = names_of(alloc, names)?;
    let count = given(stage, &aliases).len();
    Ok(write!(out, "{count}")?)
}
