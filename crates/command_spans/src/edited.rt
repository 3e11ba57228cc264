//! The tokens and spans of an edited text, of which what the edit keeps is not lexed again.

ghost use Rattle.std.specs.Prelude.{◌≡◌, ◌⊎◌, ◌≤◌, ◌<◌, ◌^◌, ◌++◌, ◌↔◌, ℕ, List, [], true, length, take, drop, map, IfOk, OnOk, All, Err};
ghost use Rattle.std.specs.Bool.{OnTrue};
ghost use Rattle.text_edits.specs.declared.fault.EditFault.{EditFault};
ghost use Rattle.text_edits.specs.Edits.{Applies};
ghost use Rattle.text_edits.specs.Faults.{IsOutOfRange, DiffersAt};
ghost use Rattle.outer_syntax.specs.Stages.{after_tokens};
ghost use Rattle.outer_syntax.specs.Lexing.{tokens_of};
ghost use Rattle.outer_syntax.specs.declared.token.Token.{Token};
ghost use Rattle.command_spans.specs.Spans.{Is};
ghost use Rattle.command_spans.specs.CutTexts.{Rising, AreCutsOf, cut, cut_text, boundaries, boundary_at};
ghost use Rattle.command_spans.specs.Reparsing.{is_space, is_space_below, restart, before, front_in, front_of, moved, is_meeting, back_in, back_of};
ghost use Rattle.command_spans.specs.Keeping.{moved_token, restaged, ArePassed, IsEdited};

use crate::change::Change;
use crate::names::same_names;
use crate::text_spans::Spans;
use outer_syntax::{Kind, Stage, Token, after_token, given, next_token, renamed};
use sqlite_items::{Items, at};
use std::alloc::{AllocError, Global};
use text_edits::{Edit, EditFault, Text, apply, changed};

/// An edited text with its tokens and spans, and how many of its tokens are those of the text
/// before the edit: the first `front`, and the last `back`, which the edit has moved.
#[derive(Debug, Drop)]
pub struct Reparsed {
    pub text: Text,
    pub spans: Spans,
    pub front: usize,
    pub back: usize,
}

/// The tokens of an edited text, and how many at its front and at its back are kept.
#[derive(Debug, Drop)]
struct Relexed {
    tokens: Vec<Token>,
    front: usize,
    back: usize,
}

/// How many tokens more there are where an edit puts something into a token: what stood before and
/// what stood behind. It only tells how much room is made at once.
const SPLIT: usize = 2;

/// Whether tokens of the kind are spaces.
fn is_space(kind: Kind) -> bool
    ensures { result ≡ is_space kind }
{
    matches!(kind, Kind::Space)
}

/// Whether the header has ended, or the text has none: no token changes the stage.
fn is_over(stage: Stage) -> bool
    ensures { OnTrue result ((text : List ℕ) (tokens : List Token)
        → after_tokens text stage tokens ≡ stage) }
{
    matches!(stage, Stage::Ended | Stage::Absent)
}

/// How many tokens there are before the last Space token that begins below the place; none where
/// there is no such token.
fn front_len(tokens: &[Token], place: usize) -> usize
    requires rising { (len : ℕ) × Rising 0 len tokens.now }
    ensures front { result ≡ before (restart place tokens.now) tokens.now }
    ensures within { result ≤ length tokens.now }
    ensures found { (result ≡ 0) ⊎ Is (is_space_below place) true tokens.now result }
{
    let mut front = 0;
    for (i, token) in tokens.iter().enumerate() {
        if place <= token.range.start {
            return front;
        }
        if is_space(token.kind) {
            front = i;
        }
    }
    front
}

/// What is told of a text before an edit of it: its length, and how far its header has been read
/// before each token from a number on.
#[derive(Clone, Copy, Debug, PartialEq, Eq)]
struct Before {
    len: usize,
    read: usize,
    stage: Stage,
}

/// How far the header of a text has been read after its first tokens.
fn read_before(text: &[char], tokens: &[Token]) -> Before
    ensures len { result.len ≡ length text.now }
    ensures read { (n : ℕ) → result.read ≤ n
        → after_tokens text.now Stage.Start (take n tokens.now) ≡ result.stage }
    ensures within { result.read ≤ length tokens.now }
{
    let len = text.len();
    let mut stage = Stage::Start;
    for (read, token) in tokens.iter().enumerate() {
        if is_over(stage) {
            return Before { len, read, stage };
        }
        stage = after_token(text, stage, *token);
    }
    Before {
        len,
        read: tokens.len(),
        stage,
    }
}

/// How far the header of a text has been read after these tokens.
fn stage_after(text: &[char], tokens: &[Token]) -> Stage
    ensures { result ≡ after_tokens text.now Stage.Start tokens.now }
{
    read_before(text, tokens).stage
}

/// Gives the tokens of the text, from one of them on, the kinds that they have from a stage of its
/// header on.
fn rename(
    text: &[char],
    aliases: &[Items<char>],
    stage: Stage,
    tokens: &mut Vec<Token>,
    from: usize,
)
    requires { from ≤ length tokens.old.items }
    ensures { tokens.new.items ≡ take from tokens.old.items
        ++ restaged aliases.now text.now stage (drop from tokens.old.items) }
{
    let mut stage = stage;
    for i in from..tokens.len() {
        let token = renamed(text, given(stage, aliases), tokens[i]);
        stage = after_token(text, stage, token);
        tokens[i] = token;
    }
}

/// The boundary at which the token of the number begins; the text's end after the last.
fn boundary_at(len: usize, tokens: &[Token], number: usize) -> usize
    ensures { result ≡ boundary_at len tokens.now number }
{
    match at(tokens, number) {
        Some(token) => token.range.start,
        None => len,
    }
}

/// The number of the first token, from this one on, that begins at the place or past it.
fn first_from(tokens: &[Token], number: usize, place: usize) -> usize
    requires { ArePassed place tokens.now number }
    ensures passed { ArePassed place tokens.now result }
    ensures reached { (len : ℕ) → place ≤ len → place ≤ boundary_at len tokens.now result }
{
    let mut number = number;
    while number < tokens.len() && tokens[number].range.start < place {
        number += 1;
    }
    number
}

/// Whether a boundary of the edited text is a meeting. Goes on to the first old token that doesn't
/// begin before the place that the edit has moved there.
fn meets(len: usize, kept: &[Token], change: Change, next: &mut usize, place: usize) -> bool
    requires rising { Rising 0 len kept.now }
    requires within { moved change.new_end change.old_end place ≤ len }
    requires passed { ArePassed (moved change.new_end change.old_end place) kept.now next.old }
    ensures passed { ArePassed (moved change.new_end change.old_end place) kept.now next.new }
    ensures told { result
        ≡ is_meeting change.old_end change.new_end (boundaries len kept.now) place }
    ensures met { OnTrue result (boundary_at len kept.now next.new
        ≡ moved change.new_end change.old_end place) }
{
    if place < change.new_end {
        return false;
    }
    let was = place - change.new_end + change.old_end;
    *next = first_from(kept, *next, was);
    boundary_at(len, kept, *next) == was
}

/// Whether the header of the old text has been read as far before the old token of the number.
fn is_reached(old: Before, number: usize, stage: Stage) -> bool
    ensures { OnTrue result ((old.read ≤ number) × (stage ≡ old.stage)) }
{
    old.read <= number && stage == old.stage
}

/// No tokens, with room for as many as there were and for what the edit may add.
fn no_tokens(alloc: Global, count: usize, grown: usize) -> Result<Vec<Token>, AllocError>
    ensures { IfOk result (λ v. v.items ≡ []) }
{
    Vec::with_capacity(alloc, count.saturating_add(grown).saturating_add(SPLIT))
}

/// Adds the tokens, moved.
fn push_moved(tokens: &mut Vec<Token>, change: Change, kept: &[Token]) -> Result<(), AllocError>
    requires behind { All (λ t. (change.old_end ≤ t.range.start)
        × (change.old_end ≤ t.range.stop)
        × (moved change.old_end change.new_end t.range.start < 2 ^ 64)
        × (moved change.old_end change.new_end t.range.stop < 2 ^ 64)) kept.now }
    ensures { OnOk result (tokens.new.items
        ≡ tokens.old.items ++ map (moved_token change.old_end change.new_end) kept.now) }
{
    for token in kept {
        tokens.push(change.moved_token(*token))?;
    }
    Ok(())
}

/// The tokens of the edited text: those before the restart are kept, what follows is lexed up to
/// the meeting, and the rest is moved.
fn relex(
    alloc: Global,
    old: &Spans,
    was: Before,
    edit: &Edit,
    text: &[char],
    aliases: &[Items<char>],
    same: bool,
) -> Result<Relexed, AllocError>
    requires edited { IsEdited edit.now old.now was.len was.read was.stage text.now }
    requires same { OnTrue same (old.now.aliases ≡ aliases.now) }
    ensures tokens { IfOk result (λ r. r.tokens.items ≡ tokens_of text.now aliases.now) }
    ensures front { IfOk result (λ r. r.front ≡ front_in edit.now old.now.tokens) }
    ensures back { IfOk result (λ r. r.back
        ≡ back_in edit.now was.len old.now.tokens
        (record { text = text.now; aliases = aliases.now })) }
{
    let kept = old.tokens();
    let change = Change::of(edit);
    let front = front_len(kept, change.start);
    let mut tokens = no_tokens(alloc, kept.len(), text.len().saturating_sub(was.len))?;
    tokens.extend_from_slice(&kept[..front])?;
    if !same {
        rename(text, aliases, Stage::Start, &mut tokens, 0);
    }
    let mut stage = stage_after(text, &tokens);
    let mut place = boundary_at(was.len, kept, front);
    let mut next = front;
    'lexed: while !meets(was.len, kept, change, &mut next, place) {
        let Some(token) = next_token(text, given(stage, aliases), place) else {
            unreachable!()
        };
        tokens.push(token)?;
        stage = after_token(text, stage, token);
        place = token.range.stop;
    }
    let lexed = tokens.len();
    push_moved(&mut tokens, change, &kept[next..])?;
    if !same || !is_reached(was, next, stage) {
        rename(text, aliases, stage, &mut tokens, lexed);
    }
    Ok(Relexed {
        tokens,
        front,
        back: kept.len() - next,
    })
}

/// The edited text with its tokens and spans.
fn recut(
    alloc: Global,
    old: &Spans,
    was: Before,
    edit: &Edit,
    text: Text,
    aliases: &[Items<char>],
) -> Result<Reparsed, AllocError>
    requires { IsEdited edit.now old.now was.len was.read was.stage text }
    ensures text { IfOk result (λ r. r.text ≡ text) }
    ensures spans { IfOk result (λ r. r.spans ≡ cut text aliases.now) }
    ensures front { IfOk result (λ r. r.front ≡ front_in edit.now old.now.tokens) }
    ensures back { IfOk result (λ r. r.back
        ≡ back_in edit.now was.len old.now.tokens (record { text = text; aliases = aliases.now })) }
{
    let same = same_names(old.aliases(), aliases);
    let names = old.names_as(alloc, aliases, same)?;
    let relexed = relex(alloc, old, was, edit, text.as_slice(), aliases, same)?;
    Ok(Reparsed {
        text,
        spans: Spans::of_tokens(alloc, names, relexed.tokens)?,
        front: relexed.front,
        back: relexed.back,
    })
}

/// The text after the edit, in memory of its own, with its tokens and spans under these aliases,
/// which may be others than those of the text before it. Before the last Space token that begins
/// below the edit, and from the first boundary behind the edit at which both texts have one, the
/// tokens are kept: they are not lexed again, and only a word among them may be a command in one
/// text alone. `OutOfRange` and `Differs` come where the edit can't be made, `NoMemory` where
/// memory runs out; the text before it is lent, and stays. This project's own, after the idea of a
/// document model that keeps what an edit leaves alone (Wenzel).
pub fn reparse(
    alloc: Global,
    old: &Spans,
    text: &Text,
    edit: &Edit,
    aliases: &[Items<char>],
) -> Result<Reparsed, EditFault>
    requires { AreCutsOf text.now old.now }
    ensures text { IfOk result (λ r. Applies edit.now text.now r.text) }
    ensures spans { IfOk result (λ r. r.spans ≡ cut r.text aliases.now) }
    ensures front { IfOk result (λ r. r.front ≡ front_of edit.now (cut_text text.now old.now)) }
    ensures back { IfOk result (λ r. r.back
        ≡ back_of edit.now (cut_text text.now old.now) (cut_text r.text r.spans)) }
    ensures out_of_range { (start len : ℕ) → (result ≡ Err (EditFault.OutOfRange start len))
        ↔ IsOutOfRange edit.now text.now start len }
    ensures differs { (at : ℕ) → (result ≡ Err (EditFault.Differs at))
        ↔ DiffersAt edit.now text.now at }
{
    let was = read_before(text.as_slice(), old.tokens());
    match changed(alloc, text, edit) {
        Ok(text) => Ok(recut(alloc, old, was, edit, text, aliases)?),
        Err(fault) => Err(fault),
    }
}

/// The same of a text that is handed over, in its own memory. It is let go where the edit is not
/// made.
pub fn reparse_in_place(
    alloc: Global,
    old: &Spans,
    text: Text,
    edit: &Edit,
    aliases: &[Items<char>],
) -> Result<Reparsed, EditFault>
    requires { AreCutsOf text old.now }
    ensures text { IfOk result (λ r. Applies edit.now text r.text) }
    ensures spans { IfOk result (λ r. r.spans ≡ cut r.text aliases.now) }
    ensures front { IfOk result (λ r. r.front ≡ front_of edit.now (cut_text text old.now)) }
    ensures back { IfOk result (λ r. r.back
        ≡ back_of edit.now (cut_text text old.now) (cut_text r.text r.spans)) }
    ensures out_of_range { (start len : ℕ) → (result ≡ Err (EditFault.OutOfRange start len))
        ↔ IsOutOfRange edit.now text start len }
    ensures differs { (at : ℕ) → (result ≡ Err (EditFault.Differs at))
        ↔ DiffersAt edit.now text at }
{
    let was = read_before(text.as_slice(), old.tokens());
    let mut text = text;
    match apply(&mut text, edit) {
        Ok(()) => Ok(recut(alloc, old, was, edit, text, aliases)?),
        Err(fault) => Err(fault),
    }
}
