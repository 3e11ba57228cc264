//! The lines of a text.
ghost use Rattle.std.specs.Prelude.{◌≡◌, ◌∷◌, [], ◌==◌, ◌<◌, ◌≤◌, IfSome, IfNone, length};
ghost use Rattle.std.specs.List.{list_all, prefix_len, position_or_len};
ghost use Rattle.isar_rules.specs.BlobLines.{is_gap, past_gap, without_cr, lines_of};

/// Whether it is a space or a tab.
fn is_gap(c: char) -> bool
    ensures { result ≡ is_gap c }
{
    c == ' ' || c == '\t'
}

/// Whether the line is spaces and tabs alone.
pub(crate) fn is_gap_line(line: &[char]) -> bool
    ensures { result ≡ list_all is_gap line.now }
{
    line.iter().all(|c| is_gap(*c))
}

/// How many spaces and tabs are at the front.
fn gap_len(text: &[char]) -> usize
    ensures len { result ≡ prefix_len is_gap text.now }
    ensures within { result ≤ length text.now }
{
    let mut n = 0;
    while n < text.len() && is_gap(text[n]) {
        n += 1;
    }
    n
}

/// The text behind the spaces and tabs that it begins with.
pub(crate) fn past_gap(text: &[char]) -> &[char]
    ensures { result.now ≡ past_gap text.now }
{
    &text[gap_len(text)..]
}

/// How many scalars stand before the first LF.
fn line_len(text: &[char]) -> usize
    ensures { result ≡ position_or_len (λ c. c == 10) text.now }
{
    let mut n = 0;
    while n < text.len() && text[n] != '\n' {
        n += 1;
    }
    n
}

/// The line without a CR at its end.
fn without_cr(line: &[char]) -> &[char]
    ensures { result.now ≡ without_cr line.now }
{
    match line {
        [front @ .., last] if *last == '\r' => front,
        _ => line,
    }
}

/// The line at the front, and what stands behind its LF.
pub(crate) fn cut_line(text: &[char]) -> (&[char], Option<&[char]>)
    ensures some { IfSome result.1 (λ more. lines_of text.now ≡ result.0.now ∷ lines_of more.now) }
    ensures shorter { IfSome result.1 (λ more. length more.now < length text.now) }
    ensures none { IfNone result.1 (lines_of text.now ≡ result.0.now ∷ []) }
{
    let n = line_len(text);
    if n < text.len() {
        (without_cr(&text[..n]), Some(&text[n + 1..]))
    } else {
        (text, None)
    }
}
