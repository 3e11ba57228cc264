//! Elements at the front of a text, by their bytes.
ghost use Rattle.std.specs.Prelude.{◌≡◌, ◌≢◌, ◌<◌, ◌≤◌, ◌++◌, ◌∷◌, ℕ, List, length, drop, MatchOption};
ghost use Rattle.yxml.specs.Normal.{Lacks};
ghost use Rattle.reply_messages.specs.Marks.{Begins, element_bytes};

/// Where a node of data begins: the tag of an element `:`.
pub(crate) const BEGIN: &str = "\u{5}\u{6}:\u{5}";

/// Where it ends.
pub(crate) const END: &str = "\u{5}\u{6}\u{5}";

/// What follows the front, where the text begins with it.
pub(crate) fn after<'a>(text: &'a [u8], front: &str) -> Option<&'a [u8]>
    ensures { MatchOption result ((rest : List ℕ) → text.now ≢ front.now ++ rest)
        (λ rest. text.now ≡ front.now ++ rest.now) }
{
    text.strip_prefix(front.as_bytes())
}

/// What stands before the first such byte, and what begins with it.
pub(crate) fn cut(text: &[u8], byte: u8) -> (&[u8], &[u8])
    ensures whole { text.now ≡ result.0.now ++ result.1.now }
    ensures before { Lacks byte result.0.now }
    ensures behind { Begins byte result.1.now }
{
    'bytes: for place in 0..text.len() {
        if text[place] == byte {
            return (&text[..place], &text[place..]);
        }
    }
    (text, &[])
}

/// An element around a text, without other elements.
#[derive(Clone, Copy)]
pub(crate) struct Element<'a> {
    pub(crate) tag: &'a [u8],
    pub(crate) text: &'a [u8],
    pub(crate) rest: &'a [u8],
}

/// The element at the front of the text, and what follows it.
pub(crate) fn element_at(text: &[u8]) -> Option<Element<'_>>
    ensures { MatchOption result
        ((tag inside rest : List ℕ) → Lacks 5 tag → Lacks 5 inside
        → text.now ≢ element_bytes tag inside ++ rest)
        (λ e. Lacks 5 e.tag.now × Lacks 5 e.text.now
        × (text.now ≡ element_bytes e.tag.now e.text.now ++ e.rest.now)) }
{
    let Some(inner) = after(text, "\u{5}\u{6}") else {
        return None;
    };
    let (tag, behind_tag) = cut(inner, 5);
    let Some(inside) = after(behind_tag, "\u{5}") else {
        return None;
    };
    let (text, behind_text) = cut(inside, 5);
    let Some(rest) = after(behind_text, END) else {
        return None;
    };
    Some(Element { tag, text, rest })
}
