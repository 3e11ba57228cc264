ghost use Rattle.theory_ctx.specs.Looked.{name_parts};
ghost use Rattle.theory_ctx.specs.Cited.{HasParts};

/// A name as it is cited.
#[derive(Clone, Copy)]
pub(crate) enum Cited<'a> {
    Plain(&'a str),
    Long { theory: &'a str, name: &'a str },
    /// Of three parts or more.
    Longer,
}

impl<'a> Cited<'a> {
    pub(crate) fn new(text: &'a str) -> Cited<'a>
        ensures { HasParts result (name_parts text.now) }
    {
        match text.split_once('.') {
            None => Cited::Plain(text),
            Some((theory, rest)) => match rest.split_once('.') {
                None => Cited::Long { theory, name: rest },
                Some(_) => Cited::Longer,
            },
        }
    }
}
