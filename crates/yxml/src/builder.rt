ghost use Rattle.std.specs.Prelude.{◌≡◌, ◌≢◌, ◌+◌, ◌∷◌, [], ◌++◌, length, IfOk, OnOk};

use crate::tree::{Attribute, Body, Tree};
use crate::xml_name::XmlName;
use crate::xml_string::XmlString;
use sqlite_items::Items;
use std::alloc::{AllocError, Global};
use std::mem;

/// An element that is open: what stands before it in its parent, its name and its attributes.
#[derive(Drop)]
pub(crate) struct Frame {
    before: Body,
    name: XmlName,
    attributes: Items<Attribute>,
}

/// The trees of what has been read: the elements that are open, outermost first, what the innermost
/// holds, and the text that goes on.
#[derive(Drop)]
pub(crate) struct Builder {
    stack: Items<Frame>,
    body: Body,
    text: XmlString,
}

impl Builder {
    ghost use Rattle.yxml.specs.Marks.{marks, opening, closing, words};
    ghost use Rattle.yxml.specs.Builder.{HasRead, flat, with_text, IsSettled, base};

    pub(crate) fn new(alloc: Global) -> Builder
        ensures empty { flat result ≡ [] }
        ensures settled { IsSettled (base result) }
        ensures depth { length result.stack ≡ 0 }
    {
        Builder {
            stack: Items::new(alloc),
            body: Items::new(alloc),
            text: XmlString::new(alloc),
        }
    }

    /// How many elements are open.
    pub(crate) fn depth(&self) -> usize
        ensures { result ≡ length self.now.stack }
    {
        self.stack.len()
    }

    /// The text that went on ends here.
    pub(crate) fn end_text(&mut self, alloc: Global) -> Result<(), AllocError>
        ensures { OnOk result (self.new
            ≡ record self.old { body = with_text self.old.body self.old.text; text = [] }) }
    {
        if self.text.is_empty() {
            return Ok(());
        }
        let text = mem::replace(&mut self.text, XmlString::new(alloc));
        self.body.push(Tree::Text(text))
    }

    /// More text, which joins the text before it.
    pub(crate) fn add_text(&mut self, text: &str) -> Result<(), AllocError>
        requires { text.now ≢ [] }
        ensures { OnOk result (HasRead self.old self.new (words text.now ∷ [])) }
    {
        self.text.push_str(text)
    }

    pub(crate) fn open(
        &mut self,
        alloc: Global,
        name: XmlName,
        attributes: Items<Attribute>,
    ) -> Result<(), AllocError>
        ensures { OnOk result (HasRead self.old self.new (opening name attributes ∷ [])) }
    {
        self.end_text(alloc)?;
        let before = mem::replace(&mut self.body, Items::new(alloc));
        self.stack.push(Frame {
            before,
            name,
            attributes,
        })
    }

    /// Closes the innermost element.
    pub(crate) fn close(&mut self, alloc: Global) -> Result<(), AllocError>
        requires { length self.old.stack ≢ 0 }
        ensures { OnOk result (HasRead self.old self.new (closing ∷ [])) }
    {
        self.end_text(alloc)?;
        let Some(frame) = self.stack.pop() else {
            return Ok(());
        };
        let Frame {
            before,
            name,
            attributes,
        } = frame;
        let body = mem::replace(&mut self.body, before);
        self.body.push(Tree::Elem {
            name,
            attributes,
            body,
        })
    }

    /// What has been read, where no element is open.
    pub(crate) fn finish(self, alloc: Global) -> Result<Body, AllocError>
        requires { length self.stack ≡ 0 }
        ensures { IfOk result (λ body. marks body ≡ flat self) }
    {
        let mut builder = self;
        builder.end_text(alloc)?;
        Ok(builder.body)
    }
}
