ghost use Rattle.std.specs.Prelude.{◌≡◌, ◌≢◌, [], ◌∷◌, Some, None, Ok, Err, IfOk, IfErr};
ghost use Rattle.std.specs.List.{slice_split};
ghost use Rattle.yxml.specs.Marks.{opening};
ghost use Rattle.yxml.specs.Reading.{attribute_of, attributes_of, tag_said, is_y};

use crate::cut::cut_at_y;
use crate::fault::YxmlFault;
use crate::tree::Attribute;
use crate::xml_name::XmlName;
use crate::xml_string::XmlString;
use sqlite_items::Items;
use std::alloc::Global;

/// The name and the attributes of an element.
#[derive(Drop)]
pub(crate) struct Tag {
    pub(crate) name: XmlName,
    pub(crate) attributes: Items<Attribute>,
}

/// The tag of a chunk that begins at `at`: `text` is what follows its first byte 6.
pub(crate) fn read_tag(alloc: Global, text: &str, at: usize) -> Result<Tag, YxmlFault>
    requires { text.now ≢ [] }
    ensures ok { IfOk result (λ tag. tag_said at (slice_split is_y text.now)
        ≡ Ok (opening tag.name tag.attributes ∷ [])) }
    ensures err { IfErr result (λ f. f ≢ YxmlFault.NoMemory
        → tag_said at (slice_split is_y text.now) ≡ Err f) }
{
    match cut_at_y(text) {
        None => {
            let name = XmlName::from_str(alloc, text)?;
            let attributes = Items::new(alloc);
            Ok(Tag { name, attributes })
        }
        Some((name, more)) => {
            if name.is_empty() {
                return Err(YxmlFault::BadTag { at });
            }
            let name = XmlName::from_str(alloc, name)?;
            let attributes = read_attributes(alloc, more, at)?;
            Ok(Tag { name, attributes })
        }
    }
}

/// The attributes of a tag: `text` is what follows the byte 6 after its name.
fn read_attributes(alloc: Global, text: &str, at: usize) -> Result<Items<Attribute>, YxmlFault>
    ensures ok { IfOk result (λ read. attributes_of (slice_split is_y text.now) ≡ Some read) }
    ensures err { IfErr result (λ f. f ≢ YxmlFault.NoMemory
        → (f ≡ YxmlFault.BadAttribute at) × (attributes_of (slice_split is_y text.now) ≡ None)) }
{
    let mut attributes = Items::new(alloc);
    let mut rest = text;
    while let Some((first, more)) = cut_at_y(rest) {
        let attribute = read_attribute(alloc, first, at)?;
        attributes.push(attribute)?;
        rest = more;
    }
    let last = read_attribute(alloc, rest, at)?;
    attributes.push(last)?;
    Ok(attributes)
}

/// One attribute, cut at its first `=`.
fn read_attribute(alloc: Global, text: &str, at: usize) -> Result<Attribute, YxmlFault>
    ensures ok { IfOk result (λ read. attribute_of text.now ≡ Some read) }
    ensures err { IfErr result (λ f. f ≢ YxmlFault.NoMemory
        → (f ≡ YxmlFault.BadAttribute at) × (attribute_of text.now ≡ None)) }
{
    match text.split_once('=') {
        Some((key, value)) => {
            if key.is_empty() {
                return Err(YxmlFault::BadAttribute { at });
            }
            let key = XmlName::from_str(alloc, key)?;
            let value = XmlString::from_str(alloc, value)?;
            Ok(Attribute { key, value })
        }
        None => Err(YxmlFault::BadAttribute { at }),
    }
}
