use crate::xml_name::XmlName;
use crate::xml_string::XmlString;
use sqlite_items::Items;

/// An attribute of an element. Keys may repeat.
#[derive(Debug, Drop)]
pub struct Attribute {
    /// What stands before the `=`.
    pub key: XmlName,
    /// What stands after it; it may be empty.
    pub value: XmlString,
}

/// An element with what stands in it, or a text.
#[derive(Debug, Drop)]
pub enum Tree {
    Elem {
        name: XmlName,
        attributes: Items<Attribute>,
        body: Items<Tree>,
    },
    Text(XmlString),
}

/// What stands in a document or in an element: trees, one after the other.
pub type Body = Items<Tree>;
