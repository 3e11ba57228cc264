//! What a header tells.

use sqlite_items::Items;

/// A keyword pair: a name and the content of its string, escapes replaced.
#[derive(Debug, Drop)]
pub struct KeywordPair {
    pub name: Items<char>,
    pub target: Items<char>,
}

/// A header: the theory's name, and its imports and keyword pairs in their order.
#[derive(Debug, Drop)]
pub struct Header {
    pub name: Items<char>,
    pub imports: Items<Items<char>>,
    pub keywords: Items<KeywordPair>,
}
