//! What an editor can ask, and the byte messages that ask it; and values read from the bodies that
//! encode them: which value a body encodes, as a function, and one reader for each shape.
//!
//! Versions, edits, perspectives, executions and their removal are those of Wenzel, "Asynchronous
//! User Interaction and Tool Integration in Isabelle/PIDE" (ITP 2014); the functions' names, their
//! arguments, the refusals and their order are this project's own. Data is in Isabelle's XML
//! encoding (`XML.Encode`, `XML.Decode`), in YXML (The Isabelle System Manual, "YXML").
//!
//! Bodies are lent from the text that spells them, so that values are read off a text with no tree
//! in between. A text is judged once and takes no memory; after that an element costs the walk to
//! its end tag. A fault is told without its place. The crate must not know the document that is
//! asked about, nor any reply.
#![tactic(auto)]

mod attributes;
mod body;
mod cut;
mod editor_message;
mod fault;
mod first_fault;
mod function;
mod item;
mod laws;
mod leaf;
mod mark;
mod mode;
mod number;
mod protocol;
mod refusal;
mod shape;
mod shape_laws;
mod shapes;
mod variant;
mod words;
mod worker;

pub use attributes::{LentAttribute, LentAttributes};
pub use body::{LentBody, LentElement};
pub use editor_message::EditorMessage;
pub use fault::ShapeFault;
pub use function::Function;
pub use item::{BlobChange, Change, Item, Perspective};
pub use laws::a_message_is_asked_where_it_is_spelled;
pub use leaf::{number_in, option_of, pair_of, string_of};
pub use mode::Mode;
pub use number::number_of;
pub use protocol::Protocol;
pub use refusal::Refusal;
pub use shape::{Shape, list_of, optional_of};
pub use shape_laws::{parts_are_found_where_they_are_put, values_are_found_where_they_are_encoded};
pub use variant::{Variant, variant_of};
pub use worker::{MOST_WORKERS, Worker};
