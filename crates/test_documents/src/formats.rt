//! Formats: byte messages, YXML and the values in it, what editors ask, and replies.
pub(crate) mod asked_messages;
pub(crate) mod bodies;
pub(crate) mod frames;
pub(crate) mod laws;
pub(crate) mod lent;
pub(crate) mod made_values;
pub(crate) mod messages;
pub(crate) mod replies;
pub(crate) mod shown;
pub(crate) mod told_replies;
pub(crate) mod values;
pub(crate) mod yxml_texts;
