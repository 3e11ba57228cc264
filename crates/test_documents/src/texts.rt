//! Texts: their symbols, tokens, headers and spans, and what edits make of them.
pub(crate) mod cut_text;
pub(crate) mod edits;
pub(crate) mod headers;
pub(crate) mod kept;
pub(crate) mod laws;
pub(crate) mod places;
pub(crate) mod spans;
pub(crate) mod symbol_places;
pub(crate) mod text_scripts;
pub(crate) mod tokens;
pub(crate) mod told;
pub(crate) mod walk;
pub(crate) mod whole;
