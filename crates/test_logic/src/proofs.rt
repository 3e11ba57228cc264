//! Facts, proofs, and proof terms.
pub(crate) mod checks;
pub(crate) mod contexts;
pub(crate) mod patience;
pub(crate) mod scopes;
pub(crate) mod scripts;
pub(crate) mod terms;
pub(crate) mod told;
