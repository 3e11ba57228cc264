//! What the commands of theories and of proofs make of a place: the next place, what is reported,
//! and whether more is worked on; or the text of the error. With them the reports, the texts of
//! errors and of proof states, as values that messages can tell, and the facts that an auxiliary
//! blob lists.
//!
//! Commands are after Isabelle's Isar (Wenzel 1999), kinds of reports after the markup of
//! Isabelle/PIDE, blobs after those of its documents; what each command makes, its errors in their
//! order, the words and the lines of blobs are those of `isar_rules`. A theory and a proof are
//! copied in constant time, and share all that a command leaves. Where a report can't hold a text
//! (one with a byte 5 or 6, or a name that is not in ASCII), the answer is want of memory; that no
//! such text comes of a source is not proved here. It must not know of sources, of tokens, of
//! documents, of workers or of who prints.
#![tactic(auto)]

mod axioms;
mod beginning;
mod commands;
mod effect;
mod fact;
mod facts;
mod fault;
mod halt;
mod line;
mod listing;
mod loading;
mod ordering;
mod proving;
mod refusals;
mod refusing;
mod reports;
mod standing;
mod state_law;
mod state_texts;
mod stepping;
mod texts;
mod theory_refusing;

pub use axioms::{axiom_made, lemma_made};
pub use beginning::begun;
pub use effect::{Effect, makes};
pub use fact::ListedFact;
pub use facts::with_fact;
pub use fault::BlobFault;
pub use halt::Halt;
pub use listing::facts_of;
pub use loading::load_made;
pub use proving::proof_made;
pub use refusals::{formula_in, named_refusal, numbered_refusal, refusal};
pub use reports::{
    announced, def_report, error_report, fixed_report, formula_report, import_report,
    loaded_report, local_report, proved_report, ref_report, state_report, suggest_report,
    theory_report,
};
pub use standing::Lemma;
pub use state_law::one_state_text;
pub use state_texts::state_text;
pub use texts::{ascii, plain};
