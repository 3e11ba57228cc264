//! What may be believed, from below to above.
//!
//! The check of proof terms is natural deduction (Gentzen 1935): it finds just the proofs that
//! there are by a relation with a constructor for each rule (`proof_laws`). Theories have just the
//! facts that their commands state, and each follows from the axioms, which are those stated
//! without a proof: no command, no proof and no import brings in anything else (`theory_laws`,
//! `theories`). A proof that is suggested in a text and put in there proves its goal, and leaves
//! the rest as it was: what becomes of a text's commands where any text is put in behind one of
//! them (`insertion`), the tokens of what is written (`lexemes`), names of aliases (`aliases`),
//! texts of suggested proofs, each read again as a proof of its goal (`suggested_texts`), suggested
//! proofs as commands (`commands`), and in a document (`suggestion_laws`).
//!
//! So where no error is seen the theory is sound: of a text that is checked alone (`texts`), which
//! also has just the facts that it states, and of a theory of which an editor sees no error and
//! nothing pending (`documents`). And what an editor sees by messages and bytes alone is what the
//! session shows (`editors`). There is no code here. The laws must not know how markup is written,
//! what keeps a history, how many work on it, or where replies go.
#![tactic(auto)]

mod aliases;
mod commands;
mod documents;
mod editors;
mod insertion;
mod lexemes;
mod proof_laws;
mod suggested_texts;
mod suggestion_laws;
mod texts;
mod theories;
mod theory_laws;

pub use aliases::{headers_law, names_law};
pub use commands::{citable_states, suggested_by};
pub use documents::{sound_law, theory_law};
pub use editors::editor_law;
pub use insertion::insertion_law;
pub use lexemes::written_tokens;
pub use proof_laws::{proves_law, small_law};
pub use suggested_texts::{alike_terms, suggested_command, suggested_proof};
pub use suggestion_laws::{document_law, edited_law, suggest_law};
pub use texts::{sound_text_law, text_theory_law};
pub use theories::facts_law;
pub use theory_laws::{alone_law, node_law, sound_facts_law};
