//! Texts, edits of them, and where the places of a text are after an edit.
//!
//! A text is a list of Unicode scalars, and places count them from 0. Edits insert or remove a text
//! at a place, and convert offsets to after the edit or revert them to before it. They follow the
//! text edits of Wenzel's PIDE, `Text.Edit` in Isabelle; what a fault tells is this project's own.
//!
//! It must not know tokens, commands, versions, messages or how a text is encoded in bytes.
#![tactic(auto)]

mod change;
mod edit;
mod fault;
mod laws;
mod new_text;
mod offsets;
mod text;

pub use change::apply;
pub use edit::Edit;
pub use fault::EditFault;
pub use laws::{
    a_kept_scalar_is_moved, one_result, places_stay_in_order, places_stay_within,
    revert_undoes_convert,
};
pub use new_text::changed;
pub use offsets::{convert, convert_list, convert_range, convert_range_list, revert, revert_list};
pub use pide_base as pide_base_below;
pub use text::Text;
