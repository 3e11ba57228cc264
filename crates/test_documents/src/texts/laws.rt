//! The laws of texts.
use command_spans::kept_tokens;
use outer_syntax::{one_header, places_are_numbered};
use script_lines::{Answer, say};
use text_edits::{
    a_kept_scalar_is_moved, one_result, places_stay_in_order, places_stay_within,
    revert_undoes_convert,
};

/// Calls the laws of edits and of places.
pub(crate) fn of_places(out: &mut String) -> Answer {
    one_result();
    a_kept_scalar_is_moved();
    revert_undoes_convert();
    places_stay_in_order();
    places_stay_within();
    say(out, "called")
}

/// Calls the laws of symbols, tokens, headers and spans.
pub(crate) fn of_texts(out: &mut String) -> Answer {
    outer_syntax::one_symbol_list();
    places_are_numbered();
    outer_syntax::one_list();
    outer_syntax::symbol_law();
    one_header();
    command_spans::one_list();
    kept_tokens();
    say(out, "called")
}
