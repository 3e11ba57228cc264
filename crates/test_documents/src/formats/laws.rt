//! The laws of formats.
use byte_message::{any_pieces, longer_streams, one_reading, written_is_read};
use script_lines::{Answer, say};
use xml_codec::{
    a_body_encodes_one_value, a_faulty_body_encodes_no_value, bodies_are_normal, bodies_nest,
};
use yxml::{marks_of_joined_bodies, marks_tell_the_body};

/// Calls the laws of streams and of replies.
pub(crate) fn of_streams(out: &mut String) -> Answer {
    one_reading();
    any_pieces();
    longer_streams();
    written_is_read();
    reply_messages::what_is_written_is_read_back();
    say(out, "called")
}

/// Calls the laws of trees, of YXML and of values.
pub(crate) fn of_values(out: &mut String) -> Answer {
    marks_tell_the_body();
    marks_of_joined_bodies();
    yxml::what_is_written_is_read_back();
    yxml::each_text_has_one_answer();
    bodies_are_normal();
    bodies_nest();
    a_body_encodes_one_value();
    a_faulty_body_encodes_no_value();
    say(out, "called")
}
