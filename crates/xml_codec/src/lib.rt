//! Values as bodies of XML: what a value's body is, and how it is read back.
//!
//! The encoding follows Isabelle's `XML.Encode` and `XML.Decode` (PIDE's data representation); the
//! limit of 18 digits and the places of faults are this project's own. The crate knows trees alone,
//! and none of the texts that spell them.
#![tactic(auto)]

mod fault;
mod laws;
mod leaf;
mod node;
mod number;
mod variant;

pub use fault::DataFault;
pub use laws::{
    a_body_encodes_one_value, a_faulty_body_encodes_no_value, bodies_are_normal, bodies_nest,
};
pub use leaf::{get_bool, get_int, get_string, put_bool, put_int, put_string};
pub use node::{get_list, get_option, get_pair, put_list, put_option, put_pair};
pub use number::{is_short, number_of};
pub use variant::{get_variant, put_variant};
