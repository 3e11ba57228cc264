//! Contexts of facts: what a theory sees, and which fact a name means there.
//!
//! A theory sees its own facts and those of its imports, after the contexts of Isabelle's theories;
//! the rules of lookup are this project's own, and stand in `specs/`. It must not know text, proof
//! terms or threads.
#![tactic(auto)]

mod called;
mod cited;
mod ctx;
mod fact_name;
mod inner_scope;
mod key;
mod laws;
mod local;
mod locals;
mod lookup;
mod name_set;
mod naming;
mod scope;
mod scope_locals;

pub use ctx::{AddError, Ctx};
pub use fact_name::FactName;
pub use inner_scope::InnerScope;
pub use laws::{local_law, merge_law, order_law};
pub use local::Local;
pub use locals::Locals;
pub use lookup::{LongName, Lookup};
pub use name_set::NameSet;
pub use naming::{add_law, ambiguous_law};
pub use scope::Scope;
pub use scope_locals::ScopeLocals;
