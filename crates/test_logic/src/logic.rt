//! Formulas and natural deduction: which formulas are the same, how texts are cut, read and
//! printed, and what each rule makes of its premises.
pub(crate) mod formulas;
pub(crate) mod laws;
pub(crate) mod making;
pub(crate) mod marks;
pub(crate) mod printing;
pub(crate) mod reading;
pub(crate) mod rule_calls;
pub(crate) mod theorems;
