//! Results of calls that may fail, joined, so that little is owned where a caller may end.
use crate::answers::Answer;
use crate::fault::Fault;

/// Both values, or the first fault.
pub fn joined<A: Drop, B: Drop>(
    one: Result<A, Fault>,
    other: Result<B, Fault>,
) -> Result<(A, B), Fault> {
    let one = one?;
    Ok((one, other?))
}

/// A value, where what it waits for was done.
pub fn once<T: Drop>(done: Answer, value: T) -> Result<T, Fault> {
    done?;
    Ok(value)
}
