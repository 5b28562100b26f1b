//! Answers of calls that are made again.

use std::test::Fail;

/// What a call answers that is made again after one allocation was refused: no other one is refused
/// in that run.
pub fn again<T, E: Drop>(answer: Result<T, E>) -> Result<T, Fail> {
    match answer {
        Ok(value) => Ok(value),
        Err(_) => Err("it is refused again".into()),
    }
}
