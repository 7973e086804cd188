//! Scripts: steps that are taken on one value, one after the other.
use omega_calls::{Fault, is_colon, part};
use omega_model::Bytes;
use std::alloc::Global;

/// A value on which the steps of a script are taken.
pub(crate) trait Steps {
    /// Takes a step, and appends its answer.
    fn take(&mut self, alloc: Global, step: &[Bytes], answers: &mut String) -> Result<(), Fault>;
}

/// Takes all steps on a value, which is let go then, and appends their answers, which are parted as the steps
/// are. The value's type is a parameter, since a function that knows the type pays in proof for all that it drops.
pub(crate) fn take_all<S: Steps + Drop>(
    value: S,
    alloc: Global,
    words: &[Bytes],
    answers: &mut String,
) -> Result<(), Fault> {
    let mut value = value;
    for step in words.split(|word| is_colon(word)) {
        part(answers)?;
        value.take(alloc, step, answers)?;
    }
    Ok(())
}
