//! Numbers in text: the calls of `omega_units`.
use omega_calls::Fault;
use omega_model::Bytes;
use omega_units::{Rounding, read_quantity, read_u64};
use std::alloc::Global;

/// `quantity TEXT`: its units, rounded up and down. `number TEXT`: the whole number.
pub(crate) fn answer(alloc: Global, call: &str, words: &[Bytes]) -> Result<String, Fault> {
    match (call, words) {
        ("quantity", [text]) => quantity(alloc, text.as_slice()),
        ("number", [text]) => whole(alloc, text.as_slice()),
        _ => Err(Fault::UnknownCall),
    }
}

/// A quantity, rounded up and rounded down.
fn quantity(alloc: Global, text: &[u8]) -> Result<String, Fault> {
    let up = read_quantity(text, Rounding::Up);
    let down = read_quantity(text, Rounding::Down);
    Ok(format!(in alloc; "up {up:?} down {down:?}")?)
}

/// A whole number.
fn whole(alloc: Global, text: &[u8]) -> Result<String, Fault> {
    let number = read_u64(text);
    Ok(format!(in alloc; "{number:?}")?)
}
