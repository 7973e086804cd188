//! Placement constraints: the calls of `omega_attrs`.
use omega_attrs::{eligible, holds};
use omega_calls::{Fault, constraint_of};
use omega_model::{Attr, Attrs, Bytes, Constraint, Constraints, Copied, Seq};
use std::alloc::Global;

/// `holds NAME OPERATOR VALUE on NAME VALUE ..`: whether a constraint holds of a machine with these
/// attributes. `eligible NAME OPERATOR VALUE .. on NAME VALUE ..`: whether all of them do.
pub(crate) fn answer(alloc: Global, call: &str, words: &[Bytes]) -> Result<String, Fault> {
    let (wanted, set) = parted(words);
    let attrs = attrs_of(alloc, set)?;
    let found = answer_on(alloc, call, wanted, &attrs);
    shown(alloc, found)
}

/// What a call answers of a machine with these attributes.
fn answer_on(alloc: Global, call: &str, wanted: &[Bytes], attrs: &Attrs) -> Result<bool, Fault> {
    match (call, wanted) {
        ("holds", [name, op, value]) => Ok(holds(&constraint_of(alloc, name, op, value)?, attrs)),
        ("eligible", _) => Ok(eligible(&constraints_of(alloc, wanted)?, attrs)),
        _ => Err(Fault::UnknownCall),
    }
}

/// An answer as text.
fn shown(alloc: Global, found: Result<bool, Fault>) -> Result<String, Fault> {
    let found = found?;
    Ok(format!(in alloc; "{found}")?)
}

/// The words before the first that is `on`, and those behind it.
fn parted(words: &[Bytes]) -> (&[Bytes], &[Bytes]) {
    match words
        .iter()
        .position(|word| word.as_slice() == b"on".as_slice())
    {
        Some(place) => (&words[..place], words.get(place + 1..).unwrap_or(&[])),
        None => (words, &[]),
    }
}

/// Attributes, each of a name and a value.
fn attrs_of(alloc: Global, words: &[Bytes]) -> Result<Attrs, Fault> {
    let mut attrs = Seq::new(alloc);
    for pair in words.chunks(2) {
        attrs.push(attr_of(alloc, pair)?)?;
    }
    Ok(attrs)
}

/// An attribute, of a name and a value.
fn attr_of(alloc: Global, words: &[Bytes]) -> Result<Attr, Fault> {
    let [name, value] = words else {
        return Err(Fault::UnknownCall);
    };
    Ok(Attr {
        name: name.copy(alloc)?,
        value: value.copy(alloc)?,
    })
}

/// Constraints, each of a name, an operator and a value.
fn constraints_of(alloc: Global, words: &[Bytes]) -> Result<Constraints, Fault> {
    let mut constraints = Seq::new(alloc);
    for triple in words.chunks(3) {
        constraints.push(constraint(alloc, triple)?)?;
    }
    Ok(constraints)
}

/// A constraint, of a name, an operator and a value.
fn constraint(alloc: Global, words: &[Bytes]) -> Result<Constraint, Fault> {
    let [name, op, value] = words else {
        return Err(Fault::UnknownCall);
    };
    constraint_of(alloc, name, op, value)
}
