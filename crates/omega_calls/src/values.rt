//! What words say: texts, numbers, amounts. A word that says no such thing is refused as `UnknownCall`.
ghost use Rattle.std.specs.Prelude.{◌≡◌, ◌∷◌, ◌↔◌, true, [], Some, IfOk, IfErr, IsTrue, codes, if◌then◌else◌};
ghost use Rattle.std.specs.List.{after_first, before_first};
ghost use Rattle.omega_model.specs.Numbers.{whole};
ghost use Rattle.omega_calls.specs.Refusals.{is_of_words};
ghost use Rattle.omega_calls.specs.Words.{IsClaim, IsKey, IsNeed, IsSpec, is_comma, is_slash};

use crate::fault::Fault;
use omega_model::{
    Bytes, Claim, Constraint, Copied, Extra, GREATEST_QUANTITY, Keys, Need, Op, Spec, TaskKey,
};
use omega_units::read_u64;
use std::alloc::Global;
use std::str;

/// The greatest amount that a table may say: 1000 of each component, in units of 10^-9.
pub const GREATEST: Need = Need {
    cpu: GREATEST_QUANTITY,
    mem: GREATEST_QUANTITY,
    disk: GREATEST_QUANTITY,
};

/// A text in UTF-8.
pub fn text(word: &Bytes) -> Result<&str, Fault>
    ensures value { IfOk result (λ text. text.now ≡ word.now) }
    ensures refusals { IfErr result (λ fault. is_of_words fault ≡ true) }
{
    match str::from_utf8(word.as_slice()) {
        Ok(text) => Ok(text),
        Err(_) => Err(Fault::UnknownCall),
    }
}

/// A whole number below 2^64.
pub fn number(word: &Bytes) -> Result<u64, Fault>
    ensures value { IfOk result (λ number. whole word.now ≡ Some number) }
    ensures refusals { IfErr result (λ fault. is_of_words fault ≡ true) }
{
    match read_u64(word.as_slice()) {
        Ok(number) => Ok(number),
        Err(_) => Err(Fault::UnknownCall),
    }
}

/// A whole number below 2^32.
pub fn small(word: &Bytes) -> Result<u32, Fault>
    ensures value { IfOk result (λ number. whole word.now ≡ Some number) }
    ensures refusals { IfErr result (λ fault. is_of_words fault ≡ true) }
{
    narrow(number(word)?)
}

/// This number, if it is below 2^32.
fn narrow(number: u64) -> Result<u32, Fault>
    ensures value { IfOk result (λ small. small ≡ number) }
    ensures refusals { IfErr result (λ fault. is_of_words fault ≡ true) }
{
    match u32::try_from(number) {
        Ok(number) => Ok(number),
        Err(_) => Err(Fault::UnknownCall),
    }
}

/// A whole number below 2^8.
pub fn byte(word: &Bytes) -> Result<u8, Fault>
    ensures value { IfOk result (λ number. whole word.now ≡ Some number) }
    ensures refusals { IfErr result (λ fault. is_of_words fault ≡ true) }
{
    byte_of(text(word)?)
}

/// A whole number below 2^8 in a text.
fn byte_of(text: &str) -> Result<u8, Fault>
    ensures value { IfOk result (λ number. whole text.now ≡ Some number) }
    ensures refusals { IfErr result (λ fault. is_of_words fault ≡ true) }
{
    match u8::try_from(units(text)?) {
        Ok(byte) => Ok(byte),
        Err(_) => Err(Fault::UnknownCall),
    }
}

/// A place in a list, from 0.
pub fn place(word: &Bytes) -> Result<usize, Fault>
    ensures value { IfOk result (λ number. whole word.now ≡ Some number) }
    ensures refusals { IfErr result (λ fault. is_of_words fault ≡ true) }
{
    match usize::try_from(number(word)?) {
        Ok(place) => Ok(place),
        Err(_) => Err(Fault::UnknownCall),
    }
}

/// An amount, as `CPU,MEMORY,DISK`, each in whole units of 10^-9.
pub fn need(word: &Bytes) -> Result<Need, Fault>
    ensures value { IfOk result (λ need. IsNeed word.now need) }
    ensures refusals { IfErr result (λ fault. is_of_words fault ≡ true) }
{
    let (cpu, rest) = parted(text(word)?)?;
    let (mem, disk) = parted(rest)?;
    Ok(Need {
        cpu: units(cpu)?,
        mem: units(mem)?,
        disk: units(disk)?,
    })
}

/// What stands before the first comma of a text, and what stands behind it.
fn parted(text: &str) -> Result<(&str, &str), Fault>
    ensures before { IfOk result (λ parts. parts.0.now ≡ before_first is_comma text.now) }
    ensures behind { IfOk result (λ parts. parts.1.now ≡ after_first is_comma text.now) }
    ensures refusals { IfErr result (λ fault. is_of_words fault ≡ true) }
{
    match text.split_once(',') {
        Some(parts) => Ok(parts),
        None => Err(Fault::UnknownCall),
    }
}

/// One component of an amount.
fn units(text: &str) -> Result<u64, Fault>
    ensures value { IfOk result (λ number. whole text.now ≡ Some number) }
    ensures refusals { IfErr result (λ fault. is_of_words fault ≡ true) }
{
    match read_u64(text.as_bytes()) {
        Ok(units) => Ok(units),
        Err(_) => Err(Fault::UnknownCall),
    }
}

/// Whether a word is the one that parts a line's steps.
pub fn is_colon(word: &Bytes) -> bool
    ensures { IsTrue result ↔ (word.now ≡ 58 ∷ []) }
{
    matches!(word.as_slice(), [b':'])
}

/// The name of a task, as `JOB.INDEX`.
pub fn task(word: &Bytes) -> Result<TaskKey, Fault>
    ensures value { IfOk result (λ key. IsKey word.now key) }
    ensures refusals { IfErr result (λ fault. is_of_words fault ≡ true) }
{
    task_of(text(word)?)
}

/// The name of a task in a text.
fn task_of(text: &str) -> Result<TaskKey, Fault>
    ensures value { IfOk result (λ key. IsKey text.now key) }
    ensures refusals { IfErr result (λ fault. is_of_words fault ≡ true) }
{
    let Some((job, index)) = text.split_once('.') else {
        return Err(Fault::UnknownCall);
    };
    Ok(TaskKey {
        job: units(job)?,
        index: narrow(units(index)?)?,
    })
}

/// The names of tasks, parted by commas, or `-` for none.
pub fn tasks(alloc: Global, word: &Bytes) -> Result<Keys, Fault>
    ensures refusals { IfErr result (λ fault. is_of_words fault ≡ true) }
{
    let mut keys = Keys::new(alloc);
    let text = text(word)?;
    if text == "-" {
        return Ok(keys);
    }
    for name in text.split(',') {
        keys.push(task_of(name)?)?;
    }
    Ok(keys)
}

/// What a task asks for, of two words: an amount, and the precedence, which has `/differ` behind it
/// where no other task of the job may share the machine.
pub fn spec(amount: &Bytes, prec: &Bytes) -> Result<Spec, Fault>
    ensures value { IfOk result (λ spec. IsSpec amount.now prec.now spec) }
    ensures refusals { IfErr result (λ fault. is_of_words fault ≡ true) }
{
    let need = need(amount)?;
    let (prec, differ) = marked(text(prec)?)?;
    Ok(Spec {
        need,
        prec: byte_of(prec)?,
        differ,
    })
}

/// A text without the `/differ` behind it, and whether it has one.
fn marked(text: &str) -> Result<(&str, bool), Fault>
    ensures before { IfOk result (λ parts. parts.0.now ≡ before_first is_slash text.now) }
    ensures behind { IfOk result (λ parts. after_first is_slash text.now ≡ (if parts.1 then codes "differ" else [])) }
    ensures refusals { IfErr result (λ fault. is_of_words fault ≡ true) }
{
    match text.split_once('/') {
        Some((text, "differ")) => Ok((text, true)),
        Some(_) => Err(Fault::UnknownCall),
        None => Ok((text, false)),
    }
}

/// A claim of five words: the task's name, the machine, the two words of `spec`, and the victims as
/// `tasks` takes them.
pub fn claim(alloc: Global, words: &[Bytes]) -> Result<Claim, Fault>
    ensures value { IfOk result (λ claim. IsClaim words.now claim) }
    ensures refusals { IfErr result (λ fault. is_of_words fault ≡ true) }
{
    let [key, machine, amount, prec, victims] = words else {
        return Err(Fault::UnknownCall);
    };
    Ok(Claim {
        key: task(key)?,
        machine: number(machine)?,
        spec: spec(amount, prec)?,
        victims: tasks(alloc, victims)?,
    })
}

/// A constraint of three words: an attribute's name, one of `=`, `!=`, `<` and `>`, and a value.
pub fn constraint_of(
    alloc: Global,
    name: &Bytes,
    op: &Bytes,
    value: &Bytes,
) -> Result<Constraint, Fault>
    ensures name { IfOk result (λ constraint. constraint.name ≡ name.now) }
    ensures value { IfOk result (λ constraint. constraint.value ≡ value.now) }
    ensures refusals { IfErr result (λ fault. is_of_words fault ≡ true) }
{
    Ok(Constraint {
        op: op_of(op)?,
        name: name.copy(alloc)?,
        value: value.copy(alloc)?,
    })
}

/// The operator of a word.
fn op_of(word: &Bytes) -> Result<Op, Fault>
    ensures refusals { IfErr result (λ fault. is_of_words fault ≡ true) }
{
    match text(word)? {
        "=" => Ok(Op::Equal),
        "!=" => Ok(Op::NotEqual),
        "<" => Ok(Op::Less),
        ">" => Ok(Op::Greater),
        _ => Err(Fault::UnknownCall),
    }
}

/// Which extra tasks a word allows: `max`, `relative`, or the percentage of `Extra::Cap`.
pub fn policy_of(word: &Bytes) -> Result<Extra, Fault>
    ensures refusals { IfErr result (λ fault. is_of_words fault ≡ true) }
{
    match text(word)? {
        "max" => Ok(Extra::Max),
        "relative" => Ok(Extra::Relative),
        _ => Ok(Extra::Cap(small(word)?)),
    }
}
