//! Lines of entries.
ghost use Rattle.std.specs.Prelude.{◌≡◌, ◌<◌, ◌^◌, ◌/◌, ◌%◌, [], ◌∷◌, ◌++◌, codes, length, decimal, IfOk, OnOk};
ghost use Rattle.std.specs.List.{flat_map, slice_index, zip, AllByRecursion};
ghost use Rattle.hex.specs.Hex.{encode_lower, lower_digits, IsBytes};
ghost use Rattle.omega_model.specs.Report.{Name, Number};
ghost use Rattle.omega_keep.specs.KeptLines.{bytes_text, claim_words, entry_text, entry_words, head_words, key_words, keys_words, mode_text, need_words, rule_text, verdict_words, AreKeys, IsAnswered, IsClaim, IsInRange, IsJudgement, IsKey, IsNeed, IsVerdict};
ghost use Rattle.omega_keep.specs.Writing.{more_text, spaced};

use omega_model::{
    Bytes, Claim, Entry, Judgement, Mode, Need, NoMemory, Rule, Seq, TaskKey, Txn, Verdict,
};
use std::alloc::Global;

/// Appends a space and a number.
fn push_number(out: &mut Vec<u8>, number: u64) -> Result<(), NoMemory>
    ensures { OnOk result (out.new.items ≡ out.old.items ++ 32 ∷ decimal number) }
{
    out.push(b' ')?;
    let mut buffer = itoa::Buffer::new();
    out.extend_from_slice(buffer.format(number).as_bytes())?;
    Ok(())
}

/// The same for a number of 32 bits.
fn push_short(out: &mut Vec<u8>, number: u32) -> Result<(), NoMemory>
    ensures { OnOk result (out.new.items ≡ out.old.items ++ 32 ∷ decimal number) }
{
    push_number(out, u64::from(number))
}

/// Appends an amount.
fn push_need(out: &mut Vec<u8>, need: Need) -> Result<(), NoMemory>
    ensures text { OnOk result (out.new.items ≡ out.old.items ++ more_text (need_words need)) }
    ensures range { OnOk result (IsNeed need) }
{
    push_number(out, need.cpu)?;
    push_number(out, need.mem)?;
    push_number(out, need.disk)
}

/// Appends the name of a task.
fn push_key(out: &mut Vec<u8>, key: TaskKey) -> Result<(), NoMemory>
    ensures text { OnOk result (out.new.items ≡ out.old.items ++ more_text (key_words key)) }
    ensures range { OnOk result (IsKey key) }
{
    push_number(out, key.job)?;
    push_short(out, key.index)
}

/// The digits of hexadecimal numbers.
const DIGITS: &[u8; 16] = b"0123456789abcdef";

/// Appends a byte as two digits.
fn push_byte(out: &mut Vec<u8>, byte: u8) -> Result<(), NoMemory>
    ensures text { OnOk result (out.new.items ≡ out.old.items ++ slice_index lower_digits (byte / 16) ∷ slice_index lower_digits (byte % 16) ∷ []) }
    ensures range { OnOk result (byte < 256) }
{
    out.push(DIGITS[usize::from(byte / 16)])?;
    out.push(DIGITS[usize::from(byte % 16)])?;
    Ok(())
}

/// Appends bytes in hexadecimal.
fn push_hexadecimal(out: &mut Vec<u8>, bytes: &[u8]) -> Result<(), NoMemory>
    ensures text { OnOk result (out.new.items ≡ out.old.items ++ encode_lower bytes.now) }
    ensures range { OnOk result (IsBytes bytes.now) }
{
    for byte in bytes {
        push_byte(out, *byte)?;
    }
    Ok(())
}

/// Appends a name or a value in hexadecimal, a dash where it is empty.
fn push_bytes(out: &mut Vec<u8>, bytes: &[u8]) -> Result<(), NoMemory>
    ensures text { OnOk result (out.new.items ≡ out.old.items ++ 32 ∷ bytes_text bytes.now) }
    ensures range { OnOk result (IsBytes bytes.now) }
{
    out.push(b' ')?;
    match bytes {
        [] => {
            out.push(b'-')?;
            Ok(())
        }
        [_, ..] => push_hexadecimal(out, bytes),
    }
}

/// Appends a space and a keyword.
fn push_name(out: &mut Vec<u8>, name: &str) -> Result<(), NoMemory>
    ensures { OnOk result (out.new.items ≡ out.old.items ++ 32 ∷ name.now) }
{
    out.push(b' ')?;
    out.extend_from_slice(name.as_bytes())?;
    Ok(())
}

/// Appends the names of tasks.
fn push_each(out: &mut Vec<u8>, keys: &[TaskKey]) -> Result<(), NoMemory>
    ensures text { OnOk result (out.new.items ≡ out.old.items ++ more_text (flat_map key_words keys.now)) }
    ensures range { OnOk result (AllByRecursion IsKey keys.now) }
{
    for key in keys {
        push_key(out, *key)?;
    }
    Ok(())
}

/// Appends how many tasks there are, and their names.
fn push_keys(out: &mut Vec<u8>, keys: &[TaskKey]) -> Result<(), NoMemory>
    ensures text { OnOk result (out.new.items ≡ out.old.items ++ more_text (keys_words keys.now)) }
    ensures range { OnOk result (AreKeys keys.now) }
{
    push_number(out, keys.len() as u64)?;
    push_each(out, keys)
}

/// Appends the verdict on a claim that is withdrawn, with the place of the claim for which its gang is
/// refused.
fn push_withdrawn(out: &mut Vec<u8>, place: u32) -> Result<(), NoMemory>
    ensures text { OnOk result (out.new.items ≡ out.old.items ++ more_text (Name (codes "withdrawn") ∷ Number place ∷ [])) }
    ensures range { OnOk result (place < 2 ^ 32) }
{
    push_name(out, "withdrawn")?;
    push_short(out, place)
}

/// Appends a verdict.
fn push_verdict(out: &mut Vec<u8>, verdict: Verdict) -> Result<(), NoMemory>
    ensures text { OnOk result (out.new.items ≡ out.old.items ++ more_text (verdict_words verdict)) }
    ensures range { OnOk result (IsVerdict verdict) }
{
    match verdict {
        Verdict::Placed => push_name(out, "placed"),
        Verdict::NoMachine => push_name(out, "no-machine"),
        Verdict::AlreadyRunning(machine) => {
            push_name(out, "running")?;
            push_number(out, machine)
        }
        Verdict::Changed { now, copy } => {
            push_name(out, "changed")?;
            push_number(out, now)?;
            push_number(out, copy)
        }
        Verdict::VictimRank(key) => {
            push_name(out, "victim-rank")?;
            push_key(out, key)
        }
        Verdict::SameJob(key) => {
            push_name(out, "same-job")?;
            push_key(out, key)
        }
        Verdict::Full(free) => {
            push_name(out, "full")?;
            push_need(out, free)
        }
        Verdict::Withdrawn(place) => push_withdrawn(out, place),
    }
}

/// Appends a claim up to its victims.
fn push_head(out: &mut Vec<u8>, claim: &Claim) -> Result<(), NoMemory>
    ensures text { OnOk result (out.new.items ≡ out.old.items ++ more_text (head_words claim.now)) }
    ensures key { OnOk result (IsKey claim.now.key) }
    ensures machine { OnOk result (claim.now.machine < 2 ^ 64) }
    ensures need { OnOk result (IsNeed claim.now.spec.need) }
    ensures prec { OnOk result (claim.now.spec.prec < 2 ^ 8) }
{
    push_name(out, "claim")?;
    push_key(out, claim.key)?;
    push_number(out, claim.machine)?;
    push_need(out, claim.spec.need)?;
    push_number(out, u64::from(claim.spec.prec))?;
    push_number(out, if claim.spec.differ { 1 } else { 0 })
}

/// Appends a claim, and what is answered to it.
fn push_claim(out: &mut Vec<u8>, claim: &Claim, judgement: &Judgement) -> Result<(), NoMemory>
    ensures text { OnOk result (out.new.items ≡ out.old.items ++ more_text (claim_words (claim.now, judgement.now))) }
    ensures claim { OnOk result (IsClaim claim.now) }
    ensures judgement { OnOk result (IsJudgement judgement.now) }
{
    push_head(out, claim)?;
    push_name(out, "victims")?;
    push_keys(out, claim.victims.as_slice())?;
    push_verdict(out, judgement.verdict)?;
    push_name(out, "evicted")?;
    push_keys(out, judgement.evicted.as_slice())
}

/// Appends claims in order, each with what is answered to it.
fn push_claims(out: &mut Vec<u8>, claims: &[Claim], reply: &[Judgement]) -> Result<(), NoMemory>
    requires { length reply.now ≡ length claims.now }
    ensures text { OnOk result (out.new.items ≡ out.old.items ++ more_text (flat_map claim_words (zip claims.now reply.now))) }
    ensures claims { OnOk result (AllByRecursion IsClaim claims.now) }
    ensures reply { OnOk result (AllByRecursion IsJudgement reply.now) }
{
    for i in 0..claims.len() {
        push_claim(out, &claims[i], &reply[i])?;
    }
    Ok(())
}

/// The keyword of a rule.
fn rule_name(rule: Rule) -> &'static str
    ensures { result.now ≡ rule_text rule }
{
    match rule {
        Rule::Fine => "fine",
        Rule::Coarse => "coarse",
    }
}

/// The keyword of a mode.
fn mode_name(mode: Mode) -> &'static str
    ensures { result.now ≡ mode_text mode }
{
    match mode {
        Mode::Incremental => "incremental",
        Mode::Gang => "gang",
    }
}

/// Appends a transaction, with what is answered to its claims.
fn push_txn(out: &mut Vec<u8>, txn: &Txn, reply: &[Judgement]) -> Result<(), NoMemory>
    requires { length reply.now ≡ length txn.now.claims }
    ensures text { OnOk result (out.new.items ≡ out.old.items ++ more_text (Number txn.now.job ∷ Name (rule_text txn.now.rule) ∷ Name (mode_text txn.now.mode) ∷ flat_map claim_words (zip txn.now.claims reply.now))) }
    ensures job { OnOk result (txn.now.job < 2 ^ 64) }
    ensures claims { OnOk result (AllByRecursion IsClaim txn.now.claims) }
    ensures reply { OnOk result (AllByRecursion IsJudgement reply.now) }
{
    push_number(out, txn.job)?;
    push_name(out, rule_name(txn.rule))?;
    push_name(out, mode_name(txn.mode))?;
    push_claims(out, txn.claims.as_slice(), reply)
}

/// Appends the keyword of an entry, and the number behind it.
fn push_first(out: &mut Vec<u8>, name: &[u8], number: u64) -> Result<(), NoMemory>
    ensures text { OnOk result (out.new.items ≡ out.old.items ++ name.now ++ 32 ∷ decimal number) }
    ensures range { OnOk result (number < 2 ^ 64) }
{
    out.extend_from_slice(name)?;
    push_number(out, number)
}

/// Appends the keyword of an entry, a machine and its capacity.
fn push_capacity(out: &mut Vec<u8>, name: &[u8], machine: u64, cap: Need) -> Result<(), NoMemory>
    ensures text { OnOk result (out.new.items ≡ out.old.items ++ name.now ++ more_text (Number machine ∷ need_words cap)) }
    ensures machine { OnOk result (machine < 2 ^ 64) }
    ensures cap { OnOk result (IsNeed cap) }
{
    push_first(out, name, machine)?;
    push_need(out, cap)
}

/// Appends the words of an entry.
fn push_entry(out: &mut Vec<u8>, entry: &Entry) -> Result<(), NoMemory>
    requires { IsAnswered entry.now }
    ensures text { OnOk result (out.new.items ≡ out.old.items ++ spaced (entry_words entry.now)) }
    ensures range { OnOk result (IsInRange entry.now) }
{
    match entry {
        Entry::Round { number } => push_first(out, b"round", *number),
        Entry::MachineAdd { machine, cap } => push_capacity(out, b"add", *machine, *cap),
        Entry::MachineUpdate { machine, cap } => push_capacity(out, b"update", *machine, *cap),
        Entry::MachineRemove { machine } => push_first(out, b"remove", *machine),
        Entry::AttrSet {
            machine,
            name,
            value,
        } => {
            push_first(out, b"set", *machine)?;
            push_bytes(out, name.as_slice())?;
            push_bytes(out, value.as_slice())
        }
        Entry::AttrDelete { machine, name } => {
            push_first(out, b"unset", *machine)?;
            push_bytes(out, name.as_slice())
        }
        Entry::End { key, machine } => {
            out.extend_from_slice(b"end")?;
            push_key(out, *key)?;
            push_number(out, *machine)
        }
        Entry::Commit {
            scheduler,
            seen,
            txn,
            reply,
        } => {
            out.extend_from_slice(b"commit")?;
            push_short(out, *scheduler)?;
            push_number(out, *seen)?;
            push_txn(out, txn, reply.as_slice())
        }
    }
}

/// The line of an entry, without a line feed. A commit has to have as many judgements in its reply as
/// claims. Every entry that a caller can hold is in range, so `read_entry` reads it back from the line.
/// Costs the length of the line, in one buffer.
pub fn entry_line(alloc: Global, entry: &Entry) -> Result<Bytes, NoMemory>
    requires { IsAnswered entry.now }
    ensures line { IfOk result (λ line. line ≡ entry_text entry.now) }
    ensures range { OnOk result (IsInRange entry.now) }
{
    let mut out = Vec::new(alloc);
    push_entry(&mut out, entry)?;
    Ok(Seq::of(out))
}
