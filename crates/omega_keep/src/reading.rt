//! Entries read from lines, word by word. More is taken than lines of entries: keywords inside a
//! commit aren't looked at, and numbers may have leading zeros. `read_entry` writes what was read
//! again, and compares.
ghost use Rattle.std.specs.Prelude.{◌≡◌, IfOk, length};
ghost use Rattle.omega_keep.specs.KeptLines.{IsAnswered};
ghost use Rattle.omega_keep.specs.Reading.{Gives, number_at, short_at, need_at, key_at, bytes_of, bytes_at, round_at, add_at, update_at, remove_at, set_at, unset_at, end_at, tiny_at, keys_from, keys_at, rule_of, mode_of, running_at, changed_at, rank_at, same_at, full_at, withdrawn_at, verdict_named, verdict_at, claim_at, judgement_at, claims_from, claims_at, commit_at, entry_named, entry_at};

use crate::read_stop::ReadStop;
use crate::words::cut;
use hex::FromHexError;
use omega_model::{
    Bytes, Claim, Claims, Entry, Judgement, Judgements, Keys, Mode, Need, Rule, Seq, Spec, TaskKey,
    Txn, Verdict,
};
use omega_units::read_u64;
use std::alloc::Global;

/// The number that begins a text, and what stands behind it.
#[tactic(auto, unfolding(crate::specs::Reading::number_at))]
fn number_at(text: &[u8]) -> Result<(u64, &[u8]), ReadStop>
    ensures { Gives (λ x. (x.0, x.1.now)) result (number_at text.now) }
{
    let (word, rest) = cut(text);
    match read_u64(word) {
        Ok(number) => Ok((number, rest)),
        Err(_) => Err(ReadStop::NoLine),
    }
}

/// The number below 2^32 that begins a text, and what stands behind it.
#[tactic(auto, unfolding(crate::specs::Reading::short_at))]
fn short_at(text: &[u8]) -> Result<(u32, &[u8]), ReadStop>
    ensures { Gives (λ x. (x.0, x.1.now)) result (short_at text.now) }
{
    let (number, rest) = number_at(text)?;
    if number > 4_294_967_295 {
        return Err(ReadStop::NoLine);
    }
    Ok((number as u32, rest))
}

/// The amount that begins a text, and what stands behind it.
#[tactic(auto, unfolding(crate::specs::Reading::need_at))]
fn need_at(text: &[u8]) -> Result<(Need, &[u8]), ReadStop>
    ensures { Gives (λ x. (x.0, x.1.now)) result (need_at text.now) }
{
    let (cpu, rest) = number_at(text)?;
    let (mem, rest) = number_at(rest)?;
    let (disk, rest) = number_at(rest)?;
    Ok((Need { cpu, mem, disk }, rest))
}

/// The name of a task that begins a text.
#[tactic(auto, unfolding(crate::specs::Reading::key_at))]
fn key_at(text: &[u8]) -> Result<(TaskKey, &[u8]), ReadStop>
    ensures { Gives (λ x. (x.0, x.1.now)) result (key_at text.now) }
{
    let (job, rest) = number_at(text)?;
    let (index, rest) = short_at(rest)?;
    Ok((TaskKey { job, index }, rest))
}

/// The bytes of a word.
#[tactic(auto, unfolding(crate::specs::Reading::bytes_of))]
fn bytes_of(alloc: Global, word: &[u8]) -> Result<Bytes, ReadStop>
    ensures { Gives (λ x. x) result (bytes_of word.now) }
{
    if word == b"-".as_slice() {
        return Ok(Seq::new(alloc));
    }
    match hex::decode(alloc, word) {
        Ok(bytes) => Ok(Seq::of(bytes)),
        Err(FromHexError::OutOfMemory) => Err(ReadStop::OutOfMemory),
        Err(_) => Err(ReadStop::NoLine),
    }
}

/// The name or value that begins a text.
#[tactic(auto, unfolding(crate::specs::Reading::bytes_at))]
fn bytes_at(alloc: Global, text: &[u8]) -> Result<(Bytes, &[u8]), ReadStop>
    ensures { Gives (λ x. (x.0, x.1.now)) result (bytes_at text.now) }
{
    let (word, rest) = cut(text);
    let bytes = bytes_of(alloc, word)?;
    Ok((bytes, rest))
}

/// The entry of a round, behind its keyword.
#[tactic(auto, unfolding(crate::specs::Reading::round_at))]
fn round_at(text: &[u8]) -> Result<Entry, ReadStop>
    ensures value { Gives (λ x. x) result (round_at text.now) }
    ensures answered { IfOk result IsAnswered }
{
    let (number, _) = number_at(text)?;
    Ok(Entry::Round { number })
}

/// That of a machine that is added.
#[tactic(auto, unfolding(crate::specs::Reading::add_at))]
fn add_at(text: &[u8]) -> Result<Entry, ReadStop>
    ensures value { Gives (λ x. x) result (add_at text.now) }
    ensures answered { IfOk result IsAnswered }
{
    let (machine, rest) = number_at(text)?;
    let (cap, _) = need_at(rest)?;
    Ok(Entry::MachineAdd { machine, cap })
}

/// That of a machine that is updated.
#[tactic(auto, unfolding(crate::specs::Reading::update_at))]
fn update_at(text: &[u8]) -> Result<Entry, ReadStop>
    ensures value { Gives (λ x. x) result (update_at text.now) }
    ensures answered { IfOk result IsAnswered }
{
    let (machine, rest) = number_at(text)?;
    let (cap, _) = need_at(rest)?;
    Ok(Entry::MachineUpdate { machine, cap })
}

/// That of a machine that is removed.
#[tactic(auto, unfolding(crate::specs::Reading::remove_at))]
fn remove_at(text: &[u8]) -> Result<Entry, ReadStop>
    ensures value { Gives (λ x. x) result (remove_at text.now) }
    ensures answered { IfOk result IsAnswered }
{
    let (machine, _) = number_at(text)?;
    Ok(Entry::MachineRemove { machine })
}

/// That of an attribute that is set.
#[tactic(auto, unfolding(crate::specs::Reading::set_at))]
fn set_at(alloc: Global, text: &[u8]) -> Result<Entry, ReadStop>
    ensures value { Gives (λ x. x) result (set_at text.now) }
    ensures answered { IfOk result IsAnswered }
{
    let (machine, rest) = number_at(text)?;
    let (name, rest) = bytes_at(alloc, rest)?;
    let (value, _) = bytes_at(alloc, rest)?;
    Ok(Entry::AttrSet {
        machine,
        name,
        value,
    })
}

/// That of an attribute that is deleted.
#[tactic(auto, unfolding(crate::specs::Reading::unset_at))]
fn unset_at(alloc: Global, text: &[u8]) -> Result<Entry, ReadStop>
    ensures value { Gives (λ x. x) result (unset_at text.now) }
    ensures answered { IfOk result IsAnswered }
{
    let (machine, rest) = number_at(text)?;
    let (name, _) = bytes_at(alloc, rest)?;
    Ok(Entry::AttrDelete { machine, name })
}

/// That of a task that ends.
#[tactic(auto, unfolding(crate::specs::Reading::end_at))]
fn end_at(text: &[u8]) -> Result<Entry, ReadStop>
    ensures value { Gives (λ x. x) result (end_at text.now) }
    ensures answered { IfOk result IsAnswered }
{
    let (key, rest) = key_at(text)?;
    let (machine, _) = number_at(rest)?;
    Ok(Entry::End { key, machine })
}

/// The number below 2^8 that begins a text, and what stands behind it.
#[tactic(auto, unfolding(crate::specs::Reading::tiny_at))]
fn tiny_at(text: &[u8]) -> Result<(u8, &[u8]), ReadStop>
    ensures { Gives (λ x. (x.0, x.1.now)) result (tiny_at text.now) }
{
    let (number, rest) = number_at(text)?;
    if number > 255 {
        return Err(ReadStop::NoLine);
    }
    Ok((number as u8, rest))
}

/// So many names of tasks that begin a text, and what stands behind them. No memory is taken for more
/// of them than there are.
fn keys_from(alloc: Global, count: u64, text: &[u8]) -> Result<(Keys, &[u8]), ReadStop>
    ensures { Gives (λ x. (x.0, x.1.now)) result (keys_from count text.now) }
{
    let mut keys = Seq::new(alloc);
    let mut rest = text;
    for _ in 0..count {
        let (key, after) = key_at(rest)?;
        keys.push(key)?;
        rest = after;
    }
    Ok((keys, rest))
}

/// The names of tasks that begin a text, behind their number, and what stands behind them.
#[tactic(auto, unfolding(crate::specs::Reading::keys_at))]
fn keys_at(alloc: Global, text: &[u8]) -> Result<(Keys, &[u8]), ReadStop>
    ensures { Gives (λ x. (x.0, x.1.now)) result (keys_at text.now) }
{
    let (count, rest) = number_at(text)?;
    keys_from(alloc, count, rest)
}

/// `Coarse` for its word, and `Fine` for each other one, also for one that is no word of a line: such a word
/// doesn't come back where the entry is written again, so `read_entry` refuses it.
#[tactic(auto, unfolding(crate::specs::Reading::rule_of))]
fn rule_of(word: &[u8]) -> Rule
    ensures { result ≡ rule_of word.now }
{
    if word == b"coarse".as_slice() {
        Rule::Coarse
    } else {
        Rule::Fine
    }
}

/// `Gang` for its word, and `Incremental` for each other one, as `rule_of` does.
#[tactic(auto, unfolding(crate::specs::Reading::mode_of))]
fn mode_of(word: &[u8]) -> Mode
    ensures { result ≡ mode_of word.now }
{
    if word == b"gang".as_slice() {
        Mode::Gang
    } else {
        Mode::Incremental
    }
}

/// The verdict on a task that runs already, behind its keyword.
#[tactic(auto, unfolding(crate::specs::Reading::running_at))]
fn running_at(text: &[u8]) -> Result<(Verdict, &[u8]), ReadStop>
    ensures { Gives (λ x. (x.0, x.1.now)) result (running_at text.now) }
{
    let (machine, rest) = number_at(text)?;
    Ok((Verdict::AlreadyRunning(machine), rest))
}

/// That on a claim whose machine has changed.
#[tactic(auto, unfolding(crate::specs::Reading::changed_at))]
fn changed_at(text: &[u8]) -> Result<(Verdict, &[u8]), ReadStop>
    ensures { Gives (λ x. (x.0, x.1.now)) result (changed_at text.now) }
{
    let (now, rest) = number_at(text)?;
    let (copy, rest) = number_at(rest)?;
    Ok((Verdict::Changed { now, copy }, rest))
}

/// That on a claim with a victim whose precedence is not lower.
#[tactic(auto, unfolding(crate::specs::Reading::rank_at))]
fn rank_at(text: &[u8]) -> Result<(Verdict, &[u8]), ReadStop>
    ensures { Gives (λ x. (x.0, x.1.now)) result (rank_at text.now) }
{
    let (key, rest) = key_at(text)?;
    Ok((Verdict::VictimRank(key), rest))
}

/// That on a claim whose job has a task that stays on the machine.
#[tactic(auto, unfolding(crate::specs::Reading::same_at))]
fn same_at(text: &[u8]) -> Result<(Verdict, &[u8]), ReadStop>
    ensures { Gives (λ x. (x.0, x.1.now)) result (same_at text.now) }
{
    let (key, rest) = key_at(text)?;
    Ok((Verdict::SameJob(key), rest))
}

/// That on a claim for which too little is free.
#[tactic(auto, unfolding(crate::specs::Reading::full_at))]
fn full_at(text: &[u8]) -> Result<(Verdict, &[u8]), ReadStop>
    ensures { Gives (λ x. (x.0, x.1.now)) result (full_at text.now) }
{
    let (free, rest) = need_at(text)?;
    Ok((Verdict::Full(free), rest))
}

/// That on a claim that is withdrawn with its gang.
#[tactic(auto, unfolding(crate::specs::Reading::withdrawn_at))]
fn withdrawn_at(text: &[u8]) -> Result<(Verdict, &[u8]), ReadStop>
    ensures { Gives (λ x. (x.0, x.1.now)) result (withdrawn_at text.now) }
{
    let (place, rest) = short_at(text)?;
    Ok((Verdict::Withdrawn(place), rest))
}

/// The verdict with this keyword.
#[tactic(auto, unfolding(crate::specs::Reading::verdict_named))]
fn verdict_named<'a>(word: &[u8], rest: &'a [u8]) -> Result<(Verdict, &'a [u8]), ReadStop>
    ensures { Gives (λ x. (x.0, x.1.now)) result (verdict_named word.now rest.now) }
{
    if word == b"placed".as_slice() {
        Ok((Verdict::Placed, rest))
    } else if word == b"no-machine".as_slice() {
        Ok((Verdict::NoMachine, rest))
    } else if word == b"running".as_slice() {
        running_at(rest)
    } else if word == b"changed".as_slice() {
        changed_at(rest)
    } else if word == b"victim-rank".as_slice() {
        rank_at(rest)
    } else if word == b"same-job".as_slice() {
        same_at(rest)
    } else if word == b"full".as_slice() {
        full_at(rest)
    } else if word == b"withdrawn".as_slice() {
        withdrawn_at(rest)
    } else {
        Err(ReadStop::NoLine)
    }
}

/// The verdict that begins a text.
#[tactic(auto, unfolding(crate::specs::Reading::verdict_at))]
fn verdict_at(text: &[u8]) -> Result<(Verdict, &[u8]), ReadStop>
    ensures { Gives (λ x. (x.0, x.1.now)) result (verdict_at text.now) }
{
    let (word, rest) = cut(text);
    verdict_named(word, rest)
}

/// The claim that begins a text.
#[tactic(auto, unfolding(crate::specs::Reading::claim_at))]
fn claim_at(alloc: Global, text: &[u8]) -> Result<(Claim, &[u8]), ReadStop>
    ensures { Gives (λ x. (x.0, x.1.now)) result (claim_at text.now) }
{
    let (_, rest) = cut(text);
    let (key, rest) = key_at(rest)?;
    let (machine, rest) = number_at(rest)?;
    let (need, rest) = need_at(rest)?;
    let (prec, rest) = tiny_at(rest)?;
    let (differ, rest) = number_at(rest)?;
    let (_, rest) = cut(rest);
    let (victims, rest) = keys_at(alloc, rest)?;
    let spec = Spec {
        need,
        prec,
        differ: differ == 1,
    };
    Ok((
        Claim {
            key,
            machine,
            spec,
            victims,
        },
        rest,
    ))
}

/// What is answered to a claim, at the beginning of a text.
#[tactic(auto, unfolding(crate::specs::Reading::judgement_at))]
fn judgement_at(alloc: Global, text: &[u8]) -> Result<(Judgement, &[u8]), ReadStop>
    ensures { Gives (λ x. (x.0, x.1.now)) result (judgement_at text.now) }
{
    let (verdict, rest) = verdict_at(text)?;
    let (_, rest) = cut(rest);
    let (evicted, rest) = keys_at(alloc, rest)?;
    Ok((Judgement { verdict, evicted }, rest))
}

/// All claims of a text, and what is answered to them.
#[tactic(auto, unfolding(crate::specs::Reading::claims_at))]
fn claims_at(alloc: Global, text: &[u8]) -> Result<(Claims, Judgements), ReadStop>
    ensures value { Gives (λ x. x) result (claims_at text.now) }
    ensures answered { IfOk result (λ x. length x.1 ≡ length x.0) }
{
    let mut claims = Seq::new(alloc);
    let mut reply = Seq::new(alloc);
    let mut rest = text;
    for _ in 0..text.len() {
        if rest.is_empty() {
            return Ok((claims, reply));
        }
        let (claim, after) = claim_at(alloc, rest)?;
        let (judgement, after) = judgement_at(alloc, after)?;
        claims.push(claim)?;
        reply.push(judgement)?;
        rest = after;
    }
    if !rest.is_empty() {
        return Err(ReadStop::NoLine);
    }
    Ok((claims, reply))
}

/// The entry of a commit, behind its keyword.
#[tactic(auto, unfolding(crate::specs::Reading::commit_at))]
fn commit_at(alloc: Global, text: &[u8]) -> Result<Entry, ReadStop>
    ensures value { Gives (λ x. x) result (commit_at text.now) }
    ensures answered { IfOk result IsAnswered }
{
    let (scheduler, rest) = short_at(text)?;
    let (seen, rest) = number_at(rest)?;
    let (job, rest) = number_at(rest)?;
    let (rule, rest) = cut(rest);
    let (mode, rest) = cut(rest);
    let (claims, reply) = claims_at(alloc, rest)?;
    let txn = Txn {
        job,
        rule: rule_of(rule),
        mode: mode_of(mode),
        claims,
    };
    Ok(Entry::Commit {
        scheduler,
        seen,
        txn,
        reply,
    })
}

/// The entry with this keyword.
#[tactic(auto, unfolding(crate::specs::Reading::entry_named))]
fn entry_named(alloc: Global, word: &[u8], rest: &[u8]) -> Result<Entry, ReadStop>
    ensures value { Gives (λ x. x) result (entry_named word.now rest.now) }
    ensures answered { IfOk result IsAnswered }
{
    if word == b"round".as_slice() {
        round_at(rest)
    } else if word == b"add".as_slice() {
        add_at(rest)
    } else if word == b"update".as_slice() {
        update_at(rest)
    } else if word == b"remove".as_slice() {
        remove_at(rest)
    } else if word == b"set".as_slice() {
        set_at(alloc, rest)
    } else if word == b"unset".as_slice() {
        unset_at(alloc, rest)
    } else if word == b"end".as_slice() {
        end_at(rest)
    } else if word == b"commit".as_slice() {
        commit_at(alloc, rest)
    } else {
        Err(ReadStop::NoLine)
    }
}

/// The entry that the words of a text may mean. Costs the length of the text.
#[tactic(auto, unfolding(crate::specs::Reading::entry_at))]
pub fn entry_at(alloc: Global, text: &[u8]) -> Result<Entry, ReadStop>
    ensures value { Gives (λ x. x) result (entry_at text.now) }
    ensures answered { IfOk result IsAnswered }
{
    let (word, rest) = cut(text);
    entry_named(alloc, word, rest)
}
