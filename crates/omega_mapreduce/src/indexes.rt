//! The indexes that more extra tasks get.
ghost use Rattle.std.specs.Prelude.{◌≡◌, IfOk, drop};
ghost use Rattle.omega_model.specs.ExtraTasks.{free_indexes};
ghost use Rattle.omega_mapreduce.specs.Counted.{MayCount, leads};

use omega_model::NoMemory;
use std::alloc::Global;

/// The first index of extra tasks; the tasks of a trace have lower ones.
const FIRST_EXTRA: u32 = 2_147_483_648;

/// The `count` least indexes of extras that aren't among those of `running` ones. Costs both.
pub(crate) fn free_indexes(alloc: Global, running: &[u32], count: u32) -> Result<Vec<u32>, NoMemory>
    requires may { MayCount running.now count }
    ensures { IfOk result (λ found. found.items ≡ free_indexes running.now count) }
{
    let mut found = Vec::new(alloc);
    let mut ahead = running;
    let end = FIRST_EXTRA + running.len() as u32 + count;
    for index in FIRST_EXTRA..end {
        if leads(ahead, index) {
            ahead = behind_first(ahead);
        } else {
            found.push(index)?;
        }
    }
    found.truncate(count as usize);
    Ok(found)
}

/// Whether an index is the first of these.
fn leads(ahead: &[u32], index: u32) -> bool
    ensures { result ≡ leads ahead.now index }
{
    match ahead.first() {
        Some(first) => *first == index,
        None => false,
    }
}

/// All of these but the first.
fn behind_first(ahead: &[u32]) -> &[u32]
    ensures { result.now ≡ drop 1 ahead.now }
{
    match ahead.split_first() {
        Some((_, others)) => others,
        None => ahead,
    }
}
