//! The tables of `generate`: nobody brings them, they are made of the words of a generator.
//!
//! Promised: six tables made of the words of a generator, or of a seed: their bytes are those of the
//! definition, and so is what is left of the generator. A law over the definitions alone: tables of at most
//! 4,096 machines and 20,000 jobs are refused for nothing, whatever the words.
//!
//! The first words go to the machines, one to each, and then come six for each job.
#![tactic(auto)]

ghost use Rattle.std.specs.Prelude.{◌≡◌, ◌+◌, ◌*◌, None, Some, IfOk, OnOk};
ghost use Rattle.omega_model.specs.Generated.{generated, made_of};
ghost use Rattle.omega_io.specs.Edge.{Tells};
ghost use Rattle.omega_gen.specs.Words.{left_after, word_of};

mod drawing;
mod jobs;
mod laws;
mod machines;

pub use laws::generated_tables_are_never_refused;
use omega_io::{SteadyTables, Tables};
use omega_model::{NoMemory, Seq};
use rand_core::Rng;
use rand_pcg::Lcg64Xsh32;
use std::alloc::Global;

/// Tables of so many machines and so many jobs, made of the next words of a generator: one for each
/// machine, then six for each job.
///
/// Machines are up from time 0 on, each with CPU and memory both 0.5, 0.75 or 1. A job has one to
/// eight tasks that are all alike, with CPU and memory of 0.001 to 0.05 and a priority of 0 to 11.
/// Jobs come every 10 seconds, the first at second 610, and live 5 to 100 minutes. The other four
/// tables are empty, and no folder is entered. Any two counts are allowed. Costs what it writes, at
/// most 30 bytes for a machine and 1,000 for a job, all of it in memory. Where memory runs out, some
/// of the words may have been drawn.
pub fn tables_of<R: Rng>(
    alloc: Global,
    words: &mut R,
    machines: u32,
    jobs: u32,
) -> Result<SteadyTables, NoMemory>
    ensures rests { IfOk result (λ tables. Tells (⟦<SteadyTables as Tables>⟧.rest tables) (made_of (word_of (R.stream words.old)) machines jobs)) }
    ensures folder { IfOk result (λ tables. ⟦<SteadyTables as Tables>⟧.entered tables ≡ Some None) }
    ensures left { OnOk result (R.stream words.new ≡ left_after (machines + 6 * jobs) (R.stream words.old)) }
{
    let machine_events = machines::machine_events(alloc, words, machines)?;
    let task_events = jobs::task_events(alloc, words, jobs)?;
    let tables = [
        machine_events,
        Seq::new(alloc),
        task_events,
        Seq::new(alloc),
        Seq::new(alloc),
        Seq::new(alloc),
    ];
    Ok(SteadyTables::new(alloc, tables))
}

/// The tables of a seed, with so many machines and so many jobs: `tables_of` on the words of
/// `Lcg64Xsh32` from this seed, stream 0.
pub fn tables_of_seed(
    alloc: Global,
    seed: u64,
    machines: u32,
    jobs: u32,
) -> Result<SteadyTables, NoMemory>
    ensures rests { IfOk result (λ tables. Tells (⟦<SteadyTables as Tables>⟧.rest tables) (generated seed machines jobs)) }
    ensures folder { IfOk result (λ tables. ⟦<SteadyTables as Tables>⟧.entered tables ≡ Some None) }
{
    let mut words = Lcg64Xsh32::new(seed, 0);
    tables_of(alloc, &mut words, machines, jobs)
}
