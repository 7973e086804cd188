//! The trace of a run: of the tables that it is handed, or of those that it makes.
ghost use Rattle.std.specs.Prelude.{◌≡◌, ◌≢◌, ℕ, List, None, false, true, IfErr, IfOk, OnOk};
ghost use Rattle.std.specs.Thread.{IsSync};
ghost use Rattle.omega_io.specs.Edge.{Tells};
ghost use Rattle.omega_model.specs.Generated.{generated};
ghost use Rattle.omega_model.specs.Limits.{IsWithinLimits};
ghost use Rattle.omega_model.specs.Ranges.{IsInRange};
ghost use Rattle.omega_model.specs.Refusals.{first_refusal};
ghost use Rattle.omega_model.specs.Trace.{trace_of};
ghost use Rattle.omega_model.specs.declared.rows.Table.{Table};
ghost use Rattle.omega_model.specs.declared.settings.Command.TheVariants.{Audit};
ghost use Rattle.omega_tables.specs.Reading.{ComesFirst, HasCause, StoppedIn};
ghost use Rattle.omega_tables.specs.declared.refusal.ReadRefusal.TheVariants.{NoMemory};
ghost use Rattle.omega_top.specs.Commands.{makes_tables, reads_tables};
ghost use Rattle.omega_top.specs.Reads.{Reads, StayUnread, left_by};

use omega_gen::{generated_tables_are_never_refused, tables_of_seed};
use omega_io::Tables;
use omega_model::{Command, Settings, TraceTables};
use omega_tables::{ReadRefusal, read_tables};
use std::alloc::Global;
use std::thread::Threads;

/// The trace of the tables that a run reads: on `generate` of those that it makes of its seed, which can fail
/// for want of memory alone; else of those that it is handed, each of which is read to its end. After a
/// refusal of one table none behind it was read.
pub fn trace_of_run<P: Threads + Sync, T: Tables>(
    rt: &P,
    alloc: Global,
    settings: &Settings,
    tables: &mut T,
) -> Result<TraceTables, ReadRefusal>
    requires sync { IsSync P.row }
    requires range { IsInRange settings.now }
    requires run { settings.now.command ≢ Audit }
    ensures trace { (bytes : Table → List ℕ) → Reads settings.now (T.rest tables.old) bytes
        → IfOk result (λ trace. trace ≡ trace_of bytes) }
    ensures none { (bytes : Table → List ℕ) → Reads settings.now (T.rest tables.old) bytes
        → OnOk result (first_refusal bytes ≡ None) }
    ensures within { IfOk result IsWithinLimits }
    ensures to_end { (bytes : Table → List ℕ) → Tells (T.rest tables.old) bytes
        → OnOk result (Tells (T.rest tables.new) (left_by settings.now.command bytes)) }
    ensures refusal { (bytes : Table → List ℕ) → Reads settings.now (T.rest tables.old) bytes
        → IfErr result (λ refusal. ComesFirst bytes refusal) }
    ensures stopped { IfErr result (λ refusal. StoppedIn (T.rest tables.old) (T.rest tables.new) (T.faults tables.old) (T.faults tables.new) refusal) }
    ensures cause { IfErr result (λ refusal. HasCause (T.faults tables.old) (T.faults tables.new) refusal) }
    ensures made { makes_tables settings.now.command ≡ true → IfErr result (λ refusal. refusal ≡ NoMemory) }
    ensures unread { reads_tables settings.now.command ≡ false
        → StayUnread (T.rest tables.old) (T.rest tables.new) (T.faults tables.old) (T.faults tables.new) }
    ensures folder { T.entered tables.new ≡ T.entered tables.old }
{
    if makes_tables(settings.command) {
        generated_trace(rt, alloc, settings)
    } else {
        read_tables(rt, alloc, tables)
    }
}

/// Whether the command makes its tables of a seed.
fn makes_tables(command: Command) -> bool
    ensures { result ≡ makes_tables command }
{
    matches!(command, Command::Generate)
}

/// The trace of the tables that are made of the seed.
fn generated_trace<P: Threads + Sync>(
    rt: &P,
    alloc: Global,
    settings: &Settings,
) -> Result<TraceTables, ReadRefusal>
    requires sync { IsSync P.row }
    requires range { IsInRange settings.now }
    ensures trace { IfOk result (λ trace. trace ≡ trace_of (generated settings.now.seed settings.now.machines settings.now.jobs)) }
    ensures none { OnOk result (first_refusal (generated settings.now.seed settings.now.machines settings.now.jobs) ≡ None) }
    ensures within { IfOk result IsWithinLimits }
    ensures refusal { IfErr result (λ refusal. refusal ≡ NoMemory) }
{
    // A law. It does nothing.
    generated_tables_are_never_refused();
    let mut tables = tables_of_seed(alloc, settings.seed, settings.machines, settings.jobs)?;
    read_tables(rt, alloc, &mut tables)
}
