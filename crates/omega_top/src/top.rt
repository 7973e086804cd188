//! The top call.
ghost use Rattle.std.specs.Prelude.{◌≡◌, ◌≢◌, ◌⊎◌, ◌≤◌, [], ℕ, List, None, Some, map, false, true, IfSome};
ghost use Rattle.std.specs.Thread.{IsSync};
ghost use Rattle.omega_io.specs.Edge.{Rose, Tells};
ghost use Rattle.omega_keep.specs.Keeping.{Rose as RoseOfKeeper};
ghost use Rattle.omega_model.specs.Limits.{IsWithinLimits};
ghost use Rattle.omega_model.specs.Ranges.{IsInRange};
ghost use Rattle.omega_model.specs.Refusals.{first_refusal};
ghost use Rattle.omega_model.specs.Trace.{trace_of};
ghost use Rattle.omega_model.specs.Turns.{InTurns};
ghost use Rattle.omega_model.specs.declared.results.Status.TheVariants.{KeepFault, Usage, WriteFault, NoMemory};
ghost use Rattle.omega_model.specs.declared.rows.Table.{Table};
ghost use Rattle.omega_model.specs.declared.settings.Command.TheVariants.{Audit, Resume, Run};
ghost use Rattle.omega_top.specs.Answers.{Answers, EndsRun, HasHistory, HasReadCause, HasWholeCommits, IfReported, IsOnlyRun, IsOrderedRun, IsSomeRun, IsWholeRun, IsWritten, NoneRose, Writes, WritesNothing};
ghost use Rattle.omega_top.specs.Audits.{EntersKept, IsAudit, IsNotOfKept, IsUntouched, KeepsAudited};
ghost use Rattle.omega_top.specs.Commands.{makes_tables, reads_tables, takes_turns, uses_keeper};
ghost use Rattle.omega_top.specs.Clocks.{runs_freely};
ghost use Rattle.omega_top.specs.Chosen.{AreChosenBy, AreTaken, Audits, EntersChosen, MakesTables, Resumes};
ghost use Rattle.omega_top.specs.FreeAnswers.{HasFreeLaws, IsFreeRun, IsOnlyFreeRun, IsSomeFreeRun};
ghost use Rattle.omega_top.specs.Reads.{Reads, StayUnread, left_by};
ghost use Rattle.omega_top.specs.Resumes.{EndsBy, IsResume, IsSomeResume, KeepsRounds, StaysAtKeeper};
ghost use Rattle.omega_top.specs.Runs.{IsRun};
ghost use Rattle.omega_top.specs.SoundHistory.{IsSoundHistory};
ghost use Rattle.omega_top.specs.Unread.{AreUntouched, ReadsNoFurther};
ghost use Rattle.omega_words.specs.Built.{built_words};
ghost use Rattle.omega_words.specs.Taken.{settings_in};

use crate::auditing::audit_kept;
use crate::done::Done;
use crate::replay::RunInput;
use crate::report::report_of_run;
use crate::resuming::run_of;
use crate::trace::trace_of_run;
use omega_io::{Gate, Sink, Tables, write_all};
use omega_keep::{Keeper, audited_lines_are_not_refused};
use omega_model::{Command, Seq, Settings, Status};
use omega_words::read_words;
use std::alloc::Global;
use std::sync::Wait;
use std::thread::Threads;

/// Does what the words say with the tables of their folder, or with those that it makes on
/// `generate`: replays them and writes the report of the history that it answers. On `resume` it does what it
/// does on `replay`, to the byte, and compares the lines that the keeper hands out with those of the history,
/// and appends the others to the keeper's list, round by round. On `audit` it reads no tables: it replays the lines that the keeper hands out, and writes
/// how many entries they are and what is used after the last one.
///
/// Of the refusals the first that stands is answered: that of the words, then for each table in
/// order that of its reading, its length and its rows, then that of the limits over all tables, then
/// that of the writing; on `resume`, before the writing, that of the loading, of the first kept line that
/// isn't the run's, and of the appending; on `audit` that of the words, of the loading, of the first kept
/// line that is refused, and of the writing. Want of memory alone may be answered at any place before the
/// first write. After a refusal of one table none behind it was read. On `generate` and `audit` the folder is
/// entered too, but none of its tables is read; the keeper's path is entered on every command, and its list
/// stays on all but `resume`.
///
/// Settings are answered unless the words weren't read; then no folder and no path was entered, and all
/// tables are as they were. On `run` each scheduler has a thread of its own, which passes the gate, and the call may
/// wait; on `simulate` the commits stand in the order of a virtual clock: by the clock of rounds a round opens
/// when all have decided on the one before, and by the free clock when its rows are due, whoever decides. By the
/// free clock and `--ends own` a task ends when it has run for as long as it did in the trace, and not where a row
/// of the trace ends it. On the other commands that run a trace the schedulers take turns.
pub fn omega<R: Threads + Wait + Sync, T: Tables, K: Sink, G: Gate + Sync, P: Keeper>(
    rt: &R,
    alloc: Global,
    words: &[&str],
    tables: &mut T,
    out: &mut K,
    gate: &G,
    keeper: &mut P,
) -> Done
    requires sync { IsSync R.row × IsSync G.row }
    ensures usage { result.status ≡ Usage → ¬ AreTaken (map (λ word. word.now) words.now) }
    ensures settings { IfSome result.settings (AreChosenBy (map (λ word. word.now) words.now)) }
    ensures no_settings { result.status ≡ Usage → result.settings ≡ None }
    ensures not_read { result.settings ≡ None → (result.status ≡ Usage) ⊎ (result.status ≡ NoMemory) }
    ensures untouched { result.settings ≡ None
        → AreUntouched (T.entered tables.old) (T.entered tables.new) (T.rest tables.old) (T.rest tables.new) (T.faults tables.old) (T.faults tables.new) }
    ensures folder { result.settings ≢ None → result.status ≢ NoMemory
        → EntersChosen (map (λ word. word.now) words.now) (T.entered tables.old) (T.entered tables.new) }

    ensures first { (bytes : Table → List ℕ) → IfSome result.settings
        (λ settings. Reads settings (T.rest tables.old) bytes → Answers bytes result.status) }
    ensures made { IfSome result.settings (λ settings. makes_tables settings.command ≡ true → EndsRun result.status) }
    ensures unread { IfSome result.settings (λ settings. reads_tables settings.command ≡ false
        → StayUnread (T.rest tables.old) (T.rest tables.new) (T.faults tables.old) (T.faults tables.new)) }
    ensures no_further { ReadsNoFurther (T.rest tables.old) (T.rest tables.new) (T.faults tables.old) (T.faults tables.new) result.status }
    ensures read_fault { HasReadCause (T.faults tables.old) (T.faults tables.new) result.status }
    ensures write_fault { result.status ≡ WriteFault → Rose (K.faults out.old) (K.faults out.new) }
    ensures complete { (bytes : Table → List ℕ) → Reads (settings_in built_words (map (λ word. word.now) words.now)) (T.rest tables.old) bytes
        → first_refusal bytes ≡ None → NoneRose (T.faults tables.old) (T.faults tables.new) (K.faults out.old) (K.faults out.new)
        → ¬ Resumes (map (λ word. word.now) words.now)
        → AreTaken (map (λ word. word.now) words.now) → (result.status ≡ Status.Done) ⊎ (result.status ≡ NoMemory) }
    ensures complete_made { MakesTables (map (λ word. word.now) words.now) → ¬ Rose (K.faults out.old) (K.faults out.new)
        → AreTaken (map (λ word. word.now) words.now) → (result.status ≡ Status.Done) ⊎ (result.status ≡ NoMemory) }

    ensures lawful { (bytes : Table → List ℕ) → IfSome result.settings (λ settings. runs_freely settings ≡ false
        → Reads settings (T.rest tables.old) bytes → IsWholeRun settings (trace_of bytes) result.history result.status) }
    ensures only { (bytes : Table → List ℕ) → IfSome result.settings (λ settings. runs_freely settings ≡ false → settings.command ≢ Run
        → Reads settings (T.rest tables.old) bytes → IsOnlyRun settings (trace_of bytes) result.history result.status) }
    ensures ordered { (bytes : Table → List ℕ) → IfSome result.settings (λ settings. runs_freely settings ≡ false
        → Reads settings (T.rest tables.old) bytes → IsOrderedRun settings (trace_of bytes) result.history result.status) }
    ensures turns { IfSome result.settings (λ settings. takes_turns settings.command ≡ true → InTurns result.history) }
    ensures whole_commits { (bytes : Table → List ℕ) → IfSome result.settings (λ settings. runs_freely settings ≡ false
        → Reads settings (T.rest tables.old) bytes → HasWholeCommits settings (trace_of bytes) result.history result.status) }
    ensures some_run { IfSome result.settings (λ settings. runs_freely settings ≡ false → settings.command ≢ Audit
        → IsSomeRun settings result.history result.status (K.written out.old) (K.written out.new)) }
    ensures free { (bytes : Table → List ℕ) → IfSome result.settings (λ settings. runs_freely settings ≡ true
        → Reads settings (T.rest tables.old) bytes → IsFreeRun settings (trace_of bytes) result.history result.status) }
    ensures free_laws { (bytes : Table → List ℕ) → IfSome result.settings (λ settings. runs_freely settings ≡ true
        → Reads settings (T.rest tables.old) bytes → HasFreeLaws settings (trace_of bytes) result.history result.status) }
    ensures only_free { (bytes : Table → List ℕ) → IfSome result.settings (λ settings. runs_freely settings ≡ true
        → Reads settings (T.rest tables.old) bytes → IsOnlyFreeRun settings (trace_of bytes) result.history result.status) }
    ensures some_free_run { IfSome result.settings (λ settings. runs_freely settings ≡ true
        → IsSomeFreeRun settings result.history result.status (K.written out.old) (K.written out.new)) }
    ensures sound { IsSoundHistory result.history }
    ensures history { HasHistory result.history result.status }
    ensures written { (bytes : Table → List ℕ) → IfSome result.settings (λ settings. Reads settings (T.rest tables.old) bytes
        → IsWritten settings (trace_of bytes) result.history result.status (K.written out.old) (K.written out.new)) }
    ensures nothing { WritesNothing (K.written out.old) (K.written out.new) result.status }
    ensures to_end { (bytes : Table → List ℕ) → Tells (T.rest tables.old) bytes → result.status ≡ Status.Done
        → IfSome result.settings (λ settings. Tells (T.rest tables.new) (left_by settings.command bytes)) }

    ensures audit { IfSome result.settings (λ settings. settings.command ≡ Audit
        → IsAudit settings.format (P.kept keeper.old) result.history result.status (K.written out.old) (K.written out.new)) }
    ensures complete_audit { Audits (map (λ word. word.now) words.now) → KeepsAudited (P.kept keeper.old)
        → ¬ RoseOfKeeper (P.faults keeper.old) (P.faults keeper.new) → ¬ Rose (K.faults out.old) (K.faults out.new)
        → AreTaken (map (λ word. word.now) words.now) → (result.status ≡ Status.Done) ⊎ (result.status ≡ NoMemory) }
    ensures resume { (bytes : Table → List ℕ) → IfSome result.settings
        (λ settings. settings.command ≡ Resume → Reads settings (T.rest tables.old) bytes
        → IsResume settings (trace_of bytes) (P.kept keeper.old) (P.kept keeper.new) result.history result.status (K.written out.old) (K.written out.new)) }
    ensures some_resume { IfSome result.settings (λ settings. settings.command ≡ Resume
        → IsSomeResume settings (P.kept keeper.old) (P.kept keeper.new) result.history result.status (K.written out.old) (K.written out.new)) }
    ensures complete_resume { (bytes : Table → List ℕ) → Resumes (map (λ word. word.now) words.now)
        → Reads (settings_in built_words (map (λ word. word.now) words.now)) (T.rest tables.old) bytes
        → first_refusal bytes ≡ None → KeepsRounds (settings_in built_words (map (λ word. word.now) words.now)) (trace_of bytes) (P.kept keeper.old)
        → ¬ RoseOfKeeper (P.faults keeper.old) (P.faults keeper.new)
        → NoneRose (T.faults tables.old) (T.faults tables.new) (K.faults out.old) (K.faults out.new)
        → AreTaken (map (λ word. word.now) words.now) → (result.status ≡ Status.Done) ⊎ (result.status ≡ NoMemory) }
    ensures not_kept { IfSome result.settings (λ settings. uses_keeper settings.command ≡ false → IsNotOfKept result.status) }
    ensures keep_fault { result.status ≡ KeepFault → RoseOfKeeper (P.faults keeper.old) (P.faults keeper.new) }
    ensures kept { result.settings ≡ None → P.kept keeper.new ≡ P.kept keeper.old }
    ensures kept_list { IfSome result.settings (λ settings. settings.command ≢ Resume → P.kept keeper.new ≡ P.kept keeper.old) }
    ensures kept_path { result.settings ≢ None → result.status ≢ NoMemory
        → EntersKept (map (λ word. word.now) words.now) (P.entered keeper.old) (P.entered keeper.new) }
    ensures kept_untouched { result.settings ≡ None
        → IsUntouched (P.entered keeper.old) (P.entered keeper.new) (P.faults keeper.old) (P.faults keeper.new) }
    ensures kept_faults { IfSome result.settings (λ settings. uses_keeper settings.command ≡ false → P.faults keeper.new ≡ P.faults keeper.old) }
    ensures kept_later { P.faults keeper.old ≤ P.faults keeper.new }
{
    let parsed = match read_words(alloc, words) {
        Ok(parsed) => parsed,
        Err(refusal) => return refused(alloc, Status::from(refusal), None),
    };
    if tables.enter(parsed.folder.as_str()).is_err() {
        return refused(alloc, Status::NoMemory, Some(parsed.settings));
    }
    if keeper.enter(parsed.kept.as_str()).is_err() {
        return refused(alloc, Status::NoMemory, Some(parsed.settings));
    }
    // A law, on which the clause of a whole audit rests. It does nothing.
    audited_lines_are_not_refused();
    omega_with(rt, alloc, &parsed.settings, tables, out, gate, keeper)
}

/// What `omega` does once the words are read and folder and path are entered, under any settings in their
/// ranges.
pub fn omega_with<R: Threads + Wait + Sync, T: Tables, K: Sink, G: Gate + Sync, P: Keeper>(
    rt: &R,
    alloc: Global,
    settings: &Settings,
    tables: &mut T,
    out: &mut K,
    gate: &G,
    keeper: &mut P,
) -> Done
    requires range { IsInRange settings.now }
    requires sync { IsSync R.row × IsSync G.row }
    ensures settings { result.settings ≡ Some settings.now }
    ensures folder { T.entered tables.new ≡ T.entered tables.old }

    ensures first { (bytes : Table → List ℕ) → Reads settings.now (T.rest tables.old) bytes → Answers bytes result.status }
    ensures not_usage { result.status ≢ Usage }
    ensures made { makes_tables settings.now.command ≡ true → EndsRun result.status }
    ensures unread { reads_tables settings.now.command ≡ false
        → StayUnread (T.rest tables.old) (T.rest tables.new) (T.faults tables.old) (T.faults tables.new) }
    ensures no_further { ReadsNoFurther (T.rest tables.old) (T.rest tables.new) (T.faults tables.old) (T.faults tables.new) result.status }
    ensures read_fault { HasReadCause (T.faults tables.old) (T.faults tables.new) result.status }
    ensures write_fault { result.status ≡ WriteFault → Rose (K.faults out.old) (K.faults out.new) }

    ensures lawful { runs_freely settings.now ≡ false → (bytes : Table → List ℕ) → Reads settings.now (T.rest tables.old) bytes
        → IsWholeRun settings.now (trace_of bytes) result.history result.status }
    ensures only { runs_freely settings.now ≡ false → settings.now.command ≢ Run → (bytes : Table → List ℕ) → Reads settings.now (T.rest tables.old) bytes
        → IsOnlyRun settings.now (trace_of bytes) result.history result.status }
    ensures ordered { runs_freely settings.now ≡ false → (bytes : Table → List ℕ) → Reads settings.now (T.rest tables.old) bytes
        → IsOrderedRun settings.now (trace_of bytes) result.history result.status }
    ensures turns { takes_turns settings.now.command ≡ true → InTurns result.history }
    ensures whole_commits { runs_freely settings.now ≡ false → (bytes : Table → List ℕ) → Reads settings.now (T.rest tables.old) bytes
        → HasWholeCommits settings.now (trace_of bytes) result.history result.status }
    ensures some_run { runs_freely settings.now ≡ false → settings.now.command ≢ Audit
        → IsSomeRun settings.now result.history result.status (K.written out.old) (K.written out.new) }
    ensures free { runs_freely settings.now ≡ true → (bytes : Table → List ℕ) → Reads settings.now (T.rest tables.old) bytes
        → IsFreeRun settings.now (trace_of bytes) result.history result.status }
    ensures free_laws { runs_freely settings.now ≡ true → (bytes : Table → List ℕ) → Reads settings.now (T.rest tables.old) bytes
        → HasFreeLaws settings.now (trace_of bytes) result.history result.status }
    ensures only_free { runs_freely settings.now ≡ true → (bytes : Table → List ℕ) → Reads settings.now (T.rest tables.old) bytes
        → IsOnlyFreeRun settings.now (trace_of bytes) result.history result.status }
    ensures some_free_run { runs_freely settings.now ≡ true
        → IsSomeFreeRun settings.now result.history result.status (K.written out.old) (K.written out.new) }
    ensures sound { IsSoundHistory result.history }
    ensures history { HasHistory result.history result.status }
    ensures written { (bytes : Table → List ℕ) → Reads settings.now (T.rest tables.old) bytes
        → IsWritten settings.now (trace_of bytes) result.history result.status (K.written out.old) (K.written out.new) }
    ensures nothing { WritesNothing (K.written out.old) (K.written out.new) result.status }
    ensures to_end { (bytes : Table → List ℕ) → Tells (T.rest tables.old) bytes → result.status ≡ Status.Done
        → Tells (T.rest tables.new) (left_by settings.now.command bytes) }

    ensures audit { settings.now.command ≡ Audit
        → IsAudit settings.now.format (P.kept keeper.old) result.history result.status (K.written out.old) (K.written out.new) }
    ensures resume { settings.now.command ≡ Resume → (bytes : Table → List ℕ) → Reads settings.now (T.rest tables.old) bytes
        → IsResume settings.now (trace_of bytes) (P.kept keeper.old) (P.kept keeper.new) result.history result.status (K.written out.old) (K.written out.new) }
    ensures some_resume { settings.now.command ≡ Resume
        → IsSomeResume settings.now (P.kept keeper.old) (P.kept keeper.new) result.history result.status (K.written out.old) (K.written out.new) }
    ensures not_kept { uses_keeper settings.now.command ≡ false → IsNotOfKept result.status }
    ensures keep_fault { result.status ≡ KeepFault → RoseOfKeeper (P.faults keeper.old) (P.faults keeper.new) }
    ensures kept { settings.now.command ≢ Resume → P.kept keeper.new ≡ P.kept keeper.old }
    ensures kept_path { P.entered keeper.new ≡ P.entered keeper.old }
    ensures kept_faults { uses_keeper settings.now.command ≡ false → P.faults keeper.new ≡ P.faults keeper.old }
    ensures kept_later { P.faults keeper.old ≤ P.faults keeper.new }
{
    match settings.command {
        Command::Audit => audit_and_write(alloc, settings, out, keeper),
        _ => match trace_of_run(rt, alloc, settings, tables) {
            Ok(trace) => {
                let input = RunInput {
                    settings: *settings,
                    trace,
                };
                replay_and_write(rt, alloc, input, out, gate, keeper)
            }
            Err(refusal) => refused(alloc, Status::from(refusal), Some(*settings)),
        },
    }
}

/// A run that ends with nothing written and without a history.
fn refused(alloc: Global, status: Status, settings: Option<Settings>) -> Done
    ensures status { result.status ≡ status }
    ensures settings { result.settings ≡ settings }
    ensures nothing { result.history ≡ [] }
    ensures turns { InTurns result.history }
    ensures sound { IsSoundHistory result.history }
{
    Done {
        status,
        settings,
        history: Seq::new(alloc),
        remains: None,
    }
}

/// Replays the tables and writes the report.
fn replay_and_write<R: Threads + Wait + Sync, K: Sink, G: Gate + Sync, P: Keeper>(
    rt: &R,
    alloc: Global,
    input: RunInput,
    out: &mut K,
    gate: &G,
    keeper: &mut P,
) -> Done
    requires range { IsInRange input.settings }
    requires within { IsWithinLimits input.trace }
    requires sync { IsSync R.row × IsSync G.row }
    ensures settings { result.settings ≡ Some input.settings }
    ensures ends { EndsBy input.settings.command result.status }
    ensures resume { input.settings.command ≡ Resume
        → IsResume input.settings input.trace (P.kept keeper.old) (P.kept keeper.new) result.history result.status (K.written out.old) (K.written out.new) }
    ensures keeper { input.settings.command ≢ Resume
        → StaysAtKeeper (P.kept keeper.old) (P.kept keeper.new) (P.faults keeper.old) (P.faults keeper.new) }
    ensures keep_fault { result.status ≡ KeepFault → RoseOfKeeper (P.faults keeper.old) (P.faults keeper.new) }
    ensures kept_path { P.entered keeper.new ≡ P.entered keeper.old }
    ensures kept_later { P.faults keeper.old ≤ P.faults keeper.new }
    ensures cause { result.status ≡ WriteFault → Rose (K.faults out.old) (K.faults out.new) }
    ensures run { IfReported (IsRun input.settings input.trace result.history) result.status }
    ensures history { HasHistory result.history result.status }
    ensures written { IsWritten input.settings input.trace result.history result.status (K.written out.old) (K.written out.new) }
{
    let settings = input.settings;
    let run = match run_of(rt, alloc, input, gate, keeper) {
        Ok(run) => run,
        Err(status) => return refused(alloc, status, Some(settings)),
    };
    let Ok(bytes) = report_of_run(alloc, &settings, &run) else {
        return refused(alloc, Status::NoMemory, Some(settings));
    };
    let status = write(out, bytes.as_slice());
    Done {
        status,
        settings: Some(settings),
        history: run.history,
        remains: Some(run.remains),
    }
}

/// Audits what the keeper has and writes the report.
fn audit_and_write<K: Sink, P: Keeper>(
    alloc: Global,
    settings: &Settings,
    out: &mut K,
    keeper: &mut P,
) -> Done
    ensures settings { result.settings ≡ Some settings.now }
    ensures audit { IsAudit settings.now.format (P.kept keeper.old) result.history result.status (K.written out.old) (K.written out.new) }
    ensures write_fault { result.status ≡ WriteFault → Rose (K.faults out.old) (K.faults out.new) }
    ensures keep_fault { result.status ≡ KeepFault → RoseOfKeeper (P.faults keeper.old) (P.faults keeper.new) }
    ensures sound { IsSoundHistory result.history }
    ensures history { HasHistory result.history result.status }
    ensures kept { P.kept keeper.new ≡ P.kept keeper.old }
    ensures kept_path { P.entered keeper.new ≡ P.entered keeper.old }
    ensures kept_later { P.faults keeper.old ≤ P.faults keeper.new }
{
    let audit = match audit_kept(alloc, settings.format, keeper) {
        Ok(audit) => audit,
        Err(status) => return refused(alloc, status, Some(*settings)),
    };
    let status = write(out, audit.report.as_slice());
    Done {
        status,
        settings: Some(*settings),
        history: audit.history,
        remains: None,
    }
}

/// Writes a report, and answers how that went.
fn write<K: Sink>(out: &mut K, report: &[u8]) -> Status
    ensures ends { (result ≡ Status.Done) ⊎ (result ≡ WriteFault) }
    ensures written { Writes report.now (K.written out.old) (K.written out.new) result }
    ensures cause { result ≡ WriteFault → Rose (K.faults out.old) (K.faults out.new) }
{
    match write_all(out, report) {
        Ok(()) => Status::Done,
        Err(_) => Status::WriteFault,
    }
}
