//! The lines of a report but for those of commits, by the numbers that stand in them.
ghost use Rattle.std.specs.Prelude.{◌≡◌, ◌∷◌, ◌++◌, [], map, IsTrue, OnOk};
ghost use Rattle.omega_model.specs.Report.{Name, entry_lines, task_words};
ghost use Rattle.omega_model.specs.ReportForms.{is_plain};
ghost use Rattle.omega_model.specs.ReportLines.{counts_line, first_line};
ghost use Rattle.omega_report.specs.AuditLines.{legal_line};
ghost use Rattle.omega_report.specs.Counted.{counts_in};
ghost use Rattle.omega_report.specs.Lines.{end_line, sizes_line, stop_line, unplaced_line, usage_line};
ghost use Rattle.omega_model.specs.declared.entries.Entry.{Entry};

use crate::counts::Counts;
use crate::line_words::Word::{Name, Number};
use crate::line_words::task_words;
use crate::page::Page;
use omega_model::{Need, NoMemory, TaskKey};

impl Page {
    /// Appends the first line, with the version of the format.
    pub fn first(&mut self) -> Result<(), NoMemory>
        ensures format { self.new.format ≡ self.old.format }
        ensures lines { OnOk result (self.new.lines ≡ self.old.lines ++ first_line ∷ []) }
    {
        self.append(&[Name("omega"), Number(2)])
    }

    /// Appends the line that says how many entries an audit found legal.
    pub fn legal(&mut self, entries: u64) -> Result<(), NoMemory>
        ensures format { self.new.format ≡ self.old.format }
        ensures lines { OnOk result (self.new.lines ≡ self.old.lines ++ legal_line entries ∷ []) }
    {
        self.append(&[Name("legal"), Number(entries)])
    }

    /// Appends the line of a round that begins.
    pub fn round(&mut self, number: u64) -> Result<(), NoMemory>
        ensures format { self.new.format ≡ self.old.format }
        ensures lines { OnOk result (self.new.lines ≡ self.old.lines ++ entry_lines (Entry.Round number)) }
    {
        self.append(&[Name("round"), Number(number)])
    }

    /// Appends a line for each of these tasks, which are displaced: they stop since their machine
    /// shrank or went.
    pub fn displaced(&mut self, machine: u64, keys: &[TaskKey]) -> Result<(), NoMemory>
        ensures format { self.new.format ≡ self.old.format }
        ensures lines { OnOk result (self.new.lines ≡ self.old.lines ++ map (stop_line machine) keys.now) }
    {
        self.tasks("displace", keys, machine)
    }

    /// Appends the line of a task that ends.
    pub fn end(&mut self, key: TaskKey, machine: u64) -> Result<(), NoMemory>
        ensures format { self.new.format ≡ self.old.format }
        ensures lines { OnOk result (self.new.lines ≡ self.old.lines ++ end_line key machine ∷ []) }
    {
        self.task("end", key, machine)
    }

    /// Appends a line of this name, with a task and a machine.
    pub fn task(&mut self, name: &'static str, key: TaskKey, machine: u64) -> Result<(), NoMemory>
        requires { IsTrue (is_plain (Name name.now)) }
        ensures format { self.new.format ≡ self.old.format }
        ensures lines { OnOk result (self.new.lines ≡ self.old.lines ++ (Name name.now ∷ task_words key machine) ∷ []) }
    {
        let [job, index, machine] = task_words(key, machine);
        self.append(&[Name(name), job, index, machine])
    }

    /// Appends a line for each of these tasks, with the same name and machine.
    pub fn tasks(
        &mut self,
        name: &'static str,
        keys: &[TaskKey],
        machine: u64,
    ) -> Result<(), NoMemory>
        requires { IsTrue (is_plain (Name name.now)) }
        ensures format { self.new.format ≡ self.old.format }
        ensures lines { OnOk result (self.new.lines ≡ self.old.lines ++ map (λ key. Name name.now ∷ task_words key machine) keys.now) }
    {
        for key in keys {
            self.task(name, *key, machine)?;
        }
        Ok(())
    }

    /// Appends the line that says how much is used on the machines that are up, and how much there
    /// is, in units of 10^-9.
    pub fn usage(&mut self, used: Need, capacity: Need) -> Result<(), NoMemory>
        ensures format { self.new.format ≡ self.old.format }
        ensures lines { OnOk result (self.new.lines ≡ self.old.lines ++ usage_line used capacity ∷ []) }
    {
        self.append(&[
            Name("use"),
            Name("cpu"),
            Number(used.cpu),
            Number(capacity.cpu),
            Name("mem"),
            Number(used.mem),
            Number(capacity.mem),
            Name("disk"),
            Number(used.disk),
            Number(capacity.disk),
        ])
    }

    /// Appends the line with the number of entries and that of rounds.
    pub fn sizes(&mut self, entries: u64, rounds: u64) -> Result<(), NoMemory>
        ensures format { self.new.format ≡ self.old.format }
        ensures lines { OnOk result (self.new.lines ≡ self.old.lines ++ sizes_line entries rounds ∷ []) }
    {
        self.append(&[
            Name("entries"),
            Number(entries),
            Name("rounds"),
            Number(rounds),
        ])
    }

    /// Appends the line of a scheduler with its counts.
    pub fn counts(&mut self, scheduler: u32, counts: &Counts) -> Result<(), NoMemory>
        ensures format { self.new.format ≡ self.old.format }
        ensures lines { OnOk result (self.new.lines ≡ self.old.lines ++ counts_line scheduler (counts_in counts.now) ∷ []) }
    {
        self.append(&[
            Name("scheduler"),
            Number(u64::from(scheduler)),
            Name("commits"),
            Number(counts.commits),
            Name("empty"),
            Number(counts.empty),
            Name("placing"),
            Number(counts.placing),
            Name("conflicted"),
            Number(counts.conflicted),
            Name("placed"),
            Number(counts.placed),
            Name("refused"),
            Number(counts.refused),
            Name("withdrawn"),
            Number(counts.withdrawn),
            Name("evicted"),
            Number(counts.evicted),
        ])
    }

    /// Appends the line with the number of tasks that wait and that of jobs that are given up.
    pub fn unplaced(&mut self, tasks: u64, jobs: u64) -> Result<(), NoMemory>
        ensures format { self.new.format ≡ self.old.format }
        ensures lines { OnOk result (self.new.lines ≡ self.old.lines ++ unplaced_line tasks jobs ∷ []) }
    {
        self.append(&[
            Name("waiting"),
            Number(tasks),
            Name("abandoned"),
            Number(jobs),
        ])
    }
}
