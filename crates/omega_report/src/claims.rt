//! The lines of commits and their claims.
ghost use Rattle.std.specs.Prelude.{◌≡◌, ◌∷◌, ◌++◌, false, [], map, IsTrue, OnOk};
ghost use Rattle.std.specs.List.{flat_map, zip};
ghost use Rattle.omega_model.specs.Report.{Name, Number, claim_lines, entry_lines, evict_line, place_line, refuse_line};
ghost use Rattle.omega_model.specs.ReportForms.{is_plain};
ghost use Rattle.omega_model.specs.Touches.{is_placed};
ghost use Rattle.omega_report.specs.Lines.{refusal_line};
ghost use Rattle.omega_model.specs.declared.entries.Entry.{Entry};

use crate::line_words::Word::{Name, Number};
use crate::line_words::task_words;
use crate::page::Page;
use omega_model::{Claim, Judgement, NoMemory, TaskKey, Txn, Verdict};

impl Page {
    /// Appends the line of a commit and those of its claims, each with what was answered to it.
    pub fn commit(
        &mut self,
        scheduler: u32,
        seen: u64,
        txn: &Txn,
        reply: &[Judgement],
    ) -> Result<(), NoMemory>
        ensures format { self.new.format ≡ self.old.format }
        ensures lines { OnOk result (self.new.lines ≡ self.old.lines ++ entry_lines (Entry.Commit scheduler seen txn.now reply.now)) }
    {
        self.append(&[
            Name("commit"),
            Number(u64::from(scheduler)),
            Number(seen),
            Number(txn.job),
        ])?;
        self.claims(txn.claims.as_slice(), reply)
    }

    /// The lines of claims and what was answered to them.
    fn claims(&mut self, claims: &[Claim], reply: &[Judgement]) -> Result<(), NoMemory>
        ensures format { self.new.format ≡ self.old.format }
        ensures lines { OnOk result (self.new.lines ≡ self.old.lines ++ flat_map claim_lines (zip claims.now reply.now)) }
    {
        for (claim, judgement) in claims.iter().zip(reply) {
            self.claim(claim, judgement)?;
        }
        Ok(())
    }

    /// Appends the lines of a claim and what was answered to it: those that it evicts and where it is
    /// placed, or why it is refused.
    pub fn claim(&mut self, claim: &Claim, judgement: &Judgement) -> Result<(), NoMemory>
        ensures format { self.new.format ≡ self.old.format }
        ensures lines { OnOk result (self.new.lines ≡ self.old.lines ++ claim_lines (claim.now, judgement.now)) }
    {
        if judgement.verdict.is_placed() {
            self.evicted(claim, judgement.evicted.as_slice())?;
            return self.placed(claim);
        }
        self.refused(claim, judgement.verdict)
    }

    /// A line for each task that stops to make room for a placed claim.
    fn evicted(&mut self, claim: &Claim, keys: &[TaskKey]) -> Result<(), NoMemory>
        ensures format { self.new.format ≡ self.old.format }
        ensures lines { OnOk result (self.new.lines ≡ self.old.lines ++ map (evict_line claim.now) keys.now) }
    {
        self.tasks("evict", keys, claim.machine)
    }

    /// The line of a placed claim.
    fn placed(&mut self, claim: &Claim) -> Result<(), NoMemory>
        ensures format { self.new.format ≡ self.old.format }
        ensures lines { OnOk result (self.new.lines ≡ self.old.lines ++ place_line claim.now ∷ []) }
    {
        self.task("place", claim.key, claim.machine)
    }

    /// The line of a claim that isn't placed, with its reason.
    fn refused(&mut self, claim: &Claim, verdict: Verdict) -> Result<(), NoMemory>
        requires unplaced { is_placed verdict ≡ false }
        ensures format { self.new.format ≡ self.old.format }
        ensures lines { OnOk result (self.new.lines ≡ self.old.lines ++ refuse_line claim.now verdict ∷ []) }
    {
        let name = Name("refuse");
        let [job, index, machine] = task_words(claim.key, claim.machine);
        match verdict {
            Verdict::Placed => unreachable!(),
            Verdict::NoMachine => self.append(&[name, job, index, machine, Name("no-machine")]),
            Verdict::AlreadyRunning(on) => self.refused_with(claim, "running", on),
            Verdict::Changed { now, copy } => self.append(&[
                name,
                job,
                index,
                machine,
                Name("changed"),
                Number(now),
                Number(copy),
            ]),
            Verdict::VictimRank(key) => self.refused_for(claim, "victim-rank", key),
            Verdict::SameJob(key) => self.refused_for(claim, "same-job", key),
            Verdict::Full(free) => self.append(&[
                name,
                job,
                index,
                machine,
                Name("full"),
                Number(free.cpu),
                Number(free.mem),
                Number(free.disk),
            ]),
            Verdict::Withdrawn(place) => self.refused_with(claim, "withdrawn", u64::from(place)),
        }
    }

    /// The line of a claim that is refused for a reason which names a task.
    fn refused_for(
        &mut self,
        claim: &Claim,
        reason: &'static str,
        key: TaskKey,
    ) -> Result<(), NoMemory>
        requires { IsTrue (is_plain (Name reason.now)) }
        ensures format { self.new.format ≡ self.old.format }
        ensures lines { OnOk result (self.new.lines ≡ self.old.lines ++ refusal_line claim.now (Name reason.now ∷ Number key.job ∷ Number key.index ∷ []) ∷ []) }
    {
        let [job, index, machine] = task_words(claim.key, claim.machine);
        self.append(&[
            Name("refuse"),
            job,
            index,
            machine,
            Name(reason),
            Number(key.job),
            Number(u64::from(key.index)),
        ])
    }

    /// The line of a claim that is refused for a reason with one number.
    fn refused_with(
        &mut self,
        claim: &Claim,
        reason: &'static str,
        number: u64,
    ) -> Result<(), NoMemory>
        requires { IsTrue (is_plain (Name reason.now)) }
        ensures format { self.new.format ≡ self.old.format }
        ensures lines { OnOk result (self.new.lines ≡ self.old.lines ++ refusal_line claim.now (Name reason.now ∷ Number number ∷ []) ∷ []) }
    {
        let [job, index, machine] = task_words(claim.key, claim.machine);
        self.append(&[
            Name("refuse"),
            job,
            index,
            machine,
            Name(reason),
            Number(number),
        ])
    }
}
