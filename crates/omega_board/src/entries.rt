//! Entries, applied to the board.
ghost use Rattle.std.specs.Prelude.{◌≡◌, ◌≤◌, [], sum_by, ◌+◌, ◌-◌, ◌<◌, ◌^◌, ℕ, length, OnOk, OnErr, IfOk, IsTrue, if◌then◌else◌};
ghost use Rattle.std.specs.List.{zip, fold, list_any};
ghost use Rattle.omega_machines.specs.Table.{machines_of, seq_at};
ghost use Rattle.omega_model.specs.Applying.{MayApply, MayPlaceAll};
ghost use Rattle.omega_model.specs.Cell.{keys_of, use_on, without};
ghost use Rattle.omega_model.specs.Need.{Fits};
ghost use Rattle.omega_model.specs.Reply.{tasks_after_claim};
ghost use Rattle.omega_model.specs.State.{step, displaced, excess, ranked_on};
ghost use Rattle.omega_model.specs.Touches.{touches, places_on};
ghost use Rattle.omega_running.specs.Kept.{KeysRise};
ghost use Rattle.omega_board.specs.Board.{cell_of, CountsOn};
ghost use Rattle.omega_board.specs.Undo.{IsUndoOf};

use crate::Board;
use crate::undo::Undo;
use omega_model::{
    Bytes, Claim, Claims, Entry, Judgement, Judgements, Keys, Need, NoMemory, Seq, TaskKey,
};
use std::alloc::Global;

impl Board {
    /// Applies an entry: the cell is one step on, and each machine that the entry touches counts one
    /// more entry. Answers the names of the tasks that a change of their machine stops, in the order
    /// in which they stop. Where memory runs out, the machines and tasks stay, and no room is lost.
    ///
    /// A capacity is at most 10^12 units of each kind, there are at most 65,536 machines, no sequence
    /// number that rises is 2^64 - 1 already, an end names a task that runs on its machine, and the
    /// placed claims of a commit can be placed one after the other, each with what the reply says it
    /// evicts.
    ///
    /// Costs what the entry changes; an attribute's entry the logarithm of the machine's attributes, and
    /// those behind one that is deleted. Where it displaces a task, it costs the tasks on the machine,
    /// which are sorted; a commit costs its claims as `reserve`, `apply_placed` and `touch_placed` do.
    pub fn apply_entry(&mut self, alloc: Global, entry: &Entry) -> Result<Keys, NoMemory>
        requires { MayApply (cell_of self.old) (seq_at self.old.table) entry.now }
        ensures cell { OnOk result (cell_of self.new ≡ step (cell_of self.old) entry.now) }
        ensures seqs { OnOk result ((id : ℕ) → seq_at self.new.table id ≡ seq_at self.old.table id + (if touches id entry.now then 1 else 0)) }
        ensures displaced { IfOk result (λ keys. keys ≡ keys_of (displaced self.old.tasks entry.now)) }
        ensures table { OnErr result (self.new.table ≡ self.old.table) }
        ensures tasks { OnErr result (self.new.tasks ≡ self.old.tasks) }
        ensures room { OnErr result (self.old.spare ≤ self.new.spare) }
    {
        match entry {
            Entry::Round { .. } => Ok(Seq::new(alloc)),
            Entry::MachineAdd { machine, cap } => self.add_machine(alloc, *machine, *cap),
            Entry::MachineUpdate { machine, cap } => self.update_machine(alloc, *machine, *cap),
            Entry::MachineRemove { machine } => self.remove_machine(alloc, *machine),
            Entry::AttrSet {
                machine,
                name,
                value,
            } => self.set_attr(alloc, *machine, name, value),
            Entry::AttrDelete { machine, name } => self.delete_attr(alloc, *machine, name),
            Entry::End { key, machine } => Ok(self.end(alloc, *key, *machine)),
            Entry::Commit { txn, reply, .. } => self.commit(alloc, &txn.claims, reply),
        }
    }

    fn add_machine(&mut self, alloc: Global, machine: u64, cap: Need) -> Result<Keys, NoMemory>
        requires { MayApply (cell_of self.old) (seq_at self.old.table) (Entry.MachineAdd machine cap) }
        ensures cell { OnOk result (cell_of self.new ≡ step (cell_of self.old) (Entry.MachineAdd machine cap)) }
        ensures seqs { OnOk result (CountsOn machine self.old.table self.new.table) }
        ensures displaced { IfOk result (λ keys. keys ≡ keys_of (displaced self.old.tasks (Entry.MachineAdd machine cap))) }
        ensures err { OnErr result (self.new ≡ self.old) }
    {
        let gone = self.excess(alloc, machine, cap)?;
        self.displace(machine, gone.as_slice())?;
        self.bring_up(machine, cap);
        Ok(gone)
    }

    fn update_machine(&mut self, alloc: Global, machine: u64, cap: Need) -> Result<Keys, NoMemory>
        requires { MayApply (cell_of self.old) (seq_at self.old.table) (Entry.MachineUpdate machine cap) }
        ensures cell { OnOk result (cell_of self.new ≡ step (cell_of self.old) (Entry.MachineUpdate machine cap)) }
        ensures seqs { OnOk result (CountsOn machine self.old.table self.new.table) }
        ensures displaced { IfOk result (λ keys. keys ≡ keys_of (displaced self.old.tasks (Entry.MachineUpdate machine cap))) }
        ensures err { OnErr result (self.new ≡ self.old) }
    {
        let gone = self.excess(alloc, machine, cap)?;
        self.displace(machine, gone.as_slice())?;
        self.resize(machine, cap);
        Ok(gone)
    }

    fn remove_machine(&mut self, alloc: Global, machine: u64) -> Result<Keys, NoMemory>
        requires { MayApply (cell_of self.old) (seq_at self.old.table) (Entry.MachineRemove machine) }
        ensures cell { OnOk result (cell_of self.new ≡ step (cell_of self.old) (Entry.MachineRemove machine)) }
        ensures seqs { OnOk result (CountsOn machine self.old.table self.new.table) }
        ensures displaced { IfOk result (λ keys. keys ≡ keys_of (displaced self.old.tasks (Entry.MachineRemove machine))) }
        ensures err { OnErr result (self.new ≡ self.old) }
    {
        let gone = self.running.on_machine(alloc, machine)?;
        self.displace(machine, gone.as_slice())?;
        self.take_down(machine);
        Ok(gone)
    }

    fn set_attr(
        &mut self,
        alloc: Global,
        machine: u64,
        name: &Bytes,
        value: &Bytes,
    ) -> Result<Keys, NoMemory>
        requires { MayApply (cell_of self.old) (seq_at self.old.table) (Entry.AttrSet machine name.now value.now) }
        ensures cell { OnOk result (cell_of self.new ≡ step (cell_of self.old) (Entry.AttrSet machine name.now value.now)) }
        ensures seqs { OnOk result (CountsOn machine self.old.table self.new.table) }
        ensures displaced { IfOk result (λ keys. keys ≡ []) }
        ensures err { OnErr result (self.new ≡ self.old) }
    {
        self.put_attr(machine, name, value)?;
        Ok(Seq::new(alloc))
    }

    fn delete_attr(&mut self, alloc: Global, machine: u64, name: &Bytes) -> Result<Keys, NoMemory>
        requires { MayApply (cell_of self.old) (seq_at self.old.table) (Entry.AttrDelete machine name.now) }
        ensures cell { OnOk result (cell_of self.new ≡ step (cell_of self.old) (Entry.AttrDelete machine name.now)) }
        ensures seqs { OnOk result (CountsOn machine self.old.table self.new.table) }
        ensures displaced { IfOk result (λ keys. keys ≡ []) }
        ensures err { OnErr result (self.new ≡ self.old) }
    {
        self.list(machine)?;
        self.unset_attr(machine, name);
        Ok(Seq::new(alloc))
    }

    /// The task of this name stops, which runs on this machine.
    fn end(&mut self, alloc: Global, key: TaskKey, machine: u64) -> Keys
        requires { MayApply (cell_of self.old) (seq_at self.old.table) (Entry.End key machine) }
        ensures cell { cell_of self.new ≡ step (cell_of self.old) (Entry.End key machine) }
        ensures seqs { CountsOn machine self.old.table self.new.table }
        ensures displaced { result ≡ [] }
    {
        self.stop(key);
        self.touch(machine);
        Seq::new(alloc)
    }

    /// A commit: its placed claims are placed in order.
    fn commit(
        &mut self,
        alloc: Global,
        claims: &Claims,
        reply: &Judgements,
    ) -> Result<Keys, NoMemory>
        requires seqs { (id : ℕ) → IsTrue (list_any (places_on id) (zip claims.now reply.now)) → seq_at self.old.table id < 2 ^ 64 - 1 }
        requires places { MayPlaceAll (cell_of self.old) (zip claims.now reply.now) }
        ensures machines { machines_of self.new.table ≡ machines_of self.old.table }
        ensures tasks { OnOk result (self.new.tasks ≡ fold tasks_after_claim self.old.tasks (zip claims.now reply.now)) }
        ensures seqs { OnOk result ((id : ℕ) → seq_at self.new.table id ≡ seq_at self.old.table id + (if list_any (places_on id) (zip claims.now reply.now) then 1 else 0)) }
        ensures displaced { IfOk result (λ keys. keys ≡ []) }
        ensures no_table { OnErr result (self.new.table ≡ self.old.table) }
        ensures no_tasks { OnErr result (self.new.tasks ≡ self.old.tasks) }
        ensures room { OnErr result (self.old.spare ≤ self.new.spare) }
    {
        let room = Vec::with_capacity(alloc, claims.len())?;
        let mut undo = self.reserve(alloc, claims)?;
        self.place_all(claims.as_slice(), reply.as_slice(), &mut undo);
        self.touch_placed(claims, reply, room);
        Ok(Seq::new(alloc))
    }

    /// The names of the tasks that stop where the machine has this capacity, in order of eviction.
    /// Those that stay fit it.
    fn excess(&self, alloc: Global, machine: u64, cap: Need) -> Result<Keys, NoMemory>
        ensures names { IfOk result (λ keys. keys ≡ keys_of (excess cap (ranked_on machine self.now.tasks))) }
        ensures fits { IfOk result (λ keys. Fits (use_on (without keys self.now.tasks) machine) cap) }
    {
        let used = self.use_on(machine);
        if used.fits(cap) {
            return Ok(Seq::new(alloc));
        }
        let ranked = self.running.on_machine(alloc, machine)?;
        let count = self.excess_len(machine, ranked.as_slice(), used, cap);
        Ok(Seq::of(Vec::from_slice(alloc, &ranked.as_slice()[..count])?))
    }

    /// How many of a machine's tasks stop where it has this capacity.
    fn excess_len(&self, machine: u64, ranked: &[TaskKey], used: Need, cap: Need) -> usize
        requires ordered { KeysRise self.now.tasks }
        requires ranked { ranked.now ≡ keys_of (ranked_on machine self.now.tasks) }
        requires used { used ≡ use_on self.now.tasks machine }
        ensures count { result ≡ length (excess cap (ranked_on machine self.now.tasks)) }
        ensures few { result ≤ length ranked.now }
    {
        let mut left = used;
        for (i, key) in ranked.iter().enumerate() {
            if left.fits(cap) {
                return i;
            }
            left = left.minus(self.need_of(*key));
        }
        ranked.len()
    }

    /// What the tasks on a machine use.
    pub(crate) fn use_on(&self, machine: u64) -> Need
        ensures { result ≡ use_on self.now.tasks machine }
    {
        let (Some(free), Some(place)) = (self.table.free(machine), self.table.position(machine))
        else {
            return Need::NOTHING;
        };
        match self.table.at(place) {
            Some(machine) => machine.cap.minus(free),
            None => Need::NOTHING,
        }
    }

    /// The placed claims, in order.
    fn place_all(&mut self, claims: &[Claim], reply: &[Judgement], undo: &mut Undo)
        requires places { MayPlaceAll (cell_of self.old) (zip claims.now reply.now) }
        requires undo { IsUndoOf self.old undo.old }
        requires claims { length claims.now ≤ undo.old.claims }
        requires victims { sum_by (λ claim. length claim.victims) claims.now ≤ undo.old.victims }
        ensures machines { machines_of self.new.table ≡ machines_of self.old.table }
        ensures tasks { self.new.tasks ≡ fold tasks_after_claim self.old.tasks (zip claims.now reply.now) }
        ensures seqs { (id : ℕ) → seq_at self.new.table id ≡ seq_at self.old.table id }
    {
        for (claim, judgement) in claims.iter().zip(reply) {
            if judgement.verdict.is_placed() {
                self.apply_placed(claim, judgement.evicted.as_slice(), undo);
            }
        }
    }
}
