//! How often machines are touched.
ghost use Rattle.std.specs.Prelude.{◌≡◌, ◌+◌, ◌-◌, ◌<◌, ◌≤◌, ◌^◌, ℕ, [], length, vec_capacity, IsTrue, if◌then◌else◌};
ghost use Rattle.std.specs.List.{zip, list_any};
ghost use Rattle.std.specs.List.Sorted.{IsStrictlyIncreasing};
ghost use Rattle.omega_machines.specs.Table.{machines_of, seq_at, change_state, touched};
ghost use Rattle.omega_model.specs.Machines.{is_listed};
ghost use Rattle.omega_model.specs.Touches.{places_on};
ghost use Rattle.omega_board.specs.Numbers.{is_among};

use crate::Board;
use omega_model::{Claim, Claims, Judgement, Judgements};

impl Board {
    /// Counts a commit on each machine on which it placed a claim, once. These machines are in the
    /// list, and none of their sequence numbers is 2^64 - 1. `room` is empty, and has room for the number of a
    /// machine for each claim. Costs the claims, which are sorted by machine.
    pub fn touch_placed(&mut self, claims: &Claims, reply: &Judgements, room: Vec<u64>)
        requires listed { (id : ℕ) → IsTrue (list_any (places_on id) (zip claims.now reply.now)) → IsTrue (is_listed id (machines_of self.old.table)) }
        requires seqs { (id : ℕ) → IsTrue (list_any (places_on id) (zip claims.now reply.now)) → seq_at self.old.table id < 2 ^ 64 - 1 }
        requires none { room.items ≡ [] }
        requires room { length claims.now ≤ vec_capacity room }
        ensures tasks { self.new.tasks ≡ self.old.tasks }
        ensures spare { self.new.spare ≡ self.old.spare }
        ensures machines { machines_of self.new.table ≡ machines_of self.old.table }
        ensures seqs { (id : ℕ) → seq_at self.new.table id ≡ seq_at self.old.table id + (if list_any (places_on id) (zip claims.now reply.now) then 1 else 0) }
    {
        let placed = placed_machines(claims.as_slice(), reply.as_slice(), room);
        self.touch_each(placed.as_slice());
    }

    /// One more entry touches each of these machines.
    fn touch_each(&mut self, machines: &[u64])
        requires rises { IsStrictlyIncreasing machines.now }
        requires listed { (id : ℕ) → IsTrue (is_among machines.now id) → IsTrue (is_listed id (machines_of self.old.table)) }
        requires seqs { (id : ℕ) → IsTrue (is_among machines.now id) → seq_at self.old.table id < 2 ^ 64 - 1 }
        ensures tasks { self.new.tasks ≡ self.old.tasks }
        ensures spare { self.new.spare ≡ self.old.spare }
        ensures machines { machines_of self.new.table ≡ machines_of self.old.table }
        ensures seqs { (id : ℕ) → seq_at self.new.table id ≡ seq_at self.old.table id + (if is_among machines.now id then 1 else 0) }
    {
        for id in machines {
            self.touch(*id);
        }
    }

    /// One more entry touches a machine.
    pub(crate) fn touch(&mut self, id: u64)
        requires listed { IsTrue (is_listed id (machines_of self.old.table)) }
        requires seq { seq_at self.old.table id < 2 ^ 64 - 1 }
        ensures { self.new ≡ record self.old { table = change_state id touched self.old.table } }
    {
        self.table.touch(id);
    }
}

/// The machines on which claims were placed, each once, in order of their numbers.
fn placed_machines(claims: &[Claim], reply: &[Judgement], room: Vec<u64>) -> Vec<u64>
    requires none { room.items ≡ [] }
    requires room { length claims.now ≤ vec_capacity room }
    ensures rises { IsStrictlyIncreasing result.items }
    ensures placed { (id : ℕ) → is_among result.items id ≡ list_any (places_on id) (zip claims.now reply.now) }
{
    let mut machines = room;
    for (claim, judgement) in claims.iter().zip(reply) {
        if judgement.verdict.is_placed() {
            machines.push_reserved(claim.machine);
        }
    }
    machines.sort_unstable();
    machines.dedup();
    machines
}
