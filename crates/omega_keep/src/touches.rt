//! Which entries of a history touch each machine.
ghost use Rattle.std.specs.Prelude.{◌≡◌, ◌≤◌, ◌==◌, [], ℕ, List, length, take, IfOk, OnOk};
ghost use Rattle.std.specs.List.{list_any, zip};
ghost use Rattle.omega_model.specs.Touches.{copied_seqs};
ghost use Rattle.omega_model.specs.Touches.{places_on, seq, touches};
ghost use Rattle.omega_model.specs.declared.entries.Entry.{Entry};
ghost use Rattle.omega_keep.specs.Touching.{ends_with, noted, places_of, with_place, AreTouches, Splits};

use omega_model::{Claim, Entry, Judgement, NoMemory, Seq};
use std::alloc::Global;
use std::collections::BTreeMap;

/// For each machine the places of the entries that touch it, in order.
///
/// So a machine's sequence number at any place of the history is found in logarithmic time, without
/// going through the history.
#[derive(Drop)]
pub struct Touches {
    pub places: BTreeMap<u64, Seq<u64>>,
}

impl Touches {
    /// Those of the empty history.
    pub fn new(alloc: Global) -> Touches
        ensures { AreTouches result.places [] }
    {
        Touches {
            places: BTreeMap::new(alloc),
        }
    }

    /// The sequence number of each claim's machine after the first `seen` entries, in the order of the
    /// claims.
    pub fn seqs(&self, alloc: Global, seen: u64, claims: &[Claim]) -> Result<Vec<u64>, NoMemory>
        ensures { IfOk result (λ seqs. (history : List Entry) → AreTouches self.now.places history → seen ≤ length history → seqs.items ≡ copied_seqs history seen claims.now) }
    {
        let mut seqs = Vec::new(alloc);
        for claim in claims {
            seqs.push(self.seq(claim.machine, seen))?;
        }
        Ok(seqs)
    }

    /// The sequence number of a machine after so many entries.
    fn seq(&self, machine: u64, seen: u64) -> u64
        ensures { (history : List Entry) → AreTouches self.now.places history → seen ≤ length history → result ≡ seq (take seen history) machine }
    {
        match self.places.get(&machine) {
            Some(places) => count_below(places.as_slice(), seen) as u64,
            None => 0,
        }
    }

    /// Notes the entry at a place, from 0. Where memory runs out, it may be noted for some of its machines
    /// and not for others.
    pub fn note(&mut self, alloc: Global, place: u64, entry: &Entry) -> Result<(), NoMemory>
        ensures { OnOk result ((id : ℕ) → places_of self.new.places id ≡ noted place (touches id entry.now) (places_of self.old.places id)) }
    {
        match entry {
            Entry::Commit { txn, reply, .. } => {
                self.touch_placed(alloc, place, txn.claims.as_slice(), reply.as_slice())
            }
            _ => match entry.machine() {
                Some(machine) => self.touch(alloc, machine, place),
                None => Ok(()),
            },
        }
    }

    /// Notes the machines on which claims were placed.
    fn touch_placed(
        &mut self,
        alloc: Global,
        place: u64,
        claims: &[Claim],
        reply: &[Judgement],
    ) -> Result<(), NoMemory>
        ensures { OnOk result ((id : ℕ) → places_of self.new.places id ≡ noted place (list_any (places_on id) (zip claims.now reply.now)) (places_of self.old.places id)) }
    {
        for i in 0..claims.len().min(reply.len()) {
            self.touch_claimed(alloc, place, &claims[i], &reply[i])?;
        }
        Ok(())
    }

    /// Notes the machine of a claim, where it was placed.
    fn touch_claimed(
        &mut self,
        alloc: Global,
        place: u64,
        claim: &Claim,
        judgement: &Judgement,
    ) -> Result<(), NoMemory>
        ensures { OnOk result ((id : ℕ) → places_of self.new.places id ≡ noted place (places_on id (claim.now, judgement.now)) (places_of self.old.places id)) }
    {
        if judgement.verdict.is_placed() {
            self.touch(alloc, claim.machine, place)
        } else {
            Ok(())
        }
    }

    /// Notes a machine at a place, once.
    fn touch(&mut self, alloc: Global, machine: u64, place: u64) -> Result<(), NoMemory>
        ensures { OnOk result ((id : ℕ) → places_of self.new.places id ≡ noted place (machine == id) (places_of self.old.places id)) }
    {
        if let Some(places) = self.places.get_mut(&machine) {
            return add_place(places, place);
        }
        let mut places = Seq::new(alloc);
        add_place(&mut places, place)?;
        self.places.insert(machine, places)?;
        Ok(())
    }
}

/// Adds a place at the end of some places, unless they end with it.
fn add_place(places: &mut Seq<u64>, place: u64) -> Result<(), NoMemory>
    ensures { OnOk result (places.new ≡ with_place place places.old) }
{
    if !ends_with(places.as_slice(), place) {
        places.push(place)?;
    }
    Ok(())
}

/// Whether the last of some places is this one.
fn ends_with(places: &[u64], place: u64) -> bool
    ensures { result ≡ ends_with place places.now }
{
    places.last().is_some_and(|last| *last == place)
}

/// How many places of a list in order stand below a number.
fn count_below(places: &[u64], seen: u64) -> usize
    ensures { (count : ℕ) → Splits seen places.now count → result ≡ count }
{
    places.partition_point(|place| *place < seen)
}
