//! The table of machines.
ghost use Rattle.std.specs.Prelude.{◌≡◌, ◌-◌, ◌<◌, ◌≤◌, ◌^◌, ◌==◌, false, [], ◌∷◌, ◌++◌, None, Some, length, take, drop, slice_get, option_map, position, is_some, IfSome, IsTrue, IsSomeAnd, OnOk, OnErr};
ghost use Rattle.omega_model.specs.Applying.{ListsOrHasRoom};
ghost use Rattle.omega_model.specs.Fields.{greatest};
ghost use Rattle.omega_model.specs.Machines.{is_listed, numbers_of, removed, attr_set, attr_deleted};
ghost use Rattle.omega_model.specs.Need.{Fits, nothing};
ghost use Rattle.omega_machines.specs.Load.{less, load_of_all};
ghost use Rattle.omega_machines.specs.Places.{ArePlaced};
ghost use Rattle.omega_machines.specs.Table.{machines_of, state_at, use_at, free_at, seq_at, used_by_all, capacity_of_all, change_state, ensured_states, state_added, state_updated, state_put, with_machine, charged, released, touched, IsTable};

use crate::MachineState;
use crate::indexes::{delete_at, drop_between, set_at};
use crate::load::Load;
use crate::names::NameIndex;
use omega_model::{Bytes, Machine, Need, NoMemory, Seq};
use std::alloc::Global;
use std::collections::BTreeMap;
use std::marker::Model;

/// The machines of a cell in order of first mention, found by number.
///
/// A contract sees the list of their states. There are at most 65,536 of them, with distinct
/// numbers and capacities of at most 1,000,000,000,000 units of each kind, and no more is in use on
/// a machine than its capacity, nothing where it is down.
///
/// A call on a machine costs one or two look-ups of its number, and takes no memory, unless its own
/// text says more. A look-up mostly finds the machine's place in one of the two notes of its number; where
/// another number has taken its note, it costs the logarithm of the number of machines besides.
#[derive(Drop)]
pub struct MachineTable {
    states: Vec<MachineState>,
    places: BTreeMap<u64, usize>,
    notes: Vec<u16>,
    indexes: BTreeMap<usize, NameIndex>,
    load: Load,
}

impl Model for MachineTable {
    ghost use Rattle.std.specs.Prelude.{List};
    ghost use Rattle.omega_machines.specs.Table.{MachineState};
    ghost use Rattle.omega_machines.specs.Places.{IsWhole};

    ghost Value = { List MachineState };

    ghost view = { λ table. table.states.items };

    ghost invariant = { λ table. IsWhole table.places table.indexes table.states.items table.load };
}

/// Gives a machine a capacity. What is in use on it stays in use.
fn set_cap(state: &mut MachineState, cap: Need)
    ensures { state.new ≡ state_updated cap state.old }
{
    let used = state.machine.cap.minus(state.free);
    state.free = cap.minus(used);
    state.machine.cap = cap;
}

/// How many notes there are, each of one place.
const NOTES: usize = 65_536;

/// Which two notes are those of a number. Other numbers may share them.
fn notes_of(id: u64) -> [usize; 2] {
    let spread = id.wrapping_mul(0x9E37_79B9_7F4A_7C15);
    [(spread >> 48) as usize, (spread >> 32) as usize % NOTES]
}

/// The place that is noted in a note; `None` where nothing is.
fn place_in(notes: &[u16], note: usize) -> Option<usize> {
    usize::from(*notes.get(note)?).checked_sub(1)
}

/// The place that a note has for a number; `None` where its machine doesn't stand there.
fn noted_in(states: &[MachineState], notes: &[u16], note: usize, id: u64) -> Option<usize>
    ensures { IfSome result (λ place. slice_get (numbers_of (machines_of states.now)) place ≡ Some id) }
{
    let place = place_in(notes, note)?;
    let state = states.get(place)?;
    if state.machine.id == id {
        Some(place)
    } else {
        None
    }
}

/// The place that is noted for a number; `None` where its machine doesn't stand there.
fn noted(states: &[MachineState], notes: &[u16], id: u64) -> Option<usize>
    ensures { IfSome result (λ place. slice_get (numbers_of (machines_of states.now)) place ≡ Some id) }
{
    let [first, second] = notes_of(id);
    let place = noted_in(states, notes, first, id);
    if place.is_some() {
        return place;
    }
    noted_in(states, notes, second, id)
}

/// The place of a number's machine, by the note or else by the map; `None` where it isn't in the table.
fn find(
    states: &[MachineState],
    places: &BTreeMap<u64, usize>,
    notes: &[u16],
    id: u64,
) -> Option<usize>
    requires { ArePlaced places.now (machines_of states.now) }
    ensures { result ≡ position (λ machine. machine.id == id) (machines_of states.now) }
{
    if let Some(place) = noted(states, notes, id) {
        return Some(place);
    }
    places.get(&id).copied()
}

/// Notes the place of a number: in its first note, or in its second one where only the first is taken. Where both
/// are, the number that has the first loses it. The first call takes the memory of all notes.
fn note(notes: &mut Vec<u16>, id: u64, place: usize) -> Result<(), NoMemory> {
    if notes.is_empty() {
        notes.resize(NOTES, 0)?;
    }
    let [first, second] = notes_of(id);
    let own = if place_in(notes, first).is_some() && place_in(notes, second).is_none() {
        second
    } else {
        first
    };
    if let (Some(note), Ok(next)) = (notes.get_mut(own), u16::try_from(place.saturating_add(1))) {
        *note = next;
    }
    Ok(())
}

/// Puts the state of a machine behind the others, and its place into the map.
fn push(
    states: &mut Vec<MachineState>,
    places: &mut BTreeMap<u64, usize>,
    state: MachineState,
) -> Result<(), NoMemory>
    requires placed { ArePlaced places.old (machines_of states.old.items) }
    requires new { position (λ machine. machine.id == state.machine.id) (machines_of states.old.items) ≡ None }
    ensures states { OnOk result (states.new.items ≡ states.old.items ++ state ∷ []) }
    ensures err { OnErr result (states.new.items ≡ states.old.items) }
    ensures placed { ArePlaced places.new (machines_of states.new.items) }
{
    states.reserve(1)?;
    places.insert(state.machine.id, states.len())?;
    states.push_reserved(state);
    Ok(())
}

/// Takes the machines from this place on out of the map.
fn forget_rest(places: &mut BTreeMap<u64, usize>, states: &[MachineState], from: usize)
    requires placed { ArePlaced places.old (machines_of states.now) }
    requires table { IsTable states.now }
    ensures { ArePlaced places.new (machines_of (take from states.now)) }
{
    for position in from..states.len() {
        places.remove(&states[position].machine.id);
    }
}

/// What is left of a load when the machines from this place on leave.
fn without_rest(states: &[MachineState], load: Load, from: usize) -> Load
    ensures { result ≡ less load (load_of_all (drop from states.now)) }
{
    let mut left = load;
    for position in from..states.len() {
        left = left.less(Load::of(&states[position]));
    }
    left
}

impl MachineTable {
    /// The table without machines.
    pub fn new(alloc: Global) -> MachineTable
        ensures { result ≡ [] }
    {
        MachineTable {
            states: Vec::new(alloc),
            places: BTreeMap::new(alloc),
            notes: Vec::new(alloc),
            indexes: BTreeMap::new(alloc),
            load: Load::NONE,
        }
    }

    /// How many machines there are.
    pub fn len(&self) -> usize
        ensures len { result ≡ length self.now }
        ensures table { IsTable self.now }
    {
        self.states.len()
    }

    /// The machine at a position in the list, counted from 0.
    pub fn at(&self, position: usize) -> Option<&Machine>
        ensures { option_map (λ machine. machine.now) result ≡ slice_get (machines_of self.now) position }
    {
        let state = self.states.get(position)?;
        Some(&state.machine)
    }

    /// The position of a machine in the list. `None` exactly where it isn't there.
    pub fn position(&self, id: u64) -> Option<usize>
        ensures listed { is_some result ≡ is_listed id (machines_of self.now) }
        ensures place { result ≡ position (λ machine. machine.id == id) (machines_of self.now) }
    {
        find(&self.states, &self.places, &self.notes, id)
    }

    /// What is in use on all machines that are up. Costs the same for any number of machines.
    pub fn used(&self) -> Need
        ensures { result ≡ used_by_all self.now }
    {
        self.load.used
    }

    /// The capacity of all machines that are up. Costs the same for any number of machines.
    pub fn capacity(&self) -> Need
        ensures { result ≡ capacity_of_all self.now }
    {
        self.load.capacity
    }

    /// Puts a machine that isn't there at the end of the list: down, with no capacity and no
    /// attributes. Refused, it leaves the table as it was. Takes memory.
    pub fn ensure(&mut self, id: u64) -> Result<(), NoMemory>
        requires { ListsOrHasRoom (machines_of self.old) id }
        ensures ok { OnOk result (self.new ≡ ensured_states id self.old) }
        ensures err { OnErr result (self.new ≡ self.old) }
        ensures table { IsTable self.new }
    {
        if self.position(id).is_some() {
            return Ok(());
        }
        let machine = Machine {
            id,
            up: false,
            cap: Need::NOTHING,
            attrs: Seq::new(*self.states.allocator()),
        };
        let state = MachineState {
            machine,
            free: Need::NOTHING,
            seq: 0,
        };
        note(&mut self.notes, id, self.states.len())?;
        push(&mut self.states, &mut self.places, state)?;
        Ok(())
    }

    /// Brings a machine up with a capacity. What is in use on it stays in use.
    pub fn add(&mut self, id: u64, cap: Need)
        requires listed { IsTrue (is_listed id (machines_of self.old)) }
        requires cap { Fits cap greatest }
        requires in_use { Fits (use_at self.old id) cap }
        ensures changed { self.new ≡ change_state id (state_added cap) self.old }
        ensures table { IsTable self.new }
    {
        let place = self.place_of(id);
        let state = &mut self.states[place];
        let before = Load::of(state);
        set_cap(state, cap);
        state.machine.up = true;
        self.load = self.load.replaced(before, Load::of(state));
    }

    /// Gives a machine another capacity; it stays up or down. What is in use on it stays in use.
    pub fn update(&mut self, id: u64, cap: Need)
        requires listed { IsTrue (is_listed id (machines_of self.old)) }
        requires cap { Fits cap greatest }
        requires in_use { Fits (use_at self.old id) cap }
        ensures changed { self.new ≡ change_state id (state_updated cap) self.old }
        ensures table { IsTable self.new }
    {
        let place = self.place_of(id);
        let state = &mut self.states[place];
        let before = Load::of(state);
        set_cap(state, cap);
        self.load = self.load.replaced(before, Load::of(state));
    }

    /// Takes a machine down on which nothing is in use. Its capacity and attributes stay.
    pub fn remove(&mut self, id: u64)
        requires listed { IsTrue (is_listed id (machines_of self.old)) }
        requires in_use { use_at self.old id ≡ nothing }
        ensures changed { self.new ≡ change_state id (with_machine removed) self.old }
        ensures table { IsTable self.new }
    {
        let place = self.place_of(id);
        let state = &mut self.states[place];
        let before = Load::of(state);
        state.machine.up = false;
        self.load = self.load.replaced(before, Load::of(state));
    }

    /// Gives an attribute of a machine a value, in its place where it is set, else after the
    /// others. Refused, it leaves the table as it was. Takes memory, and costs the logarithm of the
    /// machine's attributes; all of them where their index has to be made first.
    fn set_attr(&mut self, id: u64, name: &Bytes, value: &Bytes) -> Result<(), NoMemory>
        requires { IsTrue (is_listed id (machines_of self.old)) }
        ensures ok { OnOk result (self.new ≡ change_state id (with_machine (attr_set name.now value.now)) self.old) }
        ensures err { OnErr result (self.new ≡ self.old) }
        ensures table { IsTable self.new }
    {
        let place = self.place_of(id);
        let alloc = *self.states.allocator();
        let state = &mut self.states[place];
        set_at(state, &mut self.indexes, place, alloc, name, value)
    }

    /// Gives an attribute of a machine a value, in its place where it is set, else after the others.
    /// Where the machine isn't there, puts it at the end of the list first. Refused, it leaves the
    /// table as it was. Takes memory, and costs the logarithm of the machine's attributes; all of them
    /// where their index has to be made first.
    pub fn ensure_attr(&mut self, id: u64, name: &Bytes, value: &Bytes) -> Result<(), NoMemory>
        requires { ListsOrHasRoom (machines_of self.old) id }
        ensures ok { OnOk result (self.new ≡ change_state id (with_machine (attr_set name.now value.now)) (ensured_states id self.old)) }
        ensures err { OnErr result (self.new ≡ self.old) }
        ensures table { IsTable self.new }
    {
        let count = self.len();
        self.ensure(id)?;
        let set = self.set_attr(id, name, value);
        if set.is_err() {
            self.truncate(count);
        }
        set
    }

    /// Unsets an attribute of a machine. Costs the logarithm of the machine's attributes, and the
    /// attributes behind it, which move up. Where a machine with many attributes has no index yet, it
    /// is made first, which costs all of them and takes memory; where there is none for it, the
    /// attributes are gone through.
    pub fn delete_attr(&mut self, id: u64, name: &Bytes)
        requires { IsTrue (is_listed id (machines_of self.old)) }
        ensures changed { self.new ≡ change_state id (with_machine (attr_deleted name.now)) self.old }
        ensures table { IsTable self.new }
    {
        let place = self.place_of(id);
        let alloc = *self.states.allocator();
        let state = &mut self.states[place];
        delete_at(state, &mut self.indexes, place, alloc, name);
    }

    /// The first `n` machines stay as they are and the others leave the list, so that a refused
    /// `ensure` among several can be undone. Costs the machines that leave.
    pub fn truncate(&mut self, n: usize)
        ensures first { self.new ≡ take n self.old }
        ensures table { IsTable self.new }
    {
        forget_rest(&mut self.places, &self.states, n);
        drop_between(&mut self.indexes, n, self.states.len());
        self.load = without_rest(&self.states, self.load, n);
        self.states.truncate(n);
    }

    /// Puts another row in the place of a machine, whose number stays: so much is in use on it then,
    /// and so many entries have touched it. Nothing is in use on a machine that isn't up.
    pub fn put(&mut self, position: usize, machine: Machine, used: Need, seq: u64)
        requires there { slice_get (numbers_of (machines_of self.old)) position ≡ Some machine.id }
        requires cap { Fits machine.cap greatest }
        requires in_use { Fits used machine.cap }
        requires down { machine.up ≡ false → used ≡ nothing }
        ensures changed { self.new ≡ change_state machine.id (λ _. state_put machine used seq) self.old }
        ensures table { IsTable self.new }
    {
        let free = machine.cap.minus(used);
        let state = &mut self.states[position];
        let before = Load::of(state);
        *state = MachineState { machine, free, seq };
        self.load = self.load.replaced(before, Load::of(state));
        self.indexes.remove(&position);
    }

    /// What is free on a machine: its capacity less what is in use. `None` exactly where it isn't
    /// there or isn't up.
    pub fn free(&self, id: u64) -> Option<Need>
        ensures free { result ≡ free_at self.now id }
        ensures table { IsTable self.now }
    {
        let state = self.state(id)?;
        if state.machine.up {
            Some(state.free)
        } else {
            None
        }
    }

    /// How many entries have touched a machine, 0 where it isn't there.
    pub fn seq(&self, id: u64) -> u64
        ensures { result ≡ seq_at self.now id }
    {
        match self.state(id) {
            Some(state) => state.seq,
            None => 0,
        }
    }

    /// Counts one more entry that touches a machine.
    pub fn touch(&mut self, id: u64)
        requires listed { IsTrue (is_listed id (machines_of self.old)) }
        requires seq { seq_at self.old id < 2 ^ 64 - 1 }
        ensures changed { self.new ≡ change_state id touched self.old }
        ensures table { IsTable self.new }
    {
        let place = self.place_of(id);
        let state = &mut self.states[place];
        state.seq += 1;
    }

    /// Takes an amount of what is free on a machine that is up.
    pub fn charge(&mut self, id: u64, need: Need)
        requires { IsSomeAnd (free_at self.old id) (λ free. Fits need free) }
        ensures changed { self.new ≡ change_state id (charged need) self.old }
        ensures table { IsTable self.new }
    {
        let place = self.place_of(id);
        let state = &mut self.states[place];
        let before = Load::of(state);
        state.free = state.free.minus(need);
        self.load = self.load.replaced(before, Load::of(state));
    }

    /// Gives back an amount of what is in use on a machine.
    pub fn release(&mut self, id: u64, need: Need)
        requires listed { IsTrue (is_listed id (machines_of self.old)) }
        requires in_use { Fits need (use_at self.old id) }
        ensures changed { self.new ≡ change_state id (released need) self.old }
        ensures table { IsTable self.new }
    {
        let place = self.place_of(id);
        let state = &mut self.states[place];
        let before = Load::of(state);
        state.free = state.free.plus(need);
        self.load = self.load.replaced(before, Load::of(state));
    }

    /// The state of a machine. `None` exactly where it isn't there.
    fn state(&self, id: u64) -> Option<&MachineState>
        ensures found { option_map (λ state. state.now) result ≡ state_at self.now id }
        ensures table { IsTable self.now }
    {
        let place = find(&self.states, &self.places, &self.notes, id)?;
        self.states.get(place)
    }

    /// The place of a machine that is there.
    fn place_of(&self, id: u64) -> usize
        requires { IsTrue (is_listed id (machines_of self.now)) }
        ensures { position (λ machine. machine.id == id) (machines_of self.now) ≡ Some result }
    {
        self.position(id).unwrap()
    }
}
