//! The wanted tasks of one job.
ghost use Rattle.std.specs.Prelude.{◌≡◌, ◌↔◌, ◌++◌, ◌+◌, ◌*◌, ℕ, [], true, All, not, map, ◌<◌, ◌≤◌, IfOk, IsTrue, MatchResult, OnOk, OnErr, is_some, length, cond};
ghost use Rattle.std.specs.List.{count_by, filter, list_any, AllByRecursion as Each};
ghost use Rattle.omega_model.specs.ExtraTasks.{HasLowIndex, first_extra, is_wanted, wanted_of};
ghost use Rattle.omega_model.specs.Wanted.{with_wanted, is_named};
ghost use Rattle.omega_feed.specs.Asked.{is_task_of};
ghost use Rattle.omega_feed.specs.Index.{wanted_task};
ghost use Rattle.omega_feed.specs.Open.{RunsIfOf};
ghost use Rattle.omega_feed.specs.Parts.{waiting_jobs};
ghost use Rattle.omega_feed.specs.Slots.{AreCounted, GetsSlotAt, HasSlotAt, SlotsRise, block, entry_of, is_idle, is_idle_of, tasks_in};

use omega_model::{NoMemory, Spec, TaskKey};
use omega_running::Running;
use std::alloc::Global;
use std::marker::Model;

/// How many slots stand in a block, so few that their number fits in a byte.
const BLOCK: usize = 64;

/// The place of a task in the list of its job.
#[derive(Clone, Copy, Debug)]
pub struct Slot {
    pub key: TaskKey,
    /// What the task asks for, while it is wanted.
    pub spec: Option<Spec>,
}

/// Wanted tasks in order of key, each in a slot that it keeps when it ends. They are tasks of the trace,
/// whose indexes are below those of extras.
///
/// The tasks of a job mostly have the indexes 0, 1, 2 and so on, and then a task's slot stands at the
/// place that its index says. Else it is searched for by halves.
///
/// The slots stand in blocks, and of each block the list knows how many of its tasks are wanted. What
/// goes over all tasks passes the blocks without a wanted one: of these it reads the count, a byte, and no
/// slot. So a job costs a byte for each of its blocks, and at most a block of slots for each task that is
/// still wanted.
#[derive(Drop)]
pub struct TaskList {
    slots: Vec<Slot>,
    /// How many tasks of each block of slots are wanted.
    counts: Vec<u8>,
    /// How many tasks are wanted.
    count: usize,
}

impl Model for TaskList {
    ghost use Rattle.std.specs.Prelude.{List};
    ghost use Rattle.omega_model.specs.Wanted.{WantedTask};

    ghost Value = { List WantedTask };

    ghost use Rattle.omega_feed.specs.Slots.{AreSlots, tasks_in};

    ghost view = { λ tasks. tasks_in tasks.slots.items };

    ghost invariant = { λ tasks. AreSlots tasks.slots.items tasks.counts.items tasks.count };
}

impl TaskList {
    /// No tasks.
    pub fn new(alloc: Global) -> TaskList
        ensures { result ≡ [] }
    {
        TaskList {
            slots: Vec::new(alloc),
            counts: Vec::new(alloc),
            count: 0,
        }
    }

    /// No tasks, and a slot for each of these keys, which need not be in order. Costs the keys, each times
    /// the logarithm of their number; a key that isn't in order costs besides the greater keys before it.
    pub fn of_keys(alloc: Global, keys: &[TaskKey]) -> Result<TaskList, NoMemory>
        ensures { IfOk result (λ tasks. tasks ≡ []) }
    {
        let mut slots = Vec::with_capacity(alloc, keys.len())?;
        for key in keys {
            if let Err(place) = place_of(&slots, *key) {
                put_slot(&mut slots, place, *key)?;
            }
        }
        let counts = none_wanted(alloc, &slots)?;
        Ok(TaskList {
            slots,
            counts,
            count: 0,
        })
    }

    /// Puts a task in, or replaces what it asks for. A refused call leaves the tasks. Takes the same time
    /// for any number of them where the slot stands at the place of the task's index, else the logarithm
    /// of the number of slots; a task without a slot costs besides all slots.
    pub fn insert(&mut self, key: TaskKey, spec: Spec) -> Result<(), NoMemory>
        requires { key.index < first_extra }
        ensures ok { OnOk result (self.new ≡ with_wanted key spec self.old) }
        ensures err { OnErr result (self.new ≡ self.old) }
        ensures low { All HasLowIndex self.new }
    {
        let place = place_for(&mut self.slots, &mut self.counts, key)?;
        if fill(&mut self.slots, &mut self.counts, place, key, spec) {
            self.count += 1;
        }
        Ok(())
    }

    /// Takes a task out, if it is there. Moves nothing. Takes the same time for any number of tasks where
    /// the slot stands at the place of the task's index, else the logarithm of the number of slots.
    pub fn remove(&mut self, key: TaskKey)
        ensures tasks { self.new ≡ filter (λ task. not (is_named key task)) self.old }
        ensures low { All HasLowIndex self.new }
    {
        if clear(&mut self.slots, &mut self.counts, key) {
            self.count -= 1;
        }
    }

    /// Whether a task is wanted. Takes the same time for any number of tasks where the slot stands at the
    /// place of the task's index, else the logarithm of the number of slots.
    pub fn contains(&self, key: TaskKey) -> bool
        ensures { result ≡ list_any (is_named key) self.now }
    {
        match place_of(&self.slots, key) {
            Ok(place) => self.slots[place].spec.is_some(),
            Err(_gap) => false,
        }
    }

    /// Whether there is any, where all are tasks of one job. Takes the same time for any number of them.
    pub fn has_any(&self) -> bool
        ensures any { (job : ℕ) → Each (λ task. is_task_of job task ≡ true) self.now → result ≡ list_any (is_task_of job) self.now }
        ensures wanted { (job : ℕ) → Each (λ task. is_task_of job task ≡ true) self.now → result ≡ is_wanted self.now job }
    {
        self.count != 0
    }

    /// How many tasks are wanted. Takes the same time for any number of them.
    pub fn len(&self) -> usize
        ensures { result ≡ length self.now }
    {
        self.count
    }

    /// Appends the job of each task that doesn't run, in order of the tasks' keys. Costs the blocks, of those
    /// with a wanted task the slots, and of each wanted task the logarithm of the number of those that run.
    pub fn push_waiting(&self, running: &Running, jobs: &mut Vec<u64>) -> Result<(), NoMemory>
        ensures { OnOk result (jobs.new.items ≡ jobs.old.items ++ waiting_jobs running.now.tasks self.now) }
    {
        for (count, block) in self.counts.iter().zip(self.slots.chunks(BLOCK)) {
            if *count > 0 {
                push_idle(block, running, jobs)?;
            }
        }
        Ok(())
    }

    /// Whether each wanted task of a job runs. Costs the blocks and of those with a wanted task the slots, up
    /// to the first task that is wanted and doesn't run, and of each wanted task the logarithm of the number of
    /// those that run.
    pub fn all_run(&self, job: u64, running: &Running) -> bool
        ensures { IsTrue result ↔ All (RunsIfOf job running.now.tasks) self.now }
    {
        for (count, block) in self.counts.iter().zip(self.slots.chunks(BLOCK)) {
            if *count > 0 && has_idle(block, job, running) {
                return false;
            }
        }
        true
    }

    /// The wanted tasks of a job, by index. Costs the blocks, of those with a wanted task the slots, and the
    /// memory of the wanted tasks.
    pub fn of_job(&self, alloc: Global, job: u64) -> Result<Vec<(TaskKey, Spec)>, NoMemory>
        ensures { IfOk result (λ found. map wanted_task found.items ≡ wanted_of job self.now) }
    {
        let mut found = Vec::with_capacity(alloc, self.count)?;
        for (count, block) in self.counts.iter().zip(self.slots.chunks(BLOCK)) {
            if *count > 0 {
                push_entries(block, job, &mut found)?;
            }
        }
        Ok(found)
    }
}

impl Slot {
    /// Whether the task is wanted and doesn't run.
    fn is_idle(&self, running: &Running) -> bool
        ensures { result ≡ is_idle running.now.tasks self.now }
    {
        self.spec.is_some() && running.get(self.key).is_none()
    }

    /// The task and what it asks for, if it is wanted and of this job.
    fn entry_of(&self, job: u64) -> Option<(TaskKey, Spec)>
        ensures { result ≡ entry_of job self.now }
    {
        match self.spec {
            Some(spec) if self.key.job == job => Some((self.key, spec)),
            _ => None,
        }
    }
}

/// Appends the job of each task of these slots that is wanted and doesn't run.
fn push_idle(slots: &[Slot], running: &Running, jobs: &mut Vec<u64>) -> Result<(), NoMemory>
    ensures { OnOk result (jobs.new.items ≡ jobs.old.items ++ waiting_jobs running.now.tasks (tasks_in slots.now)) }
{
    for slot in slots {
        if slot.is_idle(running) {
            jobs.push(slot.key.job)?;
        }
    }
    Ok(())
}

/// Whether a task of a job is wanted in these slots and doesn't run.
fn has_idle(slots: &[Slot], job: u64, running: &Running) -> bool
    ensures { result ≡ list_any (is_idle_of job running.now.tasks) slots.now }
{
    slots
        .iter()
        .any(|slot| slot.key.job == job && slot.is_idle(running))
}

/// Appends the wanted tasks of a job in these slots.
fn push_entries(slots: &[Slot], job: u64, found: &mut Vec<(TaskKey, Spec)>) -> Result<(), NoMemory>
    ensures { OnOk result (map wanted_task found.new.items ≡ map wanted_task found.old.items ++ wanted_of job (tasks_in slots.now)) }
{
    for slot in slots {
        if let Some(entry) = slot.entry_of(job) {
            found.push(entry)?;
        }
    }
    Ok(())
}

/// Where a task's slot stands among these, which rise, or else where it would stand. The place of the
/// task's index is looked at first. Costs the logarithm of the number of slots, if it doesn't stand there.
fn place_of(slots: &[Slot], key: TaskKey) -> Result<usize, usize>
    requires { SlotsRise slots.now }
    ensures { MatchResult result (HasSlotAt slots.now key) (GetsSlotAt slots.now key) }
{
    let guess = key.index as usize;
    if guess < slots.len() && slots[guess].key == key {
        return Ok(guess);
    }
    slots.binary_search_by_key(&key, |slot| slot.key)
}

/// Where a task's slot stands among these, after an empty one was made where there was none. A refused
/// call leaves the tasks. Costs as much as to look for it, and for a new slot all slots.
fn place_for(slots: &mut Vec<Slot>, counts: &mut Vec<u8>, key: TaskKey) -> Result<usize, NoMemory>
    requires rise { SlotsRise slots.old.items }
    requires counted { AreCounted counts.old.items slots.old.items }
    ensures rise { SlotsRise slots.new.items }
    ensures same { tasks_in slots.new.items ≡ tasks_in slots.old.items }
    ensures counted { AreCounted counts.new.items slots.new.items }
    ensures place { IfOk result (HasSlotAt slots.new.items key) }
{
    match place_of(slots, key) {
        Ok(place) => Ok(place),
        Err(place) => {
            make_slot(slots, counts, place, key)?;
            Ok(place)
        }
    }
}

/// Makes an empty slot for a task where it belongs, and counts the blocks anew, since the slots behind it
/// move on by one. A refused call leaves the tasks. Costs all slots.
fn make_slot(
    slots: &mut Vec<Slot>,
    counts: &mut Vec<u8>,
    place: usize,
    key: TaskKey,
) -> Result<(), NoMemory>
    requires rise { SlotsRise slots.old.items }
    requires gets { GetsSlotAt slots.old.items key place }
    requires counted { AreCounted counts.old.items slots.old.items }
    ensures rise { SlotsRise slots.new.items }
    ensures same { tasks_in slots.new.items ≡ tasks_in slots.old.items }
    ensures counted { AreCounted counts.new.items slots.new.items }
    ensures place { OnOk result (HasSlotAt slots.new.items key place) }
{
    make_room(counts, slots)?;
    put_slot(slots, place, key)?;
    count_anew(counts, slots);
    Ok(())
}

/// Puts an empty slot for a task where it belongs. A refused call leaves the slots. Costs those of greater
/// keys.
fn put_slot(slots: &mut Vec<Slot>, place: usize, key: TaskKey) -> Result<(), NoMemory>
    requires rise { SlotsRise slots.old.items }
    requires gets { GetsSlotAt slots.old.items key place }
    ensures rise { SlotsRise slots.new.items }
    ensures same { tasks_in slots.new.items ≡ tasks_in slots.old.items }
    ensures longer { OnOk result (length slots.new.items ≡ length slots.old.items + 1) }
    ensures place { OnOk result (HasSlotAt slots.new.items key place) }
    ensures err { OnErr result (slots.new.items ≡ slots.old.items) }
{
    slots.insert(place, Slot { key, spec: None })?;
    Ok(())
}

/// Makes one more count, of no tasks, if the blocks are full. A refused call leaves the counts.
fn make_room(counts: &mut Vec<u8>, slots: &[Slot]) -> Result<(), NoMemory>
    requires { AreCounted counts.old.items slots.now }
    ensures counted { AreCounted counts.new.items slots.now }
    ensures room { OnOk result (length slots.now < length counts.new.items * block) }
{
    if slots.len() / BLOCK >= counts.len() {
        counts.push(0)?;
    }
    Ok(())
}

/// Counts the wanted tasks of each block. Costs the slots, and no memory.
fn count_anew(counts: &mut Vec<u8>, slots: &[Slot])
    requires { length slots.now ≤ length counts.old.items * block }
    ensures { AreCounted counts.new.items slots.now }
{
    let mut left = slots;
    for place in 0..counts.len() {
        let (block, later) = left.split_at(BLOCK.min(left.len()));
        counts[place] = wanted_in(block);
        left = later;
    }
}

/// How many tasks of a block are wanted.
fn wanted_in(slots: &[Slot]) -> u8
    requires { length slots.now ≤ block }
    ensures { result ≡ count_by (λ slot. is_some slot.spec) slots.now }
{
    slots.iter().filter(|slot| slot.spec.is_some()).count() as u8
}

/// The counts of slots of which none is filled.
fn none_wanted(alloc: Global, slots: &[Slot]) -> Result<Vec<u8>, NoMemory>
    requires { tasks_in slots.now ≡ [] }
    ensures { IfOk result (λ counts. AreCounted counts.items slots.now) }
{
    Ok(vec![in alloc; 0; slots.len().div_ceil(BLOCK)]?)
}

/// Notes what the task of the slot at a place asks for, and answers whether it wasn't wanted before, and
/// so is counted now.
fn fill(slots: &mut Vec<Slot>, counts: &mut Vec<u8>, place: usize, key: TaskKey, spec: Spec) -> bool
    requires rise { SlotsRise slots.old.items }
    requires place { HasSlotAt slots.old.items key place }
    requires counted { AreCounted counts.old.items slots.old.items }
    ensures rise { SlotsRise slots.new.items }
    ensures tasks { tasks_in slots.new.items ≡ with_wanted key spec (tasks_in slots.old.items) }
    ensures counted { AreCounted counts.new.items slots.new.items }
    ensures count { length (tasks_in slots.new.items) ≡ length (tasks_in slots.old.items) + cond result 1 0 }
{
    let added = slots[place].spec.replace(spec).is_none();
    counts[place / BLOCK] += u8::from(added);
    added
}

/// Empties the slot of a task, if it has one, and answers whether the task was wanted, and so isn't counted
/// any more.
fn clear(slots: &mut Vec<Slot>, counts: &mut Vec<u8>, key: TaskKey) -> bool
    requires rise { SlotsRise slots.old.items }
    requires counted { AreCounted counts.old.items slots.old.items }
    ensures rise { SlotsRise slots.new.items }
    ensures tasks { tasks_in slots.new.items ≡ filter (λ task. not (is_named key task)) (tasks_in slots.old.items) }
    ensures counted { AreCounted counts.new.items slots.new.items }
    ensures count { length (tasks_in slots.new.items) + cond result 1 0 ≡ length (tasks_in slots.old.items) }
{
    let Ok(place) = place_of(slots, key) else {
        return false;
    };
    let ended = slots[place].spec.take().is_some();
    counts[place / BLOCK] -= u8::from(ended);
    ended
}
