//! What the program asks of the outside.
use omega_model::{NoMemory, Table};

/// A read or a write failed.
#[derive(Clone, Copy, Debug, PartialEq, Eq)]
pub struct Failed;

/// Six tables in a folder.
///
/// A contract knows the rest of each table and the folder entered last, each where the object
/// tells it, and for each table a count of faults that never falls. An object that tells a folder
/// tells it always: `entered` is `None` for one that never does, and `Some None` for one that does
/// and has entered no folder yet.
pub trait Tables {
    ghost use Rattle.std.specs.Prelude.{◌≡◌, ◌≢◌, ◌<◌, ◌≤◌, ◌↔◌, ℕ, List, [], length, take, Option, IfOk, OnOk, OnErr, IfSome};
    ghost use Rattle.omega_model.specs.declared.rows.Table.{Table};
    ghost use Rattle.omega_io.specs.Edge.{Enters, HandsOver, Rose};

    ghost rest: { Self → Table → Option (List ℕ) };

    ghost entered: { Self → Option (Option (List ℕ)) };

    ghost faults: { Self → Table → ℕ };

    /// Enters a folder. The rests and the counts stay. `NoMemory` changes nothing.
    fn enter(&mut self, folder: &str) -> Result<(), NoMemory>
        ensures enters { OnOk result (Enters folder.now (entered self.old) (entered self.new)) }
        ensures stays { OnErr result (entered self.new ≡ entered self.old) }
        ensures rests { (t : Table) → rest self.new t ≡ rest self.old t }
        ensures counts { (t : Table) → faults self.new t ≡ faults self.old t };

    /// Reads the next bytes of a table into the front of a piece that isn't empty, and answers
    /// how many: none exactly at the table's end. `Failed` comes only where the count of that
    /// table rose or can rise no further, and no byte is taken then. The folder and the other
    /// tables stay.
    fn read(&mut self, table: Table, piece: &mut [u8]) -> Result<usize, Failed>
        requires { 0 < length piece.old }
        ensures fits { IfOk result (λ count. count ≤ length piece.new) }
        ensures hands { IfOk result (λ count. HandsOver (take count piece.new) (rest self.old table) (rest self.new table)) }
        ensures ends { IfOk result (λ count. IfSome (rest self.old table) (λ left. (count ≡ 0) ↔ (left ≡ []))) }
        ensures stays { OnErr result (rest self.new table ≡ rest self.old table) }
        ensures cause { OnErr result (Rose (faults self.old table) (faults self.new table)) }
        ensures later { faults self.old table ≤ faults self.new table }
        ensures other_rests { (t : Table) → t ≢ table → rest self.new t ≡ rest self.old t }
        ensures other_counts { (t : Table) → t ≢ table → faults self.new t ≡ faults self.old t }
        ensures folder { entered self.new ≡ entered self.old };

    /// How many reads of a table have failed.
    fn faults(&self, table: Table) -> u64
        ensures { result ≡ faults self.now table };
}

/// Something that takes bytes.
///
/// A contract knows the bytes written, where the object tells them, and a count of faults that
/// never falls.
pub trait Sink {
    ghost use Rattle.std.specs.Prelude.{◌≡◌, ◌<◌, ◌≤◌, ℕ, List, length, take, Option, IfOk, OnErr};
    ghost use Rattle.omega_io.specs.Edge.{Rose, Appends};

    ghost written: { Self → Option (List ℕ) };

    ghost faults: { Self → ℕ };

    /// Writes the first bytes of a piece that isn't empty, at least one, and answers how many.
    /// `Failed` comes only where the count rose or can rise no further, and nothing is written
    /// then.
    fn write(&mut self, piece: &[u8]) -> Result<usize, Failed>
        requires { 0 < length piece.now }
        ensures some { IfOk result (λ count. 0 < count) }
        ensures fits { IfOk result (λ count. count ≤ length piece.now) }
        ensures appends { IfOk result (λ count. Appends (take count piece.now) (written self.old) (written self.new)) }
        ensures stays { OnErr result (written self.new ≡ written self.old) }
        ensures cause { OnErr result (Rose (faults self.old) (faults self.new)) }
        ensures later { faults self.old ≤ faults self.new };

    /// How many writes have failed.
    fn faults(&self) -> u64
        ensures { result ≡ faults self.now };
}

/// A point that a scheduler comes to: it has seen the history to its end (`Synced`), its plan is made
/// (`Planned`), or its transaction is committed (`Committed`).
#[derive(Clone, Copy, Debug, PartialEq, Eq)]
pub enum Point {
    Synced,
    Planned,
    Committed,
}

/// What a scheduler passes at each point of its work. It changes nothing of which a contract speaks.
pub trait Gate {
    /// The scheduler of this number, from 0, has come to a point. The call may hold it there, but
    /// returns after a bounded number of looks at what it waits for.
    fn at(&self, scheduler: u32, point: Point);
}

/// A gate that returns at once.
#[derive(Clone, Copy, Debug, PartialEq, Eq)]
pub struct PassGate;

impl Gate for PassGate {
    fn at(&self, _scheduler: u32, _point: Point) {}
}
