//! What the last row of each name says.
ghost use Rattle.std.specs.Prelude.{◌≡◌, ◌≤◌, IfOk, IfSome};
ghost use Rattle.omega_feed.specs.Last.{AreLast, last_amount};
ghost use Rattle.omega_feed.specs.Marks.{AreMarked};

use crate::marks::Marks;
use omega_model::{ActivityRow, DiskRow, NoMemory, Seq};
use std::alloc::Global;
use std::collections::BTreeMap;
use std::marker::Model;
use std::snapshot::Snapshot;

/// A row that says an amount of what it names.
pub(crate) trait Named {
    ghost use Rattle.std.specs.Prelude.{◌≡◌, ◌≤◌, ℕ};

    ghost name: { Self → ℕ };

    ghost amount: { Self → ℕ };

    // The greatest amount of any row.
    ghost most: { ℕ };

    /// The number that it names.
    fn name(&self) -> u64
        ensures { result ≡ name self.now };

    /// Its amount, in the unit of its table and at most `most`.
    fn amount(&self) -> u64
        ensures amount { result ≡ amount self.now }
        ensures range { result ≤ most };
}

impl Named for ActivityRow {
    ghost use Rattle.omega_model.specs.Fields.{most_activities};

    ghost name = { λ row. row.job };

    ghost amount = { λ row. row.activities };

    ghost most = { most_activities };

    fn name(&self) -> u64 {
        self.job
    }

    fn amount(&self) -> u64 {
        u64::from(self.activities)
    }
}

impl Named for DiskRow {
    ghost use Rattle.omega_model.specs.Fields.{greatest_quantity};

    ghost name = { λ row. row.machine };

    ghost amount = { λ row. row.disk };

    ghost most = { greatest_quantity };

    fn name(&self) -> u64 {
        self.machine
    }

    fn amount(&self) -> u64 {
        self.disk
    }
}

/// The amount of the last row of each name. A contract sees the rows, in the order of their file.
#[derive(Drop)]
pub(crate) struct LastAmounts<R: Named> {
    rows: Snapshot<Seq<R>>,
    last: BTreeMap<u64, u64>,
    /// The names of the rows are marked.
    marks: Marks,
}

impl<R: Named> Model for LastAmounts<R> {
    ghost use Rattle.std.specs.Prelude.{List};
    ghost use Rattle.omega_feed.specs.Last.{AreLast};
    ghost use Rattle.omega_feed.specs.Marks.{AreMarked};

    ghost Value = { List R };

    ghost view = { λ amounts. amounts.rows.value };

    ghost invariant = { λ amounts. AreLast R R.name R.amount R.most amounts.last amounts.rows.value × AreMarked R.name amounts.marks amounts.rows.value };
}

impl<R: Named> LastAmounts<R> {
    /// The amounts that these rows say. Costs the logarithm of the number of names for each row.
    pub fn new(alloc: Global, rows: &Seq<R>) -> Result<LastAmounts<R>, NoMemory>
        ensures { IfOk result (λ amounts. amounts ≡ rows.now) }
    {
        let last = last_of(alloc, rows.as_slice())?;
        let marks = marked(alloc, rows.as_slice())?;
        Ok(LastAmounts {
            rows: Snapshot::of(rows),
            last,
            marks,
        })
    }

    /// The amount of the last row of a name, in the unit of the rows' table. `None` exactly where no row has that
    /// name. Costs the logarithm of the number of names, and for a name of no row, while the rows name few, mostly
    /// a look at its mark.
    pub fn of(&self, name: u64) -> Option<u64>
        ensures amount { result ≡ last_amount R.name R.amount self.now name }
        ensures range { IfSome result (λ amount. amount ≤ R.most) }
    {
        if !self.marks.has(name) {
            return None;
        }
        self.last.get(&name).copied()
    }
}

/// The amount of the last row of each name. Costs the logarithm of the number of names for each row.
fn last_of<R: Named>(alloc: Global, rows: &[R]) -> Result<BTreeMap<u64, u64>, NoMemory>
    ensures { IfOk result (λ last. AreLast R R.name R.amount R.most last rows.now) }
{
    let mut last = BTreeMap::new(alloc);
    for row in rows {
        last.insert(row.name(), row.amount())?;
    }
    Ok(last)
}

/// Marks of the names of these rows.
fn marked<R: Named>(alloc: Global, rows: &[R]) -> Result<Marks, NoMemory>
    ensures { IfOk result (λ marks. AreMarked R.name marks rows.now) }
{
    let mut marks = Marks::none(alloc);
    for row in rows {
        marks.mark(row.name())?;
    }
    Ok(marks)
}
