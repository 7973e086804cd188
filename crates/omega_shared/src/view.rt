//! What a scheduler plans on.
ghost use Rattle.std.specs.Prelude.{◌≡◌};

use omega_cell::Cell;
use std::alloc::Global;
use std::marker::Model;
use std::sync::Arc;

/// The cell as a turn found it. It stays so while it is looked at: a commit waits a while for those that
/// look and, if one of them still does, goes on with a copy of its own.
///
/// A contract sees the history.
#[derive(Drop)]
pub struct CellView {
    pub(crate) cell: Arc<Cell, Global>,
}

impl Model for CellView {
    ghost use Rattle.std.specs.Prelude.{List};
    ghost use Rattle.std.specs.Arc.{arc_value};
    ghost use Rattle.omega_model.specs.declared.entries.Entry.{Entry};

    ghost Value = { List Entry };

    ghost view = { λ v. (arc_value v.cell).history };
}

impl CellView {
    /// The cell.
    pub fn cell(&self) -> &Cell
        ensures { result.now.history ≡ self.now }
    {
        &self.cell
    }
}
