//! Copies of lists.
ghost use Rattle.std.specs.Prelude.{◌≡◌, IfOk};

use omega_model::{Copied, NoMemory};
use std::alloc::Global;

/// An equal value of each of these, in order. Costs their sizes; where memory runs out what was copied is
/// dropped.
pub(crate) fn copy_all<T: Copied + Drop>(alloc: Global, items: &[T]) -> Result<Vec<T>, NoMemory>
    ensures { IfOk result (λ copied. copied.items ≡ items.now) }
{
    let mut copied = Vec::with_capacity(alloc, items.len())?;
    for item in items {
        copied.push_reserved(item.copy(alloc)?);
    }
    Ok(copied)
}
