//! Amounts that hold a need, and the greatest of two.
ghost use Rattle.std.specs.Prelude.{◌≡◌, ◌↔◌, IsTrue};
ghost use Rattle.omega_fit.specs.Needs.{Holds, greater};

use omega_model::Need;

/// Whether there is an amount, and the need fits it.
pub(crate) fn holds(need: Need, free: Option<Need>) -> bool
    ensures { IsTrue result ↔ Holds need free }
{
    match free {
        Some(free) => need.fits(free),
        None => false,
    }
}

/// The greater of two amounts, component by component; `None` counts as less than any amount.
pub(crate) fn greater(one: Option<Need>, other: Option<Need>) -> Option<Need>
    ensures { result ≡ greater one other }
{
    match (one, other) {
        (None, other) => other,
        (Some(one), None) => Some(one),
        (Some(one), Some(other)) => Some(Need {
            cpu: one.cpu.max(other.cpu),
            mem: one.mem.max(other.mem),
            disk: one.disk.max(other.disk),
        }),
    }
}
