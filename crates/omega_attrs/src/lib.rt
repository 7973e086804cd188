//! Placement constraints: when a machine is eligible for a task.
//!
//! Promised: exactly whether a machine's attributes meet the constraints of a task.
#![tactic(auto)]

ghost use Rattle.std.specs.Prelude.{◌≡◌};
ghost use Rattle.std.specs.Option.{option_copied};
ghost use Rattle.omega_model.specs.Numbers.{whole};
ghost use Rattle.omega_model.specs.Eligible.{attribute, is_equal, is_less, holds, eligible};

use omega_model::{Attrs, Constraint, Constraints, Op};
use omega_units::read_u64;

/// Whether a constraint holds of the attributes of a machine.
///
/// An attribute that is unset is equal to the empty value alone. `Less` and `Greater` compare whole
/// numbers below 2^64, and never hold where the attribute is unset, or it or the value isn't such a
/// number. Of several attributes of one name the first counts. One pass over the attributes.
pub fn holds(constraint: &Constraint, attrs: &Attrs) -> bool
    ensures { result ≡ holds constraint.now attrs.now }
{
    let set = attribute(attrs, constraint.name.as_slice());
    let value = constraint.value.as_slice();
    match constraint.op {
        Op::Equal => is_equal(set, value),
        Op::NotEqual => !is_equal(set, value),
        Op::Less => is_less(set.and_then(whole), whole(value)),
        Op::Greater => is_less(whole(value), set.and_then(whole)),
    }
}

/// Whether each constraint holds of the attributes of a machine. One pass over the attributes for
/// each constraint, up to the first that doesn't hold.
pub fn eligible(constraints: &Constraints, attrs: &Attrs) -> bool
    ensures { result ≡ eligible constraints.now attrs.now }
{
    constraints
        .as_slice()
        .iter()
        .all(|constraint| holds(constraint, attrs))
}

/// The value of the first attribute of this name, if there is one.
fn attribute<'a>(attrs: &'a Attrs, name: &[u8]) -> Option<&'a [u8]>
    ensures { option_copied result ≡ attribute attrs.now name.now }
{
    let attr = attrs
        .as_slice()
        .iter()
        .find(|attr| attr.name.as_slice() == name)?;
    Some(attr.value.as_slice())
}

/// Whether an attribute is equal to a value; one that is unset is equal to the empty value alone.
fn is_equal(set: Option<&[u8]>, value: &[u8]) -> bool
    ensures { result ≡ is_equal (option_copied set.entry) value.now }
{
    match set {
        Some(bytes) => bytes == value,
        None => value.is_empty(),
    }
}

/// Whether there are two numbers and the first is less.
fn is_less(a: Option<u64>, b: Option<u64>) -> bool
    ensures { result ≡ is_less a b }
{
    match (a, b) {
        (Some(a), Some(b)) => a < b,
        _ => false,
    }
}

/// The whole number that a text writes, if it is one.
fn whole(text: &[u8]) -> Option<u64>
    ensures { result ≡ whole text.now }
{
    read_u64(text).ok()
}
