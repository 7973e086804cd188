//! The indexes of those machines that have many attributes, each by the place of its machine.
ghost use Rattle.std.specs.Prelude.{◌≡◌, ◌<◌, ◌≤◌, ℕ, None, Some, IfSome, OnOk, OnErr};
ghost use Rattle.std.specs.BTreeMap as tree;
ghost use Rattle.std.specs.Ordering.{nat_cmp};
ghost use Rattle.omega_model.specs.Machines.{attr_set, attr_deleted};
ghost use Rattle.omega_machines.specs.Names.{IsIndexOf, AreChangedAt, AreOutside, names_of};
ghost use Rattle.omega_machines.specs.Table.{with_machine};

use crate::names::NameIndex;
use crate::{MachineState, attrs};
use omega_model::{Attrs, Bytes, NoMemory};
use std::alloc::Global;
use std::collections::BTreeMap;

/// From so many attributes on a machine gets an index. Fewer are found sooner by looking at each.
const MANY: usize = 32;

/// Takes out the index of a machine. Where the machine has none and many attributes it is made, for
/// which it costs those; without memory there is none.
fn taken(
    indexes: &mut BTreeMap<usize, NameIndex>,
    place: usize,
    attrs: &Attrs,
    alloc: Global,
) -> Option<NameIndex>
    requires { IfSome (tree.get nat_cmp indexes.old place) (λ index. IsIndexOf index (names_of attrs.now)) }
    ensures index { IfSome result (λ index. IsIndexOf index (names_of attrs.now)) }
    ensures rest { tree.Updates nat_cmp indexes.old indexes.new place None }
{
    let kept = indexes.remove(&place);
    if kept.is_some() || attrs.len() < MANY {
        return kept;
    }
    NameIndex::of(attrs, alloc)
}

/// Puts back an index that was taken out, if there is one. Where memory runs out it is dropped, and
/// made anew when it is needed next.
fn put_back(indexes: &mut BTreeMap<usize, NameIndex>, place: usize, index: Option<NameIndex>)
    requires { tree.get nat_cmp indexes.old place ≡ None }
    ensures own { IfSome (tree.get nat_cmp indexes.new place) (λ kept. index ≡ Some kept) }
    ensures others { (other : ℕ) → (other ≡ place → ⊥) → tree.get nat_cmp indexes.new other ≡ tree.get nat_cmp indexes.old other }
{
    if let Some(index) = index {
        indexes.insert(place, index).ok();
    }
}

/// Gives an attribute of the machine at a place a value, in its place where it is set, else after the
/// others. Refused, it leaves the machine as it was. Takes memory.
pub(crate) fn set_at(
    state: &mut MachineState,
    indexes: &mut BTreeMap<usize, NameIndex>,
    place: usize,
    alloc: Global,
    name: &Bytes,
    value: &Bytes,
) -> Result<(), NoMemory>
    requires { IfSome (tree.get nat_cmp indexes.old place) (λ index. IsIndexOf index (names_of state.old.machine.attrs)) }
    ensures ok { OnOk result (state.new ≡ with_machine (attr_set name.now value.now) state.old) }
    ensures err { OnErr result (state.new ≡ state.old) }
    ensures rest { state.new ≡ with_machine (λ machine. record machine { attrs = state.new.machine.attrs }) state.old }
    ensures indexes { AreChangedAt indexes.old indexes.new place (names_of state.new.machine.attrs) }
{
    let attrs = &mut state.machine.attrs;
    let index = taken(indexes, place, attrs, alloc);
    let index = attrs::set(attrs, index, alloc, name, value)?;
    put_back(indexes, place, index);
    Ok(())
}

/// Unsets an attribute of the machine at a place.
pub(crate) fn delete_at(
    state: &mut MachineState,
    indexes: &mut BTreeMap<usize, NameIndex>,
    place: usize,
    alloc: Global,
    name: &Bytes,
)
    requires { IfSome (tree.get nat_cmp indexes.old place) (λ index. IsIndexOf index (names_of state.old.machine.attrs)) }
    ensures state { state.new ≡ with_machine (attr_deleted name.now) state.old }
    ensures indexes { AreChangedAt indexes.old indexes.new place (names_of state.new.machine.attrs) }
{
    let attrs = &mut state.machine.attrs;
    let index = taken(indexes, place, attrs, alloc);
    let index = attrs::delete(attrs, index, alloc, name);
    put_back(indexes, place, index);
}

/// Drops the indexes of the machines from one place up to another.
pub(crate) fn drop_between(indexes: &mut BTreeMap<usize, NameIndex>, from: usize, to: usize)
    ensures { AreOutside indexes.old indexes.new from to }
{
    for place in from..to {
        indexes.remove(&place);
    }
}
