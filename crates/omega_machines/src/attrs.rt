//! Changes to the attributes of a machine.
ghost use Rattle.std.specs.Prelude.{◌≡◌, ℕ, List, [], ◌∷◌, ◌++◌, OnOk, OnErr, IfOk, IfSome, position, bytes_eq};
ghost use Rattle.omega_model.specs.Machines.{with_attr, without_attr};
ghost use Rattle.omega_machines.specs.Names.{IsIndexOf, names_of};

use crate::names::NameIndex;
use omega_model::{Attr, Attrs, Bytes, Copied, NoMemory, Seq};
use std::alloc::Global;
use std::mem;

/// The place of the attribute of this name, by the index where there is one.
fn place_of(attrs: &Attrs, index: &Option<NameIndex>, name: &Bytes) -> Option<usize>
    requires { IfSome index.now (λ index. IsIndexOf index (names_of attrs.now)) }
    ensures { result ≡ position (λ attr. bytes_eq attr.name name.now) attrs.now }
{
    match index {
        Some(index) => index.place(name.as_slice()),
        None => attrs
            .as_slice()
            .iter()
            .position(|attr| attr.name.as_slice() == name.as_slice()),
    }
}

/// The index with one more name at the end, where there is one and memory for it.
fn with_name(index: Option<NameIndex>, name: &Bytes, alloc: Global) -> Option<NameIndex>
    ensures { (names : List (List ℕ)) → IfSome index (λ index. IsIndexOf index names) → IfSome result (λ index. IsIndexOf index (names ++ name.now ∷ [])) }
{
    index?.with(name, alloc)
}

/// Gives the attribute this value, in its place where it is set, else at the end. An index that is
/// handed in comes back changed likewise, unless memory for it runs out.
pub(crate) fn set(
    attrs: &mut Attrs,
    index: Option<NameIndex>,
    alloc: Global,
    name: &Bytes,
    value: &Bytes,
) -> Result<Option<NameIndex>, NoMemory>
    requires { IfSome index (λ index. IsIndexOf index (names_of attrs.old)) }
    ensures ok { OnOk result (attrs.new ≡ with_attr name.now value.now attrs.old) }
    ensures index { IfOk result (λ kept. IfSome kept (λ index. IsIndexOf index (names_of attrs.new))) }
    ensures err { OnErr result (attrs.new ≡ attrs.old) }
{
    let value = value.copy(alloc)?;
    match place_of(attrs, &index, name) {
        Some(place) => {
            let mut items = mem::replace(attrs, Seq::new(alloc)).into_items();
            items[place].value = value;
            *attrs = Seq::of(items);
            Ok(index)
        }
        None => {
            attrs.push(Attr {
                name: name.copy(alloc)?,
                value,
            })?;
            Ok(with_name(index, name, alloc))
        }
    }
}

/// Unsets the attribute. An index that is handed in comes back changed likewise.
pub(crate) fn delete(
    attrs: &mut Attrs,
    index: Option<NameIndex>,
    alloc: Global,
    name: &Bytes,
) -> Option<NameIndex>
    requires { IfSome index (λ index. IsIndexOf index (names_of attrs.old)) }
    ensures attrs { attrs.new ≡ without_attr name.now attrs.old }
    ensures index { IfSome result (λ index. IsIndexOf index (names_of attrs.new)) }
{
    let mut items = mem::replace(attrs, Seq::new(alloc)).into_items();
    match index {
        Some(kept) => {
            let mut index = kept;
            if let Some(place) = index.forget(name.as_slice()) {
                items.remove(place);
            }
            *attrs = Seq::of(items);
            Some(index)
        }
        None => {
            items.retain(|attr| attr.name.as_slice() != name.as_slice());
            *attrs = Seq::of(items);
            None
        }
    }
}
