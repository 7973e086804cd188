//! The names of a machine's attributes, and where each of them stands.
ghost use Rattle.std.specs.Prelude.{◌≡◌, [], ◌∷◌, ◌++◌, List, ℕ, not, position, bytes_eq, IfSome};
ghost use Rattle.std.specs.List.{filter};
ghost use Rattle.std.specs.List.Sorted.{IsStrictlySortedBy};
ghost use Rattle.std.specs.Ordering.{nat_cmp};
ghost use Rattle.omega_machines.specs.Names.{IsIndexOf, names_of};

use omega_model::{Attrs, Bytes, Copied};
use std::alloc::Global;
use std::collections::BTreeMap;

/// Tells where in a list of distinct names each of them stands.
///
/// Each name has a number, and the numbers rise along the list. So where a name leaves, those behind it keep
/// theirs. A call costs the logarithm of the names, and one that takes a name out the names behind it besides.
#[derive(Drop)]
pub(crate) struct NameIndex {
    numbers: Vec<u64>,
    by_name: BTreeMap<Vec<u8>, u64>,
}

/// A number for one more name behind those that have these numbers. `None` where all are used up.
fn next_number(numbers: &[u64]) -> Option<u64>
    ensures { IfSome result (λ next. IsStrictlySortedBy nat_cmp numbers.now → IsStrictlySortedBy nat_cmp (numbers.now ++ next ∷ [])) }
{
    match numbers.last() {
        Some(last) => last.checked_add(1),
        None => Some(0),
    }
}

impl NameIndex {
    /// The index of no names.
    fn new(alloc: Global) -> NameIndex
        ensures { IsIndexOf result [] }
    {
        NameIndex {
            numbers: Vec::new(alloc),
            by_name: BTreeMap::new(alloc),
        }
    }

    /// The index of the names of some attributes. `None` where memory runs out, and where two attributes
    /// have the same name. Takes memory.
    pub fn of(attrs: &Attrs, alloc: Global) -> Option<NameIndex>
        ensures { IfSome result (λ index. IsIndexOf index (names_of attrs.now)) }
    {
        let mut index = NameIndex::new(alloc);
        for attr in attrs.as_slice() {
            index = index.with(&attr.name, alloc)?;
        }
        Some(index)
    }

    /// The index with one more name at the end. `None` where memory runs out, where the name is in the
    /// list already, and where as many names were put in as there are numbers. Takes memory.
    pub fn with(self, name: &Bytes, alloc: Global) -> Option<NameIndex>
        ensures { (names : List (List ℕ)) → IsIndexOf self names → IfSome result (λ index. IsIndexOf index (names ++ name.now ∷ [])) }
    {
        let mut index = self;
        let number = next_number(index.numbers.as_slice())?;
        let key = name.copy(alloc).ok()?.into_items();
        index.numbers.reserve(1).ok()?;
        if index.by_name.insert(key, number).ok()?.is_some() {
            return None;
        }
        index.numbers.push_reserved(number);
        Some(index)
    }

    /// The place of a name in the list. `None` exactly where it isn't there.
    pub fn place(&self, name: &[u8]) -> Option<usize>
        ensures { (names : List (List ℕ)) → IsIndexOf self.now names → result ≡ position (λ other. bytes_eq other name.now) names }
    {
        let number = *self.by_name.get(name)?;
        self.numbers.binary_search(&number).ok()
    }

    /// Takes a name out, and answers the place at which it stood. `None` exactly where it wasn't there.
    pub fn forget(&mut self, name: &[u8]) -> Option<usize>
        ensures place { (names : List (List ℕ)) → IsIndexOf self.old names → result ≡ position (λ other. bytes_eq other name.now) names }
        ensures rest { (names : List (List ℕ)) → IsIndexOf self.old names → IsIndexOf self.new (filter (λ other. not (bytes_eq other name.now)) names) }
    {
        let number = self.by_name.remove(name)?;
        let place = self.numbers.binary_search(&number).ok()?;
        self.numbers.remove(place);
        Some(place)
    }
}
