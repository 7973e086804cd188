//! What a lock needs of its value.
ghost use Rattle.std.specs.Prelude.{◌≡◌, ℕ, List, Option, length};

/// A value with a list of entries behind it.
pub trait Counted {
    /// An entry of the list.
    type Entry;

    // The list behind a value.
    ghost entries: { Self → List Self.Entry };

    // The number of the seat whose entry this is, where it is a seat's.
    ghost number: { Self.Entry → Option ℕ };

    /// How long the list is.
    fn count(&self) -> u64
        ensures { result ≡ length (entries self.now) };
}
