//! Where numbers are likely to stand in a list.
ghost use Rattle.std.specs.Prelude.{◌≡◌, ◌≤◌, ◌<◌, ◌*◌, ◌-◌, ◌^◌, [], length, min, IfOk};
ghost use Rattle.omega_feed.specs.Notes.{guessed, most_notes, note_of, spread};

use omega_model::NoMemory;
use std::alloc::Global;
use std::marker::Model;

/// How many notes there are at most: they take half a mebibyte, so that they mostly are in a processor's cache.
const MOST_NOTES: usize = 131_072;

/// For numbers that stand in a list the places at which they are likely to be found.
///
/// Whoever gets a noted place checks it before use, so that nothing but time depends on what is noted.
/// Numbers may share a note, by chance or because somebody chose them so; then all but one of them have
/// to be searched for. A contract sees the places.
#[derive(Drop)]
pub(crate) struct PlaceNotes {
    places: Vec<u32>,
}

impl Model for PlaceNotes {
    ghost use Rattle.std.specs.Prelude.{◌≤◌, ℕ, List, length};
    ghost use Rattle.omega_feed.specs.Notes.{most_notes};

    ghost Value = { List ℕ };

    ghost view = { λ notes. notes.places.items };

    ghost invariant = { λ notes. length notes.places.items ≤ most_notes };
}

impl PlaceNotes {
    /// No notes: every guess is wrong.
    pub fn none(alloc: Global) -> PlaceNotes
        ensures { result ≡ [] }
    {
        PlaceNotes {
            places: Vec::new(alloc),
        }
    }

    /// Two notes for each of so many numbers, but no more than `MOST_NOTES`. Takes the memory of these.
    pub fn for_count(alloc: Global, count: usize) -> Result<PlaceNotes, NoMemory>
        ensures { IfOk result (λ notes. length notes ≡ min (count * 2) most_notes) }
    {
        let mut places = Vec::new(alloc);
        places.resize(count.saturating_mul(2).min(MOST_NOTES), 0)?;
        Ok(PlaceNotes { places })
    }

    /// The place at which a number is likely to stand; `usize::MAX` where there are no notes.
    pub fn guess(&self, number: u64) -> usize
        ensures noted { result ≡ guessed self.now number }
        ensures none { self.now ≡ [] → result ≡ 2 ^ 64 - 1 }
    {
        match self.places.get(note_of(self.places.len(), number)) {
            Some(place) => *place as usize,
            None => usize::MAX,
        }
    }

    /// Notes the place of a number, over that of another number if they share the note. A place that isn't below
    /// 2^32 isn't noted.
    pub fn note(&mut self, number: u64, place: usize)
        ensures count { length self.new ≡ length self.old }
        ensures noted { 0 < length self.old → place < 2 ^ 32 → guessed self.new number ≡ place }
    {
        let note = note_of(self.places.len(), number);
        let Ok(place) = u32::try_from(place) else {
            return;
        };
        if note < self.places.len() {
            self.places[note] = place;
        }
    }
}

/// Which of so many notes is that of a number.
fn note_of(count: usize, number: u64) -> usize
    requires { count ≤ most_notes }
    ensures note { result ≡ note_of count number }
    ensures within { 0 < count → result < count }
{
    ((spread(number) * count as u64) >> 32) as usize
}

/// A number below 2^32 that two numbers seldom have in common.
fn spread(number: u64) -> u64
    ensures spread { result ≡ spread number }
    ensures range { result < 2 ^ 32 }
{
    number.wrapping_mul(0x9E37_79B9_7F4A_7C15) >> 32
}
