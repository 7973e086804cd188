//! Bytes in memory that are read from the front.
ghost use Rattle.std.specs.Prelude.{◌≡◌, ◌++◌, ◌<◌, ◌≤◌, ◌↔◌, [], length, take};

use omega_model::Bytes;
use std::marker::Model;

/// Bytes of which the first were read. A contract sees those that are left.
#[derive(Drop)]
pub struct Unread {
    bytes: Bytes,
    taken: usize,
}

impl Model for Unread {
    ghost use Rattle.std.specs.Prelude.{List, ℕ, drop, length, ◌≤◌};

    ghost Value = { List ℕ };

    ghost view = { λ u. drop u.taken u.bytes };

    ghost invariant = { λ u. u.taken ≤ length u.bytes };
}

impl Unread {
    /// All the bytes.
    pub fn new(bytes: Bytes) -> Unread
        ensures { result ≡ bytes }
    {
        Unread { bytes, taken: 0 }
    }

    /// Copies the next bytes into the front of the piece, at most so many, and answers how many.
    pub fn hand_over(&mut self, most: usize, piece: &mut [u8]) -> usize
        requires most { 0 < most }
        requires piece { 0 < length piece.old }
        ensures fits { result ≤ length piece.new }
        ensures hands { self.old ≡ take result piece.new ++ self.new }
        ensures ends { (result ≡ 0) ↔ (self.old ≡ []) }
    {
        let left = &self.bytes.as_slice()[self.taken..];
        let count = left.len().min(piece.len()).min(most);
        piece[..count].copy_from_slice(&left[..count]);
        self.taken += count;
        count
    }
}
