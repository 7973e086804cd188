//! In how many pieces work is cut that can be done at the same time.
ghost use Rattle.std.specs.Prelude.{◌≤◌};

use std::thread::{Threads, available_parallelism};

/// In how many pieces work is cut at most. Each has memory of its own.
const MOST_PIECES: usize = 8;

/// In how many pieces work is cut: in as many as there are processors, up to `MOST_PIECES`, and in one where
/// their number isn't known.
pub fn pieces_on<R: Threads>(rt: &R) -> usize
    ensures some { 1 ≤ result }
    ensures few { result ≤ 8 }
{
    match available_parallelism(rt) {
        Ok(count) => count.get().min(MOST_PIECES),
        Err(_) => 1,
    }
}
