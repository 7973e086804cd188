//! The counting of calls and of faults.
ghost use Rattle.std.specs.Prelude.{◌≡◌, ◌≤◌, ◌↔◌, IsTrue, Some, None};
ghost use Rattle.omega_io.specs.Edge.{Rose};

/// How many calls were made, and which of them fails, counted from 0.
#[derive(Clone, Copy)]
pub struct Calls {
    pub made: u64,
    pub failing: Option<u64>,
}

impl Calls {
    /// No call was made and none fails.
    pub fn new() -> Calls
        ensures { result ≡ record { made = 0; failing = None } }
    {
        Calls {
            made: 0,
            failing: None,
        }
    }

    /// Whether the call that is made now fails.
    pub fn next_fails(&mut self) -> bool
        ensures fails { IsTrue result ↔ (self.old.failing ≡ Some self.old.made) }
        ensures failing { self.new.failing ≡ self.old.failing }
    {
        let fails = self.failing == Some(self.made);
        self.made = self.made.saturating_add(1);
        fails
    }
}

/// One more fault. A count stops at 2^64 - 1.
pub fn count_one(faults: &mut u64)
    ensures cause { Rose faults.old faults.new }
    ensures later { faults.old ≤ faults.new }
{
    *faults = faults.saturating_add(1);
}
