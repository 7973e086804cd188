//! First fit by asking at each position.
ghost use Rattle.std.specs.Prelude.{◌≤◌, ◌<◌, ℕ, IfSome};
ghost use Rattle.omega_fit.specs.Wrapped.{FirstBetween, IsFirst, positions_from};

/// The first position that passes the test, from `start` up to `len` and then from 0 up to `start`;
/// `None` exactly where no position below `len` passes. Asks at each position once at most, and at
/// none behind the answer.
pub fn first_fit<F: Fn(usize) -> bool>(len: usize, start: usize, test: F) -> Option<usize>
    requires callable { F.IsAlwaysCallable test }
    requires start { start ≤ len }
    ensures first { IsFirst (F.post test) (positions_from start len) result }
    ensures below { IfSome result (λ position. position < len) }
{
    match first_between(start, len, &test) {
        Some(found) => Some(found),
        None => first_between(0, start, &test),
    }
}

/// The first position of `from..to` that passes the test.
fn first_between<F: Fn(usize) -> bool>(from: usize, to: usize, test: &F) -> Option<usize>
    requires callable { F.IsAlwaysCallable test.now }
    ensures first { FirstBetween (F.post test.now) from to result }
    ensures below { IfSome result (λ position. position < to) }
{
    for position in from..to {
        if test(position) {
            return Some(position);
        }
    }
    None
}
