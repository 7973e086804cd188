//! Runs by a virtual clock: that what comes next is fixed, that such a history is the only one, and how one grows.
ghost use Rattle.std.specs.Prelude.{◌≡◌, ℕ, List, [], ◌∷◌, ◌++◌};
ghost use Rattle.omega_model.specs.Lawful.{Lawful, opened, rows_of};
ghost use Rattle.omega_model.specs.declared.entries.Entry.{Entry};
ghost use Rattle.omega_model.specs.declared.rows.Round.{Round};
ghost use Rattle.omega_model.specs.declared.rows.Row.{Row};
ghost use Rattle.omega_model.specs.declared.rows.TraceTables.{TraceTables};
ghost use Rattle.omega_model.specs.declared.settings.Settings.{Settings};
ghost use Rattle.omega_laws.specs.NextCommit.{GoesNext, NobodyHasWork, attempt};
ghost use Rattle.omega_laws.specs.Orders.{EachComesNext, OrderedRound};
ghost use Rattle.omega_laws.specs.Simulated.{HasTimes, SimulatedWith, TimedRounds, base_of, rows_place, round_times, until_after};
ghost use Rattle.omega_laws.specs.Ticking.{Ticking};
ghost use Rattle.omega_laws.specs.VirtualTime.{GoesSooner, KeepsTime, Timed, sees_in_time};

/// A history that is simulated for some settings and a trace is the only one, with its times, and it is
/// lawful. Does nothing: the contract is the law.
pub fn simulated_histories()
    ensures only { (settings : Settings) (trace : TraceTables) (one other : List Entry)
        (times_one times_other : List Timed)
        → SimulatedWith settings trace one times_one → SimulatedWith settings trace other times_other
        → (one ≡ other) × (times_one ≡ times_other) }
    ensures lawful { (settings : Settings) (trace : TraceTables) (history : List Entry)
        (times : List Timed)
        → SimulatedWith settings trace history times → Lawful settings trace history }
{}

/// The times of the commits of a history are fixed by it, and a simulated history has those that it is
/// simulated with. Does nothing: the contract is the law.
pub fn times_of_lawful_histories()
    ensures only { (settings : Settings) (trace : TraceTables) (history : List Entry)
        (times_one times_other : List Timed)
        → HasTimes settings trace history times_one → HasTimes settings trace history times_other
        → times_one ≡ times_other }
    ensures simulated { (settings : Settings) (trace : TraceTables) (history : List Entry)
        (times : List Timed)
        → SimulatedWith settings trace history times → HasTimes settings trace history times }
{}

/// In a round that goes by virtual time the entries so far fix the next one. At each place from the
/// round's rows on stands the commit of the scheduler that, of all that have work, has the least pair of
/// the time of its next commit and its number. It is that scheduler's attempt on the first request that it
/// has left, it had seen the round's rows and what stood up to its own last commit, and it has the reply
/// that is due. Where nobody has work the round is over, and only there. Does nothing: the contract is
/// the law.
pub fn next_commits_in_time()
    ensures { (settings : Settings) (trace : TraceTables) (rows : List Row) (start : List Entry)
        (round : Round) (base : ℕ) (history : List Entry)
        → OrderedRound settings trace rows start round
        (KeepsTime settings trace (rows ++ round.rows) (rows_place trace rows start round) base) history
        → EachComesNext settings trace rows start round
        (GoesSooner settings trace (rows ++ round.rows) (rows_place trace rows start round) base)
        (sees_in_time (rows_place trace rows start round)) history }
{}

/// A round is in order of time, and no commit of it is later than the next one of a scheduler that has
/// work: so it is where the rows are applied, it stays so when the scheduler commits that goes next, and
/// where nobody has work the round is whole. Does nothing: the contract is the law.
pub fn rounds_by_the_clock()
    ensures first { (settings : Settings) (trace : TraceTables) (rows : List Row) (start : List Entry)
        (round : Round) (base : ℕ) → Ticking settings trace rows start round base (opened trace rows start round).history }
    ensures commit { (settings : Settings) (trace : TraceTables) (rows : List Row) (start : List Entry)
        (round : Round) (base : ℕ) (before : List Entry) (by : ℕ)
        → Ticking settings trace rows start round base before
        → (next : GoesNext settings trace (rows ++ round.rows) (rows_place trace rows start round)
        (GoesSooner settings trace (rows ++ round.rows) (rows_place trace rows start round) base) before by)
        → Ticking settings trace rows start round base
        (before ++ attempt settings before by (sees_in_time (rows_place trace rows start round) before by) next.request ∷ []) }
    ensures ends { (settings : Settings) (trace : TraceTables) (rows : List Row) (start : List Entry)
        (round : Round) (base : ℕ) (before : List Entry)
        → Ticking settings trace rows start round base before
        → NobodyHasWork settings trace (rows ++ round.rows) (rows_place trace rows start round) before
        → OrderedRound settings trace rows start round
        (KeepsTime settings trace (rows ++ round.rows) (rows_place trace rows start round) base) before }
{}

/// After some rounds with their times may come one more, whose base follows from these times. Does
/// nothing: the contract is the law.
pub fn one_more_round_in_time()
    ensures { (settings : Settings) (trace : TraceTables)
        (rows : List Row) (start : List Entry) (until : ℕ) (some : List Round) (history : List Entry) (times : List Timed)
        → TimedRounds settings trace (KeepsTime settings trace) rows start until some history times
        → (round : Round) (next : List Entry)
        → OrderedRound settings trace (rows ++ rows_of some) history round
        (KeepsTime settings trace ((rows ++ rows_of some) ++ round.rows)
        (rows_place trace (rows ++ rows_of some) history round) (base_of (until_after until times) round)) next
        → TimedRounds settings trace (KeepsTime settings trace) rows start until (some ++ round ∷ []) next
        (times ++ round_times settings trace (rows ++ rows_of some) history (until_after until times) round next) }
{}
