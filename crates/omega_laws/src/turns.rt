//! What comes next in a round, that nothing else could, and that a history in turns is the only one, of a
//! whole run and of its first rounds.
ghost use Rattle.std.specs.Prelude.{◌≡◌, ◌≤◌, ℕ, List, [], Option, length, take, drop};
ghost use Rattle.omega_model.specs.Feed.{rounds};
ghost use Rattle.omega_model.specs.Lawful.{Lawful, RoundOf, RoundSoFar, opened};
ghost use Rattle.omega_model.specs.Turns.{InTurns};
ghost use Rattle.omega_model.specs.Work.{commits_of};
ghost use Rattle.omega_model.specs.declared.entries.Entry.{Entry};
ghost use Rattle.omega_model.specs.declared.rows.Round.{Round};
ghost use Rattle.omega_model.specs.declared.rows.Row.{Row};
ghost use Rattle.omega_model.specs.declared.rows.TraceTables.{TraceTables};
ghost use Rattle.omega_model.specs.declared.settings.Settings.{Settings};
ghost use Rattle.omega_laws.specs.FirstRounds.{AreFirstInTurns};
ghost use Rattle.omega_laws.specs.NextCommit.{ComesNext};
ghost use Rattle.omega_laws.specs.Orders.{EachComesNext, Rule, RuleBefore, RuleOrders, RuleOrdersRound, RuledRound, RuledRounds};
ghost use Rattle.omega_laws.specs.TurnOrder.{GoesEarlier, sees_in_turn, turn_of};

/// In a round in which the schedulers take turns, the entries so far fix the next one.
///
/// At each place from the round's rows on stands what comes next after the entries before it: the
/// commit of the scheduler that, of all that have work, had the fewest commits in this round, and of
/// equals the one with the least number. It is that scheduler's attempt on the first request that it
/// has left, it had seen what stood before the turn, and it has the reply that is due. Where nobody
/// has work the round is over, and only there. Does nothing: the contract is the law.
pub fn next_commits_in_turns()
    ensures stands { (settings : Settings) (trace : TraceTables) (rows : List Row) (start : List Entry)
        (round : Round) (history : List Entry)
        → RoundOf settings trace rows start round history → InTurns history
        → EachComesNext settings trace rows start round GoesEarlier sees_in_turn history }
    ensures alone { (settings : Settings) (trace : TraceTables) (rows : List Row) (opened_at : ℕ)
        (before : List Entry) (one other : Option Entry)
        → ComesNext settings trace rows opened_at GoesEarlier sees_in_turn before one
        → ComesNext settings trace rows opened_at GoesEarlier sees_in_turn before other
        → one ≡ other }
    ensures turn { (settings : Settings) (trace : TraceTables) (rows : List Row) (start : List Entry)
        (round : Round) (history : List Entry)
        → RoundSoFar settings trace rows start round history → (scheduler : ℕ)
        → turn_of history scheduler
        ≡ commits_of scheduler (drop (length (opened trace rows start round).history) history) }
{}

/// A history that is lawful for some settings and a trace, and in which the schedulers take turns,
/// is the only one. Does nothing: the contract is the law.
pub fn lawful_histories_in_turns()
    ensures { (settings : Settings) (trace : TraceTables) (one other : List Entry)
        → Lawful settings trace one → InTurns one → Lawful settings trace other → InTurns other
        → one ≡ other }
{}

/// The same for any rule that is given by tests and puts the commits of a round in one order: the
/// entries so far fix the next one, and rounds that keep to such rules, each to its own, are the
/// only ones after their start. Does nothing: the contract is the law.
pub fn rounds_in_any_order()
    ensures stands { (settings : Settings) (trace : TraceTables) (rows : List Row) (start : List Entry)
        (round : Round) (rule : Rule) → RuleOrdersRound settings trace rows start round rule
        → (history : List Entry) → RuledRound settings trace rows start round rule history
        → EachComesNext settings trace rows start round (RuleBefore rule) rule.sees history }
    ensures alone { (settings : Settings) (trace : TraceTables) (rows : List Row) (opened_at : ℕ)
        (rule : Rule) → RuleOrders settings trace rows opened_at rule
        → (before : List Entry) (one other : Option Entry)
        → ComesNext settings trace rows opened_at (RuleBefore rule) rule.sees before one
        → ComesNext settings trace rows opened_at (RuleBefore rule) rule.sees before other
        → one ≡ other }
    ensures only { (settings : Settings) (trace : TraceTables)
        (rule : List Row → List Entry → Round → Rule)
        → ((rows : List Row) (start : List Entry) (round : Round)
        → RuleOrdersRound settings trace rows start round (rule rows start round))
        → (rows : List Row) (start : List Entry) (some : List Round) (one other : List Entry)
        → RuledRounds settings trace rule rows start some one
        → RuledRounds settings trace rule rows start some other
        → one ≡ other }
{}

/// Of the first rounds of a trace, in which the schedulers take turns, there is one history for each
/// number of rounds at most; that of fewer rounds is the beginning of that of more. That of none is
/// empty, and that of all is the whole run's. Does nothing: the contract is the law.
pub fn first_rounds_in_turns()
    ensures only { (settings : Settings) (trace : TraceTables) (count : ℕ) (one other : List Entry)
        → AreFirstInTurns settings trace count one → AreFirstInTurns settings trace count other
        → one ≡ other }
    ensures begins { (settings : Settings) (trace : TraceTables) (fewer more : ℕ)
        (one other : List Entry) → fewer ≤ more → AreFirstInTurns settings trace fewer one
        → AreFirstInTurns settings trace more other → take (length one) other ≡ one }
    ensures none { (settings : Settings) (trace : TraceTables) → AreFirstInTurns settings trace 0 [] }
    ensures all { (settings : Settings) (trace : TraceTables) (history : List Entry)
        → Lawful settings trace history → InTurns history
        → AreFirstInTurns settings trace (length (rounds trace settings.window)) history }
{}
