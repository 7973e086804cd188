//! Tasks that end of themselves: what of a trace's rows counts, and which end is due.
ghost use Rattle.std.specs.Prelude.{◌≡◌, ◌<◌, ◌≤◌, ◌++◌, ◌∷◌, [], ℕ, true, List, Some, All, IfOk, OnOk, drop, length, map};
ghost use Rattle.std.specs.List.{fold, AllByRecursion as Each};
ghost use Rattle.omega_feed.specs.Open.{OthersAreQuiet};
ghost use Rattle.omega_laws.specs.VirtualTime.{Timed};
ghost use Rattle.omega_model.specs.ExtraTasks.{first_extra};
ghost use Rattle.omega_model.specs.Feed.{feed};
ghost use Rattle.omega_model.specs.Lawful.{rows_of};
ghost use Rattle.omega_model.specs.State.{state};
ghost use Rattle.omega_model.specs.Touches.{is_commit};
ghost use Rattle.omega_model.specs.Wanted.{wanted_after};
ghost use Rattle.omega_model.specs.declared.cells.Task.{Task};
ghost use Rattle.omega_model.specs.declared.entries.Entry.{Entry};
ghost use Rattle.omega_model.specs.declared.claims.Judgement.{Judgement};
ghost use Rattle.omega_model.specs.declared.claims.Txn.{Txn};
ghost use Rattle.omega_model.specs.declared.entries.Entry.TheVariants.{Commit};
ghost use Rattle.omega_model.specs.declared.rows.Round.{Round};
ghost use Rattle.omega_model.specs.declared.rows.Row.{Row};
ghost use Rattle.omega_model.specs.declared.rows.Row.TheVariants.{Task as TaskEvent};
ghost use Rattle.omega_model.specs.declared.rows.TraceTables.{TraceTables};
ghost use Rattle.omega_model.specs.declared.settings.Settings.{Settings};
ghost use Rattle.omega_opening.specs.Reopening.{WereQuiet};
ghost use Rattle.omega_free_laws.specs.FreeSteps.{past_ended, past_opened};
ghost use Rattle.omega_free_laws.specs.Lives.{counting_behind, counts, first_own_end};
ghost use Rattle.omega_free_laws.specs.Passes.{Past};
ghost use Rattle.omega_free_laws.specs.Readings.{by_lives};
ghost use Rattle.omega_pieces.specs.Kept.{KeepsPieces};
ghost use Rattle.omega_free.specs.KeptEnds.{IsLowRow, KeepsOwnEnds, TellsPast};

use omega_cell::Cell;
use omega_feed::{EventRounds, OpenJobs, Wanted};
use omega_model::{Entry, Need, NoMemory, Round, Row, Seq, Spec, TaskKey, TaskRow};
use omega_opening::{Demand, apply_row, open_round, reopen_since};
use omega_pieces::{DueEnd, EndsDue, TaskPieces};
use std::alloc::Global;

/// The pieces of a trace's tasks, and when those that run are due to end.
///
/// Of rounds, ends and commits it is told one by one. It writes its `Drop` out, so that whoever lets it go cites one
/// function.
pub struct OwnEnds {
    pub pieces: TaskPieces,
    pub due: EndsDue,
}

impl Drop for OwnEnds {
    fn drop(self) {
        let OwnEnds { pieces: _, due: _ } = self;
    }
}

impl OwnEnds {
    /// Those of a trace with these rounds, of which nothing has happened yet. Costs a copy of each row, and for each task
    /// row the logarithm of the number of tasks.
    pub fn new(alloc: Global, rounds: &EventRounds) -> Result<OwnEnds, NoMemory>
        ensures { (trace : TraceTables) → rows_of rounds.now ≡ feed trace → IfOk result (KeepsOwnEnds trace [] [] []) }
    {
        let pieces = TaskPieces::new(alloc, rounds)?;
        Ok(OwnEnds {
            pieces,
            due: EndsDue::new(alloc),
        })
    }

    /// The end that is due first of those of the tasks that run on a cell; `None` exactly where none is due.
    /// Costs what `EndsDue::first` costs.
    pub fn first(&mut self, cell: &Cell) -> Option<DueEnd>
        ensures first { (trace : TraceTables) (rows : List Row) (times : List Timed) → KeepsOwnEnds trace rows cell.now.history times self.old
            → result ≡ first_own_end trace cell.now.history times }
        ensures kept { (trace : TraceTables) (rows : List Row) (times : List Timed) → KeepsOwnEnds trace rows cell.now.history times self.old
            → KeepsOwnEnds trace rows cell.now.history times self.new }
    {
        self.due.first(cell.board().running())
    }

    /// A round opens, of whose rows those that count are applied, where up to a place of the cell's history entries were
    /// looked at for tasks that they stopped, and commits stand behind it. Answers up to where they were looked at then,
    /// which is the end. Costs the rows, what their entries change, and the commits.
    pub fn open(
        &mut self,
        alloc: Global,
        round: Round,
        demand: &mut Demand,
        cell: &mut Cell,
        looked_at: usize,
    ) -> Result<usize, NoMemory>
        requires within { looked_at ≤ length cell.old.history }
        requires commits { All (λ entry. is_commit entry ≡ true) (drop looked_at cell.old.history) }
        requires quiet { WereQuiet demand.old.open_jobs demand.old.wanted looked_at cell.old.history }
        ensures past { (settings : Settings) (trace : TraceTables) (past : Past) (times : List Timed)
            → KeepsOwnEnds trace past.rows past.history times self.old → TellsPast settings (by_lives trace) past cell.old.history demand.old.wanted
            → OnOk result (TellsPast settings (by_lives trace) (past_opened (by_lives trace) past round) cell.new.history demand.new.wanted) }
        ensures kept { (settings : Settings) (trace : TraceTables) (past : Past) (times : List Timed)
            → KeepsOwnEnds trace past.rows past.history times self.old → TellsPast settings (by_lives trace) past cell.old.history demand.old.wanted
            → OnOk result (KeepsOwnEnds trace (past.rows ++ round.rows) (past_opened (by_lives trace) past round).history times self.new) }
        ensures quiet { OnOk result (OthersAreQuiet demand.new.open_jobs demand.new.wanted (state cell.new.history).tasks) }
        ensures place { IfOk result (λ place. place ≡ length cell.new.history) }
    {
        let Round { number, rows } = round;
        let rows = those_that_count(alloc, &mut self.pieces, rows)?;
        reopen_since(demand, cell, looked_at)?;
        open_round(alloc, Round { number, rows }, demand, cell)?;
        Ok(cell.history().len())
    }

    /// The task ends that is due to end first, and with it the extras of its job where no task of that is wanted any more;
    /// the rows of the task's next piece that were applied count from now on. Of places in the history the same holds as of
    /// an opening. Costs those rows, and what the ends change.
    pub fn end(
        &mut self,
        alloc: Global,
        end: DueEnd,
        demand: &mut Demand,
        cell: &mut Cell,
        looked_at: usize,
    ) -> Result<usize, NoMemory>
        requires low { end.key.index < first_extra }
        requires within { looked_at ≤ length cell.old.history }
        requires commits { All (λ entry. is_commit entry ≡ true) (drop looked_at cell.old.history) }
        requires quiet { WereQuiet demand.old.open_jobs demand.old.wanted looked_at cell.old.history }
        ensures past { (settings : Settings) (trace : TraceTables) (past : Past) (times : List Timed) (coming : List Round)
            → KeepsOwnEnds trace past.rows past.history times self.old → TellsPast settings (by_lives trace) past cell.old.history demand.old.wanted
            → first_own_end trace past.history times ≡ Some end
            → OnOk result (TellsPast settings (by_lives trace) (past_ended (by_lives trace) past end coming) cell.new.history demand.new.wanted) }
        ensures kept { (settings : Settings) (trace : TraceTables) (past : Past) (times : List Timed) (coming : List Round)
            → KeepsOwnEnds trace past.rows past.history times self.old → TellsPast settings (by_lives trace) past cell.old.history demand.old.wanted
            → first_own_end trace past.history times ≡ Some end
            → OnOk result (KeepsOwnEnds trace past.rows (past_ended (by_lives trace) past end coming).history times self.new) }
        ensures quiet { OnOk result (OthersAreQuiet demand.new.open_jobs demand.new.wanted (state cell.new.history).tasks) }
        ensures place { IfOk result (λ place. place ≡ length cell.new.history) }
    {
        reopen_since(demand, cell, looked_at)?;
        let held = self.pieces.end(alloc, end.key)?;
        let row = Row::Task(row_of_end(end.key));
        demand.wanted.take(&row, &mut demand.open_jobs)?;
        take_held(&mut demand.wanted, &mut demand.open_jobs, held)?;
        apply_row(alloc, cell, &demand.wanted, &mut demand.open_jobs, row)?;
        Ok(cell.history().len())
    }

    /// The last entry of a cell's history was committed at this time, in microseconds. Costs its claims, each the
    /// logarithms of the number of tasks and of the number of ends.
    pub fn commit(&mut self, time: u128, cell: &Cell) -> Result<(), NoMemory>
        ensures { (trace : TraceTables) (rows : List Row) (history : List Entry) (times : List Timed) (by seen : ℕ) (txn : Txn) (reply : List Judgement) (timed : Timed)
            → KeepsOwnEnds trace rows history times self.old → cell.now.history ≡ history ++ Commit by seen txn reply ∷ []
            → timed.place ≡ length history → timed.time ≡ time
            → OnOk result (KeepsOwnEnds trace rows cell.now.history (times ++ timed ∷ []) self.new) }
    {
        if let Some(Entry::Commit { txn, reply, .. }) = cell.history().last() {
            self.due.commit(&self.pieces, time, txn, reply.as_slice())?;
        }
        Ok(())
    }
}

/// Applies rows to the pieces of their tasks, and answers those that count, in order. Costs for each task row the
/// logarithms of the number of tasks and of the number of pieces of which rows are held.
fn those_that_count(
    alloc: Global,
    pieces: &mut TaskPieces,
    rows: Seq<Row>,
) -> Result<Seq<Row>, NoMemory>
    ensures counting { (trace : TraceTables) (before : List Row) (history : List Entry) → KeepsPieces trace before history pieces.old
        → IfOk result (λ some. some ≡ counting_behind history before rows) }
    ensures kept { (trace : TraceTables) (before : List Row) (history : List Entry) → KeepsPieces trace before history pieces.old
        → OnOk result (KeepsPieces trace (before ++ rows) history pieces.new) }
    ensures low { OnOk result (Each IsLowRow rows) }
{
    let mut counting = Seq::new(alloc);
    for row in rows.into_items() {
        take_next(alloc, pieces, &mut counting, row)?;
    }
    Ok(counting)
}

/// Applies one more row, and puts it behind those that count, if it does.
fn take_next(
    alloc: Global,
    pieces: &mut TaskPieces,
    counting: &mut Seq<Row>,
    row: Row,
) -> Result<(), NoMemory>
    ensures counting { (trace : TraceTables) (before : List Row) (history : List Entry) → KeepsPieces trace before history pieces.old
        → OnOk result (counting.new ≡ counting.old ++ counting_behind history before (row ∷ [])) }
    ensures kept { (trace : TraceTables) (before : List Row) (history : List Entry) → KeepsPieces trace before history pieces.old
        → OnOk result (KeepsPieces trace (before ++ row ∷ []) history pieces.new) }
    ensures low { OnOk result (IsLowRow row) }
{
    if take_row(alloc, pieces, &row)? {
        counting.push(row)?;
    }
    Ok(())
}

/// Applies a row to the pieces of its task, if it is a task row, and answers whether it counts.
fn take_row(alloc: Global, pieces: &mut TaskPieces, row: &Row) -> Result<bool, NoMemory>
    ensures counts { (trace : TraceTables) (before : List Row) (history : List Entry) → KeepsPieces trace before history pieces.old
        → IfOk result (λ counted. counted ≡ counts history before row.now) }
    ensures kept { (trace : TraceTables) (before : List Row) (history : List Entry) → KeepsPieces trace before history pieces.old
        → OnOk result (KeepsPieces trace (before ++ row.now ∷ []) history pieces.new) }
    ensures low { IsLowRow row.now }
{
    match row {
        Row::Machine(_) => Ok(true),
        Row::Attr(_) => Ok(true),
        Row::Task(row) => {
            has_low_index(row);
            pieces.take(alloc, row)
        }
    }
}

/// A row is of no extra task, by its type. Does nothing: the contract says it.
fn has_low_index(row: &TaskRow)
    ensures { row.now.key.index < first_extra }
{
    let _key = row.key;
}

/// A row that ends a task of the trace.
fn row_of_end(key: TaskKey) -> TaskRow
    requires { key.index < first_extra }
    ensures key { result.key ≡ key }
    ensures code { result.code ≡ 4 }
{
    TaskRow {
        time: 0,
        key,
        code: 4,
        class: 0,
        spec: Spec {
            need: Need::NOTHING,
            prec: 0,
            differ: false,
        },
    }
}

/// Applies rows of a task that were held to what is asked for.
fn take_held(
    wanted: &mut Wanted,
    open_jobs: &mut OpenJobs,
    held: Seq<TaskRow>,
) -> Result<(), NoMemory>
    ensures wanted { OnOk result (wanted.new
        ≡ record wanted.old { tasks = fold wanted_after wanted.old.tasks (map (λ row. TaskEvent row) held) }) }
    ensures quiet { (tasks : List Task) → OthersAreQuiet open_jobs.old wanted.old tasks
        → OnOk result (OthersAreQuiet open_jobs.new wanted.new tasks) }
{
    for row in held.into_items() {
        wanted.take(&Row::Task(row), open_jobs)?;
    }
    Ok(())
}
