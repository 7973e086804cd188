//! What each commit of a lawful history is: an attempt on a request of the trace, on machines that
//! meet its constraints, whole where it is a gang, and never at the cost of its own job.
ghost use Rattle.std.specs.Prelude.{List};
ghost use Rattle.omega_model.specs.Lawful.{Lawful, LawfulSoFar};
ghost use Rattle.omega_model.specs.declared.entries.Entry.{Entry};
ghost use Rattle.omega_model.specs.declared.rows.TraceTables.{TraceTables};
ghost use Rattle.omega_model.specs.declared.settings.Settings.{Settings};
ghost use Rattle.omega_laws.specs.WholeCommits.{CommitsAreWhole};

/// In a lawful history, and at any moment before its end, each commit is its scheduler's attempt on
/// the first request that it has left in the round that is under way. Each claim, placed or not, is
/// for a wish of that request, on a machine that met the wish's constraints as the scheduler had
/// seen it and meets them in the state at that commit. In gang mode that is a request with which the
/// round began, still whole, and the commit claims the tasks of all its wishes, in order, or
/// nothing. Each claim is for a task of the transaction's job and each victim is of another job, so
/// that no transaction evicts a task that it claims. Does nothing: the contract is the law.
pub fn commits_of_lawful_histories()
    ensures lawful { (settings : Settings) (trace : TraceTables) (history : List Entry)
        → Lawful settings trace history → CommitsAreWhole settings trace history }
    ensures so_far { (settings : Settings) (trace : TraceTables) (history : List Entry)
        → LawfulSoFar settings trace history → CommitsAreWhole settings trace history }
{}
