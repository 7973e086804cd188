//! That each claim of a commit is on a machine that meets the constraints of its wish.
ghost use Rattle.std.specs.Prelude.{◌≡◌, ℕ, ◌≤◌, List, All, Some, length, take, slice_get};
ghost use Rattle.omega_model.specs.Lawful.{RoundSoFar, opened};
ghost use Rattle.omega_model.specs.Planning.{plan_for};
ghost use Rattle.omega_model.specs.State.{state};
ghost use Rattle.omega_model.specs.declared.claims.Judgement.{Judgement};
ghost use Rattle.omega_model.specs.declared.claims.Policy.{Policy};
ghost use Rattle.omega_model.specs.declared.claims.Txn.{Txn};
ghost use Rattle.omega_model.specs.declared.entries.Entry.{Entry};
ghost use Rattle.omega_model.specs.declared.entries.Entry.TheVariants.{Commit};
ghost use Rattle.omega_model.specs.declared.rows.Round.{Round};
ghost use Rattle.omega_model.specs.declared.rows.Row.{Row};
ghost use Rattle.omega_model.specs.declared.rows.TraceTables.{TraceTables};
ghost use Rattle.omega_model.specs.declared.settings.Settings.{Settings};
ghost use Rattle.omega_model.specs.declared.wishes.Wish.{Wish};
ghost use Rattle.omega_laws.specs.Constraints.{SuitsItsWish};

/// Where the claims of a commit are a plan for some wishes on what its copy had seen, each claim is
/// for one of these wishes, and its machine meets the wish's constraints in the state at that
/// commit. So it is of each placed claim. No machine changes between a round's rows and its end,
/// and so the copy's attributes are those of the state. Does nothing: the contract is the law.
pub fn claims_meet_constraints()
    ensures { (settings : Settings) (trace : TraceTables) (rows : List Row) (start : List Entry)
        (round : Round) (history : List Entry)
        → RoundSoFar settings trace rows start round history
        → (place scheduler seen : ℕ) (txn : Txn) (reply : List Judgement)
        → slice_get history place ≡ Some (Commit scheduler seen txn reply)
        → length (opened trace rows start round).history ≤ place
        → (wishes : List Wish) (first : ℕ) (policy : Policy)
        → txn.claims ≡ plan_for (state (take seen (take place history))) wishes first policy
        → All (SuitsItsWish (state (take place history)).machines wishes) txn.claims }
{}
