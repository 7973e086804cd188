//! What holds of all generated tables, by the definitions alone.
ghost use Rattle.std.specs.Prelude.{◌≡◌, ℕ, ◌≤◌, None};
ghost use Rattle.omega_model.specs.Generated.{made_of};
ghost use Rattle.omega_model.specs.Refusals.{first_refusal};

/// Tables of at most 4,096 machines and 20,000 jobs are never refused, whatever words they are made
/// of. Does nothing: the contract is the law.
pub fn generated_tables_are_never_refused()
    ensures { (word : ℕ → ℕ) (machines jobs : ℕ) → machines ≤ 4096 → jobs ≤ 20000
        → first_refusal (made_of word machines jobs) ≡ None }
{}
