//! What of an attempt is still wanted.
ghost use Rattle.std.specs.Prelude.{◌≡◌, ℕ, List, IfOk, length};
ghost use Rattle.omega_model.specs.Touches.{copied_seqs};
ghost use Rattle.omega_model.specs.declared.entries.Entry.{Entry};
ghost use Rattle.omega_free_laws.specs.StillWanted.{wanted_claims};
ghost use Rattle.omega_free.specs.KeptAttempts.{wanted_part, wants_all};

use omega_feed::Wanted;
use omega_model::{Claim, Claims, Copied, NoMemory, Request, Seq, Wish, Wishes};
use std::alloc::Global;

/// Whether all wishes of a request are still wanted. Costs its wishes up to the first that isn't, each a look-up.
pub(crate) fn wants_all(request: &Request, wanted: &Wanted) -> bool
    ensures { result ≡ wants_all wanted.now.tasks request.now }
{
    request
        .wishes
        .as_slice()
        .iter()
        .all(|wish| wanted.misses(wish.key))
}

/// A request with those of its wishes that are still wanted. Costs a look-up for each wish, and a copy of those.
pub(crate) fn still_wanted(
    alloc: Global,
    request: &Request,
    wanted: &Wanted,
) -> Result<Request, NoMemory>
    ensures { IfOk result (λ part. part ≡ wanted_part wanted.now.tasks request.now) }
{
    let mut wishes = Wishes::new(alloc);
    for wish in request.wishes.as_slice() {
        if wanted.misses(wish.key) {
            wishes.push(Wish {
                key: wish.key,
                spec: wish.spec,
                constraints: wish.constraints.copy(alloc)?,
            })?;
        }
    }
    Ok(Request {
        job: request.job,
        wishes,
    })
}

/// The claims of a plan whose tasks are still wanted. Costs a look-up for each claim.
pub(crate) fn kept_claims(claims: Claims, wanted: &Wanted) -> Claims
    ensures { result ≡ wanted_claims wanted.now.tasks claims }
{
    let mut kept = claims.into_items();
    kept.retain(|claim| wanted.misses(claim.key));
    Seq::of(kept)
}

/// Of these sequence numbers, one for each claim of a plan, those of the claims whose tasks are still wanted. Costs a
/// look-up for each claim.
pub(crate) fn kept_seqs(
    alloc: Global,
    claims: &[Claim],
    seqs: &[u64],
    wanted: &Wanted,
) -> Result<Vec<u64>, NoMemory>
    requires { length seqs.now ≡ length claims.now }
    ensures { IfOk result (λ kept. (history : List Entry) (seen : ℕ) → seqs.now ≡ copied_seqs history seen claims.now
        → kept.items ≡ copied_seqs history seen (wanted_claims wanted.now.tasks claims.now)) }
{
    let mut kept = Vec::new(alloc);
    for i in 0..claims.len() {
        if wanted.misses(claims[i].key) {
            kept.push(seqs[i])?;
        }
    }
    Ok(kept)
}
