//! Wishes and outcomes, walked side by side.
ghost use Rattle.std.specs.Prelude.{◌≡◌, true, List};
ghost use Rattle.omega_model.specs.Keys.{same_key};
ghost use Rattle.omega_model.specs.Work.{ends_request, rest_of};
ghost use Rattle.omega_model.specs.declared.wishes.Request.{Request};
ghost use Rattle.omega_desk.specs.Walks.{are_wished, HasDistinctWishes, stays, met_after, walked};

use omega_model::{Outcome, Request, Seq, Settings, TaskKey, Wish};

/// The request with the wishes that the outcomes leave. Costs the wishes.
pub(crate) fn rest_of(request: Request, outcomes: &[Outcome]) -> Request
    requires distinct { HasDistinctWishes request }
    requires answers { are_wished outcomes.now request.wishes ≡ true }
    ensures { result ≡ rest_of request outcomes.now }
{
    let Request { job, wishes } = request;
    let wishes = walked(wishes.into_items(), outcomes);
    Request {
        job,
        wishes: Seq::of(wishes),
    }
}

/// The wishes that stay when they are walked along the outcomes.
fn walked(wishes: Vec<Wish>, outcomes: &[Outcome]) -> Vec<Wish>
    ensures { result.items ≡ walked outcomes.now wishes.items }
{
    let mut wishes = wishes;
    let mut ahead = outcomes;
    wishes.retain(
        |wish|
            ensures stays { result ≡ stays ahead.entry.now wish.now }
            ensures after { ahead.exit.now ≡ met_after ahead.entry.now wish.now }
        {
            let stays = stays(ahead, wish);
            ahead = met_after(ahead, wish);
            stays
        },
    );
    wishes
}

/// Whether a wish stays, where the first of these outcomes is the first that wasn't met yet.
fn stays(ahead: &[Outcome], wish: &Wish) -> bool
    ensures { result ≡ stays ahead.now wish.now }
{
    match ahead.first() {
        Some(outcome) if same_key(&outcome.key, &wish.key) => !outcome.verdict.is_placed(),
        _ => true,
    }
}

/// The outcomes that are met after a wish.
fn met_after<'a>(ahead: &'a [Outcome], wish: &Wish) -> &'a [Outcome]
    ensures { result.now ≡ met_after ahead.now wish.now }
{
    match ahead.split_first() {
        Some((outcome, rest)) if same_key(&outcome.key, &wish.key) => rest,
        _ => ahead,
    }
}

/// Whether two names are of one task.
fn same_key(one: &TaskKey, other: &TaskKey) -> bool
    ensures { result ≡ same_key one.now other.now }
{
    one.job == other.job && one.index == other.index
}

/// Whether a request ends with these outcomes: nothing of it is left in `rest`, nothing was claimed, it
/// has had all `tries` with `taken` attempts, or its job is given up with `failing` commits in a row
/// that placed nothing.
pub(crate) fn ends_request(
    settings: &Settings,
    taken: u64,
    failing: u64,
    rest: &Request,
    outcomes: &[Outcome],
) -> bool
    ensures { (request : Request) → rest.now ≡ rest_of request outcomes.now
        → result ≡ ends_request settings.now taken failing request outcomes.now }
{
    rest.wishes.is_empty()
        || outcomes.is_empty()
        || u64::from(settings.tries) <= taken
        || u64::from(settings.give_up) <= failing
}
