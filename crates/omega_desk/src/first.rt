//! The first request that is left at a desk.
ghost use Rattle.std.specs.Prelude.{◌≡◌, ◌++◌, drop, option_to_list};
ghost use Rattle.omega_desk.specs.First.{counted_request, first_request, request_in};

use omega_mapreduce::CountedRequest;
use omega_model::Request;
use std::collections::VecDeque;

/// The first request that is left at a desk: its wishes are listed, or some of them are counted.
#[derive(Drop)]
pub(crate) enum First {
    Listed(Request),
    Counted(CountedRequest),
}

/// A request as the first one. Its wishes are listed where none of them is counted.
fn first_of(request: CountedRequest) -> First
    ensures { request_in result ≡ request }
{
    match request.into_listed() {
        Ok(request) => First::Listed(request),
        Err(counted) => First::Counted(counted),
    }
}

/// Takes the next request that waits, as the first one.
pub(crate) fn next_of(waiting: &mut VecDeque<CountedRequest>) -> Option<First>
    ensures items { waiting.old.items ≡ option_to_list (first_request result) ++ waiting.new.items }
    ensures rest { waiting.new.items ≡ drop 1 waiting.old.items }
{
    match waiting.pop_front() {
        Some(request) => Some(first_of(request)),
        None => None,
    }
}

/// The first request with all its wishes, where `listed` has those that are counted.
pub(crate) fn with_all(first: Option<First>, listed: Option<Request>) -> Option<Request>
    requires listed { listed ≡ counted_request first }
    ensures { result ≡ first_request first }
{
    match first {
        Some(First::Listed(request)) => Some(request),
        Some(First::Counted(_)) => listed,
        None => None,
    }
}
