//! Extra tasks of MapReduce jobs: the calls of `omega_mapreduce`.
use omega_calls::{Fault, need, policy_of, small};
use omega_mapreduce::extras;
use omega_model::{Bytes, Need};
use std::alloc::Global;

/// `extras POLICY ACTIVITIES ASKED RUNNING [NEED USED CAPACITY]`: how many extra tasks a job gets.
/// The policy is `max`, `relative` or a percentage, for a cap; amounts that are left out are nothing.
pub(crate) fn answer(alloc: Global, call: &str, words: &[Bytes]) -> Result<String, Fault> {
    let extras = match (call, words) {
        ("extras", [policy, activities, asked, running]) => {
            let nothing = [Need::NOTHING; 3];
            extras_of(policy, activities, asked, running, nothing)?
        }
        ("extras", [policy, activities, asked, running, wanted, used, cap]) => {
            let amounts = [need(wanted)?, need(used)?, need(cap)?];
            extras_of(policy, activities, asked, running, amounts)?
        }
        _ => return Err(Fault::UnknownCall),
    };
    Ok(format!(in alloc; "{extras}")?)
}

/// The extra tasks of a job. The amounts are what one asks for, what is used, and the capacity.
fn extras_of(
    policy: &Bytes,
    activities: &Bytes,
    asked: &Bytes,
    running: &Bytes,
    [need, used, cap]: [Need; 3],
) -> Result<u32, Fault> {
    let policy = policy_of(policy)?;
    let (activities, asked, running) = (small(activities)?, small(asked)?, small(running)?);
    Ok(extras(policy, activities, asked, running, need, used, cap))
}
