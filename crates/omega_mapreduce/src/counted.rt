//! What is wished for of a job, where the wishes for extra tasks are counted until they are tried.
ghost use Rattle.std.specs.Prelude.{◌≡◌, ◌++◌, ◌↔◌, [], IfErr, IfOk, IsTrue, length, map, unwrap_or};
ghost use Rattle.omega_mapreduce.specs.Counted.{MayCount, counted_wish, counted_wishes};

use crate::indexes::free_indexes;
use omega_model::{Constraints, Copied, Need, NoMemory, Request, Seq, Spec, TaskKey, Wish, Wishes};
use std::alloc::Global;
use std::marker::Model;

/// The wishes for more extra tasks of a job, which all need the same and have the same constraints. They take
/// the memory of one wish and of the indexes of the extras that run. A contract sees the list of the wishes.
#[derive(Debug, Drop)]
pub struct CountedExtras {
    job: u64,
    need: Need,
    constraints: Constraints,
    running: Vec<u32>,
    count: u32,
}

impl Model for CountedExtras {
    ghost use Rattle.std.specs.Prelude.{List};
    ghost use Rattle.omega_model.specs.declared.wishes.Wish.{Wish};
    ghost use Rattle.omega_mapreduce.specs.Counted.{MayCount, counted_wishes};

    ghost Value = { List Wish };

    ghost view = { λ e. counted_wishes e.job e.need e.constraints e.running.items e.count };

    ghost invariant = { λ e. MayCount e.running.items e.count };
}

impl CountedExtras {
    /// `count` more extras of a job, of which those with the indexes `running` run, in order. Each needs `need`.
    pub fn new(
        job: u64,
        need: Need,
        constraints: Constraints,
        running: Vec<u32>,
        count: u32,
    ) -> CountedExtras
        requires may { MayCount running.items count }
        ensures { result ≡ counted_wishes job need constraints running.items count }
    {
        CountedExtras {
            job,
            need,
            constraints,
            running,
            count,
        }
    }

    /// How many wishes they are.
    pub fn count(&self) -> u32
        ensures { result ≡ length self.now }
    {
        self.count
    }

    /// These wishes behind others. Costs the wishes, and the extras that run.
    fn listed_behind(&self, alloc: Global, wishes: Wishes) -> Result<Wishes, NoMemory>
        ensures { IfOk result (λ all. all ≡ wishes ++ self.now) }
    {
        let indexes = free_indexes(alloc, self.running.as_slice(), self.count)?;
        with_extras(
            alloc,
            wishes,
            self.job,
            self.need,
            &self.constraints,
            indexes.as_slice(),
        )
    }
}

/// The wishes of one job in one round, of which those for extra tasks may be counted and not listed. A contract
/// sees the request with all wishes.
#[derive(Debug, Drop)]
pub struct CountedRequest {
    job: u64,
    listed: Wishes,
    extras: Option<CountedExtras>,
}

/// Requests in order.
pub type CountedRequests = Seq<CountedRequest>;

impl Model for CountedRequest {
    ghost use Rattle.std.specs.Prelude.{[], ◌++◌, unwrap_or};
    ghost use Rattle.omega_model.specs.declared.wishes.Request.{Request};

    ghost Value = { Request };

    ghost view = { λ r. record { job = r.job; wishes = r.listed ++ unwrap_or r.extras [] } };
}

impl CountedRequest {
    /// The request of a job with these wishes, and behind them those for extras, if any are wished for.
    pub fn new(job: u64, listed: Wishes, extras: Option<CountedExtras>) -> CountedRequest
        ensures { result ≡ record { job = job; wishes = listed ++ unwrap_or extras [] } }
    {
        CountedRequest {
            job,
            listed,
            extras,
        }
    }

    /// The job.
    pub fn job(&self) -> u64
        ensures { result ≡ self.now.job }
    {
        self.job
    }

    /// How many wishes there are.
    pub fn len(&self) -> usize
        ensures { result ≡ length self.now.wishes }
    {
        self.listed.as_slice().len() + count_of(&self.extras) as usize
    }

    /// Whether nothing is wished for.
    pub fn is_empty(&self) -> bool
        ensures { IsTrue result ↔ (self.now.wishes ≡ []) }
    {
        self.len() == 0
    }

    /// What the first wish needs, and its constraints; `None` where nothing is wished for.
    pub fn first_asked(&self) -> Option<(Need, &Constraints)> {
        match self.listed.as_slice().first() {
            Some(wish) => Some((wish.spec.need, &wish.constraints)),
            None => asked_by(&self.extras),
        }
    }

    /// The request with all its wishes listed. Costs them, with their constraints, and the extras that run.
    pub fn to_listed(&self, alloc: Global) -> Result<Request, NoMemory>
        ensures { IfOk result (λ request. request ≡ self.now) }
    {
        let wishes = copied(alloc, self.listed.as_slice())?;
        let wishes = with_counted(alloc, wishes, &self.extras)?;
        Ok(Request {
            job: self.job,
            wishes,
        })
    }

    /// The request, where no wish of it is counted; else the same counted request again. Costs nothing.
    pub fn into_listed(self) -> Result<Request, CountedRequest>
        ensures ok { IfOk result (λ request. request ≡ self) }
        ensures err { IfErr result (λ counted. counted ≡ self) }
    {
        let CountedRequest {
            job,
            listed,
            extras,
        } = self;
        match extras {
            None => Ok(Request {
                job,
                wishes: listed,
            }),
            Some(extras) => Err(CountedRequest {
                job,
                listed,
                extras: Some(extras),
            }),
        }
    }
}

/// What each counted wish needs, and its constraints, if there is one.
fn asked_by(extras: &Option<CountedExtras>) -> Option<(Need, &Constraints)> {
    match extras {
        Some(extras) => Some((extras.need, &extras.constraints)),
        None => None,
    }
}

/// How many wishes are counted.
fn count_of(extras: &Option<CountedExtras>) -> u32
    ensures { result ≡ length (unwrap_or extras.now []) }
{
    match extras {
        Some(extras) => extras.count(),
        None => 0,
    }
}

/// These wishes, and behind them those that are counted.
fn with_counted(
    alloc: Global,
    wishes: Wishes,
    extras: &Option<CountedExtras>,
) -> Result<Wishes, NoMemory>
    ensures { IfOk result (λ all. all ≡ wishes ++ unwrap_or extras.now []) }
{
    match extras {
        Some(extras) => extras.listed_behind(alloc, wishes),
        None => Ok(wishes),
    }
}

/// The same wishes.
fn copied(alloc: Global, wishes: &[Wish]) -> Result<Wishes, NoMemory>
    ensures { IfOk result (λ copied. copied ≡ wishes.now) }
{
    let mut copied = Wishes::new(alloc);
    for wish in wishes {
        copied.push(Wish {
            key: wish.key,
            spec: wish.spec,
            constraints: wish.constraints.copy(alloc)?,
        })?;
    }
    Ok(copied)
}

/// These wishes, and behind them those for extras of a job with these indexes.
fn with_extras(
    alloc: Global,
    mut wishes: Wishes,
    job: u64,
    need: Need,
    constraints: &Constraints,
    indexes: &[u32],
) -> Result<Wishes, NoMemory>
    ensures { IfOk result (λ all. all ≡ wishes ++ map (counted_wish job need constraints.now) indexes.now) }
{
    for index in indexes {
        let key = TaskKey { job, index: *index };
        wishes.push(Wish {
            key,
            spec: Spec {
                need,
                prec: 0,
                differ: false,
            },
            constraints: constraints.copy(alloc)?,
        })?;
    }
    Ok(wishes)
}
