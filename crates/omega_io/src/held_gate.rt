//! A gate that holds schedulers until others have come to a point.
ghost use Rattle.std.specs.Prelude.{◌≡◌, ◌↔◌, IsTrue, IfOk};
ghost use Rattle.omega_io.specs.Gates.{hold_of};

use crate::edges::{Gate, Point};
use omega_model::NoMemory;
use std::alloc::Global;
use std::marker::Model;
use std::sync::atomic::{AtomicBool, Ordering};
use std::thread;

/// `scheduler` is held at `point` until `until_scheduler` has come to `until_point`. From then on
/// `ended` is set, and the hold stops nobody.
#[derive(Drop)]
pub struct Hold {
    scheduler: u32,
    point: Point,
    until_scheduler: u32,
    until_point: Point,
    ended: AtomicBool,
}

impl Hold {
    /// A hold that nobody has ended.
    fn new(order: (u32, Point, u32, Point)) -> Hold
        ensures { hold_of result ≡ order }
    {
        let (scheduler, point, until_scheduler, until_point) = order;
        Hold {
            scheduler,
            point,
            until_scheduler,
            until_point,
            ended: AtomicBool::new(false),
        }
    }

    /// Whether it holds a scheduler at a point.
    fn holds(&self, scheduler: u32, point: Point) -> bool
        ensures { IsTrue result ↔ ((self.now.scheduler ≡ scheduler) × (self.now.point ≡ point)) }
    {
        self.scheduler == scheduler && self.point == point
    }

    /// Whether a scheduler ends it that comes to a point.
    fn is_ended_by(&self, scheduler: u32, point: Point) -> bool
        ensures { IsTrue result ↔ ((self.now.until_scheduler ≡ scheduler) × (self.now.until_point ≡ point)) }
    {
        self.until_scheduler == scheduler && self.until_point == point
    }

    /// Looks at most so many times whether the hold has ended, and yields the thread after each look
    /// in vain. `false` where no look found it ended.
    fn wait(&self, looks: u64) -> bool {
        for _ in 0..looks {
            if self.ended.load(Ordering::SeqCst) {
                return true;
            }
            thread::yield_now();
        }
        false
    }
}

/// A gate with an order: each hold of it stops a scheduler at a point until another scheduler has
/// come to a point. A caller goes on, too, once it has looked a bounded number of times; the hold
/// hasn't ended then, and stops the next caller again.
///
/// A contract knows the order, and how often a caller looks at most in one hold. It knows nothing
/// of who has come where.
#[derive(Drop)]
pub struct HeldGate {
    holds: Vec<Hold>,
    looks: u64,
    ran_out: AtomicBool,
}

impl Model for HeldGate {
    ghost use Rattle.std.specs.Prelude.{map};
    ghost use Rattle.omega_io.specs.Gates.{GateState, hold_of};

    ghost Value = { GateState };

    ghost view = { λ g. record { order = map hold_of g.holds.items; looks = g.looks } };
}

impl HeldGate {
    /// A gate with this order: of four, the first scheduler is held at the first point until the
    /// second scheduler has come to the second point, for at most so many looks. Takes memory for
    /// the order alone.
    pub fn new(
        alloc: Global,
        order: &[(u32, Point, u32, Point)],
        looks: u64,
    ) -> Result<HeldGate, NoMemory>
        ensures order { IfOk result (λ gate. gate.order ≡ order.now) }
        ensures looks { IfOk result (λ gate. gate.looks ≡ looks) }
    {
        let mut holds = Vec::with_capacity(alloc, order.len())?;
        for hold in order {
            holds.push_reserved(Hold::new(*hold));
        }
        Ok(HeldGate {
            holds,
            looks,
            ran_out: AtomicBool::new(false),
        })
    }

    /// Whether some caller has gone on because it had looked as often as it may, without an end of
    /// its hold.
    pub fn ran_out(&self) -> bool {
        self.ran_out.load(Ordering::SeqCst)
    }

    /// Ends the holds that wait for this scheduler at this point.
    fn end(&self, scheduler: u32, point: Point) {
        for hold in &self.holds {
            if hold.is_ended_by(scheduler, point) {
                hold.ended.store(true, Ordering::SeqCst);
            }
        }
    }
}

impl Gate for HeldGate {
    fn at(&self, scheduler: u32, point: Point) {
        self.end(scheduler, point);
        for hold in &self.holds {
            if hold.holds(scheduler, point) && !hold.wait(self.looks) {
                self.ran_out.store(true, Ordering::SeqCst);
            }
        }
    }
}
