//! What is left of a world whose run is over.

use crate::worker::Worker;
use omega_board::Board;
use omega_opening::Demand;
use omega_plan::Indexes;

/// What is left of a world once its run is taken: nobody looks at it any more. To let it go costs the trees of the
/// running tasks and these, and the tasks of the trace, so a program that ends need not do it.
///
/// It writes its `Drop` out, so that whoever lets it go cites one function.
pub struct Remains {
    pub(crate) board: Board,
    pub(crate) demand: Demand,
    pub(crate) workers: Vec<Worker>,
    pub(crate) indexes: Indexes,
}

impl Drop for Remains {
    fn drop(self) {
        let Remains {
            board: _,
            demand: _,
            workers: _,
            indexes: _,
        } = self;
    }
}
