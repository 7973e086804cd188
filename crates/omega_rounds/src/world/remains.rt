//! What is left of a world whose run is over.

use super::course::Course;
use omega_board::Board;
use omega_plan::Indexes;
use omega_workers::Worker;

/// What is left of a world once its history is taken: nobody looks at it any more. To let it go costs the trees of
/// the running tasks and these, the rows of the events and the tasks of the trace, so a program that ends need not
/// do it.
///
/// It writes its `Drop` out, so that whoever lets it go cites one function.
pub struct Remains {
    pub(super) board: Board,
    pub(super) course: Course,
    pub(super) workers: Vec<Worker>,
    pub(super) indexes: Vec<Indexes>,
}

impl Drop for Remains {
    fn drop(self) {
        let Remains {
            board: _,
            course: _,
            workers: _,
            indexes: _,
        } = self;
    }
}
