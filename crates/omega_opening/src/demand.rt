//! What a trace asks for while its rows are taken.

use omega_feed::{OpenJobs, Wanted};

/// What a trace asks for, and the jobs of which something of that may have to be placed.
///
/// It writes its `Drop` out, so that whoever lets it go cites one function.
pub struct Demand {
    pub wanted: Wanted,
    pub open_jobs: OpenJobs,
}

impl Drop for Demand {
    fn drop(self) {
        let Demand {
            wanted: _,
            open_jobs: _,
        } = self;
    }
}
