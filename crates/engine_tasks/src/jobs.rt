//! Jobs, each on a thread of its own where one can be made.
ghost use Rattle.std.specs.Prelude.{◌≡◌, ◌<◌, ℕ, All, IfOk, length, slice_index_or};

use std::alloc::AllocError;
use std::sync::Wait;
use std::thread;
use std::thread::Threads;

/// What does jobs.
pub(crate) trait Worker<J, D> {
    ghost use Rattle.std.specs.Prelude.{ℕ};

    ghost ready: { Self → J → Type 0 };

    ghost done: { Self → J → D → Type 0 };

    /// Does a job, and says what came of it.
    fn work<R: Wait>(&self, rt: &R, job: J) -> D
        requires { ready self.now job }
        ensures { done self.now job result };
}

/// Does all jobs, each on a thread of its own where one can be made, and says what came of each, in order. All have
/// ended when it returns. The one error is want of memory, where some may not have begun.
pub(crate) fn run_jobs<
    J: Send + Drop,
    D: Send + Drop,
    W: Worker<J, D> + Sync,
    R: Threads + Wait + Sync,
>(rt: &R, worker: &W, jobs: Vec<J>) -> Result<Vec<D>, AllocError>
    requires ready { All (λ j. W.ready worker.now j) jobs.items }
    ensures count { IfOk result (λ all. length all.items ≡ length jobs.items) }
    ensures done { IfOk result (λ all. (k : ℕ) (j : J) (d : D) → k < length jobs.items
        → W.done worker.now (slice_index_or jobs.items k j) (slice_index_or all.items k d)) }
{
    thread::map_vec(rt, jobs, &|job| worker.work(rt, job))
}
