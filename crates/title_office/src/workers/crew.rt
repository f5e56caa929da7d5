//! The threads of the workers.

ghost use Rattle.std.specs.Prelude.{◌≡◌, ◌≤◌, IfSome, [], map, vec_capacity, vec_len};
ghost use Rattle.title_office.specs.Turns.{HaveRun, report_of};

use crate::gate::Gate;
use crate::workers::Worked;
use crate::workers::bench::Bench;
use crate::workers::job::Job;
use crate::workers::jobs::Jobs;
use crate::workers::pledge::Pledge;
use std::sync::Wait;
use std::thread;
use std::thread::{PromisedHandle, Scope, Threads};
use title_ledger::Room;

/// Runs each job by a thread of its own, and answers once all have ended, in the order of the jobs.
pub(crate) fn run_threads<B: Room + Send + Sync, R: Threads + Wait + Sync, G: Gate + Sync>(
    bench: &Bench<'_, B, R, G>,
    tries: u32,
    jobs: Jobs<B>,
    worked: Vec<Worked<B>>,
) -> Vec<Worked<B>>
    requires empty { worked.items ≡ [] }
    requires room { vec_len jobs.scripts ≤ vec_capacity worked }
    ensures run { HaveRun B.setting jobs.scripts.items (map report_of result.items) }
{
    thread::scope(
        thread::scope_env(),
        bench.rt,
        move |scope| -> Vec<Worked<B>>
            requires { (worked.items ≡ []) × (vec_len jobs.scripts ≤ vec_capacity worked) }
            ensures { HaveRun B.setting jobs.scripts.items (map report_of result.items) }
        { run_jobs(scope, bench, tries, jobs, worked) },
    )
}

// The last job is started first, and its answer is waited for last.
fn run_jobs<'s, 'e: 's, B: Room + Send + Sync, R: Threads + Wait + Sync, G: Gate + Sync>(
    scope: &Scope<'s, &'e ()>,
    bench: &'e Bench<'e, B, R, G>,
    tries: u32,
    mut jobs: Jobs<B>,
    worked: Vec<Worked<B>>,
) -> Vec<Worked<B>>
    requires empty { worked.items ≡ [] }
    requires room { vec_len jobs.scripts ≤ vec_capacity worked }
    ensures run { HaveRun B.setting jobs.scripts.items (map report_of result.items) }
    ensures len { vec_len result ≡ vec_len jobs.scripts }
    ensures room { vec_capacity result ≡ vec_capacity worked }
{
    let Some(job) = jobs.pop() else {
        return worked;
    };
    let pledge = job.pledge();
    let started = start(scope, bench, tries, job);
    let mut worked = run_jobs(scope, bench, tries, jobs, worked);
    worked.push_reserved(pledge.answer(bench.rt, bench.alloc, started));
    worked
}

// `None` where no thread can be made; the job is lost then.
fn start<'s, 'e: 's, B: Room + Send + Sync, R: Threads + Wait + Sync, G: Gate + Sync>(
    scope: &Scope<'s, &'e ()>,
    bench: &'e Bench<'e, B, R, G>,
    tries: u32,
    job: Job<B>,
) -> Option<PromisedHandle<Worked<B>, Pledge>>
    ensures script { IfSome result (λ handle. handle.promise.script.value ≡ job.script) }
{
    let pledge = job.pledge();
    match scope.spawn_with(pledge, move || bench.run(job, tries)) {
        Ok(handle) => Some(handle),
        Err(_) => None,
    }
}
