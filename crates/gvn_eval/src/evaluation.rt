// What a job does on globals.
ghost use Rattle.std.specs.Prelude.{◌≡◌, ◌≢◌, IfOk};
ghost use Rattle.global_defs.specs.Evaluation as evaluation;
ghost use Rattle.global_defs.specs.Jobs.{SeqLimit};
ghost use Rattle.gvn_model.specs.Jobs.{job_value, evaluated_value};

use super::progress::{Progress, Stop};
use super::sets::{may_set_all, moved_updates, only_sets};
use gvn_globals::Lookup;
use gvn_key::NoMemory;
use gvn_model::{Answers, Evaluated, Job, Origin};
use std::alloc::Global;

/// What the job does on these globals, one statement after another.
fn by_steps<G: Lookup>(alloc: Global, job: &Job, on: &G) -> Result<Evaluated, NoMemory>
    ensures value { IfOk result (λ made. evaluated_value made ≡ evaluation.eval (job_value job.now) (G.seen on.now)) }
    ensures never { IfOk result (λ made. evaluated_value made ≢ evaluation.RolledBack SeqLimit) }
{
    let mut progress = Progress::new(alloc, on);
    for statement in job.statements.as_slice() {
        match progress.step(statement) {
            Ok(()) => {}
            Err(Stop::NoMemory) => return Err(NoMemory),
            Err(Stop::RolledBack(cause)) => return Ok(Evaluated::RolledBack(cause)),
        }
    }
    let (updates, answers) = progress.into_parts();
    Ok(Evaluated::Done { updates, answers })
}

/// What the job does on these globals: its statements in order, each on what the earlier ones have left, or the cause of the
/// first that has one. The globals stay as they are. Whose job it is makes no difference yet. It is never
/// [`Cause::SeqLimit`](gvn_model::Cause::SeqLimit).
pub fn eval<G: Lookup>(
    alloc: Global,
    job: &Job,
    _origin: Origin,
    on: &G,
) -> Result<Evaluated, NoMemory>
    ensures value { IfOk result (λ made. evaluated_value made ≡ evaluation.eval (job_value job.now) (G.seen on.now)) }
    ensures never { IfOk result (λ made. evaluated_value made ≢ evaluation.RolledBack SeqLimit) }
{
    let answers = Answers::new(alloc);
    match only_sets(alloc, job.statements.as_slice(), on)? {
        Some(updates) => Ok(Evaluated::Done { updates, answers }),
        None => by_steps(alloc, job, on),
    }
}

/// What [`eval`] answers, of a job that is no more of use: where it only sets nodes its keys and values go into the updates, and none is
/// copied.
pub fn eval_owned<G: Lookup>(
    alloc: Global,
    job: Job,
    _origin: Origin,
    on: &G,
) -> Result<Evaluated, NoMemory>
    ensures value { IfOk result (λ made. evaluated_value made ≡ evaluation.eval (job_value job) (G.seen on.now)) }
    ensures never { IfOk result (λ made. evaluated_value made ≢ evaluation.RolledBack SeqLimit) }
{
    if !may_set_all(job.statements.as_slice(), on) {
        return by_steps(alloc, &job, on);
    }
    let updates = moved_updates(alloc, job.statements.into_items())?;
    let answers = Answers::new(alloc);
    Ok(Evaluated::Done { updates, answers })
}
