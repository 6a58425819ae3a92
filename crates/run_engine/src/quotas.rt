//! How many entries and pushes each part of a run may make.

ghost use Rattle.std.specs.Prelude.{◌≡◌, ◌≤◌, length, All, IfOk};
ghost use Rattle.kmem_model.specs.History.{commands_of};
ghost use Rattle.run_engine.specs.Quotas.{IsInPlan, command_counts, cache_quotas};

use crate::plan::RunPlan;
use kmem_text::Line;
use std::alloc::{AllocError, Global};

/// How many commands each worker has.
pub fn command_counts(alloc: Global, lines: &[Line], workers: u32) -> Result<Vec<u32>, AllocError>
    requires few { length lines.now ≤ 100000 }
    requires workers { workers ≤ 16 }
    ensures { IfOk result (λ counts. counts.items ≡ command_counts workers lines.now) }
{
    let mut counts = Vec::with_capacity(alloc, workers as usize)?;
    for worker in 0..workers {
        counts.push(count_of(lines, worker + 1))?;
    }
    Ok(counts)
}

// How many commands a worker has.
fn count_of(lines: &[Line], worker: u32) -> u32
    requires { length lines.now ≤ 100000 }
    ensures count { result ≡ length (commands_of worker lines.now) }
    ensures few { result ≤ 100000 }
{
    let mut count = 0;
    for line in lines {
        if line.worker == worker {
            count += 1;
        }
    }
    count
}

/// How many entries of the cache's history each worker may make, and then each mover.
pub fn cache_quotas(alloc: Global, plan: &RunPlan, counts: &[u32]) -> Result<Vec<u32>, AllocError>
    requires plan { IsInPlan plan.now }
    requires few { All (λ n. n ≤ 100000) counts.now }
    requires many { length counts.now ≤ 16 }
    ensures { IfOk result (λ quotas. quotas.items ≡ cache_quotas plan.now counts.now) }
{
    let mut quotas = Vec::with_capacity(alloc, counts.len() + 2)?;
    for count in counts {
        quotas.push(2 * *count)?;
    }
    let mover = 194 * plan.scans + 16 * plan.workers;
    quotas.push(mover)?;
    quotas.push(mover)?;
    Ok(quotas)
}
