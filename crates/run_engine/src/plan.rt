//! What a run is asked for, and what each of its movers is.

ghost use Rattle.std.specs.Prelude.{◌≡◌};
ghost use Rattle.run_engine.specs.Quotas.{IsInPlan, first_plan, second_plan};

use consolidator::MoverPlan;

/// A run of so many workers and scans, over so many slabs of so many buffers.
#[derive(Clone, Copy, Debug, PartialEq, Eq)]
pub struct RunPlan {
    pub slabs: u32,
    pub chunks: u32,
    pub workers: u32,
    pub scans: u32,
    pub desperate: bool,
}

/// The first mover makes the odd scans, and reaps full magazines before its last.
pub fn first_plan(plan: &RunPlan) -> MoverPlan
    requires { IsInPlan plan.now }
    ensures { result ≡ first_plan plan.now }
{
    MoverPlan {
        mover: plan.workers + 1,
        first: 1,
        scans: (plan.scans + 1) / 2,
        desperate: plan.desperate,
        reaps: true,
    }
}

/// The second mover makes the even scans.
pub fn second_plan(plan: &RunPlan) -> MoverPlan
    requires { IsInPlan plan.now }
    ensures { result ≡ second_plan plan.now }
{
    MoverPlan {
        mover: plan.workers + 2,
        first: 2,
        scans: plan.scans / 2,
        desperate: plan.desperate,
        reaps: false,
    }
}
