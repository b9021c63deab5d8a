//! Where the checkpoints of a plan stand.

ghost use Rattle.std.specs.Prelude.{◌≡◌, ◌<◌, ◌≤◌, ◌^◌};
ghost use Rattle.rec_format.specs.Recorded.{recorded_count};

use crate::plan::Plan;

/// How many instructions were done at checkpoint `k`, of those from 1 on.
pub fn recorded_count(plan: &Plan, k: u32) -> u64
    requires { 0 < k }
    ensures count { result ≡ recorded_count plan.now.checkpoints.rec k }
    ensures few { result ≤ 2 ^ 40 }
{
    plan.checkpoints.checkpoint(k).count
}
