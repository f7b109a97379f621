//! How a run goes on where a task fails or waits.

ghost use Rattle.std.specs.Prelude.{◌≡◌, ◌≤◌, IfSome};
ghost use Rattle.serde_json.specs.View.{view as tree_view};
ghost use Rattle.peg_json.specs.code.Tree.{Gives};
ghost use Rattle.plan_request.specs.Request.{policy_of};

use peg_json::{TreeFault, row};
use serde_json::Value;
use std::alloc::Global;
use values::{Policy, Text};

/// The policy by the keys `retries`, `fresh` and `output_bound` of a request or an ensemble.
#[tactic(auto, unfolding(crate::specs::Request::policy_of))]
pub fn policy(alloc: Global, value: &Value, path: &Text) -> Result<Policy, TreeFault>
    ensures { Gives (λ p. p) result (policy_of path.now (tree_view value.now)) }
{
    let retries = row!(alloc, value, path, "retries", optional Number up to 10);
    let fresh = row!(alloc, value, path, "fresh", optional Flag);
    let output = row!(alloc, value, path, "output_bound", optional Number up to 1 << 60);
    Ok(Policy {
        retries: retries.unwrap_or(0) as u32,
        fresh: fresh.unwrap_or(false),
        output,
    })
}
