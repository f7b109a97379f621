//! The reader of whole requests.

ghost use Rattle.std.specs.Prelude.{◌≡◌, Ok, IfOk};
ghost use Rattle.peg_json.specs.code.ReadFault.{GivesRead};
ghost use Rattle.plan_request.specs.code.Limits.{IsWithinLimits};
ghost use Rattle.plan_request.specs.Request.{execute_checked, sites_distinct, request_from_text};

use crate::request::{Execution, PlanRequest};
use peg_json::{FromTree, ReadFault, check_sites, parse, root};
use std::alloc::Global;
use values::Text;

/// Refuses too many execution sites, and one that is there before.
#[tactic(auto, unfolding(crate::specs::Request::execute_checked))]
fn check_execute(alloc: Global, execute: &[Execution]) -> Result<(), ReadFault>
    ensures { GivesRead (λ u. u) result (execute_checked execute.now) }
{
    check_sites(alloc, execute)
}

fn with_distinct_sites(alloc: Global, request: PlanRequest) -> Result<PlanRequest, ReadFault>
    ensures answer { GivesRead (λ r. r) result (sites_distinct request) }
    ensures request { IfOk result (λ r. r ≡ request) }
    ensures sites { IfOk result (λ r. execute_checked r.execute ≡ Ok tt) }
{
    check_execute(alloc, request.execute.as_slice())?;
    Ok(request)
}

/// Reads a request of at most 64 execution sites. A key that is in no table is a fault.
#[tactic(auto, unfolding(crate::specs::Request::request_from_text), using(crate::proofs::LimitsLemmas::request_small))]
pub fn read(alloc: Global, bytes: &[u8]) -> Result<PlanRequest, ReadFault>
    ensures answer { GivesRead (λ r. r) result (request_from_text bytes.now) }
    ensures sites { IfOk result (λ r. execute_checked r.execute ≡ Ok tt) }
    ensures limits { IfOk result (λ r. IsWithinLimits r) }
{
    let value = parse(alloc, bytes)?;
    let start = root(alloc)?;
    let request = PlanRequest::from_tree(alloc, &value, &start)?;
    let request = with_distinct_sites(alloc, request)?;
    Ok(request)
}
