//! The requests of an ensemble and of its members.

ghost use Rattle.std.specs.Prelude.{◌≡◌, Ok, IfOk};
ghost use Rattle.plan_request.specs.code.Limits.{IsWithinLimits};
ghost use Rattle.plan_request.specs.Request.{execute_checked};
ghost use Rattle.ensemble.specs.Applying.{of_ensemble, own_request};
ghost use Rattle.ensemble.specs.Limits.{IsFit};

use crate::copying::{executions_copied, policy_copied};
use crate::document::Ensemble;
use plan_request::{PlanRequest, Selector};
use std::alloc::Global;
use values::{Items, Memory, Text};

/// A member's request, with the ensemble's keys in place of its own.
pub fn member_request(
    alloc: Global,
    ensemble: &Ensemble,
    request: PlanRequest,
) -> Result<PlanRequest, Memory>
    requires fit { IsFit ensemble.now }
    requires limits { IsWithinLimits request }
    ensures request { IfOk result (λ r. r ≡ of_ensemble ensemble.now request) }
    ensures sites { IfOk result (λ r. execute_checked r.execute ≡ Ok tt) }
    ensures limits { IfOk result (λ r. IsWithinLimits r) }
{
    let Ok(execute) = executions_copied(alloc, ensemble.execute.as_slice()) else {
        drop(request);
        return Err(Memory);
    };
    let policy = policy_copied(&ensemble.policy);
    Ok(request.with_execution(
        execute,
        ensemble.cluster,
        ensemble.cleanup,
        ensemble.force,
        policy,
    ))
}

/// The request that the ensemble makes by itself.
pub fn ensemble_request(alloc: Global, ensemble: &Ensemble) -> Result<PlanRequest, Memory>
    requires fit { IsFit ensemble.now }
    ensures request { IfOk result (λ r. r ≡ own_request ensemble.now) }
    ensures sites { IfOk result (λ r. execute_checked r.execute ≡ Ok tt) }
    ensures limits { IfOk result (λ r. IsWithinLimits r) }
{
    let execute = executions_copied(alloc, ensemble.execute.as_slice())?;
    Ok(PlanRequest {
        workflow: Text::copy_of(alloc, "")?,
        sites: None,
        replicas: None,
        transformations: None,
        execute,
        sizes: Items::new(Vec::new(alloc)),
        default_size: None,
        cluster: ensemble.cluster,
        cleanup: ensemble.cleanup,
        force: ensemble.force,
        tools: Items::new(Vec::new(alloc)),
        policy: policy_copied(&ensemble.policy),
        selector: Selector::RoundRobin,
        rate: 1,
        runtimes: Items::new(Vec::new(alloc)),
    })
}
