//! What a plan keeps of what the documents say.

ghost use Rattle.std.specs.Prelude.{ℕ};
ghost use Rattle.plan_request.specs.declared.request.PlanRequest.{PlanRequest};
ghost use Rattle.plan_core.specs.declared.plan.Plan.{Plan};
ghost use Rattle.planner.specs.code.Deliveries.{DeliversRequests};
ghost use Rattle.planner.specs.declared.inputs.Survey.{Survey};
ghost use Rattle.planner.specs.code.Planning.{IsPlanOf};

/// The plan of what documents say has the request's policy and the workflow's names, and delivers what is requested.
pub fn plans_deliver_requests()
    ensures { (r : PlanRequest) (s : Survey) (limit : ℕ) (p : Plan) → IsPlanOf r s limit p
        → DeliversRequests r s p }
{}
