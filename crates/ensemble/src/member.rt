//! The members of an ensemble.

use plan_request::PlanRequest;
use planner::Survey;
use values::Text;

/// A member: its name, its request with the ensemble's keys, and what the documents of that say.
#[derive(Drop)]
pub struct Member {
    pub name: Text,
    pub request: PlanRequest,
    pub survey: Survey,
}
