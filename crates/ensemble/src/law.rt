//! What the joint of some members means.

ghost use Rattle.std.specs.Prelude.{◌≡◌, List, false};
ghost use Rattle.values.specs.declared.documents.Documents.{Documents};
ghost use Rattle.workflow_core.specs.declared.workflow.Workflow.{Workflow};
ghost use Rattle.dependency_graph.specs.Graph.{IsSound};
ghost use Rattle.plan_request.specs.declared.request.PlanRequest.{PlanRequest};
ghost use Rattle.planner.specs.code.Course.{IsSurvey};
ghost use Rattle.planner.specs.declared.surveyed.Surveyed.{Surveyed};
ghost use Rattle.ensemble.specs.declared.member.Member.{Member};
ghost use Rattle.ensemble.specs.Joining.{IsJoint};
ghost use Rattle.ensemble.specs.Law.{MeansMembers};
ghost use Rattle.ensemble.specs.Member.{AreMembers, IsMember};
ghost use Rattle.ensemble.specs.MemberEntry.{has_slash};
ghost use Rattle.ensemble.specs.Workflows.{IsJointWorkflow};

use dependency_graph::value_is_determined;
use workflow_core::names_are_numbered;

/// A member whose request was surveyed is what is asked of members.
pub fn surveyed_members_are_members()
    ensures { (m : Member) (s : Surveyed) (d : Documents) → has_slash m.name ≡ false
        → m.request ≡ s.request → m.survey ≡ s.survey → IsSurvey s.request d s.survey → IsMember m }
{}

/// The joint workflow of members is sound, as each member's is.
pub fn joint_workflows_are_sound()
    ensures { (ms : List Member) (w : Workflow)
        → AreMembers ms → IsJointWorkflow ms w → IsSound w }
{}

/// What the joint says of `m/f` is what member m says of f by its own documents alone.
pub fn joint_means_the_members()
    ensures { (ms : List Member) (r : PlanRequest) (s : Surveyed)
        → AreMembers ms → IsJoint ms r s → MeansMembers ms s }
{
    // Laws for the proof: they do nothing.
    names_are_numbered();
    value_is_determined();
}
