//! The documents of one request, surveyed.

ghost use Rattle.pegasus_commands.specs.code.Moments.{docs_moment};
ghost use Rattle.pegasus_commands.specs.code.InputSpec.{Comes};
ghost use Rattle.pegasus_commands.specs.code.Survey.{survey_of};

use crate::course::{Requested, fetch_documents};
use crate::fault::{CallFault, of_plan_fault};
use outside::Docs;
use planner::{Surveyed, survey_request};
use std::alloc::Global;

/// Fetches a request and the documents that it names, and surveys them.
pub(crate) fn read_survey<D: Docs>(
    alloc: Global,
    docs: &mut D,
    name: &str,
) -> Result<Surveyed, CallFault>
    ensures { Comes (survey_of name.now) (docs_moment D.Docs docs.old) (docs_moment D.Docs docs.new) result }
{
    let requested = match fetch_documents(alloc, docs, name) {
        Ok(requested) => requested,
        Err(fault) => return Err(fault),
    };
    let Requested { request, documents } = requested;
    let surveyed = survey_request(alloc, request, &documents);
    drop(documents);
    match surveyed {
        Ok(surveyed) => Ok(surveyed),
        Err(fault) => Err(of_plan_fault(fault)),
    }
}
