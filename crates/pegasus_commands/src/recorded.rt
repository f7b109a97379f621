//! The documents of one request, surveyed, with the document of a record.

ghost use Rattle.pegasus_commands.specs.code.Moments.{docs_moment};
ghost use Rattle.pegasus_commands.specs.code.InputSpec.{Comes};
ghost use Rattle.pegasus_commands.specs.code.Recorded.{record_of};

use crate::course::{Requested, WithRecord, fetch_with_record};
use crate::fault::{CallFault, of_plan_fault};
use outside::{Blob, Docs};
use planner::{Surveyed, survey_request};
use std::alloc::Global;

/// A request with a survey of its documents, and the bytes of a record.
#[derive(Drop)]
pub struct Recorded {
    pub surveyed: Surveyed,
    pub bytes: Blob,
}

/// Fetches a request, the documents that it names and a record, and surveys the documents.
pub(crate) fn read_recorded<D: Docs>(
    alloc: Global,
    docs: &mut D,
    name: &str,
    history: &str,
) -> Result<Recorded, CallFault>
    ensures { Comes (record_of name.now history.now) (docs_moment D.Docs docs.old)
        (docs_moment D.Docs docs.new) result }
{
    let given = match fetch_with_record(alloc, docs, name, history) {
        Ok(given) => given,
        Err(fault) => return Err(fault),
    };
    let WithRecord { requested, bytes } = given;
    let Requested { request, documents } = requested;
    let surveyed = survey_request(alloc, request, &documents);
    drop(documents);
    match surveyed {
        Ok(surveyed) => Ok(Recorded { surveyed, bytes }),
        Err(fault) => Err(of_plan_fault(fault)),
    }
}
