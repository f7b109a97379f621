//! The documents of a call, fetched one after the other.

ghost use Rattle.std.specs.Prelude.{◌≡◌, IfOk, Ok, Err};
ghost use Rattle.plan_request.specs.code.Limits.{IsWithinLimits};
ghost use Rattle.plan_request.specs.Request.{execute_checked};
ghost use Rattle.pegasus_commands.specs.code.Course.{ButMemory, IsStep, all_documents, doc_answer, document, documents, documents_with, if_named, named_documents, request_in_bytes, with_record};
ghost use Rattle.pegasus_commands.specs.code.Moments.{docs_moment};

use crate::fault::{CallFault, of_plan_fault};
use outside::{Blob, DocFault, Docs, Documents, Text};
use plan_request::PlanRequest;
use planner::{Document, of_read_fault};
use std::alloc::Global;

/// The longest document, in bytes.
const DOCUMENT_LIMIT: u64 = 33_554_432;

/// A request, and the documents that it names.
#[derive(Drop)]
pub struct Requested {
    pub request: PlanRequest,
    pub documents: Documents,
}

/// A request with its documents, and the document of a record.
#[derive(Drop)]
pub struct WithRecord {
    pub requested: Requested,
    pub bytes: Blob,
}

fn of_doc_fault(alloc: Global, name: &str, fault: DocFault) -> CallFault
    ensures { ButMemory {A = Unit {0}} (Err result) (result ≡ doc_answer name.now fault) }
{
    let Ok(name) = Text::copy_of(alloc, name) else {
        return CallFault::Memory;
    };
    match fault {
        DocFault::Absent => CallFault::DocAbsent(name),
        DocFault::Failed => CallFault::DocFailed(name),
        DocFault::TooLong(limit) => CallFault::DocTooLong(name, limit),
        DocFault::Memory => CallFault::Memory,
    }
}

/// Fetches the document of a name.
pub(crate) fn fetch<D: Docs>(alloc: Global, docs: &mut D, name: &str) -> Result<Blob, CallFault>
    ensures { IsStep (document name.now Ok) (docs_moment D.Docs docs.old)
        (docs_moment D.Docs docs.new) result }
{
    let mut bytes = Vec::new(alloc);
    match docs.fetch(alloc, name, DOCUMENT_LIMIT, &mut bytes) {
        Ok(()) => Ok(Blob::new(bytes)),
        Err(fault) => Err(of_doc_fault(alloc, name, fault)),
    }
}

fn fetch_if_named<D: Docs>(
    alloc: Global,
    docs: &mut D,
    name: &Option<Text>,
) -> Result<Option<Blob>, CallFault>
    ensures { IsStep (if_named name.now) (docs_moment D.Docs docs.old) (docs_moment D.Docs docs.new) result }
{
    let Some(name) = name else {
        return Ok(None);
    };
    match fetch(alloc, docs, name.as_str()) {
        Ok(bytes) => Ok(Some(bytes)),
        Err(fault) => Err(fault),
    }
}

/// The request that a document's bytes say.
fn request_in(alloc: Global, bytes: &Blob) -> Result<PlanRequest, CallFault>
    ensures answer { ButMemory result (result ≡ request_in_bytes bytes.now) }
    ensures sites { IfOk result (λ r. execute_checked r.execute ≡ Ok tt) }
    ensures limits { IfOk result (λ r. IsWithinLimits r) }
{
    match plan_request::read(alloc, bytes.as_slice()) {
        Ok(request) => Ok(request),
        Err(fault) => Err(of_plan_fault(of_read_fault(Document::Request, fault))),
    }
}

fn fetch_request<D: Docs>(alloc: Global, docs: &mut D, name: &str) -> Result<PlanRequest, CallFault>
    ensures answer { IsStep (document name.now request_in_bytes) (docs_moment D.Docs docs.old)
        (docs_moment D.Docs docs.new) result }
    ensures sites { IfOk result (λ r. execute_checked r.execute ≡ Ok tt) }
    ensures limits { IfOk result (λ r. IsWithinLimits r) }
{
    match fetch(alloc, docs, name) {
        Ok(bytes) => request_in(alloc, &bytes),
        Err(fault) => Err(fault),
    }
}

/// Fetches the documents that a request names.
fn fetch_all<D: Docs>(
    alloc: Global,
    docs: &mut D,
    request: &PlanRequest,
) -> Result<Documents, CallFault>
    ensures { IsStep (all_documents request.now) (docs_moment D.Docs docs.old)
        (docs_moment D.Docs docs.new) result }
{
    let workflow = match fetch(alloc, docs, request.workflow.as_str()) {
        Ok(workflow) => workflow,
        Err(fault) => return Err(fault),
    };
    let sites = match fetch_if_named(alloc, docs, &request.sites) {
        Ok(sites) => sites,
        Err(fault) => return Err(fault),
    };
    let replicas = match fetch_if_named(alloc, docs, &request.replicas) {
        Ok(replicas) => replicas,
        Err(fault) => return Err(fault),
    };
    match fetch_if_named(alloc, docs, &request.transformations) {
        Ok(transformations) => Ok(Documents {
            workflow,
            sites,
            replicas,
            transformations,
        }),
        Err(fault) => Err(fault),
    }
}

/// Fetches the documents that a request names, and puts them beside it.
fn fetch_named<D: Docs>(
    alloc: Global,
    docs: &mut D,
    request: PlanRequest,
) -> Result<Requested, CallFault>
    ensures answer { IsStep (named_documents request) (docs_moment D.Docs docs.old)
        (docs_moment D.Docs docs.new) result }
    ensures request { IfOk result (λ r. r.request ≡ request) }
{
    match fetch_all(alloc, docs, &request) {
        Ok(documents) => Ok(Requested { request, documents }),
        Err(fault) => {
            drop(request);
            Err(fault)
        }
    }
}

/// Fetches and reads a request, and fetches the documents that it names.
pub(crate) fn fetch_documents<D: Docs>(
    alloc: Global,
    docs: &mut D,
    name: &str,
) -> Result<Requested, CallFault>
    ensures answer { IsStep (documents name.now) (docs_moment D.Docs docs.old)
        (docs_moment D.Docs docs.new) result }
    ensures sites { IfOk result (λ r. execute_checked r.request.execute ≡ Ok tt) }
    ensures limits { IfOk result (λ r. IsWithinLimits r.request) }
{
    match fetch_request(alloc, docs, name) {
        Ok(request) => fetch_named(alloc, docs, request),
        Err(fault) => Err(fault),
    }
}

/// Fetches the document of a record.
fn fetch_record<D: Docs>(
    alloc: Global,
    docs: &mut D,
    name: &str,
    requested: Requested,
) -> Result<WithRecord, CallFault>
    ensures answer { IsStep (with_record name.now requested) (docs_moment D.Docs docs.old)
        (docs_moment D.Docs docs.new) result }
    ensures requested { IfOk result (λ r. r.requested ≡ requested) }
{
    match fetch(alloc, docs, name) {
        Ok(bytes) => Ok(WithRecord { requested, bytes }),
        Err(fault) => {
            drop(requested);
            Err(fault)
        }
    }
}

/// Fetches a request, the documents that it names, and the document of a record.
pub(crate) fn fetch_with_record<D: Docs>(
    alloc: Global,
    docs: &mut D,
    name: &str,
    history: &str,
) -> Result<WithRecord, CallFault>
    ensures answer { IsStep (documents_with name.now history.now) (docs_moment D.Docs docs.old)
        (docs_moment D.Docs docs.new) result }
    ensures sites { IfOk result (λ r. execute_checked r.requested.request.execute ≡ Ok tt) }
    ensures limits { IfOk result (λ r. IsWithinLimits r.requested.request) }
{
    match fetch_documents(alloc, docs, name) {
        Ok(requested) => fetch_record(alloc, docs, history, requested),
        Err(fault) => Err(fault),
    }
}
