//! What the documents of a request say, and the graph of their workflow.

ghost use Rattle.std.specs.Prelude.{◌≡◌, List, ℕ, [], map, option_map, IfOk};
ghost use Rattle.std.specs.List.{list_any};
ghost use Rattle.std.specs.Str.{bytes_eq};
ghost use Rattle.workflow_core.specs.View.{workflow_view};
ghost use Rattle.workflow_core.specs.code.WellFormed.{IsWellFormed};
ghost use Rattle.workflow_reader.specs.Linking.{workflow_from_text as workflow_of};
ghost use Rattle.workflow_reader.specs.code.Unknown.{unknown_in_text as unknown_in_workflow};
ghost use Rattle.site_catalog.specs.Catalog.{names_of, site_view};
ghost use Rattle.site_catalog.specs.declared.catalog.SiteEntry.{SiteEntry};
ghost use Rattle.replica_catalog.specs.Catalog.{replica_view};
ghost use Rattle.transformation_catalog.specs.Catalog.{transformation_view};
ghost use Rattle.planner.specs.code.Catalogue.{IsListing};
ghost use Rattle.planner.specs.code.PlanFault.{GivesPlan};
ghost use Rattle.planner.specs.code.Course as defined;
ghost use Rattle.planner.specs.declared.document.Document.TheVariants as documents;

use crate::catalogue::held;
use crate::document::Document;
use crate::inputs::Survey;
use crate::plan_fault::{PlanFault, of_read_fault};
use dependency_graph::build;
use plan_request::{Execution, PlanRequest};
use replica_catalog::ReplicaCatalog;
use site_catalog::{SiteCatalog, SiteEntry};
use std::alloc::Global;
use transformation_catalog::TransformationCatalog;
use values::{Blob, Documents, Text};
use workflow_core::Workflow;

fn workflow_in(alloc: Global, document: &Blob) -> Result<Workflow, PlanFault>
    ensures answer { GivesPlan workflow_view result (defined.workflow_in document.now) }
    ensures listed { IfOk result (λ w. IsListing (unknown_in_workflow document.now) w.ignored) }
    ensures well_formed { IfOk result (λ w. IsWellFormed w) }
{
    match workflow_reader::read(alloc, document.as_slice()) {
        Ok(workflow) => Ok(workflow),
        Err(fault) => Err(of_read_fault(Document::Workflow, fault)),
    }
}

fn sites_in(
    alloc: Global,
    documents: &Documents,
    workflow: &Workflow,
) -> Result<SiteCatalog, PlanFault>
    ensures answer { GivesPlan site_view result
        (defined.sites_in documents.now (workflow_view workflow.now)) }
    ensures listed { IfOk result
        (λ c. IsListing (defined.unknown_in_sites documents.now (workflow_view workflow.now)) c.ignored) }
{
    let inlined = &workflow.inlined.sites;
    let found = held(
        alloc,
        Document::Sites,
        "siteCatalog",
        &documents.sites,
        inlined,
    )?;
    match found {
        Some(catalogue) => Ok(catalogue),
        None => Err(PlanFault::NoCatalogue(Document::Sites)),
    }
}

fn replicas_in(
    alloc: Global,
    documents: &Documents,
    workflow: &Workflow,
) -> Result<ReplicaCatalog, PlanFault>
    ensures answer { GivesPlan replica_view result
        (defined.replicas_in documents.now (workflow_view workflow.now)) }
    ensures listed { IfOk result
        (λ c. IsListing (defined.unknown_in_replicas documents.now (workflow_view workflow.now)) c.ignored) }
{
    let inlined = &workflow.inlined.replicas;
    let found = held(
        alloc,
        Document::Replicas,
        "replicaCatalog",
        &documents.replicas,
        inlined,
    )?;
    match found {
        Some(catalogue) => Ok(catalogue),
        None => Ok(ReplicaCatalog::empty(alloc)),
    }
}

fn transformations_in(
    alloc: Global,
    documents: &Documents,
    workflow: &Workflow,
) -> Result<TransformationCatalog, PlanFault>
    ensures answer { GivesPlan transformation_view result
        (defined.transformations_in documents.now (workflow_view workflow.now)) }
    ensures listed { IfOk result
        (λ c. IsListing (defined.unknown_in_transformations documents.now
        (workflow_view workflow.now)) c.ignored) }
{
    let named = &documents.transformations;
    let inlined = &workflow.inlined.transformations;
    let found = held(
        alloc,
        Document::Transformations,
        "transformationCatalog",
        named,
        inlined,
    )?;
    match found {
        Some(catalogue) => Ok(catalogue),
        None => Err(PlanFault::NoCatalogue(Document::Transformations)),
    }
}

fn is_listed(sites: &[SiteEntry], name: &Text) -> bool
    ensures { result ≡ list_any (bytes_eq name.now) (names_of sites.now) }
{
    for site in sites {
        if name.as_str() == site.name.as_str() {
            return true;
        }
    }
    false
}

/// Refuses an execution site that the catalogue doesn't list.
fn check_execution_sites(
    alloc: Global,
    sites: &[SiteEntry],
    execute: &[Execution],
) -> Result<(), PlanFault>
    ensures { GivesPlan (λ u. u) result (defined.all_listed sites.now execute.now) }
{
    for execution in execute {
        if !is_listed(sites, &execution.site) {
            return Err(PlanFault::UnknownSite(execution.site.copied(alloc)?));
        }
    }
    Ok(())
}

/// What the documents say.
#[derive(Drop)]
struct ReadDocuments {
    workflow: Workflow,
    sites: SiteCatalog,
    replicas: ReplicaCatalog,
    transformations: TransformationCatalog,
}

/// Reads the documents of a request, the workflow first.
#[tactic(auto, unfolding(crate::specs::code::Course::surveyed))]
fn read_documents(
    alloc: Global,
    request: &PlanRequest,
    documents: &Documents,
) -> Result<ReadDocuments, PlanFault>
    ensures answer { GivesPlan (λ d. defined.said_by d.workflow d.sites d.replicas d.transformations) result
        (defined.surveyed request.now documents.now) }
    ensures ignored { IfOk result
        (λ d. defined.ListsIgnored documents.now d.workflow d.sites d.replicas d.transformations) }
    ensures well_formed { IfOk result (λ d. IsWellFormed d.workflow) }
{
    let workflow = workflow_in(alloc, &documents.workflow)?;
    let sites = match sites_in(alloc, documents, &workflow) {
        Ok(sites) => sites,
        Err(fault) => {
            drop(workflow);
            return Err(fault);
        }
    };
    let replicas = match replicas_in(alloc, documents, &workflow) {
        Ok(replicas) => replicas,
        Err(fault) => {
            drop(sites);
            drop(workflow);
            return Err(fault);
        }
    };
    let transformations = match transformations_in(alloc, documents, &workflow) {
        Ok(transformations) => transformations,
        Err(fault) => {
            drop(replicas);
            drop(sites);
            drop(workflow);
            return Err(fault);
        }
    };
    let read = ReadDocuments {
        workflow,
        sites,
        replicas,
        transformations,
    };
    match check_execution_sites(
        alloc,
        read.sites.sites.as_slice(),
        request.execute.as_slice(),
    ) {
        Ok(()) => Ok(read),
        Err(fault) => {
            drop(read);
            Err(fault)
        }
    }
}

/// Reads the documents of a request and builds the graph of their workflow.
#[tactic(auto, using(crate::proofs::CourseLemmas::refuses_read))]
pub fn survey(
    alloc: Global,
    request: &PlanRequest,
    documents: &Documents,
) -> Result<Survey, PlanFault>
    ensures answer { defined.Surveys request.now documents.now result }
    ensures well_formed { IfOk result (λ s. IsWellFormed s.workflow) }
{
    let read = match read_documents(alloc, request, documents) {
        Ok(read) => read,
        Err(fault) => return Err(fault),
    };
    match build(alloc, &read.workflow) {
        Ok(graph) => Ok(Survey {
            workflow: read.workflow,
            sites: read.sites,
            replicas: read.replicas,
            transformations: read.transformations,
            graph,
        }),
        Err(fault) => {
            drop(read);
            Err(PlanFault::from(fault))
        }
    }
}
