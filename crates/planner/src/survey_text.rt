//! The text of a check.

ghost use Rattle.std.specs.Prelude.{◌≡◌, ◌++◌, List, ℕ, IfOk, OnOk};
ghost use Rattle.std.specs.List.{flat_map};
ghost use Rattle.planner.specs.code.SurveyText.{all_ignored_lines, check_lines, counted_line, directory_line, directory_lines, has_lines, ignored_line, ignored_lines, server_lines, site_line, site_lines, workflow_line};

use crate::document::Document;
use crate::inputs::Survey;
use site_catalog::{Directory, FileServer, SiteEntry};
use std::alloc::Global;
use values::{Memory, Text, Word, push_line};
use workflow_core::Workflow;

#[tactic(auto, unfolding(crate::specs::code::SurveyText::workflow_line))]
fn push_workflow(text: &mut Vec<u8>, workflow: &Workflow) -> Result<(), Memory>
    ensures { OnOk result (text.new.items ≡ text.old.items ++ workflow_line workflow.now) }
{
    let name = Word::Name(workflow.name.as_bytes());
    let jobs = Word::Number(workflow.jobs.as_slice().len() as u64);
    let files = Word::Number(workflow.files.as_slice().len() as u64);
    let pairs = Word::Number(workflow.pairs.as_slice().len() as u64);
    push_line(text, "workflow", &[name, jobs, files, pairs])
}

/// What has lines of its own.
trait Lines {
    ghost lines: { Self → List ℕ };

    fn push(&self, text: &mut Vec<u8>) -> Result<(), Memory>
        ensures { OnOk result (text.new.items ≡ text.old.items ++ lines self.now) };
}

fn push_each<T: Lines>(text: &mut Vec<u8>, all: &[T]) -> Result<(), Memory>
    ensures { OnOk result (text.new.items ≡ text.old.items ++ flat_map T.lines all.now) }
{
    for one in all {
        one.push(text)?;
    }
    Ok(())
}

impl Lines for FileServer {
    ghost lines = { server_lines };

    #[tactic(auto, unfolding(crate::specs::code::SurveyText::server_lines))]
    fn push(&self, text: &mut Vec<u8>) -> Result<(), Memory> {
        let operation = Word::Name(self.operation.as_bytes());
        let url = Word::Name(self.url.as_bytes());
        push_line(text, "server", &[operation, url])
    }
}

fn push_directory(text: &mut Vec<u8>, directory: &Directory) -> Result<(), Memory>
    ensures { OnOk result (text.new.items ≡ text.old.items ++ directory_line directory.now) }
{
    let kind = Word::Name(directory.kind.as_bytes());
    let path = match &directory.path {
        Some(path) => path.as_str(),
        None => "",
    };
    push_line(text, "directory", &[kind, Word::Name(path.as_bytes())])
}

impl Lines for Directory {
    ghost lines = { directory_lines };

    #[tactic(auto, unfolding(crate::specs::code::SurveyText::directory_lines))]
    fn push(&self, text: &mut Vec<u8>) -> Result<(), Memory> {
        push_directory(text, self)?;
        push_each(text, self.servers.as_slice())
    }
}

fn push_site(text: &mut Vec<u8>, site: &SiteEntry) -> Result<(), Memory>
    ensures { OnOk result (text.new.items ≡ text.old.items ++ site_line site.now) }
{
    push_line(text, "site", &[Word::Name(site.name.as_bytes())])
}

impl Lines for SiteEntry {
    ghost lines = { site_lines };

    #[tactic(auto, unfolding(crate::specs::code::SurveyText::site_lines))]
    fn push(&self, text: &mut Vec<u8>) -> Result<(), Memory> {
        push_site(text, self)?;
        push_each(text, self.directories.as_slice())
    }
}

#[tactic(auto, unfolding(crate::specs::code::SurveyText::counted_line))]
fn push_counted(text: &mut Vec<u8>, which: Document, count: u64) -> Result<(), Memory>
    ensures { OnOk result (text.new.items ≡ text.old.items ++ counted_line which count) }
{
    push_line(text, which.word(), &[Word::Number(count)])
}

#[tactic(auto, unfolding(crate::specs::code::SurveyText::ignored_line))]
fn push_ignored(text: &mut Vec<u8>, which: Document, path: &Text) -> Result<(), Memory>
    ensures { OnOk result (text.new.items ≡ text.old.items ++ ignored_line which path.now) }
{
    push_line(
        text,
        "ignored",
        &[Word::Plain(which.word()), Word::Name(path.as_bytes())],
    )
}

fn push_all_ignored(text: &mut Vec<u8>, which: Document, paths: &[Text]) -> Result<(), Memory>
    ensures { OnOk result (text.new.items ≡ text.old.items ++ ignored_lines which paths.now) }
{
    for path in paths {
        push_ignored(text, which, path)?;
    }
    Ok(())
}

fn push_what_is(text: &mut Vec<u8>, survey: &Survey) -> Result<(), Memory>
    ensures { OnOk result (text.new.items ≡ text.old.items ++ has_lines survey.now) }
{
    push_workflow(text, &survey.workflow)?;
    push_each(text, survey.sites.sites.as_slice())?;
    push_counted(text, Document::Replicas, survey.replicas.listed)?;
    let transformations = survey.transformations.entries.as_slice().len() as u64;
    push_counted(text, Document::Transformations, transformations)
}

fn push_what_is_ignored(text: &mut Vec<u8>, survey: &Survey) -> Result<(), Memory>
    ensures { OnOk result (text.new.items ≡ text.old.items ++ all_ignored_lines survey.now) }
{
    let workflow = survey.workflow.ignored.as_slice();
    let sites = survey.sites.ignored.as_slice();
    let replicas = survey.replicas.ignored.as_slice();
    let transformations = survey.transformations.ignored.as_slice();
    push_all_ignored(text, Document::Workflow, workflow)?;
    push_all_ignored(text, Document::Sites, sites)?;
    push_all_ignored(text, Document::Replicas, replicas)?;
    push_all_ignored(text, Document::Transformations, transformations)
}

/// What the documents have, and the paths that aren't acted on.
pub fn check_text(alloc: Global, survey: &Survey) -> Result<Vec<u8>, Memory>
    ensures { IfOk result (λ text. text.items ≡ check_lines survey.now) }
{
    let mut text = Vec::new(alloc);
    push_what_is(&mut text, survey)?;
    push_what_is_ignored(&mut text, survey)?;
    Ok(text)
}
