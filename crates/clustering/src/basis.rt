//! What jobs are clustered by.

ghost use Rattle.std.specs.Prelude.{◌≡◌, ◌<◌, IfOk, IfSome, option_map};
ghost use Rattle.dependency_graph.specs.Levels.{level};
ghost use Rattle.clustering.specs.code.Basis.{bad_at, group_of};
ghost use Rattle.clustering.specs.Basis.{clustering_input, group_numbers, numbers_at, site_at};
ghost use Rattle.clustering.specs.Labels.{label_at};
ghost use Rattle.clustering.specs.code.Labels.{label_key};
ghost use Rattle.clustering.specs.Numbers.{entry_of_transformation};

use crate::numbers::{Numbers, bad_key, numbers_of};
use std::alloc::Global;
use std::marker::Model;
use transformation_catalog::{Entries, Key, TransformationCatalog, TransformationEntry};
use values::{JobId, Memory, SiteId, Text};
use workflow_core::{Job, Workflow};

/// The jobs of a workflow with their levels and sites, and the entries of their transformations.
#[derive(Drop)]
pub struct Basis<'a> {
    jobs: &'a [Job],
    levels: &'a [u32],
    sites: &'a [Option<SiteId>],
    entries: &'a [TransformationEntry],
    index: Entries<'a>,
}

impl<'a> Model for Basis<'a> {
    ghost use Rattle.std.specs.Prelude.{◌≡◌};
    ghost use Rattle.clustering.specs.Basis as declared;

    ghost Value = { declared.ClusteringInput };

    ghost view = { λ b. record {
      jobs = b.jobs.now;
      levels = b.levels.now;
      sites = b.sites.now;
      entries = b.entries.now;
    } };

    ghost invariant = { λ b. b.index ≡ b.entries.now };
}

impl<'a> Basis<'a> {
    pub fn new(
        alloc: Global,
        workflow: &'a Workflow,
        levels: &'a [u32],
        sites: &'a [Option<SiteId>],
        transformations: &'a TransformationCatalog,
    ) -> Result<Basis<'a>, Memory>
        ensures { IfOk result (λ b. b ≡ clustering_input workflow.now levels.now sites.now transformations.now) }
    {
        let index = Entries::new(alloc, transformations)?;
        Ok(Basis {
            jobs: workflow.jobs.as_slice(),
            levels,
            sites,
            entries: transformations.entries.as_slice(),
            index,
        })
    }

    fn entry_of(&self, job: &Job) -> Option<&'a TransformationEntry>
        ensures { option_map (λ e. e.now) result ≡ entry_of_transformation self.now.entries job.now.transformation }
    {
        match self.index.entry_of(&job.transformation) {
            Some(place) => self.entries.get(place),
            None => None,
        }
    }

    fn level(&self, job: JobId) -> u32
        ensures { result ≡ level self.now.levels job.0 }
    {
        match self.levels.get(job.0 as usize) {
            Some(level) => *level,
            None => 0,
        }
    }

    /// The number of a job's site.
    pub fn site(&self, job: JobId) -> Option<u32>
        ensures { result ≡ site_at self.now job.0 }
    {
        match self.sites.get(job.0 as usize) {
            Some(Some(site)) => Some(site.0),
            _ => None,
        }
    }

    /// Level, site and transformation of a job.
    pub fn group(&self, job: JobId) -> (u32, Option<u32>, Option<Key<'a>>)
        ensures { result ≡ group_of self.now job }
    {
        let transformation = match self.jobs.get(job.0 as usize) {
            Some(found) => Some(Key::new(&found.transformation)),
            None => None,
        };
        (self.level(job), self.site(job), transformation)
    }

    pub fn label(&self, job: JobId) -> Option<&'a Text>
        ensures { option_map (λ t. t.now) result ≡ label_at self.now job.0 }
    {
        match self.jobs.get(job.0 as usize) {
            Some(found) => found.label.as_ref(),
            None => None,
        }
    }

    /// A job's label, or its number where it has none.
    pub fn label_key(
        &self,
        alloc: Global,
        job: JobId,
    ) -> Result<(Option<Text>, Option<u32>), Memory>
        ensures { IfOk result (λ k. k ≡ label_key self.now job) }
    {
        match self.label(job) {
            Some(label) => Ok((Some(label.copied(alloc)?), None)),
            None => Ok((None, Some(job.0))),
        }
    }

    fn numbers_at(&self, job: JobId) -> Numbers
        ensures numbers { result ≡ numbers_at self.now job }
        ensures positive { IfSome result.num (λ n. 0 < n) }
    {
        match self.jobs.get(job.0 as usize) {
            Some(found) => numbers_of(found, self.entry_of(found)),
            None => Numbers {
                num: None,
                size: None,
            },
        }
    }

    /// The numbers of some jobs: those of the first one.
    pub fn numbers(&self, group: &[JobId]) -> Numbers
        ensures numbers { result ≡ group_numbers self.now group.now }
        ensures positive { IfSome result.num (λ n. 0 < n) }
    {
        match group.first() {
            Some(first) => self.numbers_at(*first),
            None => Numbers {
                num: None,
                size: None,
            },
        }
    }

    /// The key of a job's first bad number.
    pub fn bad_key(&self, job: JobId) -> Option<&'static str>
        ensures { option_map (λ k. k.now) result ≡ bad_at self.now job }
    {
        match self.jobs.get(job.0 as usize) {
            Some(found) => bad_key(found, self.entry_of(found)),
            None => None,
        }
    }
}
