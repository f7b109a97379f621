//! How long each job runs at each of its candidates.

ghost use Rattle.std.specs.Prelude.{◌≡◌, ◌+◌, ◌*◌, ◌<◌, ◌≤◌, ◌^◌, ℕ, [], true, length, map, get_or, slice_index_or, replicate, IfOk, All};
ghost use Rattle.std.specs.List.{AllByRecursion};
ghost use Rattle.workflow_core.specs.declared.workflow.Job.{Job};
ghost use Rattle.digraph.specs.code.Adjacency.{lists_of};
ghost use Rattle.digraph.specs.Adjacency.{neighbours};
ghost use Rattle.dependency_graph.specs.Levels.{is_kept};
ghost use Rattle.workflow_core.specs.Names.{number};
ghost use Rattle.workflow_core.specs.code.Names.{with_names};
ghost use Rattle.plan_request.specs.code.Limits.{IsRuntimeInRange};
ghost use Rattle.heft_selector.specs.Costs.{transformation_name};
ghost use Rattle.heft_selector.specs.code.Stated.{cell, noted, said, said_at, IsTable, IsClock, AreTimes, site_name, site_name_at};

use plan_request::{Execution, Runtime};
use std::alloc::Global;
use values::{Memory, Text};
use workflow_core::{Job, Names};

fn transformations_of(alloc: Global, jobs: &[Job]) -> Result<Names, Memory>
    ensures { IfOk result (λ names. names ≡ with_names [] (map transformation_name jobs.now)) }
{
    let mut names = Names::new(alloc);
    for job in jobs {
        names.add(alloc, &job.transformation.name)?;
    }
    Ok(names)
}

fn sites_of(alloc: Global, execute: &[Execution]) -> Result<Names, Memory>
    ensures { IfOk result (λ names. names ≡ with_names [] (map site_name execute.now)) }
{
    let mut names = Names::new(alloc);
    for execution in execute {
        names.add(alloc, &execution.site)?;
    }
    Ok(names)
}

/// Writes a number where none stands.
#[tactic(auto, using(crate::proofs::TimeLemmas::noted_at, crate::proofs::TimeLemmas::noted_none))]
fn note(table: &mut [u64], place: usize, number: u64)
    requires { place < length table.old }
    ensures { (i : ℕ) → get_or table.new i 0 ≡ noted table.old place number i }
{
    if table[place] == 0 {
        table[place] = number;
    }
}

/// The place of a pair in a table of rows.
fn place_of(row: usize, column: usize, rows: usize, width: usize) -> usize
    requires row { row < rows }
    requires column { column < width }
    requires fits { rows * width < 2 ^ 64 }
    ensures place { result ≡ row * width + column }
    ensures low { result < rows * width }
{
    row * width + column
}

/// Writes what an entry states, if its names are known and nothing stands there.
fn enter(table: &mut [u64], transformations: &Names, sites: &Names, runtime: &Runtime)
    requires long { length table.old ≡ length transformations.now * length sites.now }
    ensures known { number transformations.now runtime.now.transformation < length transformations.now
        → number sites.now runtime.now.site < length sites.now
        → let place = cell transformations.now sites.now
        runtime.now.transformation runtime.now.site in
        (i : ℕ) → get_or table.new i 0 ≡ noted table.old place runtime.now.seconds i }
    ensures unknown { (number transformations.now runtime.now.transformation < length transformations.now
        → number sites.now runtime.now.site < length sites.now → ⊥)
        → table.new ≡ table.old }
{
    let row = transformations.number(&runtime.transformation);
    let column = sites.number(&runtime.site);
    if row < transformations.len() {
        if column < sites.len() {
            let place = place_of(row, column, transformations.len(), sites.len());
            note(table, place, runtime.seconds);
        }
    }
}

/// Writes what the entries state, of two alike the first one.
fn fill(table: &mut [u64], transformations: &Names, sites: &Names, runtimes: &[Runtime])
    requires small { AllByRecursion IsRuntimeInRange runtimes.now }
    requires empty { IsTable [] transformations.now sites.now table.old }
    ensures { IsTable runtimes.now transformations.now sites.now table.new }
{
    for entry in 0..runtimes.len() {
        enter(table, transformations, sites, &runtimes[entry]);
    }
}

/// The seconds that are stated for a transformation and a site, 1 where none are.
fn seconds_in(
    table: &[u64],
    transformations: &Names,
    sites: &Names,
    name: &Text,
    site: &Text,
) -> u64
    requires fits { length transformations.now * length sites.now < 2 ^ 64 }
    requires name { number transformations.now name.now < length transformations.now }
    requires site { number sites.now site.now < length sites.now }
    requires long { length table.now ≡ length transformations.now * length sites.now }
    ensures { result ≡ said transformations.now sites.now table.now name.now site.now }
{
    let row = transformations.number(name);
    let column = sites.number(site);
    let place = place_of(row, column, transformations.len(), sites.len());
    table[place].max(1)
}

#[tactic(auto, using(crate::proofs::TimeLemmas::site_at))]
fn site_of(execute: &[Execution], site: u32) -> &Text
    requires { site < length execute.now }
    ensures { result.now ≡ site_name_at execute.now site }
{
    &execute[site as usize].site
}

/// The seconds that a transformation takes at some sites.
fn times_at(
    alloc: Global,
    table: &[u64],
    transformations: &Names,
    sites: &Names,
    execute: &[Execution],
    name: &Text,
    candidates: &[u32],
) -> Result<Vec<u64>, Memory>
    requires fits { length transformations.now * length sites.now < 2 ^ 64 }
    requires name { number transformations.now name.now < length transformations.now }
    requires long { length table.now ≡ length transformations.now * length sites.now }
    requires known { (s : ℕ) → s < length execute.now
        → number sites.now (site_name_at execute.now s) < length sites.now }
    requires below { All (λ s. s < length execute.now) candidates.now }
    ensures { IfOk result (λ v. v.items ≡ said_at transformations.now sites.now table.now name.now
        execute.now candidates.now) }
{
    let mut times = Vec::new(alloc);
    for candidate in candidates {
        let site = site_of(execute, *candidate);
        let seconds = seconds_in(table, transformations, sites, name, site);
        times.push(seconds)?;
    }
    Ok(times)
}

/// The times of a kept job, and none of a dropped one.
fn times_if(
    alloc: Global,
    table: &[u64],
    transformations: &Names,
    sites: &Names,
    execute: &[Execution],
    is_kept: bool,
    name: &Text,
    candidates: &[u32],
) -> Result<Vec<u64>, Memory>
    requires fits { length transformations.now * length sites.now < 2 ^ 64 }
    requires name { number transformations.now name.now < length transformations.now }
    requires long { length table.now ≡ length transformations.now * length sites.now }
    requires known { (s : ℕ) → s < length execute.now
        → number sites.now (site_name_at execute.now s) < length sites.now }
    requires below { is_kept ≡ true → All (λ s. s < length execute.now) candidates.now }
    ensures { IfOk result (λ v. is_kept ≡ true
        → v.items ≡ said_at transformations.now sites.now table.now name.now execute.now
        candidates.now) }
{
    if is_kept {
        return times_at(
            alloc,
            table,
            transformations,
            sites,
            execute,
            name,
            candidates,
        );
    }
    Ok(Vec::new(alloc))
}

/// The times of all jobs.
fn fill_times(
    alloc: Global,
    table: &[u64],
    transformations: &Names,
    sites: &Names,
    jobs: &[Job],
    kept: &[bool],
    execute: &[Execution],
    runtimes: &[Runtime],
    candidates: &[Vec<u32>],
) -> Result<Vec<Vec<u64>>, Memory>
    requires clock { IsClock runtimes.now execute.now transformations.now sites.now table.now }
    requires small { AllByRecursion IsRuntimeInRange runtimes.now }
    requires kept { length kept.now ≡ length jobs.now }
    requires long { length candidates.now ≡ length jobs.now }
    requires names { (a : ℕ) (j : Job) → a < length jobs.now → slice_index_or jobs.now a j ≡ j
        → number transformations.now (transformation_name j) < length transformations.now }
    requires below { (a : ℕ) → is_kept kept.now a ≡ true
        → All (λ s. s < length execute.now) (neighbours (lists_of candidates.now) a) }
    ensures { IfOk result
        (λ v. AreTimes jobs.now kept.now execute.now runtimes.now (lists_of candidates.now)
        (lists_of v.items) (length jobs.now)) }
{
    let mut all = Vec::new(alloc);
    for number in 0..jobs.len() {
        let job = &jobs[number];
        let listed = candidates[number].as_slice();
        let name = &job.transformation.name;
        let times = times_if(
            alloc,
            table,
            transformations,
            sites,
            execute,
            kept[number],
            name,
            listed,
        )?;
        all.push(times)?;
    }
    Ok(all)
}

/// The table is filled, and read for each job.
fn with_table(
    alloc: Global,
    table: &mut [u64],
    transformations: &Names,
    sites: &Names,
    jobs: &[Job],
    kept: &[bool],
    execute: &[Execution],
    runtimes: &[Runtime],
    candidates: &[Vec<u32>],
) -> Result<Vec<Vec<u64>>, Memory>
    requires zeros { table.old ≡ replicate (length transformations.now * length sites.now) 0 }
    requires fits { length transformations.now * length sites.now < 2 ^ 64 }
    requires known { (s : ℕ) → s < length execute.now
        → number sites.now (site_name_at execute.now s) < length sites.now }
    requires small { AllByRecursion IsRuntimeInRange runtimes.now }
    requires kept { length kept.now ≡ length jobs.now }
    requires long { length candidates.now ≡ length jobs.now }
    requires names { (a : ℕ) (j : Job) → a < length jobs.now → slice_index_or jobs.now a j ≡ j
        → number transformations.now (transformation_name j) < length transformations.now }
    requires below { (a : ℕ) → is_kept kept.now a ≡ true
        → All (λ s. s < length execute.now) (neighbours (lists_of candidates.now) a) }
    ensures { IfOk result
        (λ v. AreTimes jobs.now kept.now execute.now runtimes.now (lists_of candidates.now)
        (lists_of v.items) (length jobs.now)) }
{
    fill(table, transformations, sites, runtimes);
    fill_times(
        alloc,
        table,
        transformations,
        sites,
        jobs,
        kept,
        execute,
        runtimes,
        candidates,
    )
}

/// So many cells for the pairs of names.
#[tactic(auto, using(crate::proofs::NameLemmas::cells_fit))]
fn cells(transformations: &Names, sites: &Names) -> usize
    requires few { length transformations.now ≤ 10000 }
    requires narrow { length sites.now ≤ 64 }
    ensures cells { result ≡ length transformations.now * length sites.now }
    ensures fits { length transformations.now * length sites.now < 2 ^ 64 }
{
    transformations.len() * sites.len()
}

/// Beside the candidates of each kept job the seconds that it runs there.
pub fn all_times(
    alloc: Global,
    jobs: &[Job],
    kept: &[bool],
    execute: &[Execution],
    runtimes: &[Runtime],
    candidates: &[Vec<u32>],
) -> Result<Vec<Vec<u64>>, Memory>
    requires few { length jobs.now ≤ 10000 }
    requires narrow { length execute.now ≤ 64 }
    requires small { AllByRecursion IsRuntimeInRange runtimes.now }
    requires kept { length kept.now ≡ length jobs.now }
    requires long { length candidates.now ≡ length jobs.now }
    requires below { (a : ℕ) → is_kept kept.now a ≡ true
        → All (λ s. s < length execute.now) (neighbours (lists_of candidates.now) a) }
    ensures { IfOk result
        (λ v. AreTimes jobs.now kept.now execute.now runtimes.now (lists_of candidates.now)
        (lists_of v.items) (length jobs.now)) }
{
    let transformations = transformations_of(alloc, jobs)?;
    let sites = sites_of(alloc, execute)?;
    let count = cells(&transformations, &sites);
    let mut table = vec![in alloc; 0; count]?;
    let times = with_table(
        alloc,
        &mut table,
        &transformations,
        &sites,
        jobs,
        kept,
        execute,
        runtimes,
        candidates,
    )?;
    Ok(times)
}
