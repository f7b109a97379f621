//! Which execution sites have which transformations.

ghost use Rattle.std.specs.Prelude.{◌≡◌, length, map, true, [], Ok, IfOk, option_map};
ghost use Rattle.std.specs.List.{list_any};
ghost use Rattle.workflow_core.specs.code.Names.{with_names};
ghost use Rattle.plan_request.specs.Request.{execute_checked};
ghost use Rattle.site_selector.specs.Offers.{is_stageable};
ghost use Rattle.site_selector.specs.code.Offers.{names_of, installed_flags, offer_flags, marked, flags_in, offer_table, AreDistinct, Offered, IsFound};

use plan_request::Execution;
use std::alloc::Global;
use std::marker::Model;
use transformation_catalog::{
    Entries, TransformationCatalog, TransformationEntry, TransformationSite,
};
use values::Memory;
use workflow_core::{Names, Transformation};

/// The execution sites and the entries of a catalogue, with a flag for each entry and site.
#[derive(Drop)]
pub struct Offers<'a> {
    execute: &'a [Execution],
    entries: Entries<'a>,
    table: Vec<Vec<bool>>,
}

impl<'a> Model for Offers<'a> {
    ghost Value = { Offered };

    ghost view = { λ o. record { execute = o.execute.now; entries = o.entries } };

    ghost invariant = { λ o. flags_in o.table.items ≡ offer_table (names_of o.execute.now) o.entries };
}

fn names_of(alloc: Global, execute: &[Execution]) -> Result<Names, Memory>
    ensures { IfOk result (λ names. names ≡ with_names [] (names_of execute.now)) }
{
    let mut names = Names::new(alloc);
    for execution in execute {
        names.add(alloc, &execution.site)?;
    }
    Ok(names)
}

fn mark(names: &Names, flags: &mut Vec<bool>, site: &TransformationSite)
    ensures { flags.new.items ≡ marked names.now flags.old.items site.now }
{
    if !site.installed {
        return;
    }
    let place = names.number(&site.name);
    if place < flags.len() {
        flags[place] = true;
    }
}

#[tactic(auto, using(crate::proofs::OfferLemmas::none_installed))]
fn installed_flags(
    alloc: Global,
    names: &Names,
    sites: &[TransformationSite],
) -> Result<Vec<bool>, Memory>
    requires distinct { AreDistinct names.now }
    ensures { IfOk result (λ flags. flags.items ≡ installed_flags names.now sites.now) }
{
    let mut flags = vec![in alloc; false; names.len()]?;
    for site in sites {
        mark(names, &mut flags, site);
    }
    Ok(flags)
}

fn is_any_stageable(sites: &[TransformationSite]) -> bool
    ensures { result ≡ list_any is_stageable sites.now }
{
    sites.iter().any(|site| !site.installed)
}

#[tactic(auto, using(crate::proofs::OfferLemmas::all_offered, crate::proofs::OfferLemmas::only_installed))]
fn offer_flags(
    alloc: Global,
    names: &Names,
    sites: &[TransformationSite],
) -> Result<Vec<bool>, Memory>
    requires distinct { AreDistinct names.now }
    ensures { IfOk result (λ flags. flags.items ≡ offer_flags names.now sites.now) }
{
    if is_any_stageable(sites) {
        let flags = vec![in alloc; true; names.len()]?;
        return Ok(flags);
    }
    let flags = installed_flags(alloc, names, sites)?;
    Ok(flags)
}

fn offer_table(
    alloc: Global,
    names: &Names,
    entries: &[TransformationEntry],
) -> Result<Vec<Vec<bool>>, Memory>
    requires distinct { AreDistinct names.now }
    ensures { IfOk result (λ table. flags_in table.items ≡ offer_table names.now entries.now) }
{
    let mut table = Vec::with_capacity(alloc, entries.len())?;
    for entry in entries {
        table.push(offer_flags(alloc, names, entry.sites.as_slice())?)?;
    }
    Ok(table)
}

impl<'a> Offers<'a> {
    pub fn new(
        alloc: Global,
        execute: &'a [Execution],
        catalog: &'a TransformationCatalog,
    ) -> Result<Offers<'a>, Memory>
        requires sites { execute_checked execute.now ≡ Ok tt }
        ensures { IfOk result (λ o. o ≡ record { execute = execute.now; entries = catalog.now.entries }) }
    {
        let names = names_of(alloc, execute)?;
        let table = offer_table(alloc, &names, catalog.entries.as_slice())?;
        let entries = Entries::new(alloc, catalog)?;
        Ok(Offers {
            execute,
            entries,
            table,
        })
    }

    pub fn execute(&self) -> &[Execution]
        ensures { result.now ≡ self.now.execute }
    {
        self.execute
    }

    /// For each execution site whether it has the transformation, if the catalogue has an entry for it.
    pub fn of(&self, transformation: &Transformation) -> Option<&[bool]>
        ensures { IsFound self.now transformation.now (option_map (λ flags. flags.now) result) }
    {
        match self.entries.entry_of(transformation) {
            Some(place) => match self.table.get(place) {
                Some(flags) => Some(flags.as_slice()),
                None => None,
            },
            None => None,
        }
    }
}
