//! What is held of each pair, and at each site, from entry to entry.

ghost use Rattle.std.specs.Prelude.{◌≡◌, ◌<◌, ◌≤◌, ◌^◌, ℕ, IfOk, IfSome, cond, false, get_or, length, true};
ghost use Rattle.plan_core.specs.Numbers.{has};
ghost use Rattle.plan_core.specs.code.Proper.{IsProper};
ghost use Rattle.plan_core.specs.Words.{cleans, count_pairs, writes};
ghost use Rattle.storage_simulation.specs.declared.standing.Held.{Held};
ghost use Rattle.storage_simulation.specs.code.Goods.{IsWithinLimits};
ghost use Rattle.storage_simulation.specs.Goods.{count_sites, good_size, lies_at};
ghost use Rattle.storage_simulation.specs.code.Standings.{at_in};
ghost use Rattle.run_record.specs.Events.{Arrive, Clean, End, Event, Grant};
ghost use Rattle.run_record.specs.code.Events.{event};
ghost use Rattle.lease_rules.specs.State.{held_after, put};
ghost use Rattle.record_audit.specs.Holdings.{AddsUp, IsSized, Shows, is_this, size_among};

use plan_core::{Plan, files_are_listed_by_pair};
use run_record::Entry;
use std::alloc::Global;
use storage_simulation::{cleaned_by, good_size, is_delivery, proper_plans_keep_goods};
use values::{Memory, PairId, TaskId};

/// The size of what is held of each pair, and the sum of these sizes at each site.
#[derive(Drop)]
pub struct Holdings {
    pub(crate) sizes: Vec<u64>,
    pub(crate) sums: Vec<u64>,
}

/// The number at a place, and 0 past the end.
fn number_at(numbers: &[u64], place: u32) -> u64
    ensures { result ≡ at_in 0 numbers.now place }
{
    match numbers.get(place as usize) {
        Some(found) => *found,
        None => 0,
    }
}

/// Sets the number at a place.
#[tactic(auto, using(lease_book::proofs::ArrayLemmas::at_set))]
fn set_number(numbers: &mut Vec<u64>, place: u32, number: u64)
    requires { place < length numbers.old.items }
    ensures value { (k : ℕ) → at_in 0 numbers.new.items k ≡ put (at_in 0 numbers.old.items) place number k }
    ensures long { length numbers.new.items ≡ length numbers.old.items }
{
    numbers[place as usize] = number;
}

/// So many zeros.
#[tactic(auto, using(crate::proofs::HoldingsLemmas::none_at, crate::proofs::HoldingsLemmas::none_long))]
fn zeros(alloc: Global, count: usize) -> Result<Vec<u64>, Memory>
    ensures zero { IfOk result (λ v. (k : ℕ) → at_in 0 v.items k ≡ 0) }
    ensures long { IfOk result (λ v. length v.items ≡ count) }
{
    Ok(vec![in alloc; 0; count]?)
}

/// The site of a pair.
#[tactic(auto, using(crate::proofs::HoldingsLemmas::lies_there, crate::proofs::HoldingsLemmas::lies_beyond, crate::proofs::HoldingsLemmas::lies_none))]
fn site_of(plan: &Plan, pair: u32) -> Option<u32>
    ensures within { IfSome result (λ s. s < count_sites plan.now) }
    ensures lies { (q : ℕ) → q < count_sites plan.now → lies_at plan.now pair q ≡ is_this result q }
{
    match plan.pair(PairId(pair)) {
        Some(found) => {
            if (found.site.0 as usize) < plan.sites.as_slice().len() {
                Some(found.site.0)
            } else {
                None
            }
        }
        None => None,
    }
}

/// How many files a task writes.
#[tactic(auto, using(lease_rules::proofs::NumbersLemmas::count_pairs_in))]
fn count_written(plan: &Plan, task: TaskId) -> usize
    ensures { result ≡ length (writes plan.now task.0) }
{
    plan.writes(task).len()
}

/// One of the pairs that a task writes.
#[tactic(auto, using(lease_rules::proofs::NumbersLemmas::pair_at, lease_rules::proofs::NumbersLemmas::count_pairs_in))]
fn written_at(plan: &Plan, task: TaskId, k: usize) -> u32
    requires { k < length (writes plan.now task.0) }
    ensures { result ≡ get_or (writes plan.now task.0) k 0 }
{
    plan.writes(task)[k].0
}

impl Holdings {
    /// Nothing is held.
    pub(crate) fn none(alloc: Global, plan: &Plan) -> Result<Holdings, Memory>
        ensures adds_up { IfOk result (AddsUp plan.now) }
        ensures nothing { IfOk result (λ h. (g : ℕ) → at_in 0 h.sizes.items g ≡ 0) }
    {
        let sizes = zeros(alloc, plan.pairs.as_slice().len())?;
        let sums = zeros(alloc, plan.sites.as_slice().len())?;
        Ok(Holdings { sizes, sums })
    }

    /// Sets the size of what is held of a pair.
    fn set(&mut self, plan: &Plan, pair: u32, size: u64)
        requires limits { IsWithinLimits plan.now }
        requires pair { pair < count_pairs plan.now }
        requires small { size ≤ 2 ^ 40 }
        requires adds_up { AddsUp plan.now self.old }
        ensures sizes { (g : ℕ) → at_in 0 self.new.sizes.items g
            ≡ put (at_in 0 self.old.sizes.items) pair size g }
        ensures adds_up { AddsUp plan.now self.new }
    {
        let before = number_at(&self.sizes, pair);
        set_number(&mut self.sizes, pair, size);
        if let Some(site) = site_of(plan, pair) {
            let sum = number_at(&self.sums, site);
            set_number(&mut self.sums, site, sum + size - before);
        }
    }

    /// Reserves what a task writes at its declared sizes.
    fn reserve(&mut self, plan: &Plan, task: TaskId)
        requires limits { IsWithinLimits plan.now }
        requires range { (g : ℕ) → has (writes plan.now task.0) g ≡ true → g < count_pairs plan.now }
        requires adds_up { AddsUp plan.now self.old }
        ensures sizes { (g : ℕ) → at_in 0 self.new.sizes.items g
            ≡ cond (has (writes plan.now task.0) g) (good_size plan.now g) (at_in 0 self.old.sizes.items g) }
        ensures adds_up { AddsUp plan.now self.new }
    {
        for k in 0..count_written(plan, task) {
            let pair = written_at(plan, task, k);
            self.set(plan, pair, good_size(plan, pair));
        }
    }

    /// Stores what a task writes, at one size.
    fn store(&mut self, plan: &Plan, task: TaskId, size: u64)
        requires limits { IsWithinLimits plan.now }
        requires range { (g : ℕ) → has (writes plan.now task.0) g ≡ true → g < count_pairs plan.now }
        requires small { size ≤ 2 ^ 40 }
        requires adds_up { AddsUp plan.now self.old }
        ensures sizes { (g : ℕ) → at_in 0 self.new.sizes.items g
            ≡ cond (has (writes plan.now task.0) g) size (at_in 0 self.old.sizes.items g) }
        ensures adds_up { AddsUp plan.now self.new }
    {
        for k in 0..count_written(plan, task) {
            let pair = written_at(plan, task, k);
            self.set(plan, pair, size);
        }
    }

    /// Stores what a task writes, each file at its own size.
    fn store_each(&mut self, plan: &Plan, task: TaskId, sizes: &[u64])
        requires limits { IsWithinLimits plan.now }
        requires range { (g : ℕ) → has (writes plan.now task.0) g ≡ true → g < count_pairs plan.now }
        requires long { length sizes.now ≡ length (writes plan.now task.0) }
        requires small { (k : ℕ) → get_or sizes.now k 0 ≤ 2 ^ 40 }
        requires adds_up { AddsUp plan.now self.old }
        ensures sizes { (g : ℕ) → at_in 0 self.new.sizes.items g
            ≡ size_among (writes plan.now task.0) sizes.now g (at_in 0 self.old.sizes.items g) }
        ensures adds_up { AddsUp plan.now self.new }
    {
        let mut k = count_written(plan, task);
        while k > 0 {
            k -= 1;
            let pair = written_at(plan, task, k);
            self.set(plan, pair, sizes[k]);
        }
    }

    /// A task begins.
    fn begin(&mut self, plan: &Plan, task: TaskId)
        requires proper { IsProper plan.now }
        requires limits { IsWithinLimits plan.now }
        requires adds_up { AddsUp plan.now self.old }
        ensures shows { (w : ℕ) (f : ℕ → Held) → Shows plan.now self.old f
            → Shows plan.now self.new (held_after plan.now (Grant w task.0) f) }
        ensures adds_up { AddsUp plan.now self.new }
    {
        // A law for the proof: it does nothing.
        files_are_listed_by_pair();
        if !is_delivery(plan, task) {
            self.reserve(plan, task);
        }
    }

    /// A Transfer arrives.
    fn arrive(&mut self, plan: &Plan, task: TaskId, size: u64)
        requires proper { IsProper plan.now }
        requires limits { IsWithinLimits plan.now }
        requires small { size ≤ 2 ^ 40 }
        requires adds_up { AddsUp plan.now self.old }
        ensures shows { (w : ℕ) (f : ℕ → Held) → Shows plan.now self.old f
            → Shows plan.now self.new (held_after plan.now (Arrive w task.0 size) f) }
        ensures adds_up { AddsUp plan.now self.new }
    {
        // A law for the proof: it does nothing.
        files_are_listed_by_pair();
        if !is_delivery(plan, task) {
            self.store(plan, task, size);
        }
    }

    /// A Run ends.
    fn end(&mut self, plan: &Plan, task: TaskId, sizes: &[u64])
        requires proper { IsProper plan.now }
        requires limits { IsWithinLimits plan.now }
        requires sized { (w : ℕ) → IsSized plan.now (End w task.0 sizes.now) }
        requires adds_up { AddsUp plan.now self.old }
        ensures shows { (w : ℕ) (f : ℕ → Held) → Shows plan.now self.old f
            → Shows plan.now self.new (held_after plan.now (End w task.0 sizes.now) f) }
        ensures adds_up { AddsUp plan.now self.new }
    {
        // A law for the proof: it does nothing.
        files_are_listed_by_pair();
        self.store_each(plan, task, sizes);
    }

    /// A Clean is done.
    fn clean(&mut self, plan: &Plan, task: TaskId)
        requires proper { IsProper plan.now }
        requires limits { IsWithinLimits plan.now }
        requires adds_up { AddsUp plan.now self.old }
        ensures shows { (w : ℕ) (f : ℕ → Held) → Shows plan.now self.old f
            → Shows plan.now self.new (held_after plan.now (Clean w task.0) f) }
        ensures adds_up { AddsUp plan.now self.new }
    {
        // A law for the proof: it does nothing.
        proper_plans_keep_goods();
        if let Some(pair) = cleaned_by(plan, task) {
            self.set(plan, pair, 0);
        }
    }

    /// What is held at a site.
    pub(crate) fn at(&self, site: usize) -> u64
        ensures { result ≡ at_in 0 self.now.sums.items site }
    {
        match self.sums.get(site) {
            Some(sum) => *sum,
            None => 0,
        }
    }

    /// Goes on by an entry.
    pub(crate) fn follow(&mut self, plan: &Plan, entry: &Entry<'_>)
        requires proper { IsProper plan.now }
        requires limits { IsWithinLimits plan.now }
        requires sized { IsSized plan.now (event entry.now) }
        requires adds_up { AddsUp plan.now self.old }
        ensures shows { (f : ℕ → Held) → Shows plan.now self.old f
            → Shows plan.now self.new (held_after plan.now (event entry.now) f) }
        ensures adds_up { AddsUp plan.now self.new }
    {
        match entry {
            Entry::Grant { task, .. } => self.begin(plan, *task),
            Entry::Regrant { task, .. } => self.begin(plan, *task),
            Entry::Arrive { task, size, .. } => self.arrive(plan, *task, *size),
            Entry::End { task, sizes, .. } => self.end(plan, *task, sizes),
            Entry::Clean { task, .. } => self.clean(plan, *task),
            Entry::Fail { .. } | Entry::Again { .. } => {}
        }
    }
}
