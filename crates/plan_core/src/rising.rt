//! Numbers in rising order, each once.

ghost use Rattle.std.specs.Prelude.{◌≡◌, ◌&&◌, ◌++◌, ◌∷◌, [], ℕ, cond, not, IfOk, OnOk};
ghost use Rattle.plan_core.specs.code.Numbers.{RisesFrom};
ghost use Rattle.plan_core.specs.Numbers.{has};
ghost use Rattle.plan_core.specs.code.Rising.{is_rising, rises_after, without};

use std::alloc::Global;
use values::Memory;

/// Whether each number is above the one before it.
fn rises_after(first: u32, rest: &[u32]) -> bool
    ensures { result ≡ rises_after first rest.now }
{
    let mut last = first;
    for number in rest {
        if *number <= last {
            return false;
        }
        last = *number;
    }
    true
}

/// Whether the numbers rise.
pub fn is_rising(numbers: &[u32]) -> bool
    ensures { result ≡ is_rising numbers.now }
{
    match numbers {
        [] => true,
        [first, rest @ ..] => rises_after(*first, rest),
    }
}

/// The same numbers in rising order, each once.
pub fn sorted(list: Vec<u32>) -> Vec<u32>
    ensures rises { RisesFrom 0 result.items }
    ensures same { (x : ℕ) → has result.items x ≡ has list.items x }
{
    if is_rising(&list) {
        return list;
    }
    let mut numbers = list;
    numbers.sort_unstable();
    numbers.dedup();
    numbers
}

/// Whether a number is among numbers that rise.
pub fn is_among(numbers: &[u32], number: u32) -> bool
    requires { RisesFrom 0 numbers.now }
    ensures { result ≡ has numbers.now number }
{
    numbers.binary_search(&number).is_ok()
}

/// Adds a number where it passes.
fn note(list: &mut Vec<u32>, number: u32, passes: bool) -> Result<(), Memory>
    ensures { OnOk result (list.new.items ≡ list.old.items ++ cond passes (number ∷ []) []) }
{
    if passes {
        list.push(number)?;
    }
    Ok(())
}

fn taken_out(alloc: Global, numbers: &[u32], others: &[u32]) -> Result<Vec<u32>, Memory>
    requires others { RisesFrom 0 others.now }
    ensures { IfOk result (λ v. v.items ≡ without numbers.now others.now) }
{
    let mut left = Vec::new(alloc);
    for number in numbers {
        note(&mut left, *number, !is_among(others, *number))?;
    }
    Ok(left)
}

/// The first numbers without the second ones; both rise.
pub fn difference(alloc: Global, numbers: &[u32], others: &[u32]) -> Result<Vec<u32>, Memory>
    requires rises { RisesFrom 0 numbers.now }
    requires others { RisesFrom 0 others.now }
    ensures rises { IfOk result (λ v. RisesFrom 0 v.items) }
    ensures same { IfOk result (λ v. (x : ℕ)
        → has v.items x ≡ (has numbers.now x && not (has others.now x))) }
{
    let left = taken_out(alloc, numbers, others)?;
    Ok(left)
}
