//! The members of a crew that work in a run.

ghost use Rattle.std.specs.Prelude.{◌≡◌, ◌+◌, ◌≤◌, ◌++◌, IfErr, IfOk, drop, length, take, vec_capacity};

use craft::{Crew, Gate};
use outside::{Memory, Tool};
use std::alloc::Global;

/// Takes the first members of a crew out.
pub(crate) fn take_members<T: Tool, G: Gate>(
    alloc: Global,
    crew: &mut Vec<Crew<T, G>>,
    count: usize,
) -> Result<Vec<Crew<T, G>>, Memory>
    requires { count ≤ length crew.old.items }
    ensures taken { IfOk result (λ v. (v.items ≡ take count crew.old.items)
        × (crew.new.items ≡ drop count crew.old.items)) }
    ensures refused { IfErr result (λ e. crew.new.items ≡ crew.old.items) }
    ensures capacity { vec_capacity crew.new ≡ vec_capacity crew.old }
{
    let mut members = Vec::with_capacity(alloc, count)?;
    for member in 0..count {
        members.push_reserved(crew.remove(0));
    }
    Ok(members)
}

/// Puts members back before those that stayed. It takes no memory, where the crew has room.
pub(crate) fn put_back<T: Tool, G: Gate>(members: Vec<Crew<T, G>>, crew: &mut Vec<Crew<T, G>>)
    requires { length members.items + length crew.old.items ≤ vec_capacity crew.old }
    ensures { crew.new.items ≡ members.items ++ crew.old.items }
{
    let mut members = members;
    while let Some(member) = members.pop() {
        let put = crew.insert(0, member);
        let Ok(()) = put else { unreachable!() };
    }
}
