//! The order in which a depth-first search leaves the nodes.

ghost use Rattle.std.specs.Prelude.{◌≡◌, ◌<◌, ◌^◌, length, IfOk, OnOk, All, IfSome};

use std::alloc::Global;
use values::Memory;

/// Puts those of some nodes on the stack that weren't met.
fn push_new(stack: &mut Vec<u32>, nodes: &[u32], met: &[bool]) -> Result<(), Memory> {
    for node in nodes {
        if let Some(false) = met.get(*node as usize) {
            stack.push(*node)?;
        }
    }
    Ok(())
}

/// Takes nodes from the stack until one comes that wasn't met. The search leaves those before it,
/// each once.
fn next_new(
    stack: &mut Vec<u32>,
    met: &[bool],
    left: &mut Vec<bool>,
    ordered: &mut Vec<u32>,
) -> Result<Option<u32>, Memory>
    requires { All (λ n. n < length left.old.items) ordered.old.items }
    ensures long { length left.new.items ≡ length left.old.items }
    ensures ordered { OnOk result (All (λ n. n < length left.old.items) ordered.new.items) }
    ensures node { IfOk result (λ o. IfSome o (λ n. n < length met.now)) }
{
    while let Some(node) = stack.pop() {
        let at = node as usize;
        if let Some(false) = met.get(at) {
            return Ok(Some(node));
        }
        if let Some(false) = left.get(at) {
            left[at] = true;
            ordered.push(node)?;
        }
    }
    Ok(None)
}

/// The nodes as a depth-first search leaves them: of those that lie on cycles with one another, the
/// last comes after all to which a walk leads from them. Only the time that `ranks` saves rests on
/// it.
pub fn finishing_order(alloc: Global, successors: &[Vec<u32>]) -> Result<Vec<u32>, Memory>
    requires { length successors.now < 2 ^ 32 }
    ensures { IfOk result (λ v. All (λ n. n < length successors.now) v.items) }
{
    let count = successors.len();
    let mut met = vec![in alloc; false; count]?;
    let mut left = vec![in alloc; false; count]?;
    let mut stack: Vec<u32> = (0..count as u32).collect(alloc)?;
    let mut ordered = Vec::new(alloc);
    for _ in 0..=count {
        let Some(node) = next_new(&mut stack, &met, &mut left, &mut ordered)? else {
            break;
        };
        met[node as usize] = true;
        stack.push(node)?;
        push_new(&mut stack, &successors[node as usize], &met)?;
    }
    Ok(ordered)
}
