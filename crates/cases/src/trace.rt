//! The changes of a store as text.

ghost use Rattle.std.specs.Prelude.{◌≡◌, ◌++◌, IfOk, OnOk};
ghost use Rattle.cases.specs.Trace.{operation_line, operation_lines};

use outside::{Memory, Operation, Word, push_line};
use std::alloc::Global;

fn push_operation(text: &mut Vec<u8>, operation: &Operation) -> Result<(), Memory>
    ensures { OnOk result (text.new.items ≡ text.old.items ++ operation_line operation.now) }
{
    match operation {
        Operation::Publish(site, name, length) => {
            let site = Word::Name(site.as_bytes());
            let name = Word::Name(name.as_bytes());
            push_line(text, "publish", &[site, name, Word::Number(*length)])
        }
        Operation::Deliver(name, length) => {
            let name = Word::Name(name.as_bytes());
            push_line(text, "deliver", &[name, Word::Number(*length)])
        }
        Operation::Remove(site, name) => {
            let site = Word::Name(site.as_bytes());
            push_line(text, "remove", &[site, Word::Name(name.as_bytes())])
        }
    }
}

/// A line for each change, in order.
pub fn trace_text(alloc: Global, operations: &[Operation]) -> Result<Vec<u8>, Memory>
    ensures { IfOk result (λ text. text.items ≡ operation_lines operations.now) }
{
    let mut text = Vec::new(alloc);
    for operation in operations {
        push_operation(&mut text, operation)?;
    }
    Ok(text)
}
