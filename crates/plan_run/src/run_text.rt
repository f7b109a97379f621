//! The text of a run.

ghost use Rattle.std.specs.Prelude.{◌≡◌, ◌++◌, [], IfOk, OnOk, None, length, replicate};
ghost use Rattle.plan_core.specs.Names.{file_name};
ghost use Rattle.plan_run.specs.RunText.{delivered_line, delivered_lines, line_if, lines_in, placed, run_text};

use hex::encode;
use outside::{FileId, Memory, Word, push_line};
use plan_core::Plan;
use run_record::{Record, print};
use site_yard::Delivered;
use std::alloc::Global;

/// The name of a file.
#[tactic(auto, unfolding(plan_core::specs::Names::file_name))]
fn name_of(plan: &Plan, file: FileId) -> &str
    ensures { result.now ≡ file_name plan.now file.0 }
{
    match plan.files.as_slice().get(file.0 as usize) {
        Some(found) => found.lfn.as_str(),
        None => "",
    }
}

/// Adds the line of a delivered file, if there is one.
fn push_delivered(
    alloc: Global,
    text: &mut Vec<u8>,
    plan: &Plan,
    delivered: &Option<Delivered>,
) -> Result<(), Memory>
    ensures { OnOk result (text.new.items ≡ text.old.items ++ line_if plan.now delivered.now) }
{
    let Some(delivered) = delivered else {
        return Ok(());
    };
    let digits = encode(alloc, delivered.digest.as_slice())?;
    let name = Word::Name(name_of(plan, delivered.file).as_bytes());
    let length = Word::Number(delivered.length);
    let digits = Word::Plain(digits.as_str());
    push_line(text, "delivered", &[name, length, digits])
}

/// A table by file number with these deliveries.
fn table_of(
    alloc: Global,
    plan: &Plan,
    delivered: &[Delivered],
) -> Result<Vec<Option<Delivered>>, Memory>
    ensures { IfOk result (λ v. v.items ≡ placed delivered.now (replicate (length plan.now.files) None)) }
{
    let mut table = vec![in alloc; None; plan.files.as_slice().len()]?;
    for one in delivered {
        let place = one.file.0 as usize;
        if place < table.len() {
            table[place] = Some(*one);
        }
    }
    Ok(table)
}

/// Adds a line for each delivered file of a table.
fn push_lines(
    alloc: Global,
    text: &mut Vec<u8>,
    plan: &Plan,
    table: &[Option<Delivered>],
) -> Result<(), Memory>
    ensures { OnOk result (text.new.items ≡ text.old.items ++ lines_in plan.now table.now) }
{
    for delivered in table {
        push_delivered(alloc, text, plan, delivered)?;
    }
    Ok(())
}

/// The record, and then a line for each delivered file, by file number.
pub fn print_run(
    alloc: Global,
    plan: &Plan,
    history: &Record,
    delivered: &[Delivered],
) -> Result<Vec<u8>, Memory>
    ensures { IfOk result (λ v. v.items ≡ run_text plan.now history.now.events delivered.now) }
{
    let table = table_of(alloc, plan, delivered)?;
    let mut text = print(alloc, history)?.into_vec();
    push_lines(alloc, &mut text, plan, &table)?;
    Ok(text)
}
