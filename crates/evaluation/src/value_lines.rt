//! The lines that tell the requested files' values.

ghost use Rattle.std.specs.Prelude.{◌≡◌, ◌++◌, OnOk, length, replicate, false, IfOk};
ghost use Rattle.evaluation.specs.ValueLines.{chosen, marked, marked_by, picked, value_line, value_lines};

use hex::encode;
use outside::{Blob, Memory, Text, Word, push_line};
use sha2::{Digest, Sha256};
use std::alloc::Global;
use workflow_core::{Output, Workflow};

fn mark_outputs(marks: &mut Vec<bool>, outputs: &[Output])
    ensures { marks.new.items ≡ marked outputs.now marks.old.items }
{
    for output in outputs {
        let place = output.file.0 as usize;
        if output.stage_out && place < marks.len() {
            marks[place] = true;
        }
    }
}

/// For each file of a workflow, whether it is requested.
fn requested_marks(alloc: Global, workflow: &Workflow) -> Result<Vec<bool>, Memory>
    ensures { IfOk result (λ v.
        v.items ≡ marked_by workflow.now.jobs (replicate (length workflow.now.files) false)) }
{
    let mut marks = vec![in alloc; false; workflow.files.as_slice().len()]?;
    for job in workflow.jobs.as_slice() {
        mark_outputs(&mut marks, job.outputs.as_slice());
    }
    Ok(marks)
}

/// Adds the line of a file.
fn push_value(alloc: Global, text: &mut Vec<u8>, name: &Text, bytes: &Blob) -> Result<(), Memory>
    ensures { OnOk result (text.new.items
        ≡ text.old.items ++ value_line (record { name = name.now; bytes = bytes.now })) }
{
    let digest = Sha256::digest(bytes.as_slice());
    let digits = encode(alloc, digest.as_slice())?;
    let name = Word::Name(name.as_bytes());
    let length = Word::Number(bytes.as_slice().len() as u64);
    let digits = Word::Plain(digits.as_str());
    push_line(text, "value", &[name, length, digits])
}

/// Adds a line for each marked one of some named files, in order.
fn push_values(
    alloc: Global,
    marks: &[bool],
    names: &[Text],
    values: &[Blob],
    text: &mut Vec<u8>,
) -> Result<(), Memory>
    requires names { length marks.now ≡ length names.now }
    requires values { length marks.now ≡ length values.now }
    ensures { OnOk result (text.new.items
        ≡ text.old.items ++ value_lines (picked marks.now names.now values.now)) }
{
    for (i, marked) in marks.iter().enumerate() {
        if *marked {
            push_value(alloc, text, &names[i], &values[i])?;
        }
    }
    Ok(())
}

/// A line for each requested file of a workflow, by file number.
pub fn value_text(alloc: Global, workflow: &Workflow, values: &[Blob]) -> Result<Vec<u8>, Memory>
    requires { length values.now ≡ length workflow.now.files }
    ensures { IfOk result (λ text. text.items ≡ value_lines (chosen workflow.now values.now)) }
{
    let marks = requested_marks(alloc, workflow)?;
    let mut text = Vec::new(alloc);
    push_values(alloc, &marks, workflow.files.as_slice(), values, &mut text)?;
    Ok(text)
}
