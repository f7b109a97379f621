//! The line of a fault of an ensemble.

ghost use Rattle.std.specs.Prelude.{◌≡◌, ◌++◌, ◌-◌, OnOk, length, take};
ghost use Rattle.planner.specs.code.Refused.{many_line, one_name};
ghost use Rattle.pegasus_cli.specs.code.EnsembleLine.{behind_refused, ensemble_line, ensemble_read_line, ensemble_tree_line, member_front, member_line};

use ensemble::EnsembleFault;
use outside::{Memory, Text, Word, push_line};
use peg_json::{Counted, ReadFault, TreeFault};
use planner::{PlanFault, push_refused};
use std::alloc::Global;

fn push_name(text: &mut Vec<u8>, words: &str, name: &Text) -> Result<(), Memory>
    ensures { OnOk result (text.new.items ≡ text.old.items ++ one_name words.now name.now) }
{
    push_line(text, words, &[Word::Name(name.as_bytes())])
}

fn push_many(text: &mut Vec<u8>, what: &str, count: u64, limit: u64) -> Result<(), Memory>
    ensures { OnOk result (text.new.items ≡ text.old.items ++ many_line what.now count limit) }
{
    let words = &[Word::Plain(what), Word::Number(count), Word::Number(limit)];
    push_line(text, "refused many", words)
}

/// Adds the line of a fault of the tree.
fn push_tree(text: &mut Vec<u8>, fault: &TreeFault) -> Result<(), Memory>
    ensures { OnOk result (text.new.items ≡ text.old.items ++ ensemble_tree_line fault.now) }
{
    match fault {
        TreeFault::Syntax => push_line(text, "refused ensemble syntax", &[]),
        TreeFault::MissingKey(path) => push_name(text, "refused ensemble missing", path),
        TreeFault::WrongKind(path) => push_name(text, "refused ensemble kind", path),
        TreeFault::OutOfRange(path, number) => push_line(
            text,
            "refused ensemble range",
            &[Word::Name(path.as_bytes()), Word::Number(*number)],
        ),
        TreeFault::Unsupported(path, what) => push_line(
            text,
            "refused ensemble unsupported",
            &[Word::Name(path.as_bytes()), Word::Name(what.as_bytes())],
        ),
        TreeFault::BadVersion(version) => { push_name(text, "refused ensemble version", version) }
        TreeFault::Memory => Ok(()),
    }
}

/// Adds the line of a fault of the tree, or of the execution sites.
fn push_read(text: &mut Vec<u8>, fault: &ReadFault) -> Result<(), Memory>
    ensures { OnOk result (text.new.items ≡ text.old.items ++ ensemble_read_line fault.now) }
{
    match fault {
        ReadFault::Tree(fault) => push_tree(text, fault),
        ReadFault::TooMany(Counted::Sites, count, limit) => {
            push_many(text, "sites", *count, *limit)
        }
        ReadFault::DuplicateSite(name) => push_name(text, "refused twice site", name),
        _ => Ok(()),
    }
}

/// Adds the line of a fault of an ensemble's document.
pub(crate) fn push_ensemble(text: &mut Vec<u8>, fault: &EnsembleFault) -> Result<(), Memory>
    ensures { OnOk result (text.new.items ≡ text.old.items ++ ensemble_line fault.now) }
{
    match fault {
        EnsembleFault::Read(fault) => push_read(text, fault),
        EnsembleFault::TooMany(count, limit) => push_many(text, "members", *count, *limit),
        EnsembleFault::DuplicateMember(name) => { push_name(text, "refused twice member", name) }
    }
}

/// Adds a line without its end.
fn push_open(text: &mut Vec<u8>, line: &[u8]) -> Result<(), Memory>
    ensures { OnOk result (text.new.items ≡ text.old.items ++ take (length line.now - 1) line.now) }
{
    if let Some((_end, front)) = line.split_last() {
        text.extend_from_slice(front)?;
    }
    Ok(())
}

/// Adds the first words of a refusal of a member's documents.
fn push_front(alloc: Global, text: &mut Vec<u8>, name: &Text) -> Result<(), Memory>
    ensures { OnOk result (text.new.items ≡ text.old.items ++ member_front name.now) }
{
    let mut line = Vec::new(alloc);
    push_name(&mut line, "refused member", name)?;
    push_open(text, &line)
}

/// Adds what stands behind the first word of a refusal.
fn push_rest(alloc: Global, text: &mut Vec<u8>, fault: &PlanFault) -> Result<(), Memory>
    ensures { OnOk result (text.new.items ≡ text.old.items ++ behind_refused fault.now) }
{
    let mut line = Vec::new(alloc);
    push_refused(&mut line, fault)?;
    if let Some(rest) = line.get(7..) {
        text.extend_from_slice(rest)?;
    }
    Ok(())
}

/// Adds the line of a fault of a member's documents: that of the fault, with the member named behind its first word.
pub(crate) fn push_member(
    alloc: Global,
    text: &mut Vec<u8>,
    name: &Text,
    fault: &PlanFault,
) -> Result<(), Memory>
    ensures { OnOk result (text.new.items ≡ text.old.items ++ member_line name.now fault.now) }
{
    push_front(alloc, text, name)?;
    push_rest(alloc, text, fault)
}
