//! The line of a failed run.

ghost use Rattle.std.specs.Prelude.{◌≡◌, ◌++◌, OnOk};
ghost use Rattle.run_record.specs.declared.run_fault.RunFault.TheVariants.{ChecksumDiffers, LengthDiffers, Oversize};
ghost use Rattle.run_record.specs.code.FailedLine.{failed_line};

use crate::run_fault::RunFault;
use hex::encode;
use std::alloc::Global;
use values::{Memory, Text, Word, push_line};

fn push_differs(
    alloc: Global,
    text: &mut Vec<u8>,
    lfn: &Text,
    wanted: &[u8; 32],
    got: &[u8; 32],
) -> Result<(), Memory>
    ensures { OnOk result (text.new.items ≡ text.old.items
        ++ failed_line (ChecksumDiffers lfn.now wanted.now got.now)) }
{
    let wanted = encode(alloc, wanted.as_slice())?;
    let got = encode(alloc, got.as_slice())?;
    let lfn = Word::Name(lfn.as_bytes());
    let wanted = Word::Plain(wanted.as_str());
    let got = Word::Plain(got.as_str());
    push_line(text, "failed checksum", &[lfn, wanted, got])
}

fn push_oversize<'a>(
    text: &mut Vec<u8>,
    id: &'a Text,
    lfn: &'a Text,
    declared: u64,
    length: u64,
) -> Result<(), Memory>
    ensures { OnOk result (text.new.items ≡ text.old.items
        ++ failed_line (Oversize id.now lfn.now declared length)) }
{
    let id = Word::Name(id.as_bytes());
    let lfn = Word::Name(lfn.as_bytes());
    let declared = Word::Number(declared);
    let length = Word::Number(length);
    push_line(text, "failed oversize", &[id, lfn, declared, length])
}

fn push_length<'a>(
    text: &mut Vec<u8>,
    site: &'a Text,
    lfn: &'a Text,
    recorded: u64,
    found: u64,
) -> Result<(), Memory>
    ensures { OnOk result (text.new.items ≡ text.old.items
        ++ failed_line (LengthDiffers site.now lfn.now recorded found)) }
{
    let site = Word::Name(site.as_bytes());
    let lfn = Word::Name(lfn.as_bytes());
    let recorded = Word::Number(recorded);
    let found = Word::Number(found);
    push_line(text, "failed length", &[site, lfn, recorded, found])
}

/// Adds the line of a failed run.
pub fn push_failed(alloc: Global, text: &mut Vec<u8>, fault: &RunFault) -> Result<(), Memory>
    ensures { OnOk result (text.new.items ≡ text.old.items ++ failed_line fault.now) }
{
    match fault {
        RunFault::ReplicaAbsent(lfn, pfn) => push_line(
            text,
            "failed absent",
            &[Word::Name(lfn.as_bytes()), Word::Name(pfn.as_bytes())],
        ),
        RunFault::ReplicaTooLong(lfn, limit, length) => push_line(
            text,
            "failed replica",
            &[
                Word::Name(lfn.as_bytes()),
                Word::Number(*limit),
                Word::Number(*length),
            ],
        ),
        RunFault::ChecksumDiffers(lfn, wanted, got) => push_differs(alloc, text, lfn, wanted, got),
        RunFault::Oversize(id, lfn, declared, length) => {
            push_oversize(text, id, lfn, *declared, *length)
        }
        RunFault::Declined(id) => push_line(text, "failed declined", &[Word::Name(id.as_bytes())]),
        RunFault::ToolFailed(id) => push_line(text, "failed tool", &[Word::Name(id.as_bytes())]),
        RunFault::HostFailed(None) => push_line(text, "failed host -", &[]),
        RunFault::HostFailed(Some(task)) => push_line(
            text,
            "failed host",
            &[Word::Number(u64::from(task.0))],
        ),
        RunFault::ScratchInUse(site) => push_line(
            text,
            "failed scratch",
            &[Word::Name(site.as_bytes())],
        ),
        RunFault::PairAbsent(site, lfn) => push_line(
            text,
            "failed pair",
            &[Word::Name(site.as_bytes()), Word::Name(lfn.as_bytes())],
        ),
        RunFault::LengthDiffers(site, lfn, recorded, found) => {
            push_length(text, site, lfn, *recorded, *found)
        }
        RunFault::Memory => Ok(()),
    }
}
