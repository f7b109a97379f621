//! The line of a refusal.

ghost use Rattle.std.specs.Prelude.{◌≡◌, ◌++◌, OnOk};
ghost use Rattle.planner.specs.code.Refused.{counted_word as word_of_counted, cycle_line, found_line, many_line, one_name, refused_line, three_names, tree_line, two_names};

use crate::document::Document;
use crate::plan_fault::PlanFault;
use peg_json::{Counted, TreeFault};
use values::{Memory, Text, Word, push_line};

fn counted_word(counted: Counted) -> &'static str
    ensures { result.now ≡ word_of_counted counted }
{
    match counted {
        Counted::Jobs => "jobs",
        Counted::Files => "files",
        Counted::Sites => "sites",
        Counted::Tasks => "tasks",
    }
}

/// Adds the line of a document that has something else, or nothing, where a name says.
fn push_found(text: &mut Vec<u8>, of: Document, word: &str, name: &Text) -> Result<(), Memory>
    ensures { OnOk result (text.new.items ≡ text.old.items ++ found_line of word.now name.now) }
{
    let words = &[
        Word::Plain(of.word()),
        Word::Plain(word),
        Word::Name(name.as_bytes()),
    ];
    push_line(text, "refused", words)
}

fn push_tree_fault(text: &mut Vec<u8>, which: Document, fault: &TreeFault) -> Result<(), Memory>
    ensures { OnOk result (text.new.items ≡ text.old.items ++ tree_line which fault.now) }
{
    let of = Word::Plain(which.word());
    match fault {
        TreeFault::Syntax => push_line(text, "refused", &[of, Word::Plain("syntax")]),
        TreeFault::MissingKey(path) => push_found(text, which, "missing", path),
        TreeFault::WrongKind(path) => push_found(text, which, "kind", path),
        TreeFault::OutOfRange(path, number) => push_line(
            text,
            "refused",
            &[
                of,
                Word::Plain("range"),
                Word::Name(path.as_bytes()),
                Word::Number(*number),
            ],
        ),
        TreeFault::Unsupported(path, what) => push_line(
            text,
            "refused",
            &[
                of,
                Word::Plain("unsupported"),
                Word::Name(path.as_bytes()),
                Word::Name(what.as_bytes()),
            ],
        ),
        TreeFault::BadVersion(version) => push_found(text, which, "version", version),
        TreeFault::Memory => Ok(()),
    }
}

fn push_name(text: &mut Vec<u8>, words: &str, name: &Text) -> Result<(), Memory>
    ensures { OnOk result (text.new.items ≡ text.old.items ++ one_name words.now name.now) }
{
    push_line(text, words, &[Word::Name(name.as_bytes())])
}

fn push_two(text: &mut Vec<u8>, words: &str, one: &Text, two: &Text) -> Result<(), Memory>
    ensures { OnOk result (text.new.items ≡ text.old.items ++ two_names words.now one.now two.now) }
{
    let one = Word::Name(one.as_bytes());
    let two = Word::Name(two.as_bytes());
    push_line(text, words, &[one, two])
}

fn push_three(
    text: &mut Vec<u8>,
    words: &str,
    one: &Text,
    two: &Text,
    three: &Text,
) -> Result<(), Memory>
    ensures { OnOk result (text.new.items ≡ text.old.items
        ++ three_names words.now one.now two.now three.now) }
{
    let one = Word::Name(one.as_bytes());
    let two = Word::Name(two.as_bytes());
    let three = Word::Name(three.as_bytes());
    push_line(text, words, &[one, two, three])
}

fn push_cycle(text: &mut Vec<u8>, words: &str, ids: &[Text]) -> Result<(), Memory>
    ensures { OnOk result (text.new.items ≡ text.old.items ++ cycle_line words.now ids.now) }
{
    push_line(text, words, &[Word::Names(ids)])
}

fn push_many(text: &mut Vec<u8>, what: &str, count: u64, limit: u64) -> Result<(), Memory>
    ensures { OnOk result (text.new.items ≡ text.old.items ++ many_line what.now count limit) }
{
    let words = &[Word::Plain(what), Word::Number(count), Word::Number(limit)];
    push_line(text, "refused many", words)
}

/// Adds the line of a refusal. What is answered with another line, or with none, adds nothing.
pub fn push_refused(text: &mut Vec<u8>, fault: &PlanFault) -> Result<(), Memory>
    ensures { OnOk result (text.new.items ≡ text.old.items ++ refused_line fault.now) }
{
    match fault {
        PlanFault::Tree(which, fault) => push_tree_fault(text, *which, fault),
        PlanFault::TooMany(what, count, limit) => {
            push_many(text, counted_word(*what), *count, *limit)
        }
        PlanFault::DuplicateJob(id) => push_name(text, "refused twice job", id),
        PlanFault::DuplicateUse(id, lfn) => push_two(text, "refused twice use", id, lfn),
        PlanFault::UnknownJob(id) => push_name(text, "refused unknown job", id),
        PlanFault::DuplicateSite(name) => push_name(text, "refused twice site", name),
        PlanFault::DuplicateTransformation(name) => {
            push_name(text, "refused twice transformation", name)
        }
        PlanFault::NoCatalogue(which) => push_line(
            text,
            "refused catalogue",
            &[Word::Plain(which.word())],
        ),
        PlanFault::UnknownSite(name) => push_name(text, "refused unknown site", name),
        PlanFault::TwoProducers(lfn, one, two) => {
            push_three(text, "refused producers", lfn, one, two)
        }
        PlanFault::Cycle(ids) => push_cycle(text, "refused cycle", ids.as_slice()),
        PlanFault::NoTransformation(id) => push_name(text, "refused transformation", id),
        PlanFault::NoSite(id, name) => push_two(text, "refused site", id, name),
        PlanFault::BadNumber(id, key) => push_two(text, "refused number", id, key),
        PlanFault::LabelOverSites(label, one, two) => {
            push_three(text, "refused label", label, one, two)
        }
        PlanFault::ClusterCycle(ids) => {
            push_cycle(text, "refused cluster cycle", ids.as_slice())
        }
        PlanFault::NoReplica(lfn) => push_name(text, "refused replica", lfn),
        PlanFault::NoSize(lfn) => push_name(text, "refused size", lfn),
        PlanFault::ToolUnknown(id, name) => push_two(text, "refused tool", id, name),
        PlanFault::Exceeds { .. } | PlanFault::Memory => Ok(()),
    }
}
