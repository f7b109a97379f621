//! The texts of a verdict and of a record's sums.

ghost use Rattle.std.specs.Prelude.{◌≡◌, ◌++◌, OnOk};
ghost use Rattle.record_audit.specs.Text.{count_lines, line_if_some, number_line, peak_line, peak_lines, statistics_lines, verdict_line};

use crate::sums::Statistics;
use crate::verdict::Verdict;
use values::{Memory, Word, push_line};

/// Adds the line of a verdict.
#[tactic(auto, unfolding(crate::specs::Text::verdict_line))]
pub fn push_verdict(text: &mut Vec<u8>, verdict: Verdict) -> Result<(), Memory>
    ensures { OnOk result (text.new.items ≡ text.old.items ++ verdict_line verdict) }
{
    match verdict {
        Verdict::Complete => push_line(text, "verdict", &[Word::Plain("complete")]),
        Verdict::Legal => push_line(text, "verdict", &[Word::Plain("legal")]),
        Verdict::Illegal(entry) => {
            let words = [Word::Plain("illegal"), Word::Number(entry)];
            push_line(text, "verdict", &words)
        }
    }
}

/// Adds a line of a word and a number.
#[tactic(auto, unfolding(crate::specs::Text::number_line))]
fn push_number(text: &mut Vec<u8>, word: &str, number: u64) -> Result<(), Memory>
    ensures { OnOk result (text.new.items ≡ text.old.items ++ number_line word.now number) }
{
    push_line(text, word, &[Word::Number(number)])
}

/// Adds a line if the number isn't 0.
fn push_if_some(text: &mut Vec<u8>, word: &str, number: u64) -> Result<(), Memory>
    ensures { OnOk result (text.new.items ≡ text.old.items ++ line_if_some word.now number) }
{
    if number == 0 {
        return Ok(());
    }
    push_number(text, word, number)
}

/// Adds the line of a site's peak.
#[tactic(auto, unfolding(crate::specs::Text::peak_line))]
fn push_peak(text: &mut Vec<u8>, site: u64, peak: u64) -> Result<(), Memory>
    ensures { OnOk result (text.new.items ≡ text.old.items ++ peak_line site peak) }
{
    push_line(text, "peak", &[Word::Number(site), Word::Number(peak)])
}

/// Adds the lines of all peaks.
fn push_peaks(text: &mut Vec<u8>, peaks: &[u64]) -> Result<(), Memory>
    ensures { OnOk result (text.new.items ≡ text.old.items ++ peak_lines 0 peaks.now) }
{
    for site in 0..peaks.len() {
        push_peak(text, site as u64, peaks[site])?;
    }
    Ok(())
}

/// Adds the lines of the counts.
fn push_counts(text: &mut Vec<u8>, sums: &Statistics) -> Result<(), Memory>
    ensures { OnOk result (text.new.items ≡ text.old.items ++ count_lines sums.now) }
{
    push_number(text, "grants", sums.grants)?;
    push_number(text, "arrives", sums.arrives)?;
    push_number(text, "ends", sums.ends)?;
    push_number(text, "cleans", sums.cleans)?;
    push_number(text, "fails", sums.fails)?;
    push_if_some(text, "agains", sums.agains)?;
    push_number(text, "moved", sums.moved)
}

/// Adds the lines of a record's sums.
pub fn push_statistics(text: &mut Vec<u8>, sums: &Statistics) -> Result<(), Memory>
    ensures { OnOk result (text.new.items ≡ text.old.items ++ statistics_lines sums.now) }
{
    push_counts(text, sums)?;
    push_peaks(text, sums.peaks.as_slice())
}
