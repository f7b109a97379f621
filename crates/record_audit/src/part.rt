//! The part of a document that is read as a record.

ghost use Rattle.std.specs.Prelude.{◌≡◌, ◌≤◌, length, take};
ghost use Rattle.run_record.specs.code.Lines.{line_length};
ghost use Rattle.record_audit.specs.Part.{record_part};

/// The length of a text's first line, with its line feed.
fn line_length(text: &[u8]) -> usize
    ensures { result ≡ line_length text.now }
{
    for (k, byte) in text.iter().enumerate() {
        if *byte == b'\n' {
            return k + 1;
        }
    }
    text.len()
}

/// The length of the part that is read.
#[tactic(auto, using(run_record::proofs::LineLemmas::line_within, crate::proofs::PartLemmas::some_line, crate::proofs::PartLemmas::come_next, crate::proofs::PartLemmas::come_end, crate::proofs::PartLemmas::come_last))]
fn part_length(text: &[u8]) -> usize
    ensures within { result ≤ length text.now }
    ensures part { take result text.now ≡ record_part text.now }
{
    let mut length = 0;
    while length < text.len() {
        let (_, rest) = text.split_at(length);
        let (line, _) = rest.split_at(line_length(rest));
        length += line.len();
        if line == b"closed\n".as_slice() {
            return length;
        }
    }
    length
}

/// The record within a document: its lines up to the first line `closed`, with it, else all of it.
pub fn record_part(text: &[u8]) -> &[u8]
    ensures { result.now ≡ record_part text.now }
{
    let (part, _) = text.split_at(part_length(text));
    part
}
