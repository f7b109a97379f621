//! Records that are read back, and texts behind one.

use run_record::{RecordFault, parse, print};
use std::alloc::Global;
use std::test::Fail;

/// Each kind of entry and each cause, at the ends of their numbers.
const EVERY_KIND: &str = "record 2\ngrant 4294967295 0\narrive 0 4294967295 18446744073709551615
end 0 0\nend 10 9 0 18446744073709551615\nclean 1 6\nfail 0 4 absent\nfail 0 4 toolong 11
fail 0 4 checksum 00ba7816bf8f01cfea414140de5dae2223b00361a396177a9cb410ff61f200ff
fail 0 1 oversize 4294967295 0 65\nfail 0 1 declined 0\nfail 0 1 toolfailed 1\nfail 0 0 hostfailed
fail 0 0 hostfailed 4 0\nfail 0 0 memory\nfail 0 0 memory 4\nagain 0 0 toolfailed 2\nagain 0 6 hostfailed
again 0 0 hostfailed 4\nregrant 0 3\nclosed\n";

/// Texts with more behind a record, and their first malformed line.
const MORE: [(&str, u64); 4] = [
    ("record 1\nclosed\nclosed\n", 3),
    ("record 1\nclosed\n\n", 3),
    ("record 1\ngrant 0 4\nclosed\ngrant 0 0\n", 4),
    ("record 1\ngrant 0 4\nclosed\nx", 4),
];

fn is_malformed_at(alloc: Global, text: &str, line: u64) -> bool {
    match parse(alloc, text.as_bytes()) {
        Err(RecordFault::Malformed(found)) => found == line,
        _ => false,
    }
}

fn is_read_back(alloc: Global, text: &str) -> Result<bool, RecordFault> {
    let history = parse(alloc, text.as_bytes())?;
    let printed = print(alloc, &history)?;
    Ok(printed.as_slice() == text.as_bytes())
}

#[test]
fn a_record_and_no_more(rt: HostRuntime) -> Result<(), Fail> {
    let alloc = rt.alloc();
    assert!(rt; is_read_back(alloc, EVERY_KIND).ok() == Some(true));
    for (text, line) in &MORE {
        assert!(rt; is_malformed_at(alloc, text, *line));
    }
    Ok(())
}
