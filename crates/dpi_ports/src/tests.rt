//! What the fakes hold, take and refuse, with numbers counted by hand.

use crate::{CleanSink, FetchFault, Files, MemoryFiles, MemorySink, Sink, SinkFault, put_all};
use std::alloc::Global;
use std::test::Fail;

/// The numbers of the writes that fail, the most that one write takes (0: no limit), the pieces,
/// what the sink then took, and whether the last piece was taken whole.
const PIECES: [(&[u64], usize, &[&str], &str, bool); 7] = [
    (&[], 0, &["ab", "", "c"], "abc", true),
    (&[], 1, &["abc", "de"], "abcde", true),
    (&[], 2, &["abc"], "abc", true),
    (&[1], 0, &["abc"], "", false),
    (&[2], 0, &["ab", "cd"], "ab", false),
    (&[3], 1, &["abcd"], "ab", false),
    (&[1], 0, &[""], "", true),
];

#[test]
fn put_all_takes_whole_pieces_or_a_front(rt: HostRuntime) -> Result<(), Fail> {
    for (fails, most, pieces, taken, whole) in PIECES {
        let most = if most == 0 { None } else { Some(most) };
        let mut sink = MemorySink::new(rt.alloc(), Vec::from_slice(rt.alloc(), fails)?, most);
        let mut last = Ok(());
        for piece in pieces {
            last = put_all(&mut sink, piece.as_bytes());
        }
        assert_eq!(rt;
            sink.bytes(),
            taken.as_bytes(),
            "{pieces:?} with {fails:?} failing"
        );
        let wanted = if whole {
            Ok(())
        } else {
            Err(SinkFault::Failed)
        };
        assert_eq!(rt; last, wanted, "{pieces:?} with {fails:?} failing");
    }
    Ok(())
}

#[test]
fn a_clean_sink_takes_every_piece(rt: HostRuntime) -> Result<(), Fail> {
    let mut sink = CleanSink::new(rt.alloc());
    assert_eq!(rt; put_all(&mut sink, b"one "), Ok(()));
    assert_eq!(rt; sink.write(b"two"), Ok(3));
    assert_eq!(rt; sink.bytes(), b"one two".as_slice());
    Ok(())
}

/// The name that is fetched, the fetches that fail, and what the first two fetches answer. There
/// are `a.sv` with `module`, `long.sv` with 1,048,577 bytes and `full.sv` with one byte less.
const FETCHES: [(&str, &[u64], [Result<usize, FetchFault>; 2]); 6] = [
    ("a.sv", &[], [Ok(6), Ok(6)]),
    ("a.sv", &[1], [Err(FetchFault::Failed), Ok(6)]),
    ("a.sv", &[2], [Ok(6), Err(FetchFault::Failed)]),
    (
        "b.sv",
        &[],
        [Err(FetchFault::Failed), Err(FetchFault::Failed)],
    ),
    (
        "long.sv",
        &[2],
        [Err(FetchFault::TooLong), Err(FetchFault::Failed)],
    ),
    ("full.sv", &[], [Ok(1_048_576), Ok(1_048_576)]),
];

fn three_files(alloc: Global, fails: &[u64]) -> Result<MemoryFiles, Fail> {
    let mut files = MemoryFiles::new(alloc, Vec::from_slice(alloc, fails)?);
    for (name, content) in [("a.sv", "old"), ("a.sv", "module")] {
        let content = Vec::from_slice(alloc, content.as_bytes())?;
        files.add(String::from_str(alloc, name)?, content)?;
    }
    let full = vec![in alloc; b' '; 1_048_576]?;
    files.add(String::from_str(alloc, "full.sv")?, full)?;
    let long = vec![in alloc; b' '; 1_048_577]?;
    files.add(String::from_str(alloc, "long.sv")?, long)?;
    Ok(files)
}

#[test]
fn a_fetch_gives_the_newest_content_or_its_fault(rt: HostRuntime) -> Result<(), Fail> {
    for (name, fails, answers) in FETCHES {
        let mut files = three_files(rt.alloc(), fails)?;
        for wanted in answers {
            let mut into = Vec::new(rt.alloc());
            let answer = files
                .fetch(rt.alloc(), name, &mut into)
                .map(|()| into.len());
            assert_eq!(rt; answer, wanted, "{name} with {fails:?} failing");
        }
    }
    Ok(())
}
