//! Sources and sinks, in memory and over readers and writers of std.

use crate::asserts::same;
use cn_edge::{
    MemSink, MemSource, QuietSink, QuietSource, ReadEnd, StdSink, StdSource, read_all, write_all,
};
use std::collections::VecDeque;
use std::io::BufWriter;
use std::test::Fail;

const TEXT: [u8; 10] = *b"ten bytes.";

// The second call fails.
const FAILS: [bool; 2] = [false, true];

#[test]
fn reading_ends_with_the_source_or_past_the_limit_or_at_a_fault(
    rt: HostRuntime,
) -> Result<(), Fail> {
    let table: [(usize, &[bool], Option<ReadEnd>); 5] = [
        (10, &[], None),
        (11, &[false, false, false, false, false, true], None),
        (9, &[], Some(ReadEnd::TooLong)),
        (0, &[], Some(ReadEnd::TooLong)),
        (10, &FAILS, Some(ReadEnd::Failed)),
    ];
    for (limit, fails, end) in table {
        let mut source = MemSource::new(&TEXT, 3, fails);
        match read_all(rt.alloc(), &mut source, limit) {
            Ok(bytes) => {
                let found = (None, bytes.as_slice());
                same(&rt, &found, &(end, TEXT.as_slice()), &limit);
            }
            Err(found) => same(&rt, &Some(found), &end, &limit),
        }
    }
    Ok(())
}

#[test]
fn a_sink_that_fails_has_a_part(rt: HostRuntime) -> Result<(), Fail> {
    let table: [(usize, &[bool], &[u8]); 4] = [
        (64, &[], b"ten bytes."),
        (10, &[], b"ten bytes."),
        (9, &[], b"ten bytes"),
        (64, &FAILS, b"ten byte"),
    ];
    for (room, fails, written) in table {
        let mut sink = MemSink::new(vec![in rt.alloc(); 0u8; room]?, 8, fails);
        let whole = write_all(&mut sink, &TEXT).is_ok();
        let found = (whole, sink.bytes());
        same(&rt, &found, &(written.len() == 10, written), &room);
    }
    Ok(())
}

#[test]
fn readers_writers_and_what_never_fails(rt: HostRuntime) -> Result<(), Fail> {
    let mut quiet = QuietSource::new(&TEXT, 4);
    let Ok(all) = read_all(rt.alloc(), &mut quiet, 10) else {
        return Err("nothing was read".into());
    };
    same(&rt, &all.as_slice(), &TEXT.as_slice(), &"quiet");
    let mut reader = StdSource::new(VecDeque::from(TEXT.to_vec(rt.alloc())?));
    let Ok(all) = read_all(rt.alloc(), &mut reader, 10) else {
        return Err("nothing was read".into());
    };
    same(&rt, &all.as_slice(), &TEXT.as_slice(), &"standard");
    assert!(rt; write_all(&mut QuietSink::new(), &TEXT).is_ok());
    let mut bytes = VecDeque::new(rt.alloc());
    assert!(rt; write_all(&mut StdSink::new(&mut bytes), &TEXT).is_ok());
    same(&rt, &bytes.len(), &10, &"standard");
    Ok(())
}

// No clause tells what stays in a writer's buffer.
#[test]
fn what_is_written_is_flushed(rt: HostRuntime) -> Result<(), Fail> {
    let mut buffered = BufWriter::new(rt.alloc(), VecDeque::new(rt.alloc()))?;
    assert!(rt; write_all(&mut StdSink::new(&mut buffered), &TEXT).is_ok());
    same(&rt, &buffered.get_ref().len(), &10, &"buffered");
    Ok(())
}
