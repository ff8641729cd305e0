use crate::{Failed, MemSink, MemSource, Sink, Source};
use std::alloc::{AllocError, Global};
use std::test::Fail;

// What one read gave, of room for three bytes.
fn give<S: Source>(alloc: Global, source: &mut S) -> Result<Result<Vec<u8>, Failed>, AllocError> {
    let mut into = [0; 3];
    match source.read(&mut into) {
        Ok(count) => Ok(Ok(Vec::from_slice(alloc, &into[..count])?)),
        Err(failed) => Ok(Err(failed)),
    }
}

// Offers all of a text, where there is room for it.
fn offer<K: Sink>(sink: &mut K, text: &[u8]) -> Result<Result<usize, Failed>, AllocError> {
    sink.reserve(text.len())?;
    Ok(sink.write(text))
}

#[test]
fn a_source_gives_pieces_and_fails_at_the_reads_listed(rt: HostRuntime) -> Result<(), Fail> {
    let alloc = rt.alloc();
    let cases: [(usize, [Result<&[u8], Failed>; 6]); 3] = [
        (
            1,
            [
                Ok(b"a"),
                Err(Failed),
                Ok(b"b"),
                Err(Failed),
                Ok(b"c"),
                Ok(b"d"),
            ],
        ),
        (
            2,
            [
                Ok(b"ab"),
                Err(Failed),
                Ok(b"cd"),
                Err(Failed),
                Ok(b"e"),
                Ok(b""),
            ],
        ),
        (
            9,
            [
                Ok(b"abc"),
                Err(Failed),
                Ok(b"de"),
                Err(Failed),
                Ok(b""),
                Ok(b""),
            ],
        ),
    ];
    for (piece, reads) in cases {
        let bytes = Vec::from_slice(alloc, b"abcde".as_slice())?;
        let fails = Vec::from_slice(alloc, [3, 1, 1, 900].as_slice())?;
        let mut source = MemSource::new(bytes, piece, fails);
        for want in reads {
            match (give(alloc, &mut source)?, want) {
                (Ok(given), Ok(bytes)) => assert_eq!(rt; given.as_slice(), bytes),
                (given, want) => assert_eq!(rt; given.is_err(), want.is_err()),
            }
        }
    }
    Ok(())
}

#[test]
fn a_sink_takes_pieces_and_fails_at_the_writes_listed(rt: HostRuntime) -> Result<(), Fail> {
    let alloc = rt.alloc();
    let fails = Vec::from_slice(alloc, [2, 0].as_slice())?;
    let mut sink = MemSink::new(alloc, 2, fails);
    for (text, taken, bytes) in [
        ("abc", Err(Failed), ""),
        ("abc", Ok(2), "ab"),
        ("c", Err(Failed), "ab"),
        ("c", Ok(1), "abc"),
        ("", Ok(0), "abc"),
        ("defg", Ok(2), "abcde"),
    ] {
        assert_eq!(rt; offer(&mut sink, text.as_bytes())?, taken);
        assert_eq!(rt; sink.bytes(), bytes.as_bytes());
    }
    Ok(())
}
