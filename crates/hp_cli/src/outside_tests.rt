// Tests of the outside: what the machine does, of which no clause speaks, and that all bytes can be put.

use hp_outside::files::host::HostFiles;
use hp_outside::files::{FileError, Files};
use hp_outside::sinks::host::HostSink;
use hp_outside::sinks::memory::MemSink;
use hp_outside::sinks::{Sink, put_all};
use hp_word::name::Name;
use hp_word::place::NoMemory;
use std::alloc::{AllocError, Global};
use std::fs;
use std::io::Cursor;
use std::test::Fail;

// A sink with so much room, of which the second call fails.
fn sink(alloc: Global, room: usize) -> Result<MemSink, NoMemory> {
    MemSink::new(alloc, room, [2].to_vec(alloc)?)
}

// Whether a sink holds these bytes, and so many of its calls failed.
fn holds(sink: &MemSink, bytes: &[u8], faults: u64) -> bool {
    sink.bytes() == bytes && sink.fault_count() == faults
}

// Whether all of the bytes can be put.
fn takes_all(sink: &mut impl Sink, bytes: &[u8]) -> bool {
    put_all(sink, bytes).is_ok()
}

#[test]
fn puts_all(rt: HostRuntime) -> Result<(), Fail> {
    let alloc = rt.alloc();
    let mut sink = sink(alloc, 6)?;
    for (at, (bytes, taken)) in [
        // No bytes are no call.
        (b"".as_slice(), true),
        (b"abc".as_slice(), true),
        // The second call.
        (b"d".as_slice(), false),
        // There is room for three.
        (b"defg".as_slice(), false),
        (b"def".as_slice(), true),
    ]
    .into_iter()
    .enumerate()
    {
        assert!(rt; takes_all(&mut sink, bytes) == taken, "put {at}");
    }
    assert!(rt; holds(&sink, b"abcdef", 2));
    Ok(())
}

#[test]
fn writes_host(rt: HostRuntime) {
    let mut whole = HostSink::new(Vec::new(rt.alloc()));
    assert!(rt; takes_all(&mut whole, b"ab"));
    assert!(rt; takes_all(&mut whole, b"cde"));
    assert!(rt; whole.into_writer().as_slice() == b"abcde".as_slice());
}

// A writer that takes four of six bytes, and then none.
#[test]
fn writes_short_host(rt: HostRuntime) {
    let mut short = HostSink::new(Cursor::new([0u8; 4]));
    assert!(rt; !takes_all(&mut short, b"abcdef"));
    assert!(rt; takes_all(&mut short, b""));
    assert!(rt; short.into_writer().into_inner().as_slice() == b"abcd".as_slice());
}

// So many bytes, and another one.
fn long_file(alloc: Global, size: usize) -> Result<Vec<u8>, AllocError> {
    let mut bytes = vec![in alloc; 7u8; size]?;
    bytes.push(9)?;
    Ok(bytes)
}

// Whether a read up to `limit` gave the first `want` bytes of a file.
fn gives(
    alloc: Global,
    files: &mut impl Files,
    name: &Name,
    limit: u64,
    file: &[u8],
    want: usize,
) -> bool {
    match files.read(alloc, name, limit) {
        Ok(bytes) => bytes.len() == want && file.starts_with(bytes.as_slice()),
        Err(_) => false,
    }
}

// The first limit up to which a read of a file of 70,001 bytes gave something else than its front.
fn first_other(alloc: Global, files: &mut impl Files, name: &Name, file: &[u8]) -> Option<u64> {
    for (limit, want) in [
        (0, 0),
        (65_536, 65_536),
        (70_000, 70_000),
        (70_001, 70_001),
        (u64::MAX, 70_001),
    ] {
        if !gives(alloc, files, name, limit, file, want) {
            return Some(limit);
        }
    }
    None
}

// Whether a read of this name fails.
fn fails(alloc: Global, files: &mut impl Files, name: &[u8]) -> Result<bool, NoMemory> {
    let name = Name::of(alloc, name)?;
    Ok(files.read(alloc, &name, 9) == Err(FileError::Failed))
}

#[test]
fn reads_host(rt: HostRuntime) -> Result<(), Fail> {
    let alloc = rt.alloc();
    // Longer than one read asks for.
    let bytes = long_file(alloc, 70_000)?;
    let path = "outside-reads-host.txt";
    fs::write(&rt, path, bytes.as_slice())?;
    let name = Name::of(alloc, path.as_bytes())?;
    let mut files = HostFiles::new(&rt);
    assert_eq!(rt; first_other(alloc, &mut files, &name, &bytes), None);
    fs::remove_file(&rt, path)?;
    assert!(rt; fails(alloc, &mut files, path.as_bytes())?, "no file");
    assert!(rt; fails(alloc, &mut files, b"\xff")?, "no text");
    Ok(())
}
