// What no clause says: that calls with ample memory succeed, also through their traits, and real files.
use crate::disk::{DiskSink, DiskSource};
use crate::memory::{MemSink, MemSource};
use crate::traits::{Gate, NoGate, Read, Sink, SinkFailed, Source};
use code_units::{Bytes, Files, NamedFile, NumberList, Text};
use std::alloc::{AllocError, Global};
use std::fs;
use std::test::Fail;

fn file(alloc: Global, name: &str, bytes: &[u8]) -> Result<NamedFile, AllocError> {
    Ok(NamedFile {
        name: Text::from_str(alloc, name)?,
        bytes: Bytes::from_slice(alloc, bytes)?,
    })
}

fn numbers(alloc: Global, from: &[u32]) -> Result<NumberList, AllocError> {
    Ok(NumberList::from_vec(Vec::from_slice(alloc, from)?))
}

// What a read answered, as text.
fn shown(read: &Read) -> &[u8] {
    match read {
        Read::Got(bytes) => bytes.as_slice(),
        Read::Absent => b"absent",
        Read::Failed => b"failed",
        Read::Memory => b"memory",
    }
}

fn read_named<S: Source>(source: &mut S, alloc: Global, name: &str) -> Read {
    source.read(alloc, name, 100)
}

fn put_and_say<K: Sink>(sink: &mut K, name: &str, bytes: &[u8]) -> Result<(), SinkFailed> {
    sink.put(name, bytes)?;
    sink.say(bytes)
}

#[test]
fn source_in_memory(rt: HostRuntime) -> Result<(), Fail> {
    let alloc = rt.alloc();
    let mut files = Files::new(alloc);
    files.push(NamedFile {
        name: Text::from_slice(alloc, &[0xD800])?,
        bytes: Bytes::from_slice(alloc, b"no name")?,
    })?;
    files.push(file(alloc, "a😀.dart", b"main(){}")?)?;
    let mut source = MemSource::new(files, numbers(alloc, &[3])?);
    assert_eq!(rt;
        shown(&read_named(&mut source, alloc, "a😀.dart")),
        b"main(){}".as_slice()
    );
    assert_eq!(rt;
        shown(&source.read(alloc, "a😀.dart", 4)),
        b"main".as_slice()
    );
    assert_eq!(rt;
        shown(&source.read(alloc, "a😀.dart", 4)),
        b"failed".as_slice()
    );
    assert_eq!(rt; shown(&source.read(alloc, "a", 4)), b"absent".as_slice());
    assert_eq!(rt;
        shown(&source.read(alloc, "\u{FFFD}", 4)),
        b"absent".as_slice()
    );
    Ok(())
}

#[test]
fn sink_in_memory(rt: HostRuntime) -> Result<(), Fail> {
    let alloc = rt.alloc();
    let mut files = Files::new(alloc);
    files.push(file(alloc, "b", b"old")?)?;
    let mut sink = MemSink::new(alloc, files, 2, 20, numbers(alloc, &[4])?)?;
    assert_eq!(rt; put_and_say(&mut sink, "a", b"12"), Ok(()));
    assert_eq!(rt; sink.put("b", b"345"), Ok(()));
    assert_eq!(rt; sink.say(b"listed"), Err(SinkFailed));
    assert_eq!(rt; sink.put("c", b""), Err(SinkFailed), "a third put");
    assert_eq!(rt; sink.say(b"67890123456"), Ok(()), "eleven bytes are left");
    assert_eq!(rt; sink.say(b"7"), Err(SinkFailed));
    assert_eq!(rt; sink.say(b""), Ok(()));
    assert_eq!(rt; sink.said(), b"1267890123456".as_slice());
    assert_eq!(rt; sink.files().len(), 2);
    let files = sink.into_files();
    for held in files.as_slice() {
        let wanted = if held.name.is("a") {
            b"12".as_slice()
        } else {
            b"345".as_slice()
        };
        assert_eq!(rt; held.bytes.as_slice(), wanted);
    }
    Ok(())
}

#[test]
fn each_put_within_the_room_finds_its_place(rt: HostRuntime) -> Result<(), Fail> {
    let alloc = rt.alloc();
    let none = NumberList::new(alloc);
    let mut sink = MemSink::new(alloc, Files::new(alloc), 4, 12, none)?;
    assert_eq!(rt; sink.put("a", b""), Ok(()));
    assert_eq!(rt; sink.put("b", b"1"), Ok(()));
    assert_eq!(rt; sink.put("c", b"1234567"), Ok(()));
    assert_eq!(rt; sink.put("d", b"1"), Err(SinkFailed), "one byte is left");
    assert_eq!(rt; sink.put("d", b""), Ok(()));
    Ok(())
}

#[test]
fn real_files(rt: HostRuntime) -> Result<(), Fail> {
    let name = "outside_real_files.tmp";
    let alloc = rt.alloc();
    let mut sink = DiskSink::new(&rt);
    assert_eq!(rt; put_and_say(&mut sink, name, b"one line\n"), Ok(()));
    let mut source = DiskSource::new(&rt);
    assert_eq!(rt;
        shown(&read_named(&mut source, alloc, name)),
        b"one line\n".as_slice()
    );
    assert_eq!(rt; shown(&source.read(alloc, name, 3)), b"one".as_slice());
    assert_eq!(rt; sink.put(name, b"x"), Ok(()));
    assert_eq!(rt; shown(&source.read(alloc, name, 3)), b"x".as_slice());
    fs::remove_file(&rt, name)?;
    assert_eq!(rt; shown(&source.read(alloc, name, 3)), b"absent".as_slice());
    assert_eq!(rt; shown(&source.read(alloc, ".", 3)), b"failed".as_slice());
    assert_eq!(rt; sink.put(".", b"x"), Err(SinkFailed));
    Ok(())
}

#[test]
fn a_gate_that_does_nothing() {
    NoGate.arrive(0, 0);
}
