//! What no clause says: that calls succeed where memory is ample, and what the host's adapters do.

ghost use Rattle.std.specs.Prelude.{◌≡◌, ◌∷◌, [], ◌≤◌, ◌<◌, IfOk, IsSome};

use crate::{
    Failed, Files, HostFiles, MemFile, MemFiles, MemSink, NoMemory, OpenEnd, OutSink, Sink, Source,
    SteadySource, Steps, put_all,
};
use std::alloc::Global;
use std::fs;
use std::marker::Brand;
use std::sync::ledger::{Blank, Ledger};
use std::test::Fail;

/// A file that gives two bytes at its first read, and fails once behind them.
fn file_of(alloc: Global, name: &str, refuse: bool) -> Result<MemFile, NoMemory>
    ensures { IfOk result (λ f. f.pieces.items ≡ 2 ∷ []) }
{
    Ok(MemFile {
        name: String::from_str(alloc, name)?,
        bytes: b"abcdef".to_vec(alloc)?,
        pieces: vec![in alloc; 2]?,
        fail_at: vec![in alloc; 2]?,
        refuse,
    })
}

fn two_files(alloc: Global) -> Result<MemFiles, NoMemory>
    ensures { IfOk result (λ f. f.lent ≡ 0) }
{
    let files = vec![in alloc;
        file_of(alloc, "log", false)?,
        file_of(alloc, "shut", true)?,
    ]?;
    Ok(MemFiles::new(alloc, files))
}

#[test]
fn memory_gives_pieces_and_failures(rt: HostRuntime) -> Result<(), Fail> {
    let mut files = two_files(rt.alloc())?;
    for name in ["nowhere", "shut"] {
        assert_eq!(rt; files.open(name).err(), Some(OpenEnd::Failed), "{name}");
    }
    let mut source = files.open("log")?;
    let mut buf = [0; 5];
    assert_eq!(rt; source.read(&mut buf), Ok(2));
    assert_eq!(rt; source.read(&mut buf), Err(Failed));
    assert!(rt; source.has_failed());
    assert_eq!(rt; source.read(&mut buf), Ok(4));
    assert_eq!(rt; &buf[..4], b"cdef".as_slice());
    assert_eq!(rt; source.read(&mut buf), Ok(0));
    files.close(source);
    Ok(())
}

/// Takes only files that tell all their meanings.
fn takes_told_files<F: Files>(_files: &F)
    requires texts { IsSome (F.texts _files.now) }
    requires opened { IsSome (F.opened _files.now) }
    requires unread { IsSome (F.unread _files.now) }
    requires hurt { IsSome (F.hurt _files.now) }
{}

#[test]
fn memory_tells_all_and_is_closed_in_any_order(rt: HostRuntime) -> Result<(), Fail> {
    let mut files = two_files(rt.alloc())?;
    takes_told_files(&files);
    let first = files.open("log")?;
    assert_eq!(rt; files.open("shut").err(), Some(OpenEnd::Failed));
    let mut second = files.open("log")?;
    let mut buf = [0; 5];
    assert_eq!(rt; second.read(&mut buf), Ok(2));
    files.close(second);
    let third = files.open("log")?;
    files.close(first);
    files.close(third);
    takes_told_files(&files);
    Ok(())
}

#[test]
fn a_steady_source_gives_pieces(rt: HostRuntime) -> Result<(), Fail> {
    let pieces = vec![in rt.alloc(); 2, 1]?;
    let mut source = SteadySource::new(b"abcdef".to_vec(rt.alloc())?, pieces);
    let mut buf = [0; 5];
    for wanted in [
        b"ab".as_slice(),
        b"c".as_slice(),
        b"def".as_slice(),
        b"".as_slice(),
    ] {
        assert_eq!(rt; source.read(&mut buf), Ok(wanted.len()));
        assert_eq!(rt; &buf[..wanted.len()], wanted);
    }
    Ok(())
}

#[test]
fn a_full_sink_keeps_the_front(rt: HostRuntime) -> Result<(), Fail> {
    let mut sink = MemSink::open(rt.alloc(), 3)?;
    assert_eq!(rt; put_all(&mut sink, b"hello"), Err(Failed));
    assert_eq!(rt; sink.bytes(), b"hel".as_slice());
    let mut roomy = MemSink::open(rt.alloc(), 5)?;
    assert_eq!(rt; put_all(&mut roomy, b"hello"), Ok(()));
    assert_eq!(rt; roomy.bytes(), b"hello".as_slice());
    Ok(())
}

#[test]
fn the_host_gives_a_file_and_standard_input(rt: HostRuntime) -> Result<(), Fail> {
    fs::write(&rt, "mon_base_test.txt", "first\nlast")?;
    let mut files = HostFiles::new(rt);
    assert!(rt; files.open("mon_base_no_such_file.txt").is_err());
    let mut source = files.open("mon_base_test.txt")?;
    let mut buf = [0; 7];
    assert_eq!(rt; source.read(&mut buf), Ok(7));
    assert_eq!(rt; buf.as_slice(), b"first\nl".as_slice());
    assert_eq!(rt; source.read(&mut buf), Ok(3));
    assert_eq!(rt; &buf[..3], b"ast".as_slice());
    assert_eq!(rt; source.read(&mut buf), Ok(0));
    files.close(source);
    let standard_input = files.open("-")?;
    files.close(standard_input);
    Ok(())
}

#[test]
fn standard_output_takes_a_line(rt: HostRuntime) {
    let mut out = OutSink::new(rt);
    assert_eq!(rt; out.write(b"a line\n"), Ok(7));
    assert_eq!(rt; put_all(&mut out, b"another line\n"), Ok(()));
}

/// Two steps in this ledger.
fn two_steps<L: Ledger>(blank: Blank)
    requires name { blank.name ≡ L.name }
    requires parts { blank.parts ≡ L.parts }
    requires some { 0 < L.parts }
{
    let mut steps = Steps::<L>::new(blank);
    steps.tick();
    steps.tick();
}

#[test]
fn steps_are_made_with_a_brand() {
    two_steps::<Brand>(Blank::new(1));
}
