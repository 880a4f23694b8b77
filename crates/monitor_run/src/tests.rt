//! Runs over memory.
ghost use Rattle.std.specs.Prelude.{◌≡◌, ◌≤◌, ◌<◌, All, IfOk};

use crate::rows::{
    ACCESS, Case, FORMS, NAME_FAULTS, OPTIONS, PROPERTIES, QUANTIFIED, RECORD_FAULTS, SINCE,
    SPEC_FAULTS, TIME_FAULTS, TIMED,
};
use crate::run;
use mon_base::{MemFile, MemFiles, MemSink, NoMemory, Steps};
use run_model::{End, Outcome};
use std::alloc::Global;
use std::marker::Brand;
use std::sync::ledger::{Blank, Ledger};
use std::test::Fail;

/// So many pieces of this size.
fn pieces_of(alloc: Global, size: usize, count: usize) -> Result<Vec<usize>, NoMemory>
    requires { 1 ≤ size }
    ensures { IfOk result (λ pieces. All (λ n. 1 ≤ n) pieces.items) }
{
    let mut pieces = Vec::new(alloc);
    for _ in 0..count {
        pieces.push(size)?;
    }
    Ok(pieces)
}

/// A file that gives its bytes in pieces of this size, to its end, and fails once at this byte.
fn file_of(
    alloc: Global,
    name: &str,
    text: &str,
    size: usize,
    fail_at: Option<u64>,
) -> Result<MemFile, NoMemory>
    requires { 1 ≤ size }
    ensures { IfOk result (λ f. All (λ n. 1 ≤ n) f.pieces.items) }
{
    let mut failures = Vec::new(alloc);
    if let Some(place) = fail_at {
        failures.push(place)?;
    }
    Ok(MemFile {
        name: String::from_str(alloc, name)?,
        bytes: Vec::from_slice(alloc, text.as_bytes())?,
        pieces: pieces_of(alloc, size, text.len() / size + 1)?,
        fail_at: failures,
        refuse: false,
    })
}

/// The files `s` and `l`.
fn files_of(alloc: Global, spec: MemFile, log: MemFile) -> Result<MemFiles, NoMemory>
    requires spec { All (λ n. 1 ≤ n) spec.pieces.items }
    requires log { All (λ n. 1 ≤ n) log.pieces.items }
{
    let mut files = Vec::new(alloc);
    files.push(spec)?;
    files.push(log)?;
    Ok(MemFiles::new(alloc, files))
}

/// Sizes that suffice where a test says nothing else, and are quickly taken.
const AMPLE: &str = "--bits=8 --nodes=1000 --cache=4000";

/// The words of a command line: options with a space between them, and then the others.
fn words_of(alloc: Global, options: &str, others: &[&str]) -> Result<Vec<String>, NoMemory> {
    let mut words = Vec::new(alloc);
    for word in options.split(' ') {
        if !word.is_empty() {
            words.push(String::from_str(alloc, word)?)?;
        }
    }
    for word in others {
        words.push(String::from_str(alloc, word)?)?;
    }
    Ok(words)
}

fn run_in<L: Ledger>(
    alloc: Global,
    words: &[String],
    files: &mut MemFiles,
    out: &mut MemSink,
    blank: Blank,
) -> Outcome
    requires name { blank.name ≡ L.name }
    requires parts { blank.parts ≡ L.parts }
    requires some { 0 < L.parts }
{
    let mut steps = Steps::<L>::new(blank);
    run(alloc, words, files, out, &mut steps)
}

/// The outcome of a run with these options and words over these files.
fn run_over(
    alloc: Global,
    options: &str,
    others: &[&str],
    files: &mut MemFiles,
    out: &mut MemSink,
) -> Result<Outcome, NoMemory> {
    let words = words_of(alloc, options, others)?;
    Ok(run_in::<Brand>(alloc, words.as_slice(), files, out, Blank::new(1)))
}

/// Whether a run with these options gives this report and status, where the files give their bytes in such pieces.
fn gives(alloc: Global, options: &str, case: &Case, piece: usize) -> Result<bool, NoMemory>
    requires { 1 ≤ piece }
{
    let spec = file_of(alloc, "s", case.1, piece, None)?;
    let log = file_of(alloc, "l", case.2, piece, None)?;
    let mut files = files_of(alloc, spec, log)?;
    let mut out = MemSink::open(alloc, 1000)?;
    // A sample stands in place of the log.
    let others: &[&str] = if options.contains("--sample") {
        &["s"]
    } else {
        &["s", "l"]
    };
    let outcome = run_over(alloc, options, others, &mut files, &mut out)?;
    Ok(out.bytes() == case.3.as_bytes() && outcome.status == case.4)
}

/// Whether it does in pieces of each of three sizes.
fn always_gives(alloc: Global, options: &str, case: &Case) -> Result<bool, NoMemory> {
    for piece in [1usize, 7, 1000] {
        if !gives(alloc, options, case, piece)? {
            return Ok(false);
        }
    }
    Ok(true)
}

#[test]
fn reports_in_pieces_of_any_size(rt: HostRuntime) -> Result<(), Fail> {
    for cases in [
        FORMS,
        RECORD_FAULTS,
        PROPERTIES,
        QUANTIFIED,
        TIMED,
        TIME_FAULTS,
        NAME_FAULTS,
        SPEC_FAULTS,
    ] {
        for case in cases {
            assert!(rt; always_gives(rt.alloc(), AMPLE, case)?, "{}", case.0);
        }
    }
    for (options, case) in OPTIONS {
        assert!(rt; always_gives(rt.alloc(), options, case)?, "{}", case.0);
    }
    Ok(())
}

#[test]
fn the_usual_sizes_are_large(rt: HostRuntime) -> Result<(), Fail> {
    let alloc = rt.alloc();
    let mut log = Vec::new(alloc);
    for _ in 0..300 {
        log.extend_from_slice(
            b"login,ann\nlogin,bob\nlogin,cy\nlogin,dee\nlogin,eve\nlogout,ann\naccess,ann\n",
        )?;
    }
    let spec = file_of(
        alloc,
        "s",
        "prop a : ! exists u . access(u) & ! [login(u), logout(u))",
        1000,
        None,
    )?;
    let log = large_file(alloc, "l", log, 30_000)?;
    let mut files = files_of(alloc, spec, log)?;
    let mut out = MemSink::open(alloc, 10_000)?;
    let outcome = run_over(alloc, "", &["s", "l"], &mut files, &mut out)?;
    assert_eq!(rt; outcome.end, End::Violated { count: 300 });
    assert_eq!(rt; outcome.status, 1);
    Ok(())
}

/// The report of the access property on two hundred thousand events of the sample of seed 7: a user who has logged out
/// comes back once in a thousand rounds of four events.
fn sample_report(alloc: Global) -> Result<Vec<u8>, NoMemory> {
    let mut report = Vec::new(alloc);
    for j in 0..50u32 {
        let event = 3976 + 4000 * j;
        let user = 793 + 1000 * j;
        let line = format!(in alloc; "violation {event} access u=\"u{user}\"\n")?;
        report.extend_from_slice(line.as_bytes())?;
    }
    report.extend_from_slice(b"events 200000 violations 50\n")?;
    Ok(report)
}

#[test]
fn a_large_sample_has_its_report(rt: HostRuntime) -> Result<(), Fail> {
    let alloc = rt.alloc();
    let options = "--bits 8 --nodes 65536 --sample 7,200000";
    let spec = file_of(alloc, "s", ACCESS, 1000, None)?;
    let log = file_of(alloc, "l", "", 1, None)?;
    let mut files = files_of(alloc, spec, log)?;
    let mut out = MemSink::open(alloc, 10_000)?;
    let outcome = run_over(alloc, options, &["s"], &mut files, &mut out)?;
    let report = sample_report(alloc)?;
    assert_eq!(rt; out.bytes(), report.as_slice());
    assert_eq!(rt; outcome.end, End::Violated { count: 50 });
    Ok(())
}

#[test]
fn faults_stop_a_run_with_their_line(rt: HostRuntime) -> Result<(), Fail> {
    let alloc = rt.alloc();
    let log = "go,a\nstop,a\n";
    let usage = "stopped: usage: dejavu [--bits B] [--nodes N] [--cache C] [--limit L] [--all] \
[--listen NAMES] [--sample SEED,EVENTS] SPEC [LOG]\n";
    let no_spec = "stopped: cannot open the specification\n";
    let no_log = "stopped: cannot open the log\n";
    let bad_spec = "stopped: read fault in the specification\n";
    let bad_log = "stopped: read fault in the log\n";
    let late_log = "violation 2 r\nstopped: read fault in the log\n";
    let cases: [(&[&str], Option<u64>, Option<u64>, &str, u8); 20] = [
        (&[], None, None, usage, 2),
        (&["s"], None, None, usage, 2),
        (&["s", "l", "l"], None, None, usage, 2),
        (&["-", "-"], None, None, usage, 2),
        (&["--help"], None, None, usage, 2),
        (&["--limit=0", "s", "l"], None, None, usage, 2),
        (&["--nodes=5", "s", "l"], None, None, usage, 2),
        (&["--all", "--all", "s", "l"], None, None, usage, 2),
        (&["--sample=1,2", "s", "l"], None, None, usage, 2),
        (&["--sample=1,0", "s"], None, None, usage, 2),
        (&["--listen=tally", "s", "l"], None, None, usage, 2),
        (&["--listen=", "s", "l"], None, None, usage, 2),
        (&["--sample=1,2", "x"], None, None, no_spec, 6),
        (&["--sample=1,2", "s"], Some(0), None, bad_spec, 6),
        (&["x", "y"], None, None, no_spec, 6),
        (&["s", "y"], None, None, no_log, 6),
        (&["s", "l"], Some(0), None, bad_spec, 6),
        (&["s", "l"], Some(33), None, bad_spec, 6),
        (&["s", "l"], None, Some(0), bad_log, 6),
        (&["s", "l"], None, Some(12), late_log, 6),
    ];
    for (words, spec_fails, log_fails, report, status) in cases {
        for size in [1usize, 1000] {
            let spec = file_of(alloc, "s", SINCE, size, spec_fails)?;
            let log = file_of(alloc, "l", log, size, log_fails)?;
            let mut files = files_of(alloc, spec, log)?;
            let mut out = MemSink::open(alloc, 1000)?;
            let outcome = run_over(alloc, AMPLE, words, &mut files, &mut out)?;
            assert_eq!(rt; out.bytes(), report.as_bytes());
            assert_eq!(rt; outcome.status, status, "at {report}");
        }
    }
    Ok(())
}

#[test]
fn a_full_output_keeps_a_front_of_the_report(rt: HostRuntime) -> Result<(), Fail> {
    let alloc = rt.alloc();
    let report = "violation 2 r\nviolation 3 r\nevents 3 violations 2\n".as_bytes();
    for size in [1usize, 1000] {
        for room in 0..report.len() {
            let spec = file_of(alloc, "s", SINCE, size, None)?;
            let log = file_of(alloc, "l", "go,a\nstop,a\nstop,a\n", size, None)?;
            let mut files = files_of(alloc, spec, log)?;
            let mut out = MemSink::open(alloc, room)?;
            let outcome = run_over(alloc, AMPLE, &["s", "l"], &mut files, &mut out)?;
            assert_eq!(rt; out.bytes(), &report[..room]);
            assert_eq!(rt; outcome.end, End::WriteFault);
            assert_eq!(rt; outcome.status, 6);
        }
    }
    Ok(())
}

/// A head, so many times a byte, and a tail.
fn filled(
    alloc: Global,
    head: &[u8],
    byte: u8,
    count: usize,
    tail: &[u8],
) -> Result<Vec<u8>, NoMemory> {
    let mut text = Vec::from_slice(alloc, head)?;
    for _ in 0..count {
        text.push(byte)?;
    }
    text.extend_from_slice(tail)?;
    Ok(text)
}

/// A file that gives these bytes, the first forty times in pieces of this size.
fn large_file(alloc: Global, name: &str, bytes: Vec<u8>, size: usize) -> Result<MemFile, NoMemory>
    requires { 1 ≤ size }
    ensures { IfOk result (λ f. All (λ n. 1 ≤ n) f.pieces.items) }
{
    Ok(MemFile {
        name: String::from_str(alloc, name)?,
        bytes,
        pieces: pieces_of(alloc, size, 40)?,
        fail_at: Vec::new(alloc),
        refuse: false,
    })
}

#[test]
fn limits_are_met_and_not_passed(rt: HostRuntime) -> Result<(), Fail> {
    let alloc = rt.alloc();
    let kept = "violation 1 r\nevents 1 violations 1\n";
    let long = "stopped: record too long at record 1\n";
    let many = "stopped: too many fields at record 1\n";
    let cases: [(&[u8], u8, usize, &str); 8] = [
        (b"a", b'a', 65_535, kept),
        (b"a", b'a', 65_536, long),
        (b"a", b'a', 300_000, long),
        (b"a", b',', 63, kept),
        (b"a", b',', 64, many),
        (b"a", b',', 66_000, many),
        (b"a", b'~', 1, kept),
        (b"a,\"", b'\n', 66_000, long),
    ];
    for (head, byte, count, report) in cases {
        let log = filled(alloc, head, byte, count, b"\n")?;
        let spec = file_of(alloc, "s", "prop r : z()", 1000, None)?;
        let log = large_file(alloc, "l", log, 30_000)?;
        let mut files = files_of(alloc, spec, log)?;
        let mut out = MemSink::open(alloc, 1000)?;
        run_over(alloc, AMPLE, &["s", "l"], &mut files, &mut out)?;
        assert_eq!(rt; out.bytes(), report.as_bytes(), "{count}");
    }
    Ok(())
}

#[test]
fn a_specification_keeps_its_limits(rt: HostRuntime) -> Result<(), Fail> {
    let alloc = rt.alloc();
    let kept = "violation 1 r\nevents 1 violations 1\n";
    let too_long = "stopped: specification longer than 1048576 bytes\n";
    let cases: [(&[u8], u8, usize, &[u8], &str, u8); 6] = [
        (b"prop r : z()", b' ', 1_048_564, b"", kept, 1),
        (b"prop r : z()", b' ', 1_048_565, b"", too_long, 3),
        (b"", b' ', 1_048_576, b"", "stopped: no property\n", 3),
        (b"", b' ', 1_048_577, b"", too_long, 3),
        (
            b"prop r : ",
            b'!',
            255,
            b"z()",
            "events 1 violations 0\n",
            0,
        ),
        (
            b"prop r : ",
            b'!',
            256,
            b"z()",
            "stopped: too deep at token 258\n",
            3,
        ),
    ];
    for (head, byte, count, tail, report, status) in cases {
        for size in [1usize, 30_000] {
            let spec = filled(alloc, head, byte, count, tail)?;
            let spec = large_file(alloc, "s", spec, size)?;
            let log = file_of(alloc, "l", "a\n", size, None)?;
            let mut files = files_of(alloc, spec, log)?;
            let mut out = MemSink::open(alloc, 1000)?;
            let outcome = run_over(alloc, AMPLE, &["s", "l"], &mut files, &mut out)?;
            assert_eq!(rt; out.bytes(), report.as_bytes(), "{count}");
            assert_eq!(rt; outcome.status, status, "{count}");
        }
    }
    Ok(())
}
