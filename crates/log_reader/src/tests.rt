//! Records that were worked out by hand from the rules, each also read byte by byte.
ghost use Rattle.std.specs.Prelude.{◌≡◌, ◌≤◌};

use crate::{LogFault, LogReader};
use qtl_truth::Event;
use std::alloc::{AllocError, Global};
use std::test::Fail;

/// A reader, whether its log has times, how many events it gave at most, and whether its log has ended.
#[derive(Drop)]
struct Feeder {
    reader: LogReader,
    timed: bool,
    given: u64,
    ended: bool,
    ghost counted: { reader.given ≤ given },
    ghost told: { reader.ended ≡ ended },
}

impl Feeder {
    fn open(alloc: Global, timed: bool) -> Result<Feeder, AllocError> {
        Ok(Feeder {
            reader: LogReader::open(alloc, timed)?,
            timed,
            given: 0,
            ended: false,
        })
    }

    fn feed(&mut self, piece: &[u8]) -> Result<(), AllocError> {
        if self.ended {
            return Ok(());
        }
        self.reader.feed(piece)
    }

    fn end(&mut self) {
        self.reader.end();
        self.ended = true;
    }

    /// At most a million events.
    fn next(&mut self) -> Result<Option<Event>, LogFault> {
        if self.given >= 1_000_000 {
            return Ok(None);
        }
        self.given += 1;
        self.reader.next()
    }
}

/// Writes an event as its texts with a bar between two, its time in a timed log, and a semicolon.
fn show_event(out: &mut Vec<u8>, event: &Event, timed: bool) -> Result<(), AllocError> {
    out.extend_from_slice(event.name.bytes())?;
    for arg in event.args.as_slice() {
        out.push(b'|')?;
        out.extend_from_slice(arg.bytes())?;
    }
    if timed {
        let time = format!(in *out.allocator(); "@{}", event.time)?;
        out.extend_from_slice(time.as_bytes())?;
    }
    out.push(b';')?;
    Ok(())
}

fn fault_text(alloc: Global, fault: LogFault) -> Result<String, AllocError> {
    match fault {
        LogFault::QuoteOpen { number } => format!(in alloc; "QuoteOpen {number}"),
        LogFault::AfterQuote { number } => format!(in alloc; "AfterQuote {number}"),
        LogFault::RecordTooLong { number } => format!(in alloc; "RecordTooLong {number}"),
        LogFault::TooManyFields { number } => format!(in alloc; "TooManyFields {number}"),
        LogFault::EmptyName { number } => format!(in alloc; "EmptyName {number}"),
        LogFault::BadTime { number } => format!(in alloc; "BadTime {number}"),
        LogFault::TimeBack {
            number,
            before,
            now,
        } => format!(in alloc; "TimeBack {number} from {before} to {now}"),
        LogFault::NoMemory => format!(in alloc; "NoMemory"),
    }
}

/// Writes the events that are there, and the fault behind them if there is one. Says whether there is none.
fn drain(feeder: &mut Feeder, out: &mut Vec<u8>) -> Result<bool, AllocError> {
    for _ in 0..1_000 {
        match feeder.next() {
            Ok(Some(event)) => show_event(out, &event, feeder.timed)?,
            Ok(None) => return Ok(true),
            Err(fault) => {
                let text = fault_text(*out.allocator(), fault)?;
                out.extend_from_slice(text.as_bytes())?;
                return Ok(false);
            }
        }
    }
    Ok(true)
}

/// Reads a log in pieces of this size, and writes its events, and then its fault, or a point at its end.
fn read_in(alloc: Global, timed: bool, log: &[u8], size: usize) -> Result<Vec<u8>, AllocError> {
    let mut out = Vec::new(alloc);
    let mut feeder = Feeder::open(alloc, timed)?;
    for piece in log.chunks(size.max(1)) {
        feeder.feed(piece)?;
        if !drain(&mut feeder, &mut out)? {
            return Ok(out);
        }
    }
    feeder.end();
    if drain(&mut feeder, &mut out)? {
        out.push(b'.')?;
    }
    Ok(out)
}

#[test]
fn records_by_the_rules(rt: HostRuntime) -> Result<(), Fail> {
    let alloc = rt.alloc();
    let cases: [(&[u8], &[u8]); 74] = [
        // lines, blanks and fields without quotes
        (b"", b"."),
        (b"\n", b"."),
        (b"\n\n \t\r\n", b"."),
        (b"a\n", b"a;."),
        (b"a", b"a;."),
        (b"a\nb", b"a;b;."),
        (b"a,b\n", b"a|b;."),
        (b"a,b,c", b"a|b|c;."),
        (b" a , b \n", b"a|b;."),
        (b"\ta\t,\tb\t\n", b"a|b;."),
        (b"\ra\r,\rb\r", b"a|b;."),
        (b"a\r\nb\r\n", b"a;b;."),
        (b"a b,  c  d \n", b"a b|c  d;."),
        (b"a,\n", b"a|;."),
        (b"a,,b\n", b"a||b;."),
        (b"a, ,b", b"a||b;."),
        (b"a\n\nb\n", b"a;b;."),
        (b" \t\r\na", b"a;."),
        (b"a\n ", b"a;."),
        (b"\x0b\n\x0c\n", b"\x0b;\x0c;."),
        (b"\x00,\xff\x80", b"\x00|\xff\x80;."),
        (b"a,b\\", b"a|b\\;."),
        // quotes
        (b"\"a\"\n", b"a;."),
        (b"a,\"b\"\n", b"a|b;."),
        (b"a,\"b\",\"c\"", b"a|b|c;."),
        (b"a,\"b,c\"", b"a|b,c;."),
        (b"\"a,b\",c", b"a,b|c;."),
        (b"a,\"b\nc\"\nd", b"a|b\nc;d;."),
        (b"a,\"\n\"\n", b"a|\n;."),
        (b"a,\"b\"\"c\"", b"a|b\"c;."),
        (b"a,\"b\"\"c\"\"d\"", b"a|b\"c\"d;."),
        (b"a,\"\"\n", b"a|;."),
        (b"a,\"\"\"\"\n", b"a|\";."),
        (b"a,\"\"\"\"\"\"\n", b"a|\"\";."),
        (b"\"a\"\"\"", b"a\";."),
        (b"\"\"\"a\"", b"\"a;."),
        (b"a, \"b\" \t\r\n", b"a|b;."),
        (b" \"a\" ,\t\"b\"\t,c", b"a|b|c;."),
        (b"a,\" b \"", b"a| b ;."),
        (b"a,\"b\r\"\r\n", b"a|b\r;."),
        (b"a,\"\"\" \"\"\" \n", b"a|\" \";."),
        (b"a,b\"c\n", b"a|b\"c;."),
        (b"a,b\"c,d\"e", b"a|b\"c|d\"e;."),
        (b"a \"b\",c", b"a \"b\"|c;."),
        (b"a,b\"c\nd\"e", b"a|b\"c;d\"e;."),
        (b"a,\"b\"\r\n\r\n c", b"a|b;c;."),
        (b"a,\"b\",\n", b"a|b|;."),
        // the mark
        (b"\xef\xbb\xbfa", b"a;."),
        (b"\xef\xbb\xbf", b"."),
        (b"\xef\xbb\xbf\"a\"", b"a;."),
        (b"\xef\xbb", b"\xef\xbb;."),
        (b"\xef", b"\xef;."),
        (b"\xef\xbba", b"\xef\xbba;."),
        (b"\xefa\xbf", b"\xefa\xbf;."),
        (b"\xef\xbb\xbf\xef\xbb\xbfa", b"\xef\xbb\xbfa;."),
        (b"\n\xef\xbb\xbfa", b"\xef\xbb\xbfa;."),
        (
            b"\xef\xbb\xbf login , ann \r\n\naccess,\"ann\"\r\naccess,bob",
            b"login|ann;access|ann;access|bob;.",
        ),
        (b"\xef\xbb\xbf go , a \r\n\nstop,\"a\"", b"go|a;stop|a;."),
        // faults
        (b"a,\"b\"c\n", b"AfterQuote 1"),
        (b"a,\"b\" \"c\"", b"AfterQuote 1"),
        (b"a,\"b\"\tx", b"AfterQuote 1"),
        (b"a\nb,\"c\"d\n", b"a;AfterQuote 2"),
        (b"a\n\n \nb\n\"c\".", b"a;b;AfterQuote 3"),
        (b",x\n", b"EmptyName 1"),
        (b" ,x", b"EmptyName 1"),
        (b"\"\"\n", b"EmptyName 1"),
        (b"a\n \"\" ,\nb", b"a;EmptyName 2"),
        (b"\"a", b"QuoteOpen 1"),
        (b"a,\"b\nc,d\n", b"QuoteOpen 1"),
        (b"a,\"b\"\"", b"QuoteOpen 1"),
        (b"access,bob\nlogin,\"ann", b"access|bob;QuoteOpen 2"),
        (b",\"b", b"QuoteOpen 1"),
        (b",\"b\"c", b"AfterQuote 1"),
        (b",\nb,\"c\"d", b"EmptyName 1"),
    ];
    for (log, records) in cases {
        for size in [1, 2, 3, 1000] {
            let found = read_in(alloc, false, log, size)?;
            assert_eq!(rt; found.as_slice(), records, "{:?} in pieces of {size}", log);
        }
    }
    Ok(())
}

#[test]
fn timed_records_by_the_rules(rt: HostRuntime) -> Result<(), Fail> {
    let alloc = rt.alloc();
    let cases: [(&[u8], &[u8]); 52] = [
        // the last field is the time
        (b"", b"."),
        (b"p,5", b"p@5;."),
        (b"p,5\n", b"p@5;."),
        (b"p,\"5\"", b"p@5;."),
        (b"p, 5\t\r\n", b"p@5;."),
        (b"p,007", b"p@7;."),
        (b"p,0", b"p@0;."),
        (b"p,a,5", b"p|a@5;."),
        (b"p,4,5", b"p|4@5;."),
        (b"p,,5", b"p|@5;."),
        (b"p,\"a,6\",5", b"p|a,6@5;."),
        (b"5,5", b"5@5;."),
        (b"p,18446744073709551615", b"p@18446744073709551615;."),
        (b"p,000018446744073709551615", b"p@18446744073709551615;."),
        (b"\xef\xbb\xbfp,5", b"p@5;."),
        // no time
        (b"p", b"BadTime 1"),
        (b"5", b"BadTime 1"),
        (b"p,", b"BadTime 1"),
        (b"p,\"\"", b"BadTime 1"),
        (b"p,\" 5\"", b"BadTime 1"),
        (b"p,\"5 \"", b"BadTime 1"),
        (b"p,5x", b"BadTime 1"),
        (b"p,x5", b"BadTime 1"),
        (b"p,5 5", b"BadTime 1"),
        (b"p,+5", b"BadTime 1"),
        (b"p,-5", b"BadTime 1"),
        (b"p,5.0", b"BadTime 1"),
        (b"p,/", b"BadTime 1"),
        (b"p,:", b"BadTime 1"),
        (b"p,5,", b"BadTime 1"),
        (b"p,5,a", b"BadTime 1"),
        (b"p,18446744073709551616", b"BadTime 1"),
        (b"p,99999999999999999999", b"BadTime 1"),
        (b"p,184467440737095516150", b"BadTime 1"),
        (b"p,5\nq\n", b"p@5;BadTime 2"),
        // an empty name comes first
        (b",5", b"EmptyName 1"),
        (b",x", b"EmptyName 1"),
        (b"\"\"", b"EmptyName 1"),
        (b"p,5\n,4", b"p@5;EmptyName 2"),
        // times do not fall
        (b"p,5\nq,5\nr,6", b"p@5;q@5;r@6;."),
        (b"p,5\nq,4", b"p@5;TimeBack 2 from 5 to 4"),
        (b"p,5\nq,4\n", b"p@5;TimeBack 2 from 5 to 4"),
        (b"p,5\nq,16\nr,6\n", b"p@5;q@16;TimeBack 3 from 16 to 6"),
        (
            b"p,18446744073709551615\nq,0\n",
            b"p@18446744073709551615;TimeBack 2 from 18446744073709551615 to 0",
        ),
        (b"p,5\n\n \t\r\n\nq,6\r\n", b"p@5;q@6;."),
        (b"p,5\n\n \nq,4\n", b"p@5;TimeBack 2 from 5 to 4"),
        // the faults that have a place come first, and quotes that stay open
        (b"p,\"5\"x", b"AfterQuote 1"),
        (b"p,\"x\"y", b"AfterQuote 1"),
        (b"p,5\nq,\"4\"x\n", b"p@5;AfterQuote 2"),
        (b"p,5\nq,\"4", b"p@5;QuoteOpen 2"),
        (b",\"5", b"QuoteOpen 1"),
        (b"p,5\nq,4,\"r\nr,7\n", b"p@5;QuoteOpen 2"),
    ];
    for (log, records) in cases {
        for size in [1, 2, 3, 1000] {
            let found = read_in(alloc, true, log, size)?;
            assert_eq!(rt; found.as_slice(), records, "{:?} in pieces of {size}", log);
        }
    }
    Ok(())
}

/// A front, so many bytes of one kind, and what follows.
fn long_log(
    alloc: Global,
    front: &[u8],
    fill: u8,
    count: usize,
    behind: &[u8],
) -> Result<Vec<u8>, AllocError> {
    let mut log = Vec::from_slice(alloc, front)?;
    for _ in 0..count {
        log.push(fill)?;
    }
    log.extend_from_slice(behind)?;
    Ok(log)
}

/// The end of what was read: a fault, or the last event's length and a point.
fn last_part(text: &[u8]) -> &[u8] {
    match text.last() {
        Some(b'.') => b".",
        _ => text,
    }
}

#[test]
fn limits_of_lines_and_fields(rt: HostRuntime) -> Result<(), Fail> {
    let alloc = rt.alloc();
    let cases: [(&[u8], u8, usize, &[u8], &[u8]); 18] = [
        (b"", b'a', 65_536, b"\n", b"."),
        (b"", b'a', 65_536, b"", b"."),
        (b"", b'a', 65_537, b"\n", b"RecordTooLong 1"),
        (b"", b'a', 65_537, b"", b"RecordTooLong 1"),
        (b"", b'a', 65_536, b"\r\n", b"RecordTooLong 1"),
        (b"", b' ', 65_537, b"\n", b"RecordTooLong 1"),
        (b"", b' ', 65_536, b"\na", b"."),
        (b"\xef\xbb\xbf", b'a', 65_536, b"\n", b"."),
        (b"\xef\xbb\xbf", b'a', 65_537, b"\n", b"RecordTooLong 1"),
        (b"a,\"", b'b', 65_533, b"\n\"", b"RecordTooLong 1"),
        (b"a,\"", b'b', 65_533, b"", b"QuoteOpen 1"),
        (b"a,\"", b'b', 65_532, b"\"c", b"RecordTooLong 1"),
        (b"a,\"", b'b', 65_531, b"\"c\n", b"AfterQuote 1"),
        (b",", b'b', 65_536, b"\n", b"RecordTooLong 1"),
        (b"access", b',', 63, b"\n", b"."),
        (b"access", b',', 64, b"\n", b"TooManyFields 1"),
        (b",\"\"", b',', 63, b"", b"TooManyFields 1"),
        (b"a,\",,,,\"", b',', 62, b"b", b"."),
    ];
    for (front, fill, count, behind, end) in cases {
        let log = long_log(alloc, front, fill, count, behind)?;
        for size in [1, 4096, 100_000] {
            let found = read_in(alloc, false, log.as_slice(), size)?;
            assert_eq!(rt;
                last_part(found.as_slice()),
                end,
                "{count} bytes, in pieces of {size}"
            );
        }
    }
    Ok(())
}

#[test]
fn the_least_place_decides(rt: HostRuntime) -> Result<(), Fail> {
    let alloc = rt.alloc();
    // The 64th comma stands before byte 65,537, at it, and behind an open quote.
    let mut early = long_log(alloc, b"a", b',', 64, b"")?;
    early.append(&mut long_log(alloc, b"", b'b', 65_536, b"\n")?)?;
    let found = read_in(alloc, false, early.as_slice(), 1000)?;
    assert_eq!(rt; found.as_slice(), b"TooManyFields 1".as_slice());
    let mut late = long_log(alloc, b"a", b',', 63, b"")?;
    late.append(&mut long_log(alloc, b"", b'b', 65_472, b",\n")?)?;
    let found = read_in(alloc, false, late.as_slice(), 1000)?;
    assert_eq!(rt; found.as_slice(), b"RecordTooLong 1".as_slice());
    // A second line counts anew.
    let mut second = long_log(alloc, b"a\n", b'b', 65_536, b"\n")?;
    second.append(&mut long_log(alloc, b"", b'c', 65_537, b"")?)?;
    let found = read_in(alloc, false, second.as_slice(), 1000)?;
    assert!(rt; found.as_slice().starts_with(b"a;b"));
    assert!(rt; found.as_slice().ends_with(b";RecordTooLong 3"));
    Ok(())
}

#[test]
fn limits_come_before_times(rt: HostRuntime) -> Result<(), Fail> {
    let alloc = rt.alloc();
    let cases: [(&[u8], u8, usize, &[u8], &[u8]); 5] = [
        (b"p,5\nq", b',', 63, b"5\n", b"."),
        (b"p", b',', 63, b"\n", b"BadTime 1"),
        (b"p", b',', 64, b"\n", b"TooManyFields 1"),
        (b"p,", b'0', 65_533, b"7\n", b"."),
        (b"p,", b'0', 65_535, b"\n", b"RecordTooLong 1"),
    ];
    for (front, fill, count, behind, end) in cases {
        let log = long_log(alloc, front, fill, count, behind)?;
        for size in [1, 100_000] {
            let found = read_in(alloc, true, log.as_slice(), size)?;
            assert_eq!(rt;
                last_part(found.as_slice()),
                end,
                "{count} bytes, in pieces of {size}"
            );
        }
    }
    Ok(())
}

/// What is there behind a piece.
fn behind(feeder: &mut Feeder, alloc: Global, piece: &[u8]) -> Result<Vec<u8>, AllocError> {
    let mut out = Vec::new(alloc);
    feeder.feed(piece)?;
    if drain(feeder, &mut out)? {
        out.push(b'.')?;
    }
    Ok(out)
}

#[test]
fn a_log_that_goes_on(rt: HostRuntime) -> Result<(), Fail> {
    let alloc = rt.alloc();
    let mut feeder = Feeder::open(alloc, false)?;
    let pieces: [(&[u8], &[u8]); 12] = [
        (b"p,\"a", b"."),
        (b"b\"\n", b"p|ab;."),
        (b"\"\"", b"."),
        (b"\"", b"."),
        (b"\"\n", b"\";."),
        (b"", b"."),
        (b"q\nr\ns", b"q;r;."),
        (b"t ", b"."),
        (b"\n", b"st;."),
        (b",\n", b"EmptyName 6"),
        (b"a\n", b"EmptyName 6"),
        (b"\"", b"EmptyName 6"),
    ];
    for (piece, records) in pieces {
        let found = behind(&mut feeder, alloc, piece)?;
        assert_eq!(rt; found.as_slice(), records, "{:?}", piece);
    }
    let mut twice = Feeder::open(alloc, false)?;
    twice.feed(b"p,\"a\"b")?;
    for _ in 0..2 {
        match twice.next() {
            Err(fault) => assert_eq!(rt; fault, LogFault::AfterQuote { number: 1 }),
            _ => assert!(rt; false),
        }
    }
    Ok(())
}

#[test]
fn a_timed_log_that_goes_on(rt: HostRuntime) -> Result<(), Fail> {
    let alloc = rt.alloc();
    let mut feeder = Feeder::open(alloc, true)?;
    let pieces: [(&[u8], &[u8]); 10] = [
        (b"p,1", b"."),
        (b"8\nq,", b"p@18;."),
        (b"\"1", b"."),
        (b"8\"", b"."),
        (b"\n", b"q@18;."),
        (b"r,20\nr,2", b"r@20;."),
        (b"0\ns,1", b"r@20;."),
        (b"9", b"."),
        (b"\n", b"TimeBack 5 from 20 to 19"),
        (b"s,21\n", b"TimeBack 5 from 20 to 19"),
    ];
    for (piece, records) in pieces {
        let found = behind(&mut feeder, alloc, piece)?;
        assert_eq!(rt; found.as_slice(), records, "{:?}", piece);
    }
    Ok(())
}
