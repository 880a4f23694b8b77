//! The sample log against lines worked out by hand, in pieces of several lengths.

ghost use Rattle.std.specs.Prelude.{◌<◌, ◌≤◌};

use crate::SampleSource;
use mon_base::Source;
use std::alloc::{AllocError, Global};
use std::test::Fail;

const TWELVE: &str = "login,u0\naccess,u0\naccess,u0\naccess,u0\n\
login,u1\naccess,u1\naccess,u1\naccess,u1\n\
login,u2\naccess,u2\naccess,u2\naccess,u2\n";

const TWELVE_TIMED: &str = "login,u0,1\naccess,u0,2\naccess,u0,3\naccess,u0,4\n\
login,u1,5\naccess,u1,6\naccess,u1,7\naccess,u1,8\n\
login,u2,9\naccess,u2,10\naccess,u2,11\naccess,u2,12\n";

/// All bytes of a source, read in pieces of at most this length.
fn read_all(alloc: Global, mut source: SampleSource, piece: usize) -> Result<Vec<u8>, AllocError>
    requires low { 0 < piece }
    requires high { piece ≤ 4096 }
{
    let mut all = Vec::new(alloc);
    let mut buf = [0; 4096];
    for _ in 0..100_000u32 {
        match source.read(&mut buf[..piece]) {
            Ok(count) if count > 0 => all.extend_from_slice(&buf[..count])?,
            _ => break,
        }
    }
    Ok(all)
}

#[test]
fn twelve_events_in_pieces(rt: HostRuntime) -> Result<(), Fail> {
    for piece in [1, 7, 4096] {
        let log = read_all(rt.alloc(), SampleSource::new(7, 12, false), piece)?;
        assert_eq!(rt; log.as_slice(), TWELVE.as_bytes(), "{piece}");
        let log = read_all(rt.alloc(), SampleSource::new(7, 12, true), piece)?;
        assert_eq!(rt; log.as_slice(), TWELVE_TIMED.as_bytes(), "{piece}");
    }
    Ok(())
}

/// The line of an event.
fn line_of(alloc: Global, seed: u32, number: u32, timed: bool) -> Result<Vec<u8>, AllocError>
    requires { 0 < number }
{
    let log = read_all(alloc, SampleSource::new(seed, number, timed), 4096)?;
    match log.split(|byte| *byte == b'\n').nth(number as usize - 1) {
        Some(line) => Vec::from_slice(alloc, line),
        None => Ok(Vec::new(alloc)),
    }
}

#[test]
fn rounds_with_logouts_and_strays(rt: HostRuntime) -> Result<(), Fail> {
    for (seed, number, plain, timed) in [
        (7, 399, "access,u99", "access,u99,399"),
        (7, 401, "login,u100", "login,u100,401"),
        (7, 403, "logout,u0", "logout,u0,403"),
        (7, 404, "access,u100", "access,u100,404"),
        (7, 804, "access,u200", "access,u200,804"),
        (7, 3975, "logout,u893", "logout,u893,3975"),
        (7, 3976, "access,u793", "access,u793,3976"),
        (800, 804, "access,u0", "access,u0,804"),
        (801, 800, "access,u199", "access,u199,800"),
    ] {
        let line = line_of(rt.alloc(), seed, number, false)?;
        assert_eq!(rt; line.as_slice(), plain.as_bytes(), "{number}");
        let line = line_of(rt.alloc(), seed, number, true)?;
        assert_eq!(rt; line.as_slice(), timed.as_bytes(), "{number}");
    }
    Ok(())
}
