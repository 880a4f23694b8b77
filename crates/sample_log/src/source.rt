//! The source that gives the sample log.

ghost use Rattle.std.specs.Prelude.{◌≡◌, ◌+◌, ◌-◌, ◌<◌, ◌≤◌, ◌++◌, [], drop, length, min, take, IfOk, IsOk};
ghost use Rattle.std.specs.Io.{ReadsAtMost};
ghost use Rattle.std.specs.Io.KnownBytes.{ReadConsumes};
ghost use Rattle.mon_base.specs.Causes.{HasCause};
ghost use Rattle.sample_log.specs.Sample.{sample};
ghost use Rattle.sample_log.specs.declared.line.TheConstants.{ROOM};

use crate::line::{ROOM, write_line};
use mon_base::{Failed, Source};

/// The sample log of a seed and a number of events. It is made line by line, and takes no memory.
#[derive(Drop)]
pub struct SampleSource {
    seed: u32,
    events: u32,
    timed: bool,
    /// How many events' lines were begun.
    begun: u32,
    /// The last of these lines stands at the end of the room, from `next` on what is still to be given of it.
    room: [u8; ROOM],
    next: usize,
    ghost within: { next ≤ ROOM },
    ghost some_left: { begun ≤ events },
}

impl SampleSource {
    ghost use Rattle.sample_log.specs.Left.{left_of};

    /// The log of so many events, with each event's number as its time where it is timed.
    pub fn new(seed: u32, events: u32, timed: bool) -> SampleSource
        ensures left { left_of result ≡ sample seed events timed }
    {
        SampleSource {
            seed,
            events,
            timed,
            begun: 0,
            room: [0; ROOM],
            next: ROOM,
        }
    }

    /// Begins the next line where the last one is given and another is to come.
    fn refill(&mut self)
        ensures same { left_of self.new ≡ left_of self.old }
        ensures some { self.new.next ≡ ROOM → left_of self.new ≡ [] }
    {
        if self.next == ROOM && self.begun < self.events {
            self.begun += 1;
            self.next = write_line(&mut self.room, self.seed, self.timed, self.begun);
        }
    }

    /// Gives as much of the line at hand as fits, and 0 at the end of the log alone.
    fn give(&mut self, buf: &mut [u8]) -> usize
        requires { 0 < length buf.old }
        ensures within { result ≤ length buf.new }
        ensures bytes { left_of self.old ≡ take result buf.new ++ left_of self.new }
        ensures end { result ≡ 0 → left_of self.old ≡ [] }
    {
        self.refill();
        let count = buf.len().min(ROOM - self.next);
        let end = self.next + count;
        buf[..count].copy_from_slice(&self.room[self.next..end]);
        self.next = end;
        count
    }
}

impl Source for SampleSource {
    ghost use Rattle.std.specs.Prelude.{Some};
    ghost use Rattle.sample_log.specs.Left.{left_of};

    ghost left = { λ s. Some (left_of s) };

    ghost faults = { λ s. 0 };

    fn read(&mut self, buf: &mut [u8]) -> Result<usize, Failed>
        requires { 0 < length buf.old }
        ensures bound { ReadsAtMost result buf.new }
        ensures bytes { ReadConsumes (Some (left_of self.old)) (Some (left_of self.new)) result buf.new }
        ensures cause { HasCause 0 0 result }

        // It gives as much as there is and fits, and never fails.
        ensures succeeds { IsOk result }
        ensures count { IfOk result (λ n. n ≡ min (length (left_of self.old)) (length buf.old)) }
    {
        let mut filled = 0;
        while filled < buf.len() {
            let count = self.give(&mut buf[filled..]);
            if count == 0 {
                break;
            }
            filled += count;
        }
        Ok(filled)
    }
}
