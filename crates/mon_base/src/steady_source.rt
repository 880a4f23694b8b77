//! A source in memory, which gives its bytes in stated pieces and never fails.

ghost use Rattle.std.specs.Prelude.{◌≡◌, ◌+◌, ◌≤◌, ◌<◌, ◌++◌, [], All, IfOk, IsOk, drop, length, min, take, vec_len, Some};
ghost use Rattle.std.specs.Io.{ReadsAtMost};
ghost use Rattle.std.specs.Io.KnownBytes.{ReadConsumes};
ghost use Rattle.mon_base.specs.Causes.{HasCause};

use crate::{Failed, Source};

/// Bytes that are read in stated pieces. Read number k, counted from 0, gives at most `pieces[k]` bytes; later reads
/// give as many as fit. No read fails.
#[derive(Drop)]
pub struct SteadySource {
    bytes: Vec<u8>,
    given: usize,
    pieces: Vec<usize>,
    reads: usize,
    ghost in_range: { given ≤ vec_len bytes },
    ghost pieces_full: { All (λ n. 1 ≤ n) pieces.items },
}

impl SteadySource {
    ghost use Rattle.mon_base.specs.Memory.{steady_left, steady_pieces, most_of};

    /// Each piece is at least 1, so that a read gives 0 at the end alone.
    pub fn new(bytes: Vec<u8>, pieces: Vec<usize>) -> SteadySource
        requires { All (λ n. 1 ≤ n) pieces.items }
        ensures left { steady_left result ≡ bytes.items }
        ensures given { result.given ≡ 0 }
        ensures pieces { steady_pieces result ≡ pieces.items }
    {
        SteadySource {
            bytes,
            given: 0,
            pieces,
            reads: 0,
        }
    }

    /// How many bytes were given.
    pub(crate) fn given(&self) -> usize
        ensures { result ≡ self.now.given }
    {
        self.given
    }

    /// The most that this read gives. Its piece is then used up.
    pub(crate) fn take_piece(&mut self, room: usize) -> usize
        requires { 0 < room }
        ensures most { result ≡ most_of (steady_pieces self.old) room }
        ensures some { 1 ≤ result }
        ensures fits { result ≤ room }
        ensures taken { steady_pieces self.new ≡ drop 1 (steady_pieces self.old) }
        ensures rest { self.new ≡ record self.old { reads = self.new.reads } }
    {
        match self.pieces.get(self.reads) {
            Some(piece) => {
                let most = room.min(*piece);
                self.reads += 1;
                most
            }
            None => room,
        }
    }

    /// Gives at most so many of the next bytes, and 0 at the end alone.
    pub(crate) fn give(&mut self, buf: &mut [u8], most: usize) -> usize
        requires some { 1 ≤ most }
        requires fits { most ≤ length buf.old }
        ensures count { result ≡ min (length (steady_left self.old)) most }
        ensures bytes { steady_left self.old ≡ take result buf.new ++ steady_left self.new }
        ensures end { result ≡ 0 → steady_left self.new ≡ [] }
        ensures given { self.new.given ≡ self.old.given + result }
        ensures pieces { steady_pieces self.new ≡ steady_pieces self.old }
    {
        let count = most.min(self.bytes.len() - self.given);
        let end = self.given + count;
        buf[..count].copy_from_slice(&self.bytes[self.given..end]);
        self.given = end;
        count
    }
}

impl Source for SteadySource {
    ghost use Rattle.std.specs.Prelude.{Some};
    ghost use Rattle.mon_base.specs.Memory.{steady_left, steady_pieces, most_of};

    ghost left = { λ s. Some (steady_left s) };

    ghost faults = { λ _. 0 };

    fn read(&mut self, buf: &mut [u8]) -> Result<usize, Failed>
        requires { 0 < length buf.old }
        ensures bound { ReadsAtMost result buf.new }
        ensures bytes { ReadConsumes (Some (steady_left self.old)) (Some (steady_left self.new)) result buf.new }
        ensures cause { HasCause 0 0 result }

        // It never fails, and gives as much as there is, as its piece says, and as fits.
        ensures succeeds { IsOk result }
        ensures count { IfOk result (λ n. n ≡ min (length (steady_left self.old)) (most_of (steady_pieces self.old) (length buf.old))) }
        ensures given { IfOk result (λ n. self.new.given ≡ self.old.given + n) }
        ensures pieces { steady_pieces self.new ≡ drop 1 (steady_pieces self.old) }
    {
        let most = self.take_piece(buf.len());
        Ok(self.give(buf, most))
    }
}
