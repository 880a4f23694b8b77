//! Lines on their way to the output, gathered in a buffer of fixed size.
ghost use Rattle.std.specs.Prelude.{◌≡◌, ◌≤◌, ◌+◌, [], ◌++◌, map, length, OnOk, OnErr, IfOk};
ghost use Rattle.std.specs.List.{concat};
ghost use Rattle.std.specs.Io.KnownBytes.{Appends};
ghost use Rattle.mon_base.specs.Causes.{HasCause};
ghost use Rattle.mon_base.specs.Told.{AppendsFront};
ghost use Rattle.report.specs.Passing.{Passes};

use mon_base::{Failed, NoMemory, Sink, put_all};
use std::alloc::Global;
use std::marker::Model;

/// How many bytes are held back at most.
const CAPACITY: usize = 65_536;

/// Bytes that are held back until there are many, or until they must be written. Contracts see
/// these bytes.
#[derive(Drop)]
pub struct Output {
    bytes: Vec<u8>,
}

impl Model for Output {
    ghost use Rattle.std.specs.Prelude.{◌≤◌, ℕ, List, vec_len, vec_capacity};

    ghost Value = { List ℕ };

    ghost view = { λ o. o.bytes.items };

    ghost invariant = { λ o. (vec_len o.bytes ≤ 65536) × (65536 ≤ vec_capacity o.bytes) };
}

impl Output {
    /// Nothing is held back. All the room that is ever needed is taken here.
    pub fn open(alloc: Global) -> Result<Output, NoMemory>
        ensures { IfOk result (λ o. o ≡ []) }
    {
        Ok(Output {
            bytes: Vec::with_capacity(alloc, CAPACITY)?,
        })
    }

    /// Writes what is held back.
    pub fn flush<W: Sink>(&mut self, out: &mut W) -> Result<(), Failed>
        ensures ok { OnOk result (Appends (W.written out.old) (W.written out.new) self.old) }
        ensures emptied { OnOk result (self.new ≡ []) }
        ensures err { OnErr result (AppendsFront (W.written out.old) (W.written out.new) self.old) }
        ensures cause { HasCause (W.faults out.old) (W.faults out.new) result }
    {
        put_all(out, self.bytes.as_slice())?;
        self.bytes.clear();
        Ok(())
    }

    /// Holds back these bytes too, for which there is room.
    fn gather(&mut self, bytes: &[u8])
        requires { length self.old + length bytes.now ≤ 65536 }
        ensures { self.new ≡ self.old ++ bytes.now }
    {
        match self.bytes.extend_from_slice(bytes) {
            Ok(()) => {}
            Err(_) => unreachable!(),
        }
    }

    /// Holds back these bytes, or writes what was held back first, and bytes that never fit at
    /// once.
    pub fn put<W: Sink>(&mut self, out: &mut W, bytes: &[u8]) -> Result<(), Failed>
        ensures ok { OnOk result (Passes (W.written out.old) (W.written out.new) self.old self.new
            bytes.now) }
        ensures err { OnErr result (AppendsFront (W.written out.old) (W.written out.new)
            (self.old ++ bytes.now)) }
        ensures cause { HasCause (W.faults out.old) (W.faults out.new) result }
    {
        if bytes.len() <= CAPACITY - self.bytes.len() {
            self.gather(bytes);
            return Ok(());
        }
        self.flush(out)?;
        if bytes.len() <= CAPACITY {
            self.gather(bytes);
            return Ok(());
        }
        put_all(out, bytes)?;
        Ok(())
    }

    /// The same with each of these parts, in order.
    pub fn put_parts<W: Sink>(&mut self, out: &mut W, parts: &[&[u8]]) -> Result<(), Failed>
        ensures ok { OnOk result (Passes (W.written out.old) (W.written out.new) self.old self.new
            (concat (map (λ p. p.now) parts.now))) }
        ensures err { OnErr result (AppendsFront (W.written out.old) (W.written out.new)
            (self.old ++ concat (map (λ p. p.now) parts.now))) }
        ensures cause { HasCause (W.faults out.old) (W.faults out.new) result }
    {
        for part in parts {
            self.put(out, part)?;
        }
        Ok(())
    }
}
