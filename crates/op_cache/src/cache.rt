//! The memo: what was stored since the last `begin`.

ghost use Rattle.std.specs.Prelude.{◌≡◌, ◌≤◌, ◌+◌, ◌↔◌, [], length, true, false, None, IfOk};
ghost use Rattle.op_cache.specs.declared.key.Key.{Key};
ghost use Rattle.op_cache.specs.Keys.{place_of};
ghost use Rattle.op_cache.specs.Memo.{Memo, result_at, IsMemo, Adds};

use crate::chains::{Entry, find, link_entry, put, relink};
use crate::heads::{Head, next_round, reach};
use crate::{Key, Place};
use mon_base::{NoMemory, Numbered};
use std::alloc::Global;
use std::marker::Model;

/// How many buckets a memo begins with.
const START: usize = 128;

/// Results of operations on two handles, at most so many. All its room is taken when it is opened.
#[derive(Drop)]
pub struct OpCache<H> {
    /// How many results it can hold.
    entries: u32,
    /// How many of `pairs` were stored since the last `begin`: those in front.
    held: u32,
    /// Results in the order in which they were stored.
    pairs: Vec<Entry<H>>,
    heads: Vec<Head>,
    /// How many buckets are in use.
    window: usize,
    /// The number under which the heads are set.
    round: u32,
}

impl<H> Model for OpCache<H> {
    ghost use Rattle.std.specs.Prelude.{take, vec_capacity};
    ghost use Rattle.op_cache.specs.Memo.{Memo};

    ghost Value = { Memo H };

    ghost use Rattle.op_cache.specs.Chains.{pairs_of};
    ghost use Rattle.op_cache.specs.Kept.{IsKept};

    ghost view = { λ c. record { entries = c.entries; pairs = pairs_of (take c.held c.pairs.items) } };

    ghost invariant = { λ c. IsKept c.entries c.held (vec_capacity c.pairs) c.pairs.items c.heads.items c.window c.round };
}

impl<H: Copy + Numbered> OpCache<H> {
    /// A memo without results, for at most 8,388,608 of them.
    pub fn open(alloc: Global, entries: u32) -> Result<OpCache<H>, NoMemory>
        requires { entries ≤ 8388608 }
        ensures empty { IfOk result (λ c. c ≡ record { entries = entries; pairs = [] }) }
        ensures sound { IfOk result IsMemo }
    {
        // one head for two entries: where more than half are held, two stand in a bucket on the average
        let limit = entries.next_power_of_two() as usize / 2;
        let mut heads = Vec::with_capacity(alloc, limit.max(START))?;
        reach(&mut heads, START, 0);
        Ok(OpCache {
            entries,
            held: 0,
            pairs: Vec::with_capacity(alloc, entries as usize)?,
            heads,
            window: START,
            round: 1,
        })
    }

    /// Forgets all. It takes the same few steps however many results there are.
    pub fn begin(&mut self)
        ensures empty { self.new ≡ record { entries = self.old.entries; pairs = [] } }
        ensures sound { IsMemo self.new }
    {
        self.round = next_round(&mut self.heads, self.round);
        self.held = 0;
        self.window = self.window.min(START);
    }

    /// What was stored for the key since the last `begin`. No other key has the key's place.
    pub fn find(&self, key: Key<H>) -> Option<H>
        ensures found { result ≡ result_at self.now.pairs (place_of H.number key) }
        ensures own { (other : Key H) → place_of H.number other ≡ place_of H.number key → other ≡ key }
    {
        let held = self.held as usize;
        find(
            &self.pairs[..held],
            &self.heads,
            self.window,
            self.round,
            Place::of(key),
        )
    }

    /// Stores the result of a key that has none. False where all entries are held, and then nothing changes.
    pub fn store(&mut self, key: Key<H>, answer: H) -> bool
        requires { result_at self.old.pairs (place_of H.number key) ≡ None }
        ensures full { (result ≡ false) ↔ (length self.old.pairs ≡ self.old.entries) }
        ensures stored { result ≡ true → Adds self.old.pairs (place_of H.number key) answer self.new.pairs }
        ensures kept { result ≡ false → self.new ≡ self.old }
        ensures entries { self.new.entries ≡ self.old.entries }
        ensures sound { IsMemo self.new }
    {
        if self.held == self.entries {
            return false;
        }
        let at = self.held;
        put(
            &mut self.pairs,
            at as usize,
            Entry {
                place: Place::of(key),
                result: answer,
                link: 0,
            },
        );
        link_entry(
            &mut self.pairs,
            &mut self.heads,
            self.window,
            self.round,
            at,
        );
        self.held = at + 1;
        self.widen_when_full();
        true
    }

    /// How many results are held. A memo is sound whatever was done to it.
    pub fn held(&self) -> u32
        ensures held { result ≡ length self.now.pairs }
        ensures sound { IsMemo self.now }
    {
        self.held
    }

    /// How many results may still be stored.
    pub fn room(&self) -> u32
        ensures { result + length self.now.pairs ≡ self.now.entries }
    {
        self.entries - self.held
    }

    /// Doubles the buckets where they are as many as the results, and links these anew.
    fn widen_when_full(&mut self)
        ensures { self.new ≡ self.old }
    {
        if (self.held as usize) < self.window || self.window > self.heads.capacity() / 2 {
            return;
        }
        let window = self.window * 2;
        reach(&mut self.heads, window, self.round);
        self.round = next_round(&mut self.heads, self.round);
        relink(
            &mut self.pairs,
            &mut self.heads,
            window,
            self.round,
            self.held,
        );
        self.window = window;
    }
}
