//! A table and the memo of its operations.

ghost use Rattle.std.specs.Prelude.{◌≡◌, ℕ, [], ◌+◌, ◌*◌, ◌<◌, ◌≤◌, ◌↔◌, ◌==◌, if◌then◌else◌, Some, None, IfOk, IsTrue};
ghost use Rattle.std.specs.Borrow.{sem};
ghost use Rattle.node_tree.specs.Tree.{Zero, join, top};
ghost use Rattle.node_table.specs.Table.{tree_of, note_of, IsValid, held, live_of, IsShared};
ghost use Rattle.op_cache.specs.Memo.{result_at};
ghost use Rattle.node_table.specs.Collects.{AllValid, Collects};
ghost use Rattle.bdd_ops.specs.Applied.{HoldsResults, Grows, Makes};
ghost use Rattle.bdd_ops.specs.Shelf.{IsLarge, HasRoom};
ghost use Rattle.bdd_ops.specs.Operates.{AllStay};
ghost use Rattle.bdd_ops.specs.Lent.{LendsTable, LendsMemo};

use mon_base::NoMemory;
use node_table::{Full, Handle, NodeTable};
use op_cache::{Key, OpCache};
use std::alloc::Global;
use std::marker::Model;

/// Roots, operands and result have together more distinct branches than the table has nodes.
#[derive(Clone, Copy, Debug, PartialEq, Eq)]
pub struct NodesFull;

/// A table and the memo of its operations.
#[derive(Drop)]
pub struct Store {
    pub(crate) table: NodeTable,
    pub(crate) cache: OpCache<Handle>,
    /// Whether the memo is known to hold results alone.
    pub(crate) sound: bool,
    /// The number of nodes held at which the next operation collects before it begins.
    limit: u32,
}

/// The least number of nodes held at which an operation collects before it begins.
const CROWD: u32 = 8192;

impl Model for Store {
    ghost use Rattle.bdd_ops.specs.Shelf.{Shelf};

    ghost Value = { Shelf };

    ghost use Rattle.std.specs.Prelude.{◌≡◌, true};
    ghost use Rattle.bdd_ops.specs.Applied.{HoldsResults};

    ghost view = { λ s. record { table = s.table; memo = s.cache } };

    ghost invariant = { λ s. s.sound ≡ true → HoldsResults s.table s.cache.pairs };
}

impl Store {
    /// An empty table for so many nodes, from 2 to 4,194,304, and a memo for so many results, from 4 to 8,388,608.
    pub fn open(alloc: Global, nodes: u32, entries: u32) -> Result<Store, NoMemory>
        requires two { 2 ≤ nodes }
        requires bound { nodes ≤ 4194304 }
        requires four { 4 ≤ entries }
        requires most { entries ≤ 8388608 }
        ensures room { IfOk result (λ s. s.table.room ≡ nodes) }
        ensures empty { IfOk result (λ s. held s.table ≡ []) }
        ensures shared { IfOk result (λ s. IsShared s.table) }
        ensures memo { IfOk result (λ s. s.memo ≡ record { entries = entries; pairs = [] }) }
    {
        Ok(Store {
            table: NodeTable::open(alloc, nodes)?,
            cache: OpCache::open(alloc, entries)?,
            sound: false,
            limit: CROWD,
        })
    }

    /// The table.
    pub fn table(&self) -> &NodeTable
        ensures { result.now ≡ self.now.table }
    {
        &self.table
    }

    /// How many nodes are held.
    pub fn live(&self) -> u32
        ensures live { result ≡ live_of self.now.table }
        ensures shared { IsShared self.now.table }
    {
        self.table.live()
    }

    /// `NodeTable::make`, which leaves the memo right where it was.
    pub fn make(&mut self, level: u16, low: Handle, high: Handle) -> Result<Handle, Full>
        requires low { IsValid self.old.table low }
        requires high { IsValid self.old.table high }
        requires below_low { level < top (tree_of self.old.table low) }
        requires below_high { level < top (tree_of self.old.table high) }
        ensures made { Makes (join level (tree_of self.old.table low) (tree_of self.old.table high)) self.old.table self.new.table result }
        ensures memo { self.new.memo ≡ self.old.memo }
        ensures notes { (k : ℕ) → note_of self.new.table k ≡ note_of self.old.table k }
        ensures sound { HoldsResults self.old.table self.old.memo.pairs → HoldsResults self.new.table self.new.memo.pairs }
    {
        self.table.make(level, low, high)
    }

    /// What was stored for a key since all was forgotten.
    pub fn find(&self, key: Key<Handle>) -> Option<Handle>
        ensures { result ≡ result_at self.now.memo.pairs (record { op = key.op; left = key.left; right = key.right }) }
    {
        self.cache.find(key)
    }

    /// What a walk has noted for a handle since the notes were cleared. Notes leave the memo alone.
    pub fn note(&self, h: Handle) -> Option<Handle>
        requires { IsValid self.now.table h }
        ensures { result ≡ note_of self.now.table h }
    {
        self.table.note(h)
    }

    /// Takes a note for a handle, in place of the one that it had. There is always room for it.
    pub fn take_note(&mut self, h: Handle, found: Handle)
        requires { IsValid self.old.table h }
        ensures noted { (k : ℕ) → note_of self.new.table k ≡ (if k == h then Some found else note_of self.old.table k) }
        ensures within { h < self.new.table.room + 2 }
        ensures grows { Grows self.old.table self.new.table Zero }
        ensures nodes { self.new.table.nodes ≡ self.old.table.nodes }
        ensures memo { self.new.memo ≡ self.old.memo }
    {
        let _held = self.table.live();
        self.table.take_note(h, found);
    }

    /// Clears all notes, before a walk begins.
    pub fn clear_notes(&mut self)
        ensures none { (k : ℕ) → note_of self.new.table k ≡ None }
        ensures grows { Grows self.old.table self.new.table Zero }
        ensures nodes { self.new.table.nodes ≡ self.old.table.nodes }
        ensures memo { self.new.memo ≡ self.old.memo }
    {
        let _held = self.table.live();
        self.table.unmark_all();
    }

    /// The table, to be changed. The memo is then no longer known to be right.
    pub fn table_mut(&mut self) -> &mut NodeTable
        ensures* writes_back { sem 𝓛 (LendsTable self.entry result) }
        ensures value { result.now ≡ self.old.table }
    {
        self.sound = false;
        &mut self.table
    }

    /// The memo, to be changed. It is then no longer known to be right.
    pub fn cache_mut(&mut self) -> &mut OpCache<Handle>
        ensures* writes_back { sem 𝓛 (LendsMemo self.entry result) }
        ensures value { result.now ≡ self.old.memo }
    {
        self.sound = false;
        &mut self.cache
    }

    /// How many results an operation can have.
    fn most(&self) -> u64
        ensures { result ≡ (self.now.table.room + 2) * (self.now.table.room + 3) }
    {
        let nodes = self.table.room() as u64;
        (nodes + 2) * (nodes + 3)
    }

    /// How many results the memo can hold.
    fn entries(&self) -> u64
        ensures { result ≡ self.now.memo.entries }
    {
        self.cache.held() as u64 + self.cache.room() as u64
    }

    /// Whether the memo can hold all results of an operation. Then the steps of an operation are bounded.
    fn is_large(&self) -> bool
        ensures { IsTrue result ↔ IsLarge self.now }
    {
        self.most() <= self.entries()
    }

    /// How many results of an operation there should be room for: all that it can have, where the memo is large enough.
    fn wanted(&self) -> u64
        ensures { IsLarge self.now → result ≡ (self.now.table.room + 2) * (self.now.table.room + 3) }
    {
        if self.is_large() {
            self.most()
        } else {
            self.entries() / 2
        }
    }

    /// Makes the memo ready for an operation. It forgets all where that isn't known to be right, or has little room
    /// left.
    pub fn prepare(&mut self)
        ensures table { self.new.table ≡ self.old.table }
        ensures entries { self.new.memo.entries ≡ self.old.memo.entries }
        ensures sound { HoldsResults self.new.table self.new.memo.pairs }
        ensures room { IsLarge self.new → HasRoom self.new }
    {
        if !self.sound || (self.cache.room() as u64) < self.wanted() {
            self.cache.begin();
            self.sound = true;
        }
    }

    /// Forgets all results.
    pub fn forget(&mut self)
        ensures table { self.new.table ≡ self.old.table }
        ensures memo { self.new.memo ≡ record { entries = self.old.memo.entries; pairs = [] } }
    {
        self.cache.begin();
        self.sound = true;
    }

    /// Keeps the nodes of the trees of both lists alone, and forgets all results.
    pub fn tidy(&mut self, roots: &[Handle], more: &[Handle])
        requires roots { AllValid self.old.table roots.now }
        requires more { AllValid self.old.table more.now }
        ensures collected { Collects self.old.table self.new.table roots.now more.now }
        ensures shared { IsShared self.new.table }
        ensures memo { self.new.memo ≡ record { entries = self.old.memo.entries; pairs = [] } }
    {
        self.table.collect(roots, more);
        self.cache.begin();
        self.sound = true;
        self.limit = self.table.live().saturating_mul(4).max(CROWD);
    }

    /// Makes the store ready for an operation. It collects where four times as many nodes are held as the last
    /// collection left, since a small table is a fast one, and else only looks after the memo.
    pub fn make_ready(&mut self, operands: &[Handle], roots: &[Handle])
        requires operands { AllValid self.old.table operands.now }
        requires roots { AllValid self.old.table roots.now }
        ensures nodes { self.new.table.room ≡ self.old.table.room }
        ensures operands { AllStay self.old.table self.new.table operands.now }
        ensures roots { AllStay self.old.table self.new.table roots.now }
        ensures entries { self.new.memo.entries ≡ self.old.memo.entries }
        ensures sound { HoldsResults self.new.table self.new.memo.pairs }
        ensures room { IsLarge self.new → HasRoom self.new }
    {
        if self.table.live() >= self.limit {
            self.tidy(roots, operands);
        } else {
            self.prepare();
        }
    }
}
