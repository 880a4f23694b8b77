//! The table: what it promises, and how a node is made.

ghost use Rattle.std.specs.Prelude.{◌≡◌, ℕ, [], ◌+◌, Some, None, ◌<◌, ◌≤◌, ◌↔◌, true, false, IfOk, OnOk, OnErr, IsErr, IsTrue, ◌==◌, if◌then◌else◌};
ghost use Rattle.node_tree.specs.Tree.{Tree, Zero, One, join, top};
ghost use Rattle.node_table.specs.Table.{Table, tree_of, IsValid, is_marked, note_of, held, live_of, need, KeepsTrees, HoldsAlso, IsShared};
ghost use Rattle.node_table.specs.Tells.{TellsTree};
ghost use Rattle.node_table.specs.Collects.{AllValid, Collects};

use crate::arrays::{Slot, bucket_of, buckets_for, find, hold, open_heads, open_slots, set_up};
use crate::collect::{mark_trees, rebuild, relink};
use crate::handle::{Branch, Handle};
use crate::marks::{new_round, read, write};
use crate::node::Node;
use mon_base::{NoMemory, Steps};
use std::alloc::Global;
use std::marker::Model;
use std::sync::ledger::Ledger;

/// No slot of the table is free.
#[derive(Clone, Copy, Debug, PartialEq, Eq)]
pub struct Full;

/// A table of shared nodes: for each tree at most one. All its arrays are taken when it is opened.
#[derive(Drop)]
pub struct NodeTable {
    /// How many nodes fit.
    room: u32,
    /// By number; the first two stand for the leaves.
    slots: Vec<Slot>,
    /// By bucket, the greatest number in it. There are few where few nodes are held, since a small table is a fast one.
    heads: Vec<u32>,
    /// By number, the round of its last note.
    marks: Vec<u32>,
    /// By number, what its last note says; in a collection, the nodes whose children are still to be marked.
    found: Vec<u32>,
    /// The least number whose slot is free, or 0.
    free: u32,
    /// The round of notes that counts.
    round: u32,
    /// How many nodes are held.
    live: u32,
}

impl Model for NodeTable {
    ghost use Rattle.std.specs.Prelude.{◌+◌, ◌≤◌, vec_capacity};
    ghost use Rattle.node_table.specs.Table.{Table};

    ghost Value = { Table };

    ghost use Rattle.node_table.specs.Arrays.{notes_of, table_of, IsKept};

    ghost view = { λ a. table_of a.room a.slots.items (notes_of a.marks.items a.found.items a.round) };

    ghost invariant = { λ a. IsKept a.room a.slots.items a.heads.items a.marks.items a.free a.round a.live × (a.room + 2 ≤ vec_capacity a.slots) × (a.room + 2 ≤ vec_capacity a.marks) × (a.room + 2 ≤ vec_capacity a.found) };
}

impl NodeTable {
    /// An empty table for so many nodes, from 2 to 4,194,304.
    pub fn open(alloc: Global, nodes: u32) -> Result<NodeTable, NoMemory>
        requires two { 2 ≤ nodes }
        requires bound { nodes ≤ 4194304 }
        ensures room { IfOk result (λ t. t.room ≡ nodes) }
        ensures empty { IfOk result (λ t. held t ≡ []) }
        ensures shared { IfOk result IsShared }
    {
        let (slots, marks) = open_slots(alloc, nodes)?;
        Ok(NodeTable {
            room: nodes,
            slots,
            heads: open_heads(alloc, nodes)?,
            marks,
            found: Vec::with_capacity(alloc, nodes as usize + 2)?,
            free: 0,
            round: 1,
            live: 0,
        })
    }

    /// The leaf that is false.
    pub fn zero(&self) -> Handle
        ensures valid { IsValid self.now result }
        ensures tree { tree_of self.now result ≡ Zero }
    {
        let _room = self.room;
        Handle { number: 0 }
    }

    /// The leaf that is true.
    pub fn one(&self) -> Handle
        ensures valid { IsValid self.now result }
        ensures tree { tree_of self.now result ≡ One }
    {
        let _room = self.room;
        Handle { number: 1 }
    }

    /// How many nodes fit.
    pub fn room(&self) -> u32
        ensures room { result ≡ self.now.room }
        ensures bound { result ≤ 4194304 }
    {
        self.room
    }

    /// How many nodes are held.
    pub fn live(&self) -> u32
        ensures live { result ≡ live_of self.now }
        ensures shared { IsShared self.now }
    {
        self.live
    }

    /// What a handle is. It costs one step.
    pub fn branch<L: Ledger>(&self, h: Handle, steps: &mut Steps<L>) -> Branch
        requires { IsValid self.now h }
        ensures tells { TellsTree self.now h result }
        ensures cost { steps.new ≡ steps.old + 1 }
        ensures shared { IsShared self.now }
    {
        steps.tick();
        match h.number {
            0 => Branch::Zero,
            1 => Branch::One,
            number => {
                let node = self.slots[number as usize].node;
                Branch::Node {
                    level: node.level,
                    low: Handle { number: node.low },
                    high: Handle { number: node.high },
                }
            }
        }
    }

    /// Doubles the buckets where they are fewer than the nodes, and puts each node into its own anew.
    fn widen_when_full(&mut self)
        ensures { self.new ≡ self.old }
    {
        let buckets = self.heads.len();
        if self.live as usize <= buckets || buckets > self.heads.capacity() / 2 {
            return;
        }
        set_up(&mut self.heads, buckets * 2);
        relink(&mut self.slots, &mut self.heads);
    }

    /// `make` with the buckets that there are.
    fn make_within(&mut self, level: u16, low: Handle, high: Handle) -> Result<Handle, Full>
        requires low { IsValid self.old low }
        requires high { IsValid self.old high }
        requires below_low { level < top (tree_of self.old low) }
        requires below_high { level < top (tree_of self.old high) }
        ensures valid { IfOk result (λ h. IsValid self.new h) }
        ensures tree { IfOk result (λ h. tree_of self.new h ≡ join level (tree_of self.old low) (tree_of self.old high)) }
        ensures kept { KeepsTrees self.old self.new }
        ensures held { OnOk result (HoldsAlso self.old self.new (join level (tree_of self.old low) (tree_of self.old high))) }
        ensures live { OnOk result (live_of self.new ≡ need self.old (join level (tree_of self.old low) (tree_of self.old high))) }
        ensures full { IsErr result ↔ (self.old.room < need self.old (join level (tree_of self.old low) (tree_of self.old high))) }
        ensures notes { (h : ℕ) → note_of self.new h ≡ note_of self.old h }
        ensures err { OnErr result (self.new ≡ self.old) }
        ensures shared { IsShared self.new }
    {
        let room = self.room;
        if low.number == high.number {
            return Ok(low);
        }
        let node = Node {
            level,
            low: low.number,
            high: high.number,
        };
        let bucket = bucket_of(self.heads.len(), node);
        if let Some(number) = find(&self.slots, &self.heads, bucket, node) {
            return Ok(Handle { number });
        }
        let Some(number) = hold(
            &mut self.slots,
            &mut self.heads,
            &mut self.marks,
            &mut self.free,
            room,
            bucket,
            node,
        ) else {
            return Err(Full);
        };
        self.live += 1;
        Ok(Handle { number })
    }

    /// The one handle of the tree that joins two trees at a level above theirs. Where it isn't held and no slot is
    /// free, the table stays as it is.
    pub fn make(&mut self, level: u16, low: Handle, high: Handle) -> Result<Handle, Full>
        requires low { IsValid self.old low }
        requires high { IsValid self.old high }
        requires below_low { level < top (tree_of self.old low) }
        requires below_high { level < top (tree_of self.old high) }
        ensures valid { IfOk result (λ h. IsValid self.new h) }
        ensures tree { IfOk result (λ h. tree_of self.new h ≡ join level (tree_of self.old low) (tree_of self.old high)) }
        ensures kept { KeepsTrees self.old self.new }
        ensures held { OnOk result (HoldsAlso self.old self.new (join level (tree_of self.old low) (tree_of self.old high))) }
        ensures live { OnOk result (live_of self.new ≡ need self.old (join level (tree_of self.old low) (tree_of self.old high))) }
        ensures full { IsErr result ↔ (self.old.room < need self.old (join level (tree_of self.old low) (tree_of self.old high))) }
        ensures notes { (h : ℕ) → note_of self.new h ≡ note_of self.old h }
        ensures err { OnErr result (self.new ≡ self.old) }
        ensures shared { IsShared self.new }
    {
        self.widen_when_full();
        self.make_within(level, low, high)
    }

    /// Keeps the nodes of the trees of both lists, and frees all other slots.
    pub fn collect(&mut self, roots: &[Handle], more: &[Handle])
        requires roots { AllValid self.old roots.now }
        requires more { AllValid self.old more.now }
        ensures collected { Collects self.old self.new roots.now more.now }
        ensures shared { IsShared self.new }
    {
        let round = new_round(&mut self.marks, self.round);
        let live = mark_trees(
            &self.slots,
            &mut self.marks,
            &mut self.found,
            round,
            roots,
            more,
        );
        let buckets = buckets_for(live, self.heads.capacity());
        set_up(&mut self.heads, buckets);
        let free = rebuild(&mut self.slots, &mut self.heads, &self.marks, round);
        self.round = round;
        self.live = live;
        self.free = free;
    }

    /// What was noted for a handle since the notes were cleared.
    pub fn note(&self, h: Handle) -> Option<Handle>
        requires { IsValid self.now h }
        ensures { result ≡ note_of self.now h }
    {
        if self.marks[h.number as usize] != self.round {
            return None;
        }
        Some(Handle {
            number: read(&self.found, h.number),
        })
    }

    /// Takes a note for a handle, in place of the one that it had. There is always room for it.
    pub fn take_note(&mut self, h: Handle, found: Handle)
        requires { IsValid self.old h }
        ensures noted { (k : ℕ) → note_of self.new k ≡ (if k == h then Some found else note_of self.old k) }
        ensures within { h < self.new.room + 2 }
        ensures room { self.new.room ≡ self.old.room }
        ensures nodes { self.new.nodes ≡ self.old.nodes }
    {
        let round = self.round;
        self.marks[h.number as usize] = round;
        write(&mut self.found, h.number, found.number);
    }

    /// Leaves no handle marked, and so no note. It visits no node, but where the rounds are counted from 1 again.
    pub fn unmark_all(&mut self)
        ensures none { (h : ℕ) → note_of self.new h ≡ None }
        ensures room { self.new.room ≡ self.old.room }
        ensures nodes { self.new.nodes ≡ self.old.nodes }
    {
        self.round = new_round(&mut self.marks, self.round);
    }

    /// Marks a handle by a note, and says whether it had none before. What the note says is left open.
    pub fn mark(&mut self, h: Handle) -> bool
        requires { IsValid self.old h }
        ensures first { IsTrue result ↔ (is_marked self.old h ≡ false) }
        ensures marked { (k : ℕ) → is_marked self.new k ≡ (if k == h then true else is_marked self.old k) }
        ensures room { self.new.room ≡ self.old.room }
        ensures nodes { self.new.nodes ≡ self.old.nodes }
    {
        let round = self.round;
        let mark = &mut self.marks[h.number as usize];
        let first = *mark != round;
        *mark = round;
        first
    }
}
