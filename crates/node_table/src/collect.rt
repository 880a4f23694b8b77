//! A collection: the nodes of the roots' trees are marked, and all other slots become free.

ghost use Rattle.std.specs.Prelude.{◌≡◌, ℕ, ◌+◌, ◌<◌, ◌≤◌, ◌^◌, [], length, None, true, false, slice_index_or, nat_eq, vec_capacity};
ghost use Rattle.std.specs.List.{count_by};
ghost use Rattle.node_table.specs.Unfold.{is_valid, IsWell};
ghost use Rattle.node_table.specs.Chains.{IsChained, IsFree, head_in};
ghost use Rattle.node_table.specs.Arrays.{node_in, chain_in};
ghost use Rattle.node_table.specs.Marks.{has_mark, is_kept, IsReached, Reaches, ReachesAll, MarksNodes, IsClosed, Spreads, MarksTrees, swept_from};

use crate::arrays::{Slot, bucket_of};
use crate::handle::Handle;
use crate::node::Node;

/// Marks a number, but a leaf's, and lets it wait for its children to be marked.
fn reach(marks: &mut [u32], waiting: &mut Vec<u32>, round: u32, h: u32)
    requires inside { h < length marks.old }
    requires room { length marks.old ≤ vec_capacity waiting.old }
    requires reached { IsReached marks.old waiting.old.items round }
    requires rounds { (k : ℕ) → slice_index_or marks.old k 0 ≤ round }
    ensures reached { IsReached marks.new waiting.new.items round }
    ensures rounds { (k : ℕ) → slice_index_or marks.new k 0 ≤ round }
    ensures reaches { Reaches marks.old marks.new round h }
    ensures longer { length waiting.old.items ≤ length waiting.new.items }
    ensures before { (j : ℕ) → j < length waiting.old.items → slice_index_or waiting.new.items j 0 ≡ slice_index_or waiting.old.items j 0 }
    ensures room { vec_capacity waiting.new ≡ vec_capacity waiting.old }
{
    if h >= 2 && marks[h as usize] != round {
        marks[h as usize] = round;
        waiting.push_reserved(h);
    }
}

/// Marks the numbers of handles.
fn reach_all(marks: &mut [u32], waiting: &mut Vec<u32>, round: u32, roots: &[Handle])
    requires inside { (j : ℕ) → j < length roots.now → slice_index_or roots.now j 0 < length marks.old }
    requires room { length marks.old ≤ vec_capacity waiting.old }
    requires reached { IsReached marks.old waiting.old.items round }
    requires rounds { (k : ℕ) → slice_index_or marks.old k 0 ≤ round }
    ensures reached { IsReached marks.new waiting.new.items round }
    ensures rounds { (k : ℕ) → slice_index_or marks.new k 0 ≤ round }
    ensures reaches { ReachesAll marks.old marks.new round roots.now (length roots.now) }
    ensures room { vec_capacity waiting.new ≡ vec_capacity waiting.old }
{
    for root in roots {
        reach(marks, waiting, round, root.number);
    }
}

/// Marks the children of marked nodes, and theirs, each node once and in the order in which they were marked.
fn spread(slots: &[Slot], marks: &mut [u32], waiting: &mut Vec<u32>, round: u32)
    requires well { IsWell (node_in slots.now) }
    requires leaves { 2 ≤ length slots.now }
    requires few { length slots.now < 2 ^ 32 }
    requires marked { length marks.old ≡ length slots.now }
    requires room { length marks.old ≤ vec_capacity waiting.old }
    requires reached { IsReached marks.old waiting.old.items round }
    requires rounds { (k : ℕ) → slice_index_or marks.old k 0 ≤ round }
    requires nodes { MarksNodes (node_in slots.now) marks.old round }
    ensures reached { IsReached marks.new waiting.new.items round }
    ensures rounds { (k : ℕ) → slice_index_or marks.new k 0 ≤ round }
    ensures nodes { MarksNodes (node_in slots.now) marks.new round }
    ensures closed { IsClosed (node_in slots.now) marks.new round }
    ensures spreads { Spreads (node_in slots.now) marks.old marks.new round }
    ensures room { vec_capacity waiting.new ≡ vec_capacity waiting.old }
{
    let mut at = 0;
    while at < waiting.len() {
        let node = slots[waiting[at] as usize].node;
        reach(marks, waiting, round, node.low);
        reach(marks, waiting, round, node.high);
        at += 1;
    }
}

/// Marks the nodes of the handles' trees, of which none is marked in the round, and says how many they are.
pub fn mark_trees(
    slots: &[Slot],
    marks: &mut [u32],
    waiting: &mut Vec<u32>,
    round: u32,
    roots: &[Handle],
    more: &[Handle],
) -> u32
    requires well { IsWell (node_in slots.now) }
    requires leaves { 2 ≤ length slots.now }
    requires few { length slots.now < 2 ^ 32 }
    requires marked { length marks.old ≡ length slots.now }
    requires room { length marks.old ≤ vec_capacity waiting.old }
    requires started { 0 < round }
    requires none { (h : ℕ) → slice_index_or marks.old h 0 < round }
    requires roots { (j : ℕ) → j < length roots.now → is_valid (node_in slots.now) (slice_index_or roots.now j 0) ≡ true }
    requires more { (j : ℕ) → j < length more.now → is_valid (node_in slots.now) (slice_index_or more.now j 0) ≡ true }
    ensures rounds { (k : ℕ) → slice_index_or marks.new k 0 ≤ round }
    ensures trees { MarksTrees (node_in slots.now) marks.new round roots.now more.now }
    ensures count { result ≡ count_by (λ m. nat_eq m round) marks.new }
    ensures room { vec_capacity waiting.new ≡ vec_capacity waiting.old }
{
    waiting.clear();
    reach_all(marks, waiting, round, roots);
    reach_all(marks, waiting, round, more);
    spread(slots, marks, waiting, round);
    waiting.len() as u32
}

/// Frees each slot without a mark. The lowest free slots come first in their chain.
fn sweep(slots: &mut [Slot], marks: &[u32], round: u32) -> u32
    requires started { 0 < round }
    requires leaves { 2 ≤ length slots.old }
    requires few { length slots.old < 2 ^ 32 }
    requires marked { length marks.now ≡ length slots.old }
    requires nodes { MarksNodes (node_in slots.old) marks.now round }
    requires no_zero { node_in slots.old 0 ≡ None }
    requires no_one { node_in slots.old 1 ≡ None }
    ensures left { (h : ℕ) → node_in slots.new h ≡ swept_from (node_in slots.old) marks.now round 2 h }
    ensures free { IsFree (node_in slots.new) (chain_in slots.new) result (length slots.new) }
{
    let mut free = 0;
    let mut at = slots.len();
    while at > 2 {
        at -= 1;
        if marks[at] != round {
            let node = Node {
                level: 0,
                low: 0,
                high: 0,
            };
            slots[at] = Slot { node, chain: free };
            free = at as u32;
        }
    }
    free
}

/// Puts each node into its bucket again, the buckets being empty.
pub fn relink(slots: &mut [Slot], heads: &mut [u32])
    requires empty { (b : ℕ) → head_in heads.old b ≡ 0 }
    requires leaves { 2 ≤ length slots.old }
    requires buckets { 0 < length heads.old }
    requires few { length slots.old < 2 ^ 32 }
    requires no_zero { node_in slots.old 0 ≡ None }
    requires no_one { node_in slots.old 1 ≡ None }
    ensures nodes { (h : ℕ) → node_in slots.new h ≡ node_in slots.old h }
    ensures frees { (h : ℕ) → node_in slots.old h ≡ None → chain_in slots.new h ≡ chain_in slots.old h }
    ensures chained { IsChained (node_in slots.new) (chain_in slots.new) heads.new (length slots.new) }
{
    for at in 2..slots.len() {
        let node = slots[at].node;
        if node.low != node.high {
            let bucket = bucket_of(heads.len(), node);
            slots[at].chain = heads[bucket];
            heads[bucket] = at as u32;
        }
    }
}

/// Frees the slots without a mark, and puts the other nodes into buckets that are empty.
pub fn rebuild(slots: &mut [Slot], heads: &mut [u32], marks: &[u32], round: u32) -> u32
    requires started { 0 < round }
    requires leaves { 2 ≤ length slots.old }
    requires few { length slots.old < 2 ^ 32 }
    requires marked { length marks.now ≡ length slots.old }
    requires nodes { MarksNodes (node_in slots.old) marks.now round }
    requires no_zero { node_in slots.old 0 ≡ None }
    requires no_one { node_in slots.old 1 ≡ None }
    requires empty { (b : ℕ) → head_in heads.old b ≡ 0 }
    requires buckets { 0 < length heads.old }
    ensures left { (h : ℕ) → node_in slots.new h ≡ swept_from (node_in slots.old) marks.now round 2 h }
    ensures free { IsFree (node_in slots.new) (chain_in slots.new) result (length slots.new) }
    ensures chained { IsChained (node_in slots.new) (chain_in slots.new) heads.new (length slots.new) }
{
    let free = sweep(slots, marks, round);
    relink(slots, heads);
    free
}
