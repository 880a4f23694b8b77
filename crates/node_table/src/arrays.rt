//! The slots of a table in chains: finding a node, and putting one in.

ghost use Rattle.std.specs.Prelude.{◌≡◌, ◌≢◌, ℕ, ◌+◌, ◌^◌, ◌<◌, ◌≤◌, [], ◌∷◌, ◌++◌, length, vec_len, vec_capacity, replicate, slice_index_or, true, IfOk, Some, None, IfSome, IfNone, ◌==◌, if◌then◌else◌};
ghost use Rattle.node_table.specs.Hash.{bucket_of};
ghost use Rattle.node_table.specs.Chains.{IsChained, IsPlace, head_in};
ghost use Rattle.node_table.specs.Unfold.{is_valid, level_at};
ghost use Rattle.node_table.specs.Arrays.{node_in, chain_in, empty_slot, IsLinked, PutsNode};

use crate::node::Node;
use mon_base::NoMemory;
use std::alloc::Global;

/// A node, or a free slot, in which the children are equal.
#[derive(Clone, Copy)]
pub struct Slot {
    pub node: Node,
    /// The number that follows in the chain of the bucket, or of the free slots. It is 0 at the end.
    pub chain: u32,
}

/// The bucket of a node, by a product and a sum for each part.
pub fn bucket_of(buckets: usize, node: Node) -> usize
    requires { 0 < buckets }
    ensures bucket { result ≡ bucket_of buckets node }
    ensures within { result < buckets }
{
    let mixed = (node.level as u64)
        .wrapping_mul(0x9E3779B97F4A7C15)
        .wrapping_add((node.low as u64).wrapping_mul(0xC2B2AE3D27D4EB4F))
        .wrapping_add((node.high as u64).wrapping_mul(0x165667B19E3779F9));
    (mixed >> 32) as usize & (buckets - 1)
}

/// The number of a node, where its bucket has it.
pub fn find(slots: &[Slot], heads: &[u32], bucket: usize, node: Node) -> Option<u32>
    requires chained { IsChained (node_in slots.now) (chain_in slots.now) heads.now (length slots.now) }
    requires bucket { bucket ≡ bucket_of (length heads.now) node }
    requires within { bucket < length heads.now }
    requires apart { node.low ≢ node.high }
    requires no_zero { node_in slots.now 0 ≡ None }
    ensures some { IfSome result (λ h. node_in slots.now h ≡ Some node) }
    ensures none { IfNone result ((h : ℕ) → node_in slots.now h ≡ Some node → ⊥) }
{
    let mut at = heads[bucket];
    while at != 0 {
        let slot = slots[at as usize];
        if slot.node == node {
            return Some(at);
        }
        at = slot.chain;
    }
    None
}

/// The number of a bucket after which another one has its place. The numbers of a bucket fall along its chain.
fn place(slots: &[Slot], heads: &[u32], bucket: usize, number: u32) -> u32
    requires chained { IsChained (node_in slots.now) (chain_in slots.now) heads.now (length slots.now) }
    requires within { bucket < length heads.now }
    requires free { node_in slots.now number ≡ None }
    requires two { 2 ≤ number }
    requires below { number < head_in heads.now bucket }
    ensures { IsPlace (node_in slots.now) (chain_in slots.now) (length heads.now) bucket number result }
{
    let mut at = heads[bucket];
    while slots[at as usize].chain > number {
        at = slots[at as usize].chain;
    }
    at
}

/// Puts a node into a free slot, and the slot into its bucket.
pub fn link(slots: &mut [Slot], heads: &mut [u32], bucket: usize, number: u32, node: Node)
    requires chained { IsChained (node_in slots.old) (chain_in slots.old) heads.old (length slots.old) }
    requires bucket { bucket ≡ bucket_of (length heads.old) node }
    requires within { bucket < length heads.old }
    requires apart { node.low ≢ node.high }
    requires free { node_in slots.old number ≡ None }
    requires two { 2 ≤ number }
    requires inside { number < length slots.old }
    ensures chained { IsChained (node_in slots.new) (chain_in slots.new) heads.new (length slots.new) }
    ensures nodes { (h : ℕ) → node_in slots.new h ≡ (if h == number then Some node else node_in slots.old h) }
    ensures frees { (h : ℕ) → node_in slots.new h ≡ None → chain_in slots.new h ≡ chain_in slots.old h }
{
    let first = heads[bucket];
    if first < number {
        slots[number as usize] = Slot { node, chain: first };
        heads[bucket] = number;
    } else {
        let before = place(slots, heads, bucket, number);
        let chain = slots[before as usize].chain;
        slots[number as usize] = Slot { node, chain };
        slots[before as usize].chain = number;
    }
}

/// The arrays by number of a table for so many nodes: slots and marks, with the two leaves' alone.
pub fn open_slots(alloc: Global, nodes: u32) -> Result<(Vec<Slot>, Vec<u32>), NoMemory>
    requires { nodes ≤ 4194304 }
    ensures slots { IfOk result (λ p. p.0.items ≡ empty_slot ∷ (empty_slot ∷ [])) }
    ensures marks { IfOk result (λ p. p.1.items ≡ 0 ∷ (0 ∷ [])) }
    ensures slot_room { IfOk result (λ p. nodes + 2 ≤ vec_capacity p.0) }
    ensures mark_room { IfOk result (λ p. nodes + 2 ≤ vec_capacity p.1) }
{
    let empty = Slot {
        node: Node {
            level: 0,
            low: 0,
            high: 0,
        },
        chain: 0,
    };
    let mut slots = Vec::with_capacity(alloc, nodes as usize + 2)?;
    slots.push_reserved(empty);
    slots.push_reserved(empty);
    let mut marks = Vec::with_capacity(alloc, nodes as usize + 2)?;
    marks.push_reserved(0);
    marks.push_reserved(0);
    Ok((slots, marks))
}

/// How many buckets a table has that holds few nodes.
const FEW: usize = 16_384;

/// How many buckets so many nodes want, but at most so many: a power of two, where that is one.
pub fn buckets_for(nodes: u32, most: usize) -> usize
    requires { 0 < most }
    ensures some { 0 < result }
    ensures most { result ≤ most }
{
    let mut buckets = FEW;
    while buckets < 4 * nodes as usize {
        buckets *= 2;
    }
    buckets.min(most)
}

/// Empty buckets, so many of them, within the room that was taken.
pub fn set_up(heads: &mut Vec<u32>, buckets: usize)
    requires room { buckets ≤ vec_capacity heads.old }
    ensures empty { heads.new.items ≡ replicate buckets 0 }
    ensures room { vec_capacity heads.old ≤ vec_capacity heads.new }
{
    heads.clear();
    heads.resize(buckets, 0).unwrap();
}

/// The heads of empty buckets, with room for a power of two of them that is no less than the nodes.
pub fn open_heads(alloc: Global, nodes: u32) -> Result<Vec<u32>, NoMemory>
    requires some { 0 < nodes }
    requires bound { nodes ≤ 4194304 }
    ensures empty { IfOk result (λ v. v.items ≡ replicate (length v.items) 0) }
    ensures some { IfOk result (λ v. 0 < length v.items) }
{
    let room = nodes.next_power_of_two() as usize;
    let mut heads = Vec::with_capacity(alloc, room)?;
    set_up(&mut heads, room.min(FEW));
    Ok(heads)
}

/// Puts a node into a new slot behind the others, unmarked, and the slot into its bucket.
pub fn append(
    slots: &mut Vec<Slot>,
    heads: &mut [u32],
    marks: &mut Vec<u32>,
    bucket: usize,
    node: Node,
) -> u32
    requires chained { IsChained (node_in slots.old.items) (chain_in slots.old.items) heads.old (length slots.old.items) }
    requires bucket { bucket ≡ bucket_of (length heads.old) node }
    requires within { bucket < length heads.old }
    requires apart { node.low ≢ node.high }
    requires two { 2 ≤ length slots.old.items }
    requires few { length slots.old.items < 2 ^ 32 }
    requires slot_room { vec_len slots.old < vec_capacity slots.old }
    requires mark_room { vec_len marks.old < vec_capacity marks.old }
    ensures number { result ≡ length slots.old.items }
    ensures chained { IsChained (node_in slots.new.items) (chain_in slots.new.items) heads.new (length slots.new.items) }
    ensures nodes { (h : ℕ) → node_in slots.new.items h ≡ (if h == result then Some node else node_in slots.old.items h) }
    ensures long { length slots.new.items ≡ length slots.old.items + 1 }
    ensures marks { marks.new.items ≡ marks.old.items ++ 0 ∷ [] }
    ensures slot_room { vec_capacity slots.new ≡ vec_capacity slots.old }
    ensures mark_room { vec_capacity marks.new ≡ vec_capacity marks.old }
    ensures buckets { length heads.new ≡ length heads.old }
{
    let number = slots.len() as u32;
    slots.push_reserved(Slot {
        node,
        chain: heads[bucket],
    });
    marks.push_reserved(0);
    heads[bucket] = number;
    number
}

/// Puts a node into the first free slot, or a new one. There is none where all slots of the room hold nodes.
pub fn hold(
    slots: &mut Vec<Slot>,
    heads: &mut [u32],
    marks: &mut Vec<u32>,
    free: &mut u32,
    room: u32,
    bucket: usize,
    node: Node,
) -> Option<u32>
    requires linked { IsLinked room slots.old.items heads.old free.old }
    requires bucket { bucket ≡ bucket_of (length heads.old) node }
    requires within { bucket < length heads.old }
    requires apart { node.low ≢ node.high }
    requires low { (is_valid (node_in slots.old.items) node.low ≡ true) × (node.level < level_at (node_in slots.old.items) node.low) }
    requires high { (is_valid (node_in slots.old.items) node.high ≡ true) × (node.level < level_at (node_in slots.old.items) node.high) }
    requires absent { (h : ℕ) → node_in slots.old.items h ≡ Some node → ⊥ }
    requires marked { length marks.old.items ≡ length slots.old.items }
    requires slot_room { room + 2 ≤ vec_capacity slots.old }
    requires mark_room { room + 2 ≤ vec_capacity marks.old }
    ensures some { IfSome result (λ number. PutsNode slots.old.items slots.new.items node number) }
    ensures none { IfNone result ((length slots.old.items ≡ room + 2) × (free.old ≡ 0)) }
    ensures same_slots { IfNone result (slots.new.items ≡ slots.old.items) }
    ensures same_marks { IfNone result (marks.new.items ≡ marks.old.items) }
    ensures linked { IsLinked room slots.new.items heads.new free.new }
    ensures longer { length slots.old.items ≤ length slots.new.items }
    ensures marked { length marks.new.items ≡ length slots.new.items }
    ensures marks { (h : ℕ) → slice_index_or marks.new.items h 0 ≡ slice_index_or marks.old.items h 0 }
    ensures slot_room { vec_capacity slots.new ≡ vec_capacity slots.old }
    ensures mark_room { vec_capacity marks.new ≡ vec_capacity marks.old }
{
    let number = *free;
    if number != 0 {
        *free = slots[number as usize].chain;
        link(slots, heads, bucket, number, node);
        return Some(number);
    }
    if slots.len() >= room as usize + 2 {
        return None;
    }
    Some(append(slots, heads, marks, bucket, node))
}
