//! The least text by bytes whose code leads to a tree that can be false.
ghost use Rattle.std.specs.Prelude.{◌≡◌, ◌+◌, ◌-◌, ◌*◌, ◌^◌, ◌≤◌};
ghost use Rattle.std.specs.Option.{option_map};
ghost use Rattle.node_tree.specs.Tree.{IsOrderedFrom};
ghost use Rattle.node_table.specs.Table.{tree_of, IsValid};
ghost use Rattle.report.specs.Witness.{is_before};
ghost use Rattle.witness.specs.Least.{least_failing};
ghost use Rattle.witness.specs.Searching.{CanLeave, IsLeastIfAny, lesser_of};

use bdd_ops::walk;
use mon_base::Steps;
use node_table::{Block, Handle, NodeTable};
use qtl_syntax::Text;
use std::cmp::Ordering;
use std::sync::ledger::Ledger;
use value_codes::Book;

/// Whether a stands before b in the order of bytes.
fn is_before(a: &Text, b: &Text) -> bool
    ensures { result ≡ is_before a.now b.now }
{
    match a.cmp(b) {
        Ordering::Less => true,
        Ordering::Equal | Ordering::Greater => false,
    }
}

/// The lesser of two texts that there may be.
fn lesser_of<'a>(a: Option<&'a Text>, b: Option<&'a Text>) -> Option<&'a Text>
    ensures { option_map (λ t. t.now) result ≡
        lesser_of (option_map (λ t. t.now) a.entry) (option_map (λ t. t.now) b.entry) }
{
    match a {
        None => b,
        Some(text) => match b {
            None => a,
            Some(other) => { if is_before(other, text) { b } else { a } }
        },
    }
}

/// The half of the numbers of so many bits.
fn half(bits: u8) -> u32
    requires some { 1 ≤ bits }
    requires few { bits ≤ 20 }
    ensures power { result ≡ 2 ^ (bits - 1) }
    ensures half { result + result ≡ 2 ^ bits }
{
    1u32 << (bits - 1)
}

/// The least text of the codes from `from` on, one for each way down so many levels, that lead to
/// a tree other than true. A tree that is true everywhere is left at once. Each level costs two
/// steps.
fn least_from<'a, L: Ledger>(
    table: &NodeTable,
    h: Handle,
    level: u32,
    bits: u8,
    from: u32,
    book: &'a Book,
    steps: &mut Steps<L>,
) -> Option<&'a Text>
    requires valid { IsValid table.now h }
    requires width { bits ≤ 20 }
    requires block { level + bits ≤ 65536 }
    requires codes { from + 2 ^ bits ≤ 2 ^ 20 }
    requires below { IsOrderedFrom level (tree_of table.now h) }
    ensures least { IsLeastIfAny (CanLeave book.now.pairs level bits from (tree_of table.now h))
        (option_map (λ t. t.now) result) }
    ensures cost { steps.new + 2 ≤ steps.old + 2 * 2 ^ bits }
{
    let _held = table.live();
    if h == table.one() {
        return None;
    }
    if bits == 0 {
        return book.value_of(from);
    }
    let half = half(bits);
    let block = Block {
        first: level as u16,
        bits: 1,
    };
    let low = walk(table, h, block, 0, steps);
    let high = walk(table, h, block, 1, steps);
    let least_low = least_from(table, low, level + 1, bits - 1, from, book, steps);
    let least_high = least_from(table, high, level + 1, bits - 1, from + half, book, steps);
    lesser_of(least_low, least_high)
}

/// The least text of a book whose code, set in the block, leaves a tree other than true.
pub fn least_failing<'a, L: Ledger>(
    table: &NodeTable,
    h: Handle,
    block: Block,
    book: &'a Book,
    steps: &mut Steps<L>,
) -> Option<&'a Text>
    requires valid { IsValid table.now h }
    requires width { block.bits ≤ 20 }
    requires block { block.first + block.bits ≤ 65536 }
    requires codes { book.now.bits ≡ block.bits }
    requires below { IsOrderedFrom block.first (tree_of table.now h) }
    ensures least { option_map (λ t. t.now) result ≡
        least_failing block.first block.bits (tree_of table.now h) book.now.pairs }
    ensures cost { steps.new + 2 ≤ steps.old + 2 * 2 ^ block.bits }
{
    let _free = book.free_count();
    least_from(table, h, block.first as u32, block.bits, 0, book, steps)
}
