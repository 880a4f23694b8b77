//! Small tables worked out by hand: a tree of the codes of two bits below one level with a book of three texts, and
//! trees of pairs of codes of four bits with a book of fifteen.

ghost use Rattle.std.specs.Prelude.{◌≡◌, ◌<◌, ◌≤◌, ⊤, MatchOption};
ghost use Rattle.node_table.specs.Table.{IsValid};

use crate::{is_told_apart, sweep};
use bdd_ops::{Literal, Op, Store, apply, cube};
use mon_base::Steps;
use node_table::{Block, Handle, NodeTable};
use qtl_syntax::Text;
use std::alloc::{AllocError, Global};
use std::marker::Brand;
use std::sync::ledger::{Blank, Ledger};
use std::test::Fail;
use value_codes::Book;

/// The bits of a code, the most significant first.
type Code = (bool, bool);

fn at(level: u16, bit: bool) -> Literal
    ensures { result ≡ record { level = level; bit = bit } }
{
    Literal { level, bit }
}

/// Whether a text that had no code was given one.
fn give(alloc: Global, book: &mut Book, name: &str) -> Result<bool, AllocError>
    ensures { book.new.bits ≡ book.old.bits }
{
    let value = Text::from_bytes(alloc, name.as_bytes())?;
    if book.code_of(&value).is_some() {
        return Ok(false);
    }
    Ok(book.give(value).is_ok())
}

/// The tree that holds at one code where the first bit is false, and at another where it is true.
fn two_codes<L: Ledger>(
    store: &mut Store,
    low: Code,
    high: Code,
    steps: &mut Steps<L>,
) -> Option<Handle>
    ensures { MatchOption result ⊤ (λ h. IsValid store.new.table h) }
{
    let below = [at(0, false), at(1, low.0), at(2, low.1)];
    let Ok(u) = cube(store, &below, &[], steps) else {
        return None;
    };
    let above = [at(0, true), at(1, high.0), at(2, high.1)];
    let Ok(v) = cube(store, &above, &[u], steps) else {
        return None;
    };
    apply(store, Op::Or, u, v, &[], steps).ok()
}

/// Whether a tree tells a code of the block apart. The block has the levels 1 and 2.
fn told<L: Ledger>(table: &mut NodeTable, tree: Handle, code: u32, steps: &mut Steps<L>) -> bool
    requires valid { IsValid table.old tree }
    requires code { code < 4 }
    ensures { IsValid table.new tree }
{
    let block = Block { first: 1, bits: 2 };
    is_told_apart(table, &[tree], block, code, steps)
}

/// Over the tree of two codes: which of the codes 0 to 3 are told apart, how many codes a sweep takes back, and which
/// of 0 to 2 are left.
fn swept<L: Ledger>(
    alloc: Global,
    low: Code,
    high: Code,
    needed: &[u32],
    blank: Blank,
) -> Result<Option<([bool; 4], u32, [bool; 3])>, AllocError>
    requires name { blank.name ≡ L.name }
    requires parts { blank.parts ≡ L.parts }
    requires some { 0 < L.parts }
{
    let mut steps = Steps::<L>::new(blank);
    let mut book = Book::open(alloc, 2)?;
    let a = give(alloc, &mut book, "a")?;
    let b = give(alloc, &mut book, "b")?;
    let c = give(alloc, &mut book, "c")?;
    if !(a && b && c) {
        return Ok(None);
    }
    let mut store = Store::open(alloc, 16, 64)?;
    let Some(tree) = two_codes(&mut store, low, high, &mut steps) else {
        return Ok(None);
    };
    let table = store.table_mut();
    let told = [
        told(table, tree, 0, &mut steps),
        told(table, tree, 1, &mut steps),
        told(table, tree, 2, &mut steps),
        told(table, tree, 3, &mut steps),
    ];
    let block = Block { first: 1, bits: 2 };
    let count = sweep(table, &[tree], block, &mut book, needed, &mut steps);
    let left = [
        book.value_of(0).is_some(),
        book.value_of(1).is_some(),
        book.value_of(2).is_some(),
    ];
    Ok(Some((told, count, left)))
}

#[test]
fn codes_told_apart_stay(rt: HostRuntime) -> Result<(), Fail> {
    let none: &[u32] = &[];
    for (low, high, needed, expected) in [
        (
            (false, false),
            (false, true),
            none,
            ([true, true, false, false], 1, [true, true, false]),
        ),
        (
            (false, false),
            (false, true),
            &[2],
            ([true, true, false, false], 0, [true, true, true]),
        ),
        (
            (false, false),
            (false, false),
            none,
            ([true, false, false, false], 2, [true, false, false]),
        ),
        (
            (true, true),
            (true, true),
            none,
            ([true, true, true, false], 0, [true, true, true]),
        ),
        (
            (false, true),
            (true, true),
            &[0],
            ([true, true, true, false], 0, [true, true, true]),
        ),
    ] {
        assert_eq!(rt;
            swept::<Brand>(rt.alloc(), low, high, needed, Blank::new(1))?,
            Some(expected),
            "{low:?} {high:?}"
        );
    }
    Ok(())
}

/// The tree that holds also where the levels 0 to 3 have one code and the levels 4 to 7 another one.
fn with_pair<L: Ledger>(
    store: &mut Store,
    tree: Handle,
    pair: (u32, u32),
    steps: &mut Steps<L>,
) -> Option<Handle>
    requires { IsValid store.old.table tree }
    ensures { MatchOption result ⊤ (λ h. IsValid store.new.table h) }
{
    let (x, y) = pair;
    let literals = [
        at(0, x & 8 != 0),
        at(1, x & 4 != 0),
        at(2, x & 2 != 0),
        at(3, x & 1 != 0),
        at(4, y & 8 != 0),
        at(5, y & 4 != 0),
        at(6, y & 2 != 0),
        at(7, y & 1 != 0),
    ];
    let Ok(u) = cube(store, &literals, &[tree], steps) else {
        return None;
    };
    apply(store, Op::Or, tree, u, &[], steps).ok()
}

/// Over the tree of some pairs: how many of fifteen codes a sweep takes back for the block at a level, and which are
/// left, a bit for each.
fn left<L: Ledger>(
    alloc: Global,
    pairs: &[(u32, u32)],
    first: u16,
    needed: &[u32],
    blank: Blank,
) -> Result<Option<(u32, u32)>, AllocError>
    requires first { first ≤ 4 }
    requires name { blank.name ≡ L.name }
    requires parts { blank.parts ≡ L.parts }
    requires some { 0 < L.parts }
{
    let mut steps = Steps::<L>::new(blank);
    let mut book = Book::open(alloc, 4)?;
    for name in [
        "a", "b", "c", "d", "e", "f", "g", "h", "i", "j", "k", "l", "m", "n", "o",
    ] {
        if !give(alloc, &mut book, name)? {
            return Ok(None);
        }
    }
    let mut store = Store::open(alloc, 256, 1024)?;
    let mut tree = store.table().zero();
    for pair in pairs {
        let Some(next) = with_pair(&mut store, tree, *pair, &mut steps) else {
            return Ok(None);
        };
        tree = next;
    }
    let block = Block { first, bits: 4 };
    let count = sweep(
        store.table_mut(),
        &[tree],
        block,
        &mut book,
        needed,
        &mut steps,
    );
    let mut codes = 0;
    for code in 0..15 {
        if book.value_of(code).is_some() {
            codes |= 1u32 << code;
        }
    }
    Ok(Some((count, codes)))
}

#[test]
fn codes_of_two_variables(rt: HostRuntime) -> Result<(), Fail> {
    let none: &[u32] = &[];
    let some: &[(u32, u32)] = &[(0, 3), (1, 5), (2, 3), (14, 9)];
    let with_ones: &[(u32, u32)] = &[(0, 15), (1, 5)];
    for (pairs, first, needed, expected) in [
        (some, 4, none, (12, 1 << 3 | 1 << 5 | 1 << 9)),
        (some, 4, &[7], (11, 1 << 3 | 1 << 5 | 1 << 7 | 1 << 9)),
        (some, 0, none, (11, 1 << 0 | 1 << 1 | 1 << 2 | 1 << 14)),
        (with_ones, 4, none, (0, (1 << 15) - 1)),
        (with_ones, 0, none, (13, 1 << 0 | 1 << 1)),
        (&[], 0, none, (15, 0)),
    ] {
        assert_eq!(rt;
            left::<Brand>(rt.alloc(), pairs, first, needed, Blank::new(1))?,
            Some(expected),
            "{pairs:?} {first}"
        );
    }
    Ok(())
}
