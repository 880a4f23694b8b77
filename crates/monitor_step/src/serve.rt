//! The codes of an event's texts: each variable is served, in order.

ghost use Rattle.std.specs.Prelude.{◌≡◌, ◌≢◌, ℕ, ◌+◌, ◌*◌, ◌-◌, ◌^◌, ◌<◌, ◌≤◌, ◌++◌, [], None, length, map, take, drop, vec_capacity, IfOk, IsOk, OnOk, MatchResult};
ghost use Rattle.std.specs.List.{All, AllByRecursion};
ghost use Rattle.qtl_syntax.specs.Tree.{Text as TheText};
ghost use Rattle.node_table.specs.Table.{tree_of, KeepsTrees};
ghost use Rattle.node_table.specs.Collects.{AllValid};
ghost use Rattle.value_codes.specs.Pairs.{code_of, IsBook};
ghost use Rattle.subformulas.specs.NeedList.{EntryArgsBelow, AreByVariable, texts_for};
ghost use Rattle.subformulas.specs.Texts.{Has};
ghost use Rattle.code_reclaim.specs.Swept.{stays, Keeps};
ghost use Rattle.bdd_ops.specs.Codes.{HasLevels};
ghost use Rattle.monitor_model.specs.Books.{AllApart, without_code};
ghost use Rattle.monitor_step.specs.Coded.{code_at, AreAtomCodes, AreCodes, IsCoding};
ghost use Rattle.monitor_step.specs.Giving.{marked, own_texts, AddsCodes, GivesAll, HaveCodes, Takes, TakesTooMany};
ghost use Rattle.monitor_step.specs.Serving.{AreServed, IsEndAt, IsServed, IsServeEnd, pairs_at};

use bdd_ops::{BlockCode, Store};
use code_reclaim::sweep;
use mon_base::Steps;
use node_table::{Block, Handle};
use qtl_syntax::Text;
use qtl_truth::Event;
use std::alloc::{AllocError, AllocFailed, Global};
use std::marker::Model;
use std::sync::ledger::Ledger;
use subformulas::{Need, Use};
use value_codes::{Book, GiveFault};

/// Why the variables of an event could not all be served.
#[derive(Clone, Copy, Debug, PartialEq, Eq)]
pub enum ServeEnd {
    /// Of this variable this many texts are told apart or needed, and the codes are fewer.
    CodesFull { variable: u32, need: u32 },
    NoMemory,
}

impl From<AllocError> for ServeEnd {
    ghost use Rattle.std.specs.Prelude.{◌≡◌};
    ghost use Rattle.monitor_step.specs.declared.serve.ServeEnd.TheVariants.{NoMemory};

    ghost from_gives = { λ _ e. e ≡ NoMemory };

    fn from(_: AllocError) -> Self {
        ServeEnd::NoMemory
    }
}

impl<T: Drop> From<AllocFailed<T>> for ServeEnd {
    ghost use Rattle.std.specs.Prelude.{◌≡◌};
    ghost use Rattle.monitor_step.specs.declared.serve.ServeEnd.TheVariants.{NoMemory};

    ghost from_gives = { λ _ e. e ≡ NoMemory };

    fn from(_: AllocFailed<T>) -> Self {
        ServeEnd::NoMemory
    }
}

/// Beside each entry of an event's needs the code of its text, and where those of each variable begin.
#[derive(Drop)]
pub struct Codes {
    starts: Vec<u32>,
    codes: Vec<u32>,
}

impl Model for Codes {
    ghost use Rattle.std.specs.Prelude.{vec_capacity};
    ghost use Rattle.monitor_step.specs.Coded.{Served};

    ghost Value = { Served };

    ghost view = { λ c. record { starts = c.starts.items; codes = c.codes.items; start_room = vec_capacity c.starts; code_room = vec_capacity c.codes } };
}

impl Codes {
    /// No codes, and room for those of so many variables and entries.
    pub fn open(alloc: Global, variables: usize, entries: usize) -> Result<Codes, AllocError>
        requires few_variables { variables ≤ 64 }
        requires few_entries { entries ≤ 262144 }
        ensures start_room { IfOk result (λ c. variables ≤ c.start_room) }
        ensures code_room { IfOk result (λ c. entries ≤ c.code_room) }
    {
        Ok(Codes {
            starts: Vec::with_capacity(alloc, variables)?,
            codes: Vec::with_capacity(alloc, entries)?,
        })
    }
}

/// Stands for the code of a text that has none: no code is as great.
const NO_CODE: u32 = u32::MAX;

/// Adds the code of each text, with a mark for those that have none, and says how many these are.
fn list_codes(
    own: &[Need],
    args: &[Text],
    book: &Book,
    codes: &mut Vec<u32>,
) -> Result<u32, AllocError>
    requires args { EntryArgsBelow (length args.now) own.now }
    requires few { length own.now ≤ 2 ^ 31 }
    ensures listed { OnOk result (codes.new.items ≡ codes.old.items ++ marked book.now.pairs (own_texts args.now own.now)) }
    ensures count { IfOk result (λ n. n ≡ length (without_code book.now.pairs (own_texts args.now own.now))) }
    ensures few { IfOk result (λ n. n ≤ 2 ^ 31) }
    ensures capacity { vec_capacity codes.old ≤ vec_capacity codes.new }
    ensures room { length codes.old.items + length own.now ≤ vec_capacity codes.old → IsOk result }
{
    let mut new = 0;
    for entry in own {
        let code = book.code_of(&args[entry.arg as usize]);
        if code.is_none() {
            new += 1;
        }
        codes.push(code.unwrap_or(NO_CODE))?;
    }
    Ok(new)
}

/// Takes back the codes of a variable's texts that are neither told apart nor needed, and says whether the new texts
/// find free codes then.
fn make_room<L: Ledger>(
    store: &mut Store,
    remembered: &[Handle],
    variable: u32,
    block: Block,
    book: &mut Book,
    needed_codes: &[u32],
    new: u32,
    steps: &mut Steps<L>,
) -> Result<(), ServeEnd>
    requires few { new ≤ 2 ^ 31 }
    requires valid { AllValid store.old.table remembered.now }
    requires bits { book.old.bits ≡ block.bits }
    requires block { block.first + block.bits ≤ 65536 }
    ensures swept { Keeps (stays (map (tree_of store.old.table) remembered.now) block.first block.bits needed_codes.now) book.old.pairs book.new.pairs }
    ensures answer { MatchResult result
        (λ _. length book.new.pairs + new < 2 ^ block.bits)
        (λ e. TakesTooMany block.bits variable (length book.new.pairs + new) e) }
    ensures bits { book.new.bits ≡ book.old.bits }
    ensures sound { IsBook book.new }
    ensures room { store.new.table.room ≡ store.old.table.room }
    ensures nodes { store.new.table.nodes ≡ store.old.table.nodes }
    ensures kept { KeepsTrees store.old.table store.new.table }
    ensures entries { store.new.memo.entries ≡ store.old.memo.entries }
    ensures cost { steps.new ≤ steps.old + (2 ^ block.bits - 1) * ((store.old.table.room + 2) * (2 * block.bits + 1)) }
    ensures idle { remembered.now ≡ [] → steps.new ≡ steps.old }
{
    let _free = book.free_count();
    // The store forgets its results where the table is lent, so it is lent here alone.
    let table = store.table_mut();
    sweep(table, remembered, block, book, needed_codes, steps);
    let left = book.free_count();
    if left < new {
        let given = (1 << block.bits) - 1 - left;
        return Err(ServeEnd::CodesFull {
            variable,
            need: given + new,
        });
    }
    Ok(())
}

/// Gives a text that has no code the least free one.
fn give_one(text: &Text, book: &mut Book) -> Result<u32, AllocError>
    requires none { code_of book.old.pairs text.now ≡ None }
    requires room { length book.old.pairs < 2 ^ book.old.bits - 1 }
    ensures given { IfOk result (λ c. Takes book.old.bits text.now c book.old.pairs book.new.pairs) }
    ensures bits { book.new.bits ≡ book.old.bits }
    ensures sound { IsBook book.new }
{
    let _free = book.free_count();
    match book.give(text.copy()?) {
        Ok(code) => Ok(code),
        Err(GiveFault::NoMemory) => Err(AllocError),
        Err(GiveFault::NoFreeCode) => unreachable!(),
    }
}

/// Gives each text whose code is a mark the least free one, in order, and puts it in place of the mark.
fn give_new(
    own: &[Need],
    args: &[Text],
    book: &mut Book,
    codes: &mut [u32],
) -> Result<(), AllocError>
    requires args { EntryArgsBelow (length args.now) own.now }
    requires once { AllApart (own_texts args.now own.now) }
    requires listed { codes.old ≡ marked book.old.pairs (own_texts args.now own.now) }
    requires room { length book.old.pairs + length (without_code book.old.pairs (own_texts args.now own.now)) < 2 ^ book.old.bits }
    ensures given { OnOk result (GivesAll book.old.bits (own_texts args.now own.now) book.old.pairs book.new.pairs) }
    ensures codes { OnOk result (HaveCodes book.new.pairs (own_texts args.now own.now) codes.new) }
    ensures count { length codes.new ≡ length codes.old }
    ensures bits { book.new.bits ≡ book.old.bits }
    ensures sound { IsBook book.new }
{
    let _free = book.free_count();
    for (i, entry) in own.iter().enumerate() {
        if codes[i] == NO_CODE {
            codes[i] = give_one(&args[entry.arg as usize], book)?;
        }
    }
    Ok(())
}

/// Gives each text that the entries of a variable name a code, the least free ones in order, and lists the codes. Where
/// the new texts are more than the free codes, the codes of texts that are neither told apart nor needed are taken back
/// first.
fn serve_variable<L: Ledger>(
    store: &mut Store,
    remembered: &[Handle],
    variable: u32,
    block: Block,
    own: &[Need],
    args: &[Text],
    book: &mut Book,
    codes: &mut Vec<u32>,
    steps: &mut Steps<L>,
) -> Result<(), ServeEnd>
    requires args { EntryArgsBelow (length args.now) own.now }
    requires once { AllApart (own_texts args.now own.now) }
    requires few { length own.now ≤ 2 ^ 31 }
    requires valid { AllValid store.old.table remembered.now }
    requires bits { book.old.bits ≡ block.bits }
    requires block { block.first + block.bits ≤ 65536 }
    ensures served { MatchResult result
        (λ _. IsServed (map (tree_of store.old.table) remembered.now) block.first block.bits (own_texts args.now own.now) book.old.pairs book.new.pairs)
        (λ e. IsEndAt (map (tree_of store.old.table) remembered.now) block.first block.bits variable (own_texts args.now own.now) book.old.pairs e) }
    ensures codes { OnOk result (AddsCodes book.new.pairs (own_texts args.now own.now) codes.old.items codes.new.items) }
    ensures capacity { vec_capacity codes.old ≤ vec_capacity codes.new }
    ensures no_memory { ((t : TheText) → Has (own_texts args.now own.now) t → code_of book.old.pairs t ≢ None) → length codes.old.items + length own.now ≤ vec_capacity codes.old → IsOk result }
    ensures bits { book.new.bits ≡ book.old.bits }
    ensures sound { IsBook book.new }
    ensures room { store.new.table.room ≡ store.old.table.room }
    ensures nodes { store.new.table.nodes ≡ store.old.table.nodes }
    ensures kept { KeepsTrees store.old.table store.new.table }
    ensures entries { store.new.memo.entries ≡ store.old.memo.entries }
    ensures cost { steps.new ≤ steps.old + (2 ^ block.bits - 1) * ((store.old.table.room + 2) * (2 * block.bits + 1)) }
    ensures idle { remembered.now ≡ [] → steps.new ≡ steps.old }
{
    let free = book.free_count();
    let from = codes.len();
    let new = list_codes(own, args, book, codes)?;
    if new == 0 {
        return Ok(());
    }
    if free < new {
        let needed_codes = &codes[from..];
        make_room(
            store,
            remembered,
            variable,
            block,
            book,
            needed_codes,
            new,
            steps,
        )?;
    }
    give_new(own, args, book, &mut codes[from..])?;
    Ok(())
}

/// How many entries stand before those of later variables.
fn count_before(entries: &[Need], variable: u32) -> usize
    requires { AreByVariable entries.now }
    ensures within { result ≤ length entries.now }
    ensures front { AllByRecursion (λ n. n.variable ≤ variable) (take result entries.now) }
    ensures back { AllByRecursion (λ n. variable < n.variable) (drop result entries.now) }
{
    for (place, entry) in entries.iter().enumerate() {
        if variable < entry.variable {
            return place;
        }
    }
    entries.len()
}

/// Serves the variables in order; the block of variable x has the levels from x times the number of bits on. The codes
/// come in place of what the list held. After an error the books and the list may hold any part of the event's codes.
pub fn serve_all<L: Ledger>(
    store: &mut Store,
    remembered: &[Handle],
    bits: u8,
    entries: &[Need],
    event: &Event,
    books: &mut [Book],
    codes: &mut Codes,
    steps: &mut Steps<L>,
) -> Result<(), ServeEnd>
    requires order { AreByVariable entries.now }
    requires args { EntryArgsBelow (length event.now.args) entries.now }
    requires once { (x : ℕ) → x < length books.old → AllApart (texts_for x event.now.args entries.now) }
    requires few { length entries.now ≤ 2 ^ 31 }
    requires valid { AllValid store.old.table remembered.now }
    requires bits { AllByRecursion (λ b. b.bits ≡ bits) books.old }
    requires blocks { length books.old * bits ≤ 65536 }
    ensures served { MatchResult result
        (λ _. AreServed (map (tree_of store.old.table) remembered.now) bits event.now.args entries.now (length books.old) books.old books.new)
        (λ e. IsServeEnd (map (tree_of store.old.table) remembered.now) bits event.now.args entries.now books.old books.new e) }
    ensures codes { OnOk result (AreCodes (length books.old) event.now entries.now (pairs_at books.new) codes.new) }
    ensures start_room { codes.old.start_room ≤ codes.new.start_room }
    ensures code_room { codes.old.code_room ≤ codes.new.code_room }
    ensures no_memory { ((x : ℕ) (t : TheText) → x < length books.old → Has (texts_for x event.now.args entries.now) t → code_of (pairs_at books.old x) t ≢ None) →
        length books.old ≤ codes.old.start_room → length entries.now ≤ codes.old.code_room → IsOk result }
    ensures count { length books.new ≡ length books.old }
    ensures bits { AllByRecursion (λ b. b.bits ≡ bits) books.new }
    ensures sound { OnOk result (AllByRecursion IsBook books.new) }
    ensures room { store.new.table.room ≡ store.old.table.room }
    ensures nodes { store.new.table.nodes ≡ store.old.table.nodes }
    ensures kept { KeepsTrees store.old.table store.new.table }
    ensures entries { store.new.memo.entries ≡ store.old.memo.entries }
    ensures cost { steps.new ≤ steps.old + length books.old * ((2 ^ bits - 1) * ((store.old.table.room + 2) * (2 * bits + 1))) }
    ensures idle { remembered.now ≡ [] → steps.new ≡ steps.old }
{
    codes.starts.clear();
    codes.codes.clear();
    let args = event.args.as_slice();
    let mut left = entries;
    for (x, book) in books.iter_mut().enumerate() {
        let _free = book.free_count();
        let variable = x as u32;
        let (own, later) = left.split_at(count_before(left, variable));
        left = later;
        let block = Block {
            first: x as u16 * bits as u16,
            bits,
        };
        codes.starts.push(codes.codes.len() as u32)?;
        serve_variable(
            store,
            remembered,
            variable,
            block,
            own,
            args,
            book,
            &mut codes.codes,
            steps,
        )?;
    }
    Ok(())
}

/// Lists the code of each use with its variable's block, in order, in place of what the list held.
pub fn code_uses(
    uses: &[Use],
    served: &Codes,
    bits: u8,
    coded: &mut Vec<BlockCode>,
) -> Result<(), AllocError>
    requires codes { AllByRecursion (λ u. code_at served.now u.variable u.nth ≢ None) uses.now }
    requires blocks { AllByRecursion (λ u. u.variable * bits + bits ≤ 65536) uses.now }
    ensures coding { OnOk result (IsCoding bits served.now uses.now coded.new.items) }
    ensures coded { OnOk result (AreAtomCodes bits served.now uses.now coded.new.items) }
    ensures levels { OnOk result (All HasLevels coded.new.items) }
    ensures count { OnOk result (length coded.new.items ≡ length uses.now) }
    ensures capacity { vec_capacity coded.old ≤ vec_capacity coded.new }
    ensures no_memory { length uses.now ≤ vec_capacity coded.old → IsOk result }
{
    coded.clear();
    for one in uses {
        // As `code_at` has it, codes of a variable without a start begin at 0.
        let start = served
            .starts
            .get(one.variable as usize)
            .copied()
            .unwrap_or(0);
        // The product fits 16 bits, where the variable alone need not.
        let first = one.variable * bits as u32;
        let block = Block {
            first: first as u16,
            bits,
        };
        coded.push(BlockCode {
            block,
            code: served.codes[start as usize + one.nth as usize],
        })?;
    }
    Ok(())
}
