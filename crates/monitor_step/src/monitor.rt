//! The monitor over diagrams: an event is bound, its texts get codes, its rows are made, and what is remembered is put in place.

ghost use Rattle.std.specs.Prelude.{◌≡◌, ℕ, ◌+◌, ◌-◌, ◌*◌, ◌<◌, ◌≤◌, ◌^◌, ◌++◌, ◌↔◌, List, [], ◌∷◌, length, true, false, IfOk, IfSome, OnOk, IsErrOf, IsTrue, Some, slice_get, is_ok};
ghost use Rattle.std.specs.Option.{option_map};
ghost use Rattle.std.specs.List.{AllByRecursion};
ghost use Rattle.qtl_syntax.specs.Tree.{Text as TheText};
ghost use Rattle.qtl_truth.specs.Truth.{IsLog};
ghost use Rattle.qtl_truth.specs.declared.event.Event.{Event as TheEvent};
ghost use Rattle.wellformed.specs.CoreTruth.{TrueCore};
ghost use Rattle.node_table.specs.Table.{tree_of, IsValid};
ghost use Rattle.value_codes.specs.Pairs.{IsBook};
ghost use Rattle.subformulas.specs.Memory.{IsTemporal};
ghost use Rattle.subformulas.specs.Table.{HasFewTerms};
ghost use Rattle.subformulas.specs.TimeBits.{time_bits};
ghost use Rattle.subformulas.specs.Unfolded.{formula_at};
ghost use Rattle.bdd_ops.specs.Shelf.{IsLarge};
ghost use Rattle.monitor_model.specs.Reading.{Reads, Answers};
ghost use Rattle.monitor_model.specs.Shape.{oldest, HasMemoryShape, HasOwnLevels, ReadsAlike};
ghost use Rattle.monitor_model.specs.State.{IsLive, IsMonitor, Stands, memory_of, now_of, pairs_in, setting_of, verdict_at};
ghost use Rattle.monitor_model.specs.Ends.{time_since};
ghost use Rattle.monitor_step.specs.Monitor.{MatchEnd, HasCodesFor, HasShape, HasSmallAtoms, step_bound, variables_of};
ghost use Rattle.monitor_step.specs.declared.monitor.StepEnd.TheVariants.{NoMemory as TheNoMemory};

use crate::event_rows::{NodesFull, event_rows};
use crate::frame::Frame;
use crate::lists::{Lists, code_event, open_lists};
use crate::remember::{first_handles, remember, temporal_before};
use crate::serve::ServeEnd;
use bdd_ops::Store;
use mon_base::{NoMemory, Steps};
use node_table::{Block, Handle, NodeTable};
use qtl_truth::Event;
use std::alloc::Global;
use std::marker::Model;
use std::sync::ledger::Ledger;
use subformulas::Plan;
use value_codes::Book;

/// How large a monitor is: the bits of a code, from 1 to 20; the nodes of its table, from 2 to 4,194,304; and the entries of its
/// cache, from the nodes and 2 up to 8,388,608.
#[derive(Clone, Copy, Debug, PartialEq, Eq)]
pub struct Sizes {
    pub bits: u8,
    pub nodes: u32,
    pub cache: u32,
}

/// Why an event could not be judged. The monitor isn't live any more.
#[derive(Clone, Copy, Debug, PartialEq, Eq)]
pub enum StepEnd {
    /// For this variable so many texts are told apart or needed, and there are fewer codes.
    CodesFull { variable: u32, need: u32 },
    /// This row of this subformula, both counted from 1, is the first that needs more nodes than the table has.
    NodesFull { subformula: u32, row: u32 },
    NoMemory,
}

impl From<NoMemory> for StepEnd {
    ghost use Rattle.std.specs.Prelude.{◌≡◌};
    ghost use Rattle.monitor_step.specs.declared.monitor.StepEnd.TheVariants.{NoMemory};

    ghost from_gives = { λ _ e. e ≡ NoMemory };

    fn from(_: NoMemory) -> Self {
        StepEnd::NoMemory
    }
}

impl From<ServeEnd> for StepEnd {
    ghost use Rattle.std.specs.Prelude.{◌≡◌};
    ghost use Rattle.monitor_step.specs.Stages.{serve_end};

    ghost from_gives = { λ r e. e ≡ serve_end r };

    fn from(end: ServeEnd) -> Self {
        match end {
            ServeEnd::CodesFull { variable, need } => StepEnd::CodesFull { variable, need },
            ServeEnd::NoMemory => StepEnd::NoMemory,
        }
    }
}

impl From<NodesFull> for StepEnd {
    ghost use Rattle.std.specs.Prelude.{◌≡◌};
    ghost use Rattle.monitor_step.specs.Stages.{rows_end};

    ghost from_gives = { λ r e. e ≡ rows_end r };

    fn from(full: NodesFull) -> Self {
        StepEnd::NodesFull {
            subformula: full.subformula,
            row: full.row,
        }
    }
}

/// A monitor of a plan: books of codes, drawn trees and how many events there were. All its rooms are taken when it is
/// opened.
#[derive(Drop)]
pub struct Monitor {
    alloc: Global,
    plan: Plan,
    bits: u8,
    store: Store,
    /// By number of variable.
    books: Vec<Book>,
    /// Those of the remembered trees, of the trees that are remembered next, of the trees at the last event, and of the letters
    /// of a row.
    handles: Vec<Handle>,
    /// How many remembered trees there are.
    remembered: usize,
    lists: Lists,
    /// False from the first event on that could not be judged.
    live: bool,
    events: u64,
    last_time: u64,
}

impl Model for Monitor {
    ghost use Rattle.std.specs.Prelude.{◌≡◌, true, nat_lt};
    ghost use Rattle.monitor_model.specs.State.{State, IsMonitor, IsLive, kept};
    ghost use Rattle.monitor_step.specs.Stages.{HaveRoom};

    ghost Value = { State };

    ghost view = { λ m. record { plan = m.plan; bits = m.bits; shelf = m.store; books = m.books.items; handles = m.handles.items; live = m.live; has_now = nat_lt 0 m.events; events = m.events; last_time = m.last_time } };

    ghost invariant = { λ m. let state : State = record { plan = m.plan; bits = m.bits; shelf = m.store; books = m.books.items; handles = m.handles.items; live = m.live; has_now = nat_lt 0 m.events; events = m.events; last_time = m.last_time } in
        IsMonitor state × (m.remembered ≡ kept state) × (m.live ≡ true → IsLive state) × HaveRoom m.plan m.lists };
}

/// Empty books for so many variables.
fn open_books(alloc: Global, variables: usize, bits: u8) -> Result<Vec<Book>, NoMemory>
    requires low { 1 ≤ bits }
    requires high { bits ≤ 20 }
    requires few { variables ≤ 64 }
    ensures count { IfOk result (λ books. length books.items ≡ variables) }
    ensures empty { IfOk result (λ books. AllByRecursion (λ b. b ≡ record { bits = bits; pairs = [] }) books.items) }
    ensures sound { IfOk result (λ books. AllByRecursion IsBook books.items) }
{
    let mut books = Vec::with_capacity(alloc, variables)?;
    for _ in 0..variables {
        books.push(Book::open(alloc, bits)?)?;
    }
    Ok(books)
}

/// The time since the event before; 0 at the first one.
fn time_since(events: u64, last_time: u64, event: &Event) -> u64
    requires { last_time ≤ event.now.time }
    ensures { result ≡ time_since events last_time event.now }
{
    if events == 0 {
        return 0;
    }
    event.time - last_time
}

/// The levels that spell ages, behind the blocks of the variables.
fn time_block(plan: &Plan, bits: u8) -> Block
    requires few_bits { bits ≤ 20 }
    ensures first { result.first ≡ length plan.now.variables * bits }
    ensures bits { result.bits ≡ time_bits plan.now.subs }
    ensures few { result.bits ≤ 20 }
    ensures within { result.first + result.bits ≤ 65536 }
{
    let _sound = plan.count();
    Block {
        first: plan.variables().len() as u16 * bits as u16,
        bits: plan.time_bits(),
    }
}

impl Monitor {
    /// A monitor before the first event.
    pub fn open(alloc: Global, plan: Plan, sizes: Sizes) -> Result<Monitor, NoMemory>
        requires few_terms { AllByRecursion (λ s. HasFewTerms s.kind) plan.subs }
        requires some_bits { 1 ≤ sizes.bits }
        requires few_bits { sizes.bits ≤ 20 }
        requires some_nodes { 2 ≤ sizes.nodes }
        requires few_nodes { sizes.nodes ≤ 4194304 }
        requires cache { sizes.nodes + 2 ≤ sizes.cache }
        requires few_entries { sizes.cache ≤ 8388608 }
        ensures plan { IfOk result (λ m. m.plan ≡ plan) }
        ensures bits { IfOk result (λ m. m.bits ≡ sizes.bits) }
        ensures room { IfOk result (λ m. m.shelf.table.room ≡ sizes.nodes) }
        ensures entries { IfOk result (λ m. m.shelf.memo.entries ≡ sizes.cache) }
        ensures time { IfOk result (λ m. m.last_time ≡ 0) }
        ensures stands { IfOk result (λ m. Stands m []) }
        ensures judged { IfOk result (λ m. m.has_now ≡ false) }
        ensures shape { IfOk result HasShape }
    {
        let store = Store::open(alloc, sizes.nodes, sizes.cache)?;
        let variables = plan.variables().len();
        let books = open_books(alloc, variables, sizes.bits)?;
        let handles = first_handles(alloc, &plan, store.table())?;
        Ok(Monitor {
            alloc,
            bits: sizes.bits,
            store,
            books,
            handles,
            remembered: temporal_before(&plan, plan.count()),
            lists: open_lists(alloc, &plan)?,
            plan,
            live: true,
            events: 0,
            last_time: 0,
        })
    }

    /// Takes the next event. After an error the monitor isn't live any more.
    pub fn step<L: Ledger>(&mut self, event: &Event, steps: &mut Steps<L>) -> Result<(), StepEnd>
        requires live { self.old.live ≡ true }
        requires count { self.old.events < 2 ^ 64 - 1 }
        requires time { self.old.last_time ≤ event.now.time }
        ensures plan { self.new.plan ≡ self.old.plan }
        ensures bits { self.new.bits ≡ self.old.bits }
        ensures room { self.new.shelf.table.room ≡ self.old.shelf.table.room }
        ensures entries { self.new.shelf.memo.entries ≡ self.old.shelf.memo.entries }
        ensures live { self.new.live ≡ is_ok result }
        ensures events { OnOk result (self.new.events ≡ self.old.events + 1) }
        ensures time { OnOk result (self.new.last_time ≡ event.now.time) }
        ensures judged { OnOk result (self.new.has_now ≡ true) }
        ensures shape { OnOk result (HasShape self.new) }
        ensures reads { MatchEnd result (Reads self.old event.now self.new) }
        ensures answers { (log : List TheEvent) → IsLog (log ++ event.now ∷ []) → Stands self.old log →
            MatchEnd result (Answers self.old event.now self.new log) }
        ensures no_memory { HasSmallAtoms self.old.plan → HasCodesFor self.old event.now → ¬ IsErrOf result TheNoMemory }
        ensures cost { IsLarge self.old.shelf → steps.new ≤ steps.old + step_bound self.old }
    {
        let _nodes = self.store.live();
        let delta = time_since(self.events, self.last_time, event);
        let time = time_block(&self.plan, self.bits);
        self.live = false;
        code_event(
            self.alloc,
            &self.plan,
            &mut self.store,
            &self.handles[..self.remembered],
            self.bits,
            event,
            &mut self.lists,
            &mut self.books,
            steps,
        )?;
        let frame = Frame {
            event,
            books: &self.books,
            matched: self.lists.needs.matched(),
            coded: &self.lists.coded,
            bits: self.bits,
            time,
            delta,
        };
        event_rows(
            &self.plan,
            &frame,
            &mut self.store,
            &mut self.handles,
            self.remembered,
            steps,
        )?;
        remember(&mut self.handles, self.remembered);
        self.events += 1;
        self.last_time = event.time;
        self.live = true;
        Ok(())
    }

    /// Whether property p, counted from 0, holds at the last event.
    pub fn verdict(&self, p: u32) -> bool
        requires live { self.now.live ≡ true }
        requires some { 1 ≤ self.now.events }
        requires p { p < length self.now.plan.props }
        ensures is { option_map (λ q. verdict_at self.now q.root) (slice_get self.now.plan.props p) ≡ Some result }
        ensures truth { (log : List TheEvent) (root : ℕ) (nu : List TheText) → Stands self.now log →
            option_map (λ q. q.root) (slice_get self.now.plan.props p) ≡ Some root → variables_of self.now ≤ length nu →
            IsTrue result ↔ TrueCore log nu (formula_at self.now.plan.subs root) (length log) }
    {
        let _nodes = self.store.live();
        self.now(self.plan.root(p)) == self.store.table().one()
    }

    /// Whether each event so far could be judged. With it comes what holds of every monitor, and of each that is live.
    pub fn is_live(&self) -> bool
        ensures is { result ≡ self.now.live }
        ensures sound { IsMonitor self.now }
        ensures alive { result ≡ true → IsLive self.now }
        ensures judged { 1 ≤ self.now.events → self.now.has_now ≡ true }
    {
        self.live
    }

    /// How many events were judged.
    pub fn events(&self) -> u64
        ensures { result ≡ self.now.events }
    {
        self.events
    }

    /// The time of the last event that was judged, and 0 before the first one.
    pub fn last_time(&self) -> u64
        ensures { result ≡ self.now.last_time }
    {
        self.last_time
    }

    /// The plan.
    pub fn plan(&self) -> &Plan
        ensures { result.now ≡ self.now.plan }
    {
        &self.plan
    }

    /// The table that the handles are of.
    pub fn table(&self) -> &NodeTable
        ensures { result.now ≡ self.now.shelf.table }
    {
        self.store.table()
    }

    /// The book of variable v, counted from 0.
    pub fn book(&self, v: u32) -> &Book
        requires { v < variables_of self.now }
        ensures { slice_get self.now.books v ≡ Some result.now }
    {
        &self.books[v as usize]
    }

    /// The handle of the tree of subformula k, counted from 1, at the last event.
    pub fn now(&self, k: u32) -> Handle
        requires live { self.now.live ≡ true }
        requires from { 1 ≤ k }
        requires to { k ≤ length self.now.plan.subs }
        ensures valid { IsValid self.now.shelf.table result }
        ensures tree { tree_of self.now.shelf.table result ≡ now_of self.now k }
        ensures shape { self.now.has_now ≡ true → HasOwnLevels (setting_of self.now) k (tree_of self.now.shelf.table result) }
        ensures alike { self.now.has_now ≡ true → ReadsAlike (setting_of self.now) (pairs_in self.now) (tree_of self.now.shelf.table result) }
    {
        self.handles[2 * self.remembered + k as usize - 1]
    }

    /// The handle of the tree that temporal subformula k, counted from 1, remembers.
    pub fn memory(&self, k: u32) -> Handle
        requires live { self.now.live ≡ true }
        requires temporal { IsTemporal self.now.plan.subs k }
        ensures valid { IsValid self.now.shelf.table result }
        ensures tree { tree_of self.now.shelf.table result ≡ memory_of self.now k }
        ensures shape { IfSome (slice_get self.now.plan.subs (k - 1)) (λ u. HasMemoryShape (setting_of self.now) k (oldest u.kind) (tree_of self.now.shelf.table result)) }
        ensures alike { ReadsAlike (setting_of self.now) (pairs_in self.now) (tree_of self.now.shelf.table result) }
    {
        self.handles[temporal_before(&self.plan, k - 1)]
    }

    /// The levels of variable v, counted from 0.
    pub fn block(&self, v: u32) -> Block
        requires { v < variables_of self.now }
        ensures { result ≡ record { first = v * self.now.bits; bits = self.now.bits } }
    {
        let bits = self.bits;
        Block {
            first: v as u16 * bits as u16,
            bits,
        }
    }
}
