//! The lists of an event, and how they are filled: the event is bound to the atoms, and each of its texts gets a code.

ghost use Rattle.std.specs.Prelude.{◌≡◌, ◌≢◌, ℕ, ◌+◌, ◌-◌, ◌*◌, ◌^◌, ◌<◌, ◌≤◌, [], None, length, map, IfOk, IsOk, OnOk};
ghost use Rattle.std.specs.List.{All, AllByRecursion};
ghost use Rattle.qtl_syntax.specs.Tree.{Text as TheText};
ghost use Rattle.node_table.specs.Table.{tree_of, KeepsTrees};
ghost use Rattle.node_table.specs.Collects.{AllValid};
ghost use Rattle.bdd_ops.specs.Codes.{HasLevels};
ghost use Rattle.value_codes.specs.Pairs.{code_of, IsBook};
ghost use Rattle.subformulas.specs.Matched.{AreWithin};
ghost use Rattle.subformulas.specs.NeedList.{HasFewVariables};
ghost use Rattle.subformulas.specs.Needs.{need};
ghost use Rattle.subformulas.specs.Table.{HasFewTerms};
ghost use Rattle.subformulas.specs.Texts.{Has};
ghost use Rattle.monitor_model.specs.Rows.{Frame as TheFrame};
ghost use Rattle.monitor_step.specs.Coded.{AreCoded};
ghost use Rattle.monitor_step.specs.Serving.{pairs_at};
ghost use Rattle.monitor_step.specs.Stages.{AnswersServing, HaveRoom};

use crate::serve::{Codes, ServeEnd, code_uses, serve_all};
use bdd_ops::{BlockCode, Store};
use mon_base::{NoMemory, Steps};
use node_table::Handle;
use qtl_truth::Event;
use std::alloc::Global;
use std::sync::ledger::Ledger;
use subformulas::{NeedList, Plan, needs};
use value_codes::Book;

/// The lists of an event. Their room is taken when they are opened.
#[derive(Drop)]
pub struct Lists {
    /// The texts that the event gives to the variables, and which of them each atom is given.
    pub needs: NeedList,
    /// The codes of these texts.
    pub codes: Codes,
    /// The codes of what the atoms are given.
    pub coded: Vec<BlockCode>,
}

/// Empty lists, and room for those of any event of the plan.
pub fn open_lists(alloc: Global, plan: &Plan) -> Result<Lists, NoMemory>
    ensures { IfOk result (λ lists. HaveRoom plan.now lists) }
{
    let variables = plan.variables().len();
    let room = variables * plan.count() as usize;
    Ok(Lists {
        needs: NeedList::open(alloc, plan)?,
        codes: Codes::open(alloc, variables, room)?,
        coded: Vec::with_capacity(alloc, room)?,
    })
}

/// Binds the event and gives each of its texts a code. After an error the lists and the books may hold anything of it.
pub fn code_event<L: Ledger>(
    alloc: Global,
    plan: &Plan,
    store: &mut Store,
    remembered: &[Handle],
    bits: u8,
    event: &Event,
    lists: &mut Lists,
    books: &mut [Book],
    steps: &mut Steps<L>,
) -> Result<(), ServeEnd>
    requires few { AllByRecursion (λ s. HasFewTerms s.kind) plan.now.subs }
    requires few_bits { bits ≤ 20 }
    requires valid { AllValid store.old.table remembered.now }
    requires count { length books.old ≡ length plan.now.variables }
    requires bits { AllByRecursion (λ b. b.bits ≡ bits) books.old }
    ensures served { AnswersServing bits plan.now.subs event.now (map (tree_of store.old.table) remembered.now) books.old books.new result }
    ensures coded { OnOk result ((fr : TheFrame) → fr.setting.bits ≡ bits → fr.setting.variables ≡ length plan.now.variables → fr.setting.subs ≡ plan.now.subs →
        fr.event ≡ event.now → fr.books ≡ pairs_at books.new → AreCoded fr plan.now.subs lists.new.coded.items lists.new.needs.matched) }
    ensures within { OnOk result (AreWithin (length lists.new.coded.items) lists.new.needs.matched) }
    ensures levels { OnOk result (All HasLevels lists.new.coded.items) }
    ensures no_memory { HaveRoom plan.now lists.old → AllByRecursion (λ s. HasFewVariables s.kind) plan.now.subs →
        ((x : ℕ) (t : TheText) → x < length plan.now.variables → Has (need plan.now.subs x event.now) t → code_of (pairs_at books.old x) t ≢ None) → IsOk result }
    ensures lists { HaveRoom plan.now lists.old → HaveRoom plan.now lists.new }
    ensures count { length books.new ≡ length books.old }
    ensures bits { AllByRecursion (λ b. b.bits ≡ bits) books.new }
    ensures sound { OnOk result (AllByRecursion IsBook books.new) }
    ensures room { store.new.table.room ≡ store.old.table.room }
    ensures nodes { store.new.table.nodes ≡ store.old.table.nodes }
    ensures kept { KeepsTrees store.old.table store.new.table }
    ensures entries { store.new.memo.entries ≡ store.old.memo.entries }
    ensures cost { steps.new ≤ steps.old + length books.old * ((2 ^ bits - 1) * ((store.old.table.room + 2) * (2 * bits + 1))) }
    ensures idle { remembered.now ≡ [] → steps.new ≡ steps.old }
{
    let _count = plan.count();
    needs(alloc, plan, event, &mut lists.needs)?;
    let entries = lists.needs.entries();
    serve_all(
        store,
        remembered,
        bits,
        entries,
        event,
        books,
        &mut lists.codes,
        steps,
    )?;
    code_uses(lists.needs.uses(), &lists.codes, bits, &mut lists.coded)?;
    Ok(())
}
