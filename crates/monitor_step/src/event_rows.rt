//! The rows of all subformulas at an event.

ghost use Rattle.std.specs.Prelude.{◌≡◌, ◌+◌, ◌-◌, ◌*◌, ◌<◌, ◌≤◌, ◌++◌, [], ◌∷◌, length, map, take, drop, slice_get, slice_index_or, Some, None, set, if◌then◌else◌};
ghost use Rattle.std.specs.List.{All, sum_by};
ghost use Rattle.node_table.specs.Table.{tree_of};
ghost use Rattle.node_table.specs.Collects.{AllValid};
ghost use Rattle.bdd_ops.specs.Codes.{HasLevels};
ghost use Rattle.bdd_ops.specs.Shelf.{handle_pairs, IsLarge};
ghost use Rattle.subformulas.specs.Matched.{AreWithin};
ghost use Rattle.subformulas.specs.Memory.{is_temporal};
ghost use Rattle.subformulas.specs.OperationRows.{rows_of};
ghost use Rattle.monitor_model.specs.State.{temporal_count};
ghost use Rattle.monitor_step.specs.Coded.{AreCoded};
ghost use Rattle.monitor_step.specs.Frame.{frame_of, setting_with, sources_of, HasTimeBlock};
ghost use Rattle.monitor_step.specs.RowsMade.{AnswersRows, AreReadable};

use crate::frame::{Children, Frame};
use crate::subformula_rows::subformula_rows;
use bdd_ops::Store;
use mon_base::Steps;
use node_table::Handle;
use operation_rows::{RowFull, Updated};
use std::sync::ledger::Ledger;
use subformulas::{Kind, Plan, Stretch, Sub};

/// This row of this subformula, both counted from 1, is the first that doesn't fit in the table.
#[derive(Clone, Copy, Debug, PartialEq, Eq)]
pub struct NodesFull {
    pub subformula: u32,
    pub row: u32,
}

/// Whether a subformula of this kind remembers something.
pub fn is_temporal(kind: &Kind) -> bool
    ensures { result ≡ is_temporal kind.now }
{
    matches!(
        kind,
        Kind::Prev
            | Kind::Since
            | Kind::Once
            | Kind::Always
            | Kind::Interval
            | Kind::SinceAtMost(_)
            | Kind::SinceMoreThan(_)
            | Kind::OnceAtMost(_)
            | Kind::OnceMoreThan(_)
            | Kind::AlwaysAtMost(_)
            | Kind::AlwaysMoreThan(_)
    )
}

/// Where the codes of the subformula with this number, counted from 0, stand.
fn slot_of(matched: &[Option<Stretch>], k: usize) -> Option<Stretch>
    ensures { result ≡ slice_index_or matched.now k None }
{
    if k < matched.len() { matched[k] } else { None }
}

/// The handle of the child of this number, where that many handles stand before those of the subformulas; the first
/// handle where there is no child.
fn child(handles: &[Handle], front: usize, number: u32) -> Handle
    requires some { 1 ≤ length handles.now }
    requires within { front + number ≤ length handles.now }
    ensures { 1 ≤ number → slice_get handles.now (front + number - 1) ≡ Some result }
{
    if number == 0 {
        return handles[0];
    }
    handles[front + number as usize - 1]
}

/// The handles that the rows of a subformula read: those of its children, where so many handles stand before those of the
/// subformulas, and the one at the next place among those of the remembered trees.
fn children_of(handles: &[Handle], front: usize, sub: &Sub, next: usize) -> Children
    requires left { front + sub.now.left ≤ length handles.now }
    requires right { front + sub.now.right ≤ length handles.now }
    requires next { next < length handles.now }
    ensures left { 1 ≤ sub.now.left → slice_get handles.now (front + sub.now.left - 1) ≡ Some result.left }
    ensures right { 1 ≤ sub.now.right → slice_get handles.now (front + sub.now.right - 1) ≡ Some result.right }
    ensures memory { slice_get handles.now next ≡ Some result.memory }
{
    Children {
        left: child(handles, front, sub.left),
        right: child(handles, front, sub.right),
        memory: handles[next],
    }
}

/// Puts what a subformula of this kind made in its places: what it remembers, if it does, and its tree.
fn put(handles: &mut [Handle], kind: &Kind, place: usize, done: usize, made: Updated)
    requires place { place < length handles.old }
    requires done { done < length handles.old }
    ensures { handles.new ≡ set (if is_temporal kind.now then set handles.old place made.next else handles.old) done made.now }
{
    if is_temporal(kind) {
        handles[place] = made.next;
    }
    handles[done] = made.now;
}

/// The place of the next remembered tree after a subformula of this kind.
fn place_after(kind: &Kind, next: usize) -> usize
    requires { next ≤ 4096 }
    ensures { result ≡ (if is_temporal kind.now then next + 1 else next) }
{
    if is_temporal(kind) { next + 1 } else { next }
}

/// The letters of the rows are let go: the last three handles are the leaf again.
fn clear_letters(handles: &mut [Handle], leaf: Handle)
    requires { 3 ≤ length handles.old }
    ensures { handles.new ≡ take (length handles.old - 3) handles.old ++ (leaf ∷ (leaf ∷ (leaf ∷ []))) }
{
    let end = handles.len();
    handles[end - 3] = leaf;
    handles[end - 2] = leaf;
    handles[end - 1] = leaf;
}

/// Makes the rows of all subformulas, in order. The first handles are those of what is remembered, and stand twice; the
/// second ones become those of what is remembered after the event, and the next ones those of the subformulas at it.
pub fn event_rows<L: Ledger>(
    plan: &Plan,
    frame: &Frame,
    store: &mut Store,
    handles: &mut [Handle],
    remembered: usize,
    steps: &mut Steps<L>,
) -> Result<(), NodesFull>
    requires remembered { remembered ≡ temporal_count plan.now.subs }
    requires handles { length handles.old ≡ 2 * remembered + length plan.now.subs + 3 }
    requires valid { AllValid store.old.table (take (2 * remembered) handles.old) }
    requires twice { take remembered (drop remembered handles.old) ≡ take remembered handles.old }
    requires bits { frame.now.bits ≤ 20 }
    requires coded { AreCoded (frame_of (setting_with plan.now frame.now.bits store.old.table.room) frame.now) plan.now.subs frame.now.coded.now frame.now.matched.now }
    requires within { AreWithin (length frame.now.coded.now) frame.now.matched.now }
    requires blocks { All HasLevels frame.now.coded.now }
    requires time { HasTimeBlock plan.now frame.now }
    requires readable { AreReadable (sources_of plan.now store.old.table.room frame.now (map (tree_of store.old.table) (take remembered handles.old))) }
    ensures made { AnswersRows (sources_of plan.now store.old.table.room frame.now (map (tree_of store.old.table) (take remembered handles.old))) handles.old handles.new store.old.table store.new.table result }
    ensures room { store.new.table.room ≡ store.old.table.room }
    ensures entries { store.new.memo.entries ≡ store.old.memo.entries }
    ensures cost { IsLarge store.old → steps.new ≤ steps.old + sum_by (λ s. rows_of s.kind frame.now.bits) plan.now.subs * (6 * handle_pairs store.old.table) }
{
    let _nodes = store.live();
    let mut next = 0;
    for k in 0..plan.count() {
        let sub = plan.sub(k + 1);
        let slot = slot_of(frame.matched, k as usize);
        let done = 2 * remembered + k as usize;
        let children = children_of(handles, 2 * remembered, sub, next);
        let kind = &sub.kind;
        match subformula_rows(
            store, plan, frame, kind, slot, children, handles, done, steps,
        ) {
            Ok(made) => {
                put(handles, kind, remembered + next, done, made);
                next = place_after(kind, next);
            }
            Err(RowFull { row }) => {
                return Err(NodesFull {
                    subformula: k + 1,
                    row,
                });
            }
        }
    }
    clear_letters(handles, store.table().zero());
    Ok(())
}
