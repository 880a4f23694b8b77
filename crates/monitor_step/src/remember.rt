//! The handles of a monitor: before the first event, and after each.

ghost use Rattle.std.specs.Prelude.{◌≡◌, ◌+◌, ◌*◌, ◌≤◌, ◌++◌, length, take, replicate, IfOk, OnOk};
ghost use Rattle.monitor_model.specs.State.{temporal_count};
ghost use Rattle.monitor_step.specs.Handles.{brought_forward, first_handle, first_handles, AreFirstHandles};

use crate::event_rows::is_temporal;
use mon_base::NoMemory;
use node_table::{Handle, NodeTable};
use std::alloc::Global;
use subformulas::{Kind, Plan};

/// How many of the first n subformulas are temporal.
pub fn temporal_before(plan: &Plan, n: u32) -> usize
    requires { n ≤ length plan.now.subs }
    ensures { result ≡ temporal_count (take n plan.now.subs) }
{
    let mut count = 0;
    for k in 0..n {
        if is_temporal(&plan.sub(k + 1).kind) {
            count += 1;
        }
    }
    count
}

/// The leaf that a temporal subformula of this kind remembers before the first event.
fn first_handle(kind: &Kind, zero: Handle, one: Handle) -> Handle
    ensures { result ≡ first_handle zero one kind.now }
{
    match kind {
        Kind::Always => one,
        _ => zero,
    }
}

/// Adds the handles of the leaves that the temporal subformulas remember before the first event.
fn add_first(
    plan: &Plan,
    zero: Handle,
    one: Handle,
    handles: &mut Vec<Handle>,
) -> Result<(), NoMemory>
    ensures { OnOk result (handles.new.items ≡ handles.old.items ++ first_handles zero one plan.now.subs) }
{
    for k in 0..plan.count() {
        let kind = &plan.sub(k + 1).kind;
        if is_temporal(kind) {
            handles.push(first_handle(kind, zero, one))?;
        }
    }
    Ok(())
}

/// Adds a handle so many times.
fn add_times(handles: &mut Vec<Handle>, h: Handle, count: usize) -> Result<(), NoMemory>
    ensures { OnOk result (handles.new.items ≡ handles.old.items ++ replicate count h) }
{
    for _ in 0..count {
        handles.push(h)?;
    }
    Ok(())
}

/// The handles before the first event: those of what is remembered, twice, and leaves for the subformulas and the letters
/// of a row.
pub fn first_handles(alloc: Global, plan: &Plan, table: &NodeTable) -> Result<Vec<Handle>, NoMemory>
    ensures { IfOk result (λ handles. AreFirstHandles plan.now.subs table.now handles.items) }
{
    let zero = table.zero();
    let one = table.one();
    let count = plan.count() as usize;
    let mut handles = Vec::with_capacity(alloc, 3 * count + 3)?;
    add_first(plan, zero, one, &mut handles)?;
    add_first(plan, zero, one, &mut handles)?;
    add_times(&mut handles, zero, count + 3)?;
    Ok(handles)
}

/// After an event what is remembered next is what is remembered.
pub fn remember(handles: &mut [Handle], remembered: usize)
    requires { 2 * remembered ≤ length handles.old }
    ensures { handles.new ≡ brought_forward remembered handles.old }
{
    for i in 0..remembered {
        handles[i] = handles[remembered + i];
    }
}
