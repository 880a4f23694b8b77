//! What is shown for one variable.
ghost use Rattle.std.specs.Prelude.{◌≡◌, ◌+◌, ◌-◌, ◌*◌, ◌^◌, ◌<◌, ◌≤◌, true, IfOk};
ghost use Rattle.node_tree.specs.Tree.{IsOrderedFrom};
ghost use Rattle.node_table.specs.Table.{tree_of, IsValid};
ghost use Rattle.monitor_model.specs.Setting.{first_of};
ghost use Rattle.monitor_model.specs.State.{setting_of};
ghost use Rattle.monitor_step.specs.Monitor.{variables_of};
ghost use Rattle.witness.specs.Finding.{left_over, value_over};

use crate::least::least_failing;
use bdd_ops::walk;
use mon_base::{NoMemory, Steps};
use monitor_step::Monitor;
use node_table::{Block, Handle};
use report::Value;
use std::sync::ledger::Ledger;

/// What is shown for a variable, and the tree that is left for the later ones.
#[derive(Drop)]
pub struct Chosen {
    pub value: Value,
    pub rest: Handle,
}

/// The code of all ones.
fn all_ones(bits: u8) -> u32
    requires { bits ≤ 20 }
    ensures { result ≡ 2 ^ bits - 1 }
{
    (1 << bits) - 1
}

/// Any text, where one without a code leaves a tree other than true; else the least text that does.
pub fn choose<L: Ledger>(
    monitor: &Monitor,
    x: u32,
    h: Handle,
    steps: &mut Steps<L>,
) -> Result<Chosen, NoMemory>
    requires live { monitor.now.live ≡ true }
    requires variable { x < variables_of monitor.now }
    requires valid { IsValid monitor.now.shelf.table h }
    requires below { IsOrderedFrom (first_of (setting_of monitor.now) x)
        (tree_of monitor.now.shelf.table h) }
    ensures value { IfOk result (λ c. c.value ≡
        value_over monitor.now x (tree_of monitor.now.shelf.table h)) }
    ensures valid { IfOk result (λ c. IsValid monitor.now.shelf.table c.rest) }
    ensures tree { IfOk result (λ c. tree_of monitor.now.shelf.table c.rest ≡
        left_over monitor.now x (tree_of monitor.now.shelf.table h)) }
    ensures cost { steps.new ≤ steps.old + (monitor.now.bits + 1) * 2 ^ monitor.now.bits }
{
    let _live = monitor.is_live();
    let table = monitor.table();
    let _held = table.live();
    let block = monitor.block(x);
    let book = monitor.book(x);
    let ones = all_ones(block.bits);
    let rest = walk(table, h, block, ones, steps);
    if rest != table.one() {
        return Ok(Chosen {
            value: Value::Any,
            rest,
        });
    }
    match least_failing(table, h, block, book, steps) {
        None => Ok(Chosen {
            value: Value::Any,
            rest,
        }),
        Some(text) => {
            let code = book.code_of(text).unwrap_or(ones);
            let rest = walk(table, h, block, code, steps);
            Ok(Chosen {
                value: Value::Known(text.copy()?),
                rest,
            })
        }
    }
}
