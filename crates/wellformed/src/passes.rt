//! The passes in their order, and the specification that they accept without its macros.
ghost use Rattle.std.specs.Prelude.{◌≡◌, ◌<◌, ◌≤◌, ◌⊎◌, List, [], None, Some, IsOk, IfOk, IfErr, length, map};
ghost use Rattle.std.specs.List.{AllByRecursion};
ghost use Rattle.qtl_syntax.specs.Tree.{Text as TheText, item_of, items_of};
ghost use Rattle.qtl_truth.specs.declared.event.Event.{Event};
ghost use Rattle.wellformed.specs.declared.fault.NameFault.TheVariants.{NoMemory};
ghost use Rattle.wellformed.specs.Expansion.{expanded_props, props_quantifiers, props_variables};
ghost use Rattle.wellformed.specs.Faults.{first_fault, first_count, first_name, has_prop, HasFewNodes};
ghost use Rattle.wellformed.specs.Kept.{AreKept};
ghost use Rattle.wellformed.specs.CoreTree.{props_of};

use crate::clash::first_clash;
use crate::core_spec::Core;
use crate::counts::count_props;
use crate::duplicates::duplicate_name;
use crate::expand::expand_props;
use crate::fault::NameFault;
use crate::walk::{Test, first_failing};
use qtl_syntax::{Item, Spec};
use std::alloc::Global;

/// The passes that ask for names, the first five.
fn check_names(alloc: Global, items: &[Item]) -> Result<(), NameFault>
    requires items { length items.now < 4294967296 }
    requires few { AllByRecursion HasFewNodes (map item_of items.now) }
    ensures accepted { IsOk result → first_name (map item_of items.now) ≡ None }
    ensures refused { IfErr result (λ fault. (fault ≡ NoMemory) ⊎ (first_name (map item_of items.now) ≡ Some fault)) }
{
    if let Some(item) = duplicate_name(items) {
        return Err(NameFault::DuplicateName { item });
    }
    if let Some((item, node)) = first_failing(items, Test::Late) {
        return Err(NameFault::LateMacro { item, node });
    }
    if let Some((item, node)) = first_failing(items, Test::Arity) {
        return Err(NameFault::MacroArity { item, node });
    }
    if let Some((item, node)) = first_clash(alloc, items)? {
        return Err(NameFault::ArityClash { item, node });
    }
    if let Some((item, node)) = first_failing(items, Test::Free) {
        return Err(NameFault::FreeVariable { item, node });
    }
    Ok(())
}

/// Whether one of the items is a property.
fn has_prop(items: &[Item]) -> bool
    ensures { result ≡ has_prop (map item_of items.now) }
{
    for item in items {
        if let Item::Prop { .. } = item {
            return true;
        }
    }
    false
}

/// The passes that count, the last three.
fn check_counts(alloc: Global, items: &[Item]) -> Result<(), NameFault>
    ensures accepted { IsOk result → first_count (map item_of items.now) ≡ None }
    ensures refused { IfErr result (λ fault. (fault ≡ NoMemory) ⊎ (first_count (map item_of items.now) ≡ Some fault)) }
{
    if !has_prop(items) {
        return Err(NameFault::NoProperty);
    }
    let total = count_props(alloc, items)?;
    if total.size > 4096 {
        return Err(NameFault::TooManySubformulas { found: total.size });
    }
    if total.quantifiers > 64 {
        return Err(NameFault::TooManyVariables {
            found: total.quantifiers,
        });
    }
    Ok(())
}

/// The specification without macros, one variable for each quantifier; or the first fault of the first pass that has one.
/// The passes are those of `NameFault`, in its order. Items and the nodes of a formula are fewer than 2^32.
pub fn check(alloc: Global, spec: Spec) -> Result<Core, NameFault>
    requires items { length (items_of spec) < 4294967296 }
    requires nodes { AllByRecursion HasFewNodes (items_of spec) }
    ensures refused { IfErr result (λ fault. (fault ≡ NoMemory) ⊎ (first_fault (items_of spec) ≡ Some fault)) }
    ensures accepted { IsOk result → first_fault (items_of spec) ≡ None }
    ensures props { IfOk result (λ core. props_of core.props ≡ expanded_props [] 0 (items_of spec)) }
    ensures variables { IfOk result (λ core. core.variables ≡ props_variables [] 0 (items_of spec)) }
    ensures kept { IfOk result (λ core. (log : List Event) (nu : List TheText) → length core.variables ≤ length nu →
        AreKept log nu [] (items_of spec) (props_of core.props)) }
{
    let items = spec.items.as_slice();
    check_names(alloc, items)?;
    check_counts(alloc, items)?;
    let expanded = expand_props(alloc, items)?;
    Ok(Core {
        variables: expanded.variables,
        props: expanded.props,
    })
}
