//! A specification without macros.
ghost use Rattle.std.specs.Prelude.{◌≡◌, ◌≤◌, length, IsTrue};
ghost use Rattle.std.specs.List.{range_with_len};
ghost use Rattle.wellformed.specs.CoreTree.{props_of};
ghost use Rattle.wellformed.specs.Sound.{are_closed, have_lawful_bounds, nodes_of, variables_bound};

use crate::core_formula::{CoreProp, Variable};
use sqlite_items::Items;

/// The variables, one for each quantifier, in order of the text, and the properties. There is a property; there are at most
/// 64 variables, and at most 4,096 nodes in all properties. The quantifiers, in order of the text, bind the variables
/// 0, 1, 2 and so on; each variable that occurs is bound by a quantifier round it. Bounds are at most 1,048,574.
#[derive(Drop)]
pub struct Core {
    pub variables: Items<Variable>,
    pub props: Items<CoreProp>,
    pub ghost some: { 1 ≤ length props },
    pub ghost few_variables: { length variables ≤ 64 },
    pub ghost few_nodes: { nodes_of (props_of props) ≤ 4096 },
    pub ghost in_order: { variables_bound (props_of props) ≡ range_with_len 0 (length variables) },
    pub ghost closed: { IsTrue (are_closed (props_of props)) },
    pub ghost bounds: { IsTrue (have_lawful_bounds (props_of props)) },
}
