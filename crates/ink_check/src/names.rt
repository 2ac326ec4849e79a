//! The names of variables (docs/VARIABLES.md).

ghost use Rattle.std.specs.Prelude.{◌≡◌, Some, IfOk, OnOk, option_map};
ghost use Rattle.ink_check.specs.Names as rules;
ghost use Rattle.ink_names.specs.Names.{number_of};

use ink_model::{Destination, Leaf};
use ink_names::Names;
use std::alloc::{AllocError, Global};

/// The number of a name, which comes last where it is not among the names. The one error is a refused request for memory.
#[inline(never)]
pub(crate) fn number(alloc: Global, names: &mut Names, name: &str) -> Result<usize, AllocError>
    ensures names { OnOk result (names.new ≡ rules.with_name name.now names.old) }
    ensures number { IfOk result (λ number. number_of names.new name.now ≡ Some number) }
{
    if let Some(number) = names.number(name) {
        return Ok(number);
    }
    let number = names.len();
    names.add(alloc, name)?;
    Ok(number)
}

/// The name of the variable that a leaf reads or assigns, or that it declares as a global.
pub(crate) fn variable(leaf: &Leaf) -> Option<&str>
    ensures { option_map (λ name. name.now) result ≡ rules.variable_name leaf.now }
{
    match leaf {
        Leaf::Variable(name) | Leaf::Assign(name) | Leaf::AssignTemp(name) | Leaf::Declare(name) =>
            { Some(name.as_str()) }
        Leaf::Divert { to, .. } | Leaf::Call { to, .. } | Leaf::Tunnel { to, .. } => destination(
            to,
        ),
        _ => None,
    }
}

fn destination(to: &Destination) -> Option<&str>
    ensures { option_map (λ name. name.now) result ≡ rules.destination_name to.now }
{
    match to {
        Destination::Path(_) => None,
        Destination::Variable(name) => Some(name.as_str()),
    }
}
