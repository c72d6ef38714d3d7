//! Sorts of entries by what they are.
ghost use Rattle.std.specs.Prelude.{◌≡◌};
ghost use Rattle.schematron_meaning.specs.Lookup.{is_let, is_part, is_parameter, is_active};
ghost use Rattle.schematron_expansion.specs.Sorts.{test_of};

use crate::bodies::is_item;
use crate::file::Sort;
use schematron_meaning::Role;

/// The role is one of the sort.
pub(crate) fn is_of(sort: Sort, role: Role) -> bool
    ensures { result ≡ test_of sort role }
{
    match sort {
        Sort::Lets => role.is_let(),
        Sort::Rules => role.is_own_rule(),
        Sort::LetsAndRules => role.is_let() | role.is_own_rule(),
        Sort::Items => is_item(role),
        Sort::MessageParts => is_part(role),
        Sort::Parameters => is_parameter(role),
        Sort::Actives => is_active(role),
    }
}

fn is_part(role: Role) -> bool
    ensures { result ≡ is_part role }
{
    matches!(role, Role::ValueOf | Role::NodeName | Role::Characters)
}

/// The role is that of a parameter of an abstract pattern.
pub fn is_parameter(role: Role) -> bool
    ensures { result ≡ is_parameter role }
{
    matches!(role, Role::Parameter)
}

fn is_active(role: Role) -> bool
    ensures { result ≡ is_active role }
{
    matches!(role, Role::Active)
}
