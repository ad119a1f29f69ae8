//! Lists of the names of one step.

ghost use Rattle.std.specs.Prelude.{◌≡◌, ◌<◌, false, length, slice_get, Some};
ghost use Rattle.board_chains.specs.Lists.{has as has_name, with_also, with_any};

use arrayvec::ArrayVec;
use cache_ident::Name;
use flat_state::MOST_WANTED;

/// Names of what a step needs.
pub type Chain = ArrayVec<Name, MOST_WANTED>;

// Adds a name, if it isn't there.
pub(crate) fn add(name: Name, names: &mut Chain)
    requires { has_name names.old.items name ≡ false → length names.old.items < MOST_WANTED }
    ensures { names.new.items ≡ with_also names.old.items name }
{
    if has(names, name) {
        return;
    }
    names.push(name);
}

// Adds a name, if there is one and it isn't there.
pub(crate) fn add_if_some(name: Option<Name>, names: &mut Chain)
    requires { length names.old.items < MOST_WANTED }
    ensures { names.new.items ≡ with_any names.old.items name }
{
    if let Some(name) = name {
        add(name, names);
    }
}

fn has(names: &[Name], name: Name) -> bool
    ensures { result ≡ has_name names.now name }
{
    names.contains(&name)
}

// The name at a place.
pub(crate) fn name_at(names: &[Name], at: usize) -> Name
    requires { at < length names.now }
    ensures { slice_get names.now at ≡ Some result }
{
    names[at]
}
