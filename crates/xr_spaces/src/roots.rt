// What a space moves with: the origin of a reference space, or the one that the last sync chose for an action.
ghost use Rattle.std.specs.Prelude.{◌≡◌};
ghost use Rattle.std.specs.Option.{option_copied};
ghost use Rattle.xr_model.specs.machine.Spaces.{origin_of_kind, column_at, origin_in, origin_by};

use xr_types::{Column, Origin, RefKind, Root, States};

/// The origin of a reference space.
fn origin_of_kind(kind: RefKind) -> Origin
    ensures { result ≡ origin_of_kind kind }
{
    match kind {
        RefKind::View => Origin::View,
        RefKind::Local => Origin::Local,
        RefKind::Stage => Origin::Stage,
    }
}

/// What a sync found for the action of a place in a column, where there are these.
fn column_at(states: &States, place: u8, column: u8) -> Option<&Column>
    ensures { option_copied result ≡ column_at states.now place column }
{
    states
        .columns
        .get(usize::from(place))?
        .get(usize::from(column))
}

/// The origin of a column, which an inactive one doesn't have.
fn origin_in(column: &Column) -> Option<Origin>
    ensures { result ≡ origin_in column.now }
{
    if column.active { column.origin } else { None }
}

/// The origin that a space moves with.
pub(crate) fn origin_by(states: &States, root: Root) -> Option<Origin>
    ensures { result ≡ origin_by states.now root }
{
    match root {
        Root::Fixed(kind) => Some(origin_of_kind(kind)),
        Root::Action { place, column } => origin_in(column_at(states, place, column)?),
    }
}
