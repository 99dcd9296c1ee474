// What the entry of a path picks of the rows and outputs that a controller has (OpenXR 1.0 chapter 11,
// xrSuggestInteractionProfileBindings).
ghost use Rattle.std.specs.Prelude.{◌≡◌, codes, map, option_and_then};
ghost use Rattle.std.specs.List.{filter, list_any};
ghost use Rattle.std.specs.Str.{bytes_eq};
ghost use Rattle.xr_types.specs.Words.{behind};
ghost use Rattle.xr_model.specs.machine.Profiles.{row_named, row_alone, is_input, is_pose, part_of, first_some, both, picked, picked_output, pick_by, rows_at, outputs_at, pick_at};

use crate::table::{entry_name, identifier_place, is_input, is_pose, outputs_at, rows_at};
use crate::texts::{before_slash, is_made_of};
use xr_types::{ActionType, Part, Pick, Profile, User, Word, behind, is_digital};

/// The input among these rows that an entry names with its component.
fn input_named(rows: &[u8], entry: &[u8]) -> Option<u8>
    ensures { result ≡ row_named (filter is_input rows.now) entry.now }
{
    rows.iter()
        .copied()
        .filter(|row| is_input(*row))
        .find(|row| entry == entry_name(*row).as_bytes())
}

/// The pose among these rows that an entry names with its component.
fn pose_named(rows: &[u8], entry: &[u8]) -> Option<u8>
    ensures { result ≡ row_named (filter is_pose rows.now) entry.now }
{
    rows.iter()
        .copied()
        .filter(|row| is_pose(*row))
        .find(|row| entry == entry_name(*row).as_bytes())
}

/// The row among these of an identifier alone, with this component.
fn row_alone(rows: &[u8], identifier: &[u8], component: &str) -> Option<u8>
    ensures { result ≡ row_alone rows.now identifier.now component.now }
{
    rows.iter().copied().find(|row| {
        is_made_of(
            entry_name(*row).as_bytes(),
            identifier,
            component.as_bytes(),
        )
    })
}

/// The input that an entry names; or, where it is an identifier alone, that of the first component which it has.
fn input_of(rows: &[u8], entry: &[u8], first: &str, second: &str) -> Option<u8>
    ensures { result ≡ first_some (row_named (filter is_input rows.now) entry.now) (first_some (row_alone rows.now entry.now first.now) (row_alone rows.now entry.now second.now)) }
{
    input_named(rows, entry)
        .or_else(|| row_alone(rows, entry, first))
        .or_else(|| row_alone(rows, entry, second))
}

/// The axes of an entry that is an identifier alone.
fn axes_of(rows: &[u8], entry: &[u8]) -> Option<Part>
    ensures { result ≡ both (row_alone rows.now entry.now (codes "x")) (row_alone rows.now entry.now (codes "y")) }
{
    let x = row_alone(rows, entry, "x")?;
    let y = row_alone(rows, entry, "y")?;
    Some(Part::Both(x, y))
}

/// The pose that an entry names, or that of an identifier alone.
fn pose_of(rows: &[u8], entry: &[u8]) -> Option<u8>
    ensures { result ≡ first_some (row_named (filter is_pose rows.now) entry.now) (row_alone rows.now entry.now (codes "pose")) }
{
    pose_named(rows, entry).or_else(|| row_alone(rows, entry, "pose"))
}

/// The part of a controller that an input is.
fn part_of(row: u8) -> Part
    ensures { result ≡ part_of row }
{
    if is_digital(row) {
        Part::Digital(row)
    } else {
        Part::Analogue(row)
    }
}

/// What an entry behind `/input/` picks for an action's type of the rows that there are.
fn picked(kind: ActionType, rows: &[u8], entry: &[u8]) -> Option<Part>
    ensures { result ≡ picked kind rows.now entry.now }
{
    match kind {
        ActionType::Boolean => input_of(rows, entry, "click", "value").map(part_of),
        ActionType::Float => input_of(rows, entry, "value", "click").map(part_of),
        ActionType::Vector => axes_of(rows, entry),
        ActionType::Pose => pose_of(rows, entry).map(Part::Pose),
        ActionType::Vibration => None,
    }
}

/// Whether an entry is one of these outputs.
fn is_output(outputs: &[&str], entry: &[u8]) -> bool
    ensures { result ≡ list_any (λ n. bytes_eq entry.now n.now) outputs.now }
{
    outputs.iter().any(|name| entry == name.as_bytes())
}

/// What an entry behind `/output/` picks for an action's type of the outputs that there are.
fn picked_output(kind: ActionType, outputs: &[&str], entry: &[u8]) -> Option<Part>
    ensures { result ≡ picked_output kind (map (λ n. n.now) outputs.now) entry.now }
{
    match kind {
        ActionType::Vibration => is_output(outputs, entry).then_some(Part::Output),
        ActionType::Boolean | ActionType::Float | ActionType::Vector | ActionType::Pose => None,
    }
}

/// A pick at a user path, by its entry and the part that this picks.
fn pick_by(user: User, entry: &[u8], part: Option<Part>) -> Option<Pick>
    ensures { result ≡ pick_by user entry.now part }
{
    let part = part?;
    let identifier = identifier_place(before_slash(entry))?;
    Some(Pick {
        user,
        identifier,
        part,
    })
}

/// What the text behind a user path picks of the inputs and poses there.
fn input_at(profile: Profile, kind: ActionType, below: &[u8], user: User) -> Option<Pick>
    ensures { result ≡ option_and_then (λ entry. pick_by user entry (picked kind (rows_at profile user) entry)) (behind (codes "/input/") below.now) }
{
    let entry = behind(b"/input/", below)?;
    pick_by(user, entry, picked(kind, rows_at(profile, user), entry))
}

/// What the text behind a user path picks of the outputs there.
fn output_at(profile: Profile, kind: ActionType, below: &[u8], user: User) -> Option<Pick>
    ensures { result ≡ option_and_then (λ entry. pick_by user entry (picked_output kind (outputs_at profile user) entry)) (behind (codes "/output/") below.now) }
{
    let entry = behind(b"/output/", below)?;
    let part = picked_output(kind, outputs_at(profile, user), entry);
    pick_by(user, entry, part)
}

/// What a path picks at a user path.
pub(crate) fn pick_at(profile: Profile, kind: ActionType, path: &[u8], user: User) -> Option<Pick>
    ensures { result ≡ pick_at profile kind path.now user }
{
    let below = behind(user.word().as_bytes(), path)?;
    input_at(profile, kind, below, user).or_else(|| output_at(profile, kind, below, user))
}
