// Syncs of one action with one binding, and of 64 actions with 512.
ghost use Rattle.std.specs.Prelude.{◌<◌, All};
ghost use Rattle.xr_sync.specs.Ranks.{IsPlaced};

use std::alloc::Global;
use xr_sync::Columns;
use xr_types::{ActionType, Bound, Heard, Inputs, NoMemory, Part, Pick, Ranked, User};

/// The set of all actions, heard at every user path.
const HEARD: [Heard; 1] = [Heard { set: 7, user: None }];

/// A binding of each of 64 actions in turn, at one of the hands.
fn binding(number: usize) -> Ranked
    ensures { IsPlaced result }
{
    let place = (number % 64) as u8;
    Ranked {
        bound: Bound {
            action: 1 + u64::from(place),
            pick: Pick {
                user: if number % 2 == 0 {
                    User::Left
                } else {
                    User::Right
                },
                identifier: (number % 30) as u8,
                part: Part::Analogue(1 + (number % 40) as u8),
            },
        },
        place,
        set: 7,
        priority: 0,
        kind: if place % 2 == 0 {
            ActionType::Float
        } else {
            ActionType::Boolean
        },
        declared: [true, true, false, false, false],
    }
}

/// As many bindings as a profile has.
fn all_bindings() -> [Ranked; 512]
    ensures { All IsPlaced result }
{
    let mut list = [binding(0); 512];
    for number in 0..512 {
        list[number] = binding(number);
    }
    list
}

/// Syncs one action, or all, so often; how many changes its first column showed.
pub(crate) fn sync_often(alloc: Global, all: bool, times: u64) -> Result<u64, NoMemory> {
    let list = all_bindings();
    let one = [binding(0)];
    let mut inputs = Inputs {
        values: [[0; 40]; 5],
        pressed: [[false; 40]; 5],
    };
    let mut columns = Columns::start(alloc)?;
    let mut changes: u64 = 0;
    for time in 0..times {
        inputs.values[0][0] = (time % 3) as i32;
        if all {
            columns.sync(&HEARD, &list, &inputs, 5);
        } else {
            columns.sync(&HEARD, &one, &inputs, 5);
        }
        if columns.column(0, 0).is_some_and(|it| it.changed) {
            changes = changes.saturating_add(1);
        }
    }
    Ok(changes)
}
