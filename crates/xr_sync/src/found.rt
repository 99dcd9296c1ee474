// What the live bindings of each column find.
ghost use Rattle.std.specs.Prelude.{◌≡◌, ◌<◌, All, replicate};
ghost use Rattle.xr_model.specs.machine.Sync.{nothing_found};
ghost use Rattle.xr_sync.specs.Given.{given_by, with_given};
ghost use Rattle.xr_sync.specs.Ranks.{live_bindings, IsPlaced};
ghost use Rattle.xr_sync.specs.Tables.{row_with, table_with, table_from, no_table, IsQuiet};

use crate::given::{Given, given_by};
use crate::live::{is_live, rank};
use xr_fixed::{larger, longer};
use xr_types::{Found, Heard, Inputs, Ranked, user_place};

/// How many columns an action has: that of all user paths, and one for each of the five.
pub(crate) const COLUMNS: usize = 6;

/// How many places of actions there are.
pub(crate) const ACTIONS: usize = 64;

/// What is found without a live binding.
pub(crate) const NOTHING: Found = Found {
    x: 0,
    y: 0,
    active: false,
    origin: None,
};

/// A column finds one more binding, which gives this.
fn give(found: &mut Found, given: Given)
    ensures { found.new ≡ with_given found.old given }
{
    found.active = true;
    match given {
        Given::Boolean(down) => {
            if down {
                found.x = 1;
            }
        }
        Given::Float(x) => {
            if larger(found.x, x) {
                found.x = x;
            }
        }
        Given::Vector(x, y) => {
            if longer((found.x, found.y), (x, y)) {
                found.x = x;
                found.y = y;
            }
        }
        Given::Pose(pose) => {
            if found.origin.is_none() {
                found.origin = pose;
            }
        }
        Given::Vibration => {}
    }
}

/// One more live binding in the row of its action: in the column of all user paths, and in that of its own where the action
/// declares it.
fn add_to_row(row: &mut [Found; COLUMNS], inputs: &Inputs, b: &Ranked)
    ensures row { row.new ≡ row_with inputs.now b.now row.old }
    ensures quiet { IsQuiet row.new }
{
    let given = given_by(inputs, b);
    give(&mut row[0], given);
    let own = user_place(b.bound.pick.user);
    if b.declared[own] {
        give(&mut row[own + 1], given);
    }
}

/// One more live binding in the table of all columns.
fn add(table: &mut [[Found; COLUMNS]; ACTIONS], inputs: &Inputs, b: &Ranked)
    requires place { b.now.place < 64 }
    requires quiet { All IsQuiet table.old }
    ensures table { table.new ≡ table_with inputs.now b.now table.old }
    ensures quiet { All IsQuiet table.new }
{
    add_to_row(&mut table[usize::from(b.place)], inputs, b);
}

/// What each column finds, in a table in which nothing was found yet. An action without a live binding has found nothing.
pub(crate) fn gather(
    active: &[Heard],
    all: &[Ranked],
    inputs: &Inputs,
    table: &mut [[Found; COLUMNS]; ACTIONS],
)
    requires placed { All IsPlaced all.now }
    requires none { table.old ≡ no_table }
    ensures found { table.new ≡ table_from inputs.now no_table (live_bindings active.now all.now) }
    ensures quiet { All IsQuiet table.new }
{
    let tops = rank(active, all);
    for b in all {
        if is_live(active, all, &tops, b) {
            add(table, inputs, b);
        }
    }
}
