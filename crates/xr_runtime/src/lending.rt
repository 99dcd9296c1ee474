// A core that is lent a table's words for one call of the seat that holds the lock.
ghost use Rattle.std.specs.Prelude.{◌≡◌, ◌<◌, ◌^◌, length};
ghost use Rattle.xr_model.specs.machine.CoreCalls.{as_lent, MayMake};
ghost use Rattle.xr_runtime.specs.Lending.{MayLend, IsTold};

use xr_core::Core;
use xr_rule::{XrSeat, XrTable};
use xr_types::{Actor, Call, Shown, Step};
use xr_words::TableCells;

// What a call was answered, and whether its entry is decided already.
#[derive(Drop)]
pub(crate) struct Told {
    pub(crate) step: Step,
    pub(crate) decided: bool,
}

// Makes a call of a core whose table the seat has locked, over the table's words.
pub(crate) fn lend(
    table: &XrTable<Core>,
    seat: &mut XrSeat<Core>,
    core: &mut Core,
    who: Actor,
    call: &Call<'_>,
    text: &mut [u8],
    shown: &mut Shown,
) -> Told
    requires own { seat.old.table_id ≡ table.now.table.shared.table_id }
    requires calls { core.old.kept.locked < 2 ^ 44 }
    requires may { MayMake core.old.kept who call.now (length text.old) }
    requires lends { MayLend seat.old.me core.old who call.now }
    ensures own { seat.new.table_id ≡ seat.old.table_id }
    ensures told { IsTold seat.old.me core.old call.now core.new (as_lent text.old shown.old) (as_lent text.new shown.new) result.step result.decided seat.new.me }
{
    let late = core.is_late(call);
    let mut cells = TableCells {
        table,
        seat,
        call,
        late,
        decided: false,
    };
    let step = core.apply(&mut cells, who, call, text, shown);
    let TableCells {
        table: _,
        seat: _,
        call: _,
        late: _,
        decided,
    } = cells;
    Told { step, decided }
}
