// What a dispatcher keeps. Its calls are in `calls`.
ghost use Rattle.std.specs.Prelude.{◌≡◌, ◌+◌, ◌≤◌, length};
ghost use Rattle.dispatch.specs.Ticks.{ticks_open};
ghost use Rattle.guarantee.specs.Limits.{max_clock};
ghost use Rattle.guarantee.specs.States.{tick_row};
ghost use Rattle.ready.specs.Limits.{max_row};

use feasibility::Table;
use guarantee::{RowState, Tick};
use ready::ReadyList;

mod calls;
mod steps;

#[derive(Drop)]
pub struct Dispatcher<L: ReadyList + Drop> {
    // The unfinished jobs in the order in which they are to be served.
    list: L,
    // How many ticks are over.
    clock: u32,
    table: Option<Table>,
    tick: Tick,
    // Of row k at place k - 1.
    states: [RowState; 32],
    ghost early: { clock + ticks_open tick ≤ max_clock },
    ghost long: { length states ≡ max_row },
    ghost inside: { tick_row tick ≤ max_row },
}
