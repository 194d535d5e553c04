// The calls of a dispatcher. Each promises the same two things: its step is the one that the rules define, and whatever
// life led to it goes on with this call, with all that is promised of a life.
ghost use Rattle.std.specs.Prelude.{◌≡◌, []};
ghost use Rattle.dispatch.specs.Dispatchers.{state, table_rows};
ghost use Rattle.guarantee.specs.Lives.{Lived, LivesOn};
ghost use Rattle.guarantee.specs.Rules.{Step, Take, Release, Begin, End, Spare};
ghost use Rattle.guarantee.specs.States.{fresh};

use crate::dispatcher::Dispatcher;
use feasibility::Table;
use guarantee::{JobState, Refusal};
use ready::ReadyList;

impl<L: ReadyList + Drop> Dispatcher<L> {
    // A dispatcher over a list in any state, with clock 0, no table and the tick closed.
    #[tactic(auto, using(guarantee::specs::Lives::made))]
    pub fn new(list: L) -> Dispatcher<L>
        ensures fresh { state L.entries L.cells result ≡ fresh (L.entries list) (L.cells list) }
        ensures life { Lived [] (state L.entries L.cells result) }
    {
        Dispatcher::unused(list)
    }

    // Copies a sealed table, once and for all.
    pub fn take(&mut self, table: &Table) -> Result<(), Refusal>
        ensures step { Step (state L.entries L.cells self.old) (Take (table_rows table.now)) result (state L.entries L.cells self.new) }
        ensures life { LivesOn (state L.entries L.cells self.old) (Take (table_rows table.now)) result (state L.entries L.cells self.new) }
    {
        self.take_step(table)
    }

    // Requests a row by its number: a new job, due one period after the clock.
    pub fn release(&mut self, row: u32) -> Result<(), Refusal>
        ensures step { Step (state L.entries L.cells self.old) (Release row) result (state L.entries L.cells self.new) }
        ensures life { LivesOn (state L.entries L.cells self.old) (Release row) result (state L.entries L.cells self.new) }
    {
        self.release_step(row)
    }

    // Opens a tick and answers the row that it is given to, 0 for none.
    pub fn begin(&mut self) -> Result<u32, Refusal>
        ensures step { Step (state L.entries L.cells self.old) Begin result (state L.entries L.cells self.new) }
        ensures life { LivesOn (state L.entries L.cells self.old) Begin result (state L.entries L.cells self.new) }
    {
        self.begin_step()
    }

    // Closes the tick, and answers its row and the state of the row's job.
    pub fn end(&mut self) -> Result<(u32, JobState), Refusal>
        ensures step { Step (state L.entries L.cells self.old) End result (state L.entries L.cells self.new) }
        ensures life { LivesOn (state L.entries L.cells self.old) End result (state L.entries L.cells self.new) }
    {
        self.end_step()
    }

    // The due time less the clock less the units left of a row's unfinished job; below zero if it will be late.
    pub fn spare(&self, row: u32) -> Result<Option<i64>, Refusal>
        ensures step { Step (state L.entries L.cells self.now) (Spare row) result (state L.entries L.cells self.now) }
        ensures life { LivesOn (state L.entries L.cells self.now) (Spare row) result (state L.entries L.cells self.now) }
    {
        self.spare_step(row)
    }
}
