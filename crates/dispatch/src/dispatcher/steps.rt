// What each call of a dispatcher does.
ghost use Rattle.std.specs.Prelude.{◌≡◌, ◌+◌, ◌≤◌, pos, ◌-ℤ◌, nat_lt};
ghost use Rattle.dispatch.specs.Admissions.{admission};
ghost use Rattle.dispatch.specs.Dispatchers.{state, table_rows};
ghost use Rattle.feasibility.specs.Contents.{numbered, least_told};
ghost use Rattle.guarantee.specs.Limits.{max_clock};
ghost use Rattle.guarantee.specs.States.{fresh};
ghost use Rattle.guarantee.specs.Rules.{Step, Take, Release, Begin, End, Spare, known, lowered};

use crate::dispatcher::Dispatcher;
use feasibility::Table;
use guarantee::{JobState, Pending, Refusal, RowState, Tick};
use ready::{Entry, ReadyList};

const MAX_CLOCK: u32 = 1_000_000_000;

// The calls whose answers depend on the tick.
#[derive(Clone, Copy)]
pub(crate) enum Act {
    Release,
    Begin,
    End,
}

impl<L: ReadyList + Drop> Dispatcher<L> {
    pub(crate) fn unused(list: L) -> Dispatcher<L>
        ensures { state L.entries L.cells result ≡ fresh (L.entries list) (L.cells list) }
    {
        let unasked = RowState {
            last: None,
            job: None,
        };
        Dispatcher {
            list,
            clock: 0,
            table: None,
            tick: Tick::Closed,
            states: [unasked; 32],
        }
    }

    pub(crate) fn take_step(&mut self, table: &Table) -> Result<(), Refusal>
        ensures { Step (state L.entries L.cells self.old) (Take (table_rows table.now)) result (state L.entries L.cells self.new) }
    {
        if self.table.is_some() {
            return Err(Refusal::TableTaken);
        }
        if self.list.count() != 0 {
            return Err(Refusal::ListNotEmpty);
        }
        if self.list.capacity() < table.count() as usize {
            return Err(Refusal::CapacityBelowRows);
        }
        self.table = Some(*table);
        Ok(())
    }

    pub(crate) fn release_step(&mut self, row: u32) -> Result<(), Refusal>
        ensures { Step (state L.entries L.cells self.old) (Release row) result (state L.entries L.cells self.new) }
    {
        let table = self.table.as_ref().ok_or(Refusal::NoTable)?;
        let line = table.row(row).ok_or(Refusal::UnknownRow)?;
        admit(self.tick, Act::Release)?;
        let clock = self.clock;
        let place = row as usize - 1;
        let before = self.states[place];
        if before
            .last
            .is_some_and(|last| is_early(clock, last, line.period))
        {
            return Err(Refusal::TooEarly);
        }
        if before.job.is_some() {
            return Err(Refusal::EarlierUnfinished);
        }
        let due = clock + line.period;
        self.states[place] = RowState {
            last: Some(clock),
            job: Some(Pending {
                due,
                left: line.cost,
            }),
        };
        let _ = self.list.put(row, due);
        Ok(())
    }

    pub(crate) fn begin_step(&mut self) -> Result<u32, Refusal>
        ensures { Step (state L.entries L.cells self.old) Begin result (state L.entries L.cells self.new) }
    {
        let table = self.table.as_ref().ok_or(Refusal::NoTable)?;
        admit(self.tick, Act::Begin)?;
        if self.clock == MAX_CLOCK {
            return Err(Refusal::ClockAtLimit);
        }
        let row = match self.list.first() {
            None => 0,
            Some(first) => {
                if !first.begun {
                    let deadline = begun_deadline(table, self.clock, first);
                    let _ = self.list.mark(first.row, deadline);
                }
                first.row
            }
        };
        self.tick = Tick::Open(row);
        Ok(row)
    }

    pub(crate) fn end_step(&mut self) -> Result<(u32, JobState), Refusal>
        ensures { Step (state L.entries L.cells self.old) End result (state L.entries L.cells self.new) }
    {
        if self.table.is_none() {
            return Err(Refusal::NoTable);
        }
        let row = admit(self.tick, Act::End)?;
        self.tick = Tick::Closed;
        self.clock += 1;
        if row == 0 {
            return Ok((0, JobState::Unfinished));
        }
        let served = row as usize - 1;
        let Some(job) = self.states[served].job else {
            return Ok((row, JobState::Unfinished));
        };
        if job.left > 1 {
            self.states[served].job = Some(Pending {
                left: job.left - 1,
                ..job
            });
            return Ok((row, JobState::Unfinished));
        }
        self.states[served].job = None;
        let _ = self.list.remove(row);
        if self.clock <= job.due {
            Ok((row, JobState::InTime))
        } else {
            Ok((row, JobState::Late))
        }
    }

    pub(crate) fn spare_step(&self, row: u32) -> Result<Option<i64>, Refusal>
        ensures { Step (state L.entries L.cells self.now) (Spare row) result (state L.entries L.cells self.now) }
    {
        let table = self.table.as_ref().ok_or(Refusal::NoTable)?;
        table.row(row).ok_or(Refusal::UnknownRow)?;
        let clock = self.clock;
        let job = self.states[row as usize - 1].job;
        Ok(job.map(|job| spare_time(job.due, clock, job.left)))
    }
}

// What the tick admits: a release and a begin while it is closed, an end while it is open, with its row.
fn admit(tick: Tick, act: Act) -> Result<u32, Refusal>
    ensures { result ≡ admission tick act }
{
    match (tick, act) {
        (Tick::Closed, Act::Release) => Ok(0),
        (Tick::Closed, Act::Begin) => Ok(0),
        (Tick::Open(row), Act::End) => Ok(row),
        (Tick::Closed, Act::End) => Err(Refusal::NoTickOpen),
        (Tick::Open(_), _) => Err(Refusal::TickOpen),
    }
}

// Whether the clock is below the last request + period.
fn is_early(clock: u32, last: u32, period: u32) -> bool
    ensures { result ≡ nat_lt clock (last + period) }
{
    u64::from(clock) < u64::from(last) + u64::from(period)
}

fn spare_time(due: u32, clock: u32, left: u32) -> i64
    ensures { result ≡ pos due -ℤ pos clock -ℤ pos left }
{
    i64::from(due) - i64::from(clock) - i64::from(left)
}

// The deadline of an entry that is begun now: with a store, no later than the next tick and the least period of the
// store's users after it.
fn begun_deadline(table: &Table, clock: u32, first: Entry) -> u32
    requires { clock ≤ max_clock }
    ensures { result ≡ lowered clock first.deadline (least_told (table_rows table.now) (known (numbered (table_rows table.now) first.row)).store) }
{
    let least = table
        .row(first.row)
        .and_then(|line| table.least_period(line.store));
    match least {
        Some(period) => first.deadline.min(clock + 1 + period),
        None => first.deadline,
    }
}
