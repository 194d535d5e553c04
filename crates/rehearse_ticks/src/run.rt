// A session's run: at each tick the arrivals that are due are released, then the tick is begun and ended.
use crate::print::print;
use arrivals::{Coming, PlacedArrival};
use dispatch::{Dispatcher, JobState, Refusal};
use ready::ReadyList;
use report::{refusal_line, tick_line};
use session::{Arrival, Session};
use std::io;
use std::io::Write;

// What stands in a cell of the queue before its first arrival.
const NO_ARRIVAL: PlacedArrival = PlacedArrival {
    time: 0,
    row: 0,
    place: 0,
};

pub(crate) fn run<L: ReadyList + Drop, W: Write>(
    list: L,
    session: &Session,
    out: &mut W,
) -> io::Result<()> {
    let mut dispatcher = Dispatcher::new(list);
    if dispatcher.take(&session.table).is_err() {
        return Ok(());
    }
    let mut cells = [NO_ARRIVAL; 256];
    let mut coming = Coming::new(&mut cells);
    expect(&mut coming, session.arrivals.as_slice());
    for clock in 0..session.ticks {
        release_due(&mut dispatcher, &mut coming, clock, out)?;
        if let Ok((row, state)) = tick(&mut dispatcher) {
            print(out, |line| tick_line(line, clock, row, state.number()))?;
        }
    }
    Ok(())
}

// All arrivals are to come; each has its place in the file. There is a cell for each that a session can have.
fn expect(coming: &mut Coming, arrivals: &[Arrival]) {
    for (place, arrival) in (0..).zip(arrivals) {
        let _ = coming.add(PlacedArrival {
            time: arrival.time,
            row: arrival.row,
            place,
        });
    }
}

// Releases what arrives by this clock, in the order of time, row and place in the file, and prints each refusal.
fn release_due<L: ReadyList + Drop, W: Write>(
    dispatcher: &mut Dispatcher<L>,
    coming: &mut Coming,
    clock: u32,
    out: &mut W,
) -> io::Result<()> {
    while let Some(arrival) = coming.take_due(clock) {
        release(dispatcher, arrival.row, clock, out)?;
    }
    Ok(())
}

fn release<L: ReadyList + Drop, W: Write>(
    dispatcher: &mut Dispatcher<L>,
    row: u32,
    clock: u32,
    out: &mut W,
) -> io::Result<()> {
    match dispatcher.release(row) {
        Ok(()) => Ok(()),
        Err(refusal) => print(out, |line| refusal_line(line, clock, row, refusal.number())),
    }
}

// One tick: the row that it is given to, and the state of that row's job at its end.
fn tick<L: ReadyList + Drop>(dispatcher: &mut Dispatcher<L>) -> Result<(u32, JobState), Refusal> {
    dispatcher.begin()?;
    dispatcher.end()
}
