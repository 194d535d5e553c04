// How arrivals are read and asked for.
ghost use Rattle.std.specs.Prelude.{◌≡◌, ◌+◌, ◌<◌, ◌≤◌, [], ◌∷◌, ◌++◌, length, MatchResult};
ghost use Rattle.session.specs.Limits.{max_arrivals};
ghost use Rattle.session.specs.Reading.{left, arrivals_of};
ghost use Rattle.session.specs.Sections.{ArrivalLine, WrongArrival, ArrivalsRead, ArrivalFault};

use crate::arrival::Arrival;
use crate::arrivals::{Arrivals, MAX_ARRIVALS};
use crate::fault::{LineFault, PlacedFault};
use crate::reader::Reader;

const MAX_TIME: u32 = 4_095;

impl Arrivals {
    pub(crate) fn new() -> Arrivals
        ensures { arrivals_of result ≡ [] }
    {
        Arrivals {
            cells: [Arrival { time: 0, row: 0 }; MAX_ARRIVALS],
            count: 0,
        }
    }

    // All of them, in file order.
    pub fn as_slice(&self) -> &[Arrival]
        ensures { result.now ≡ arrivals_of self.now }
    {
        &self.cells[..self.count as usize]
    }

    // One more at the end.
    fn push(&mut self, arrival: Arrival)
        requires { length (arrivals_of self.old) < max_arrivals }
        ensures { arrivals_of self.new ≡ arrivals_of self.old ++ arrival ∷ [] }
    {
        self.cells[self.count as usize] = arrival;
        self.count += 1;
    }
}

// The arrival of the next line, at a table of so many rows.
fn read_arrival(reader: &mut Reader, rows: u32) -> Result<Arrival, LineFault>
    ensures { MatchResult result (λ a. ArrivalLine rows (left reader.old) a.time a.row (left reader.new)) (λ e. WrongArrival rows (left reader.old) e) }
{
    let [time, row] = reader.numbers::<2>()?;
    if time > MAX_TIME || row == 0 || row > rows {
        return Err(LineFault::Limit);
    }
    Ok(Arrival { time, row })
}

// The arrivals of the next `count` lines, of which the first is line `from`.
pub(crate) fn read_arrivals(
    reader: &mut Reader,
    rows: u32,
    count: u32,
    from: u32,
) -> Result<Arrivals, PlacedFault>
    requires few { count ≤ max_arrivals }
    requires early { from < 2000000000 }
    ensures { MatchResult result (λ a. ArrivalsRead rows (left reader.old) (arrivals_of a) (left reader.new) × (length (arrivals_of a) ≡ count)) (λ f. ArrivalFault rows count from (left reader.old) f.fault f.line) }
{
    let mut arrivals = Arrivals::new();
    for line in from..from + count {
        arrivals.push(read_arrival(reader, rows).map_err(|fault| fault.at(line))?);
    }
    Ok(arrivals)
}
