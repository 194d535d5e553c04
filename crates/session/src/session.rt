// A session: a table, how many ticks to run, and the arrivals.
ghost use Rattle.std.specs.Prelude.{◌≡◌, ◌≤◌, ◌≢◌, [], ◌∷◌, length, codes, MatchResult};
ghost use Rattle.feasibility.specs.Contents.{rows_of};
ghost use Rattle.session.specs.Limits.{max_bytes};
ghost use Rattle.session.specs.Reading.{left, arrivals_of};
ghost use Rattle.session.specs.declared.fault.LineFault.TheVariants.{Shape};
ghost use Rattle.session.specs.Sections.{LimitedHeading, WrongHeading};
ghost use Rattle.session.specs.Sessions.{BeginsWithRows, FirstWrong, IsSession, IsFault};

use crate::arrivals::{Arrivals, MAX_ARRIVALS, read_arrivals};
use crate::fault::{Fault, PlacedFault};
use crate::reader::Reader;
use crate::rows::read_rows;
use feasibility::{Draft, Table};

const MAX_BYTES: usize = 16_384;

const MAX_TICKS: u32 = 4_096;

#[derive(Clone, Copy)]
pub struct Session {
    pub table: Table,
    pub ticks: u32,
    pub arrivals: Arrivals,
}

// The table's part of a file, from its first line on.
fn read_table(reader: &mut Reader) -> Result<Draft, PlacedFault>
    ensures { MatchResult result (λ d. BeginsWithRows (left reader.old) (rows_of d.rows) (left reader.new)) (λ p. FirstWrong (left reader.old) p.fault p.line) }
{
    let count = reader.heading(b"rows").map_err(|fault| fault.at(1))?;
    read_rows(reader, count)
}

// A file that is not too long, section by section.
fn read_sections(bytes: &[u8]) -> Result<Session, PlacedFault>
    requires { length bytes.now ≤ max_bytes }
    ensures { MatchResult result (λ s. IsSession bytes.now (rows_of s.table.rows) s.ticks (arrivals_of s.arrivals)) (λ p. FirstWrong bytes.now p.fault p.line) }
{
    let mut reader = Reader::new(bytes);
    let draft = read_table(&mut reader)?;
    let rows = draft.count();
    let ticks = reader
        .limited_heading(b"ticks", MAX_TICKS)
        .map_err(|fault| fault.at(rows + 2))?;
    let count = reader
        .limited_heading(b"arrivals", MAX_ARRIVALS as u32)
        .map_err(|fault| fault.at(rows + 3))?;
    let arrivals = read_arrivals(&mut reader, rows, count, rows + 4)?;
    reader.end().map_err(|fault| fault.at(rows + count + 4))?;
    Ok(Session {
        table: draft.seal(),
        ticks,
        arrivals,
    })
}

// The session that some bytes are, or the first fault in them.
pub fn read(bytes: &[u8]) -> Result<Session, Fault>
    ensures { MatchResult result (λ s. IsSession bytes.now (rows_of s.table.rows) s.ticks (arrivals_of s.arrivals)) (λ f. IsFault bytes.now f) }
{
    if bytes.len() > MAX_BYTES {
        return Err(Fault::TooLong);
    }
    Ok(read_sections(bytes)?)
}
