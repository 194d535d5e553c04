// The rows of a session file.
ghost use Rattle.std.specs.Prelude.{◌≡◌, ◌≤◌, length, MatchResult};
ghost use Rattle.feasibility.specs.Contents.{rows_of};
ghost use Rattle.session.specs.Limits.{max_number};
ghost use Rattle.session.specs.Reading.{left};
ghost use Rattle.session.specs.Sections.{RowLine, WrongRow, RowsRead, RowFault};

use crate::fault::{LineFault, PlacedFault};
use crate::reader::Reader;
use feasibility::{Draft, Row};

// Adds the row of the next line.
fn read_row(reader: &mut Reader, draft: &mut Draft) -> Result<(), LineFault>
    ensures { MatchResult result (λ _. RowLine (rows_of draft.old.rows) (left reader.old) (rows_of draft.new.rows) (left reader.new)) (λ e. WrongRow (rows_of draft.old.rows) (left reader.old) e) }
{
    let [cost, period, store] = reader.numbers::<3>()?;
    draft.add(Row {
        cost,
        period,
        store,
    })?;
    Ok(())
}

// Adds the rows of the next `count` lines, of which the first is line 2.
pub(crate) fn read_rows(reader: &mut Reader, count: u32) -> Result<Draft, PlacedFault>
    requires { count ≤ max_number }
    ensures { MatchResult result (λ d. RowsRead (left reader.old) (rows_of d.rows) (left reader.new) × (length (rows_of d.rows) ≡ count)) (λ f. RowFault count (left reader.old) f.fault f.line) }
{
    let mut draft = Draft::new();
    for line in 2..count + 2 {
        read_row(reader, &mut draft).map_err(|fault| fault.at(line))?;
    }
    Ok(draft)
}
