// A line as a whole: so many fields, and a line feed.
ghost use Rattle.std.specs.Prelude.{◌≡◌, ◌≤◌, false, ◌≢◌, [], ◌∷◌, Some, MatchBool, MatchResult};
ghost use Rattle.session.specs.Lines.{next_line, with_field, has, NoField};
ghost use Rattle.session.specs.LineKinds.{LineOf, Misshapen, WrongLine};
ghost use Rattle.session.specs.Limits.{max_number};
ghost use Rattle.session.specs.Reading.{left};
ghost use Rattle.session.specs.Sections.{LimitedHeading, WrongHeading};
ghost use Rattle.session.specs.declared.fault.LineFault.TheVariants.{Shape};

use crate::fault::LineFault;
use crate::field::{Field, FieldFault, number};
use crate::reader::Reader;

impl<'a> Reader<'a> {
    // The next field, which the line must have.
    fn field(&mut self) -> Result<Field<'a>, LineFault>
        ensures { MatchResult result (λ f. next_line (left self.old) ≡ with_field f.bytes.now (next_line (left self.new))) (λ e. (e ≡ Shape) × NoField (next_line (left self.old))) }
    {
        self.next_field().ok_or(LineFault::Shape)
    }

    // The end of a line that has no more fields.
    fn end_line(&mut self) -> Result<(), LineFault>
        ensures { MatchResult result (λ _. next_line (left self.old) ≡ Some ([], left self.new)) (λ e. (e ≡ Shape) × (has 0 (next_line (left self.old)) ≡ false)) }
    {
        if self.next_field().is_some() || self.is_at_end() {
            return Err(LineFault::Shape);
        }
        self.at += 1;
        Ok(())
    }

    // The numbers of a line that has so many. All its fields are taken before a fault in one of them is told.
    pub(crate) fn numbers<const N: usize>(&mut self) -> Result<[u32; N], LineFault>
        ensures { MatchResult result (λ ns. LineOf [] (left self.old) ns (left self.new)) (λ e. WrongLine [] N (left self.old) e) }
    {
        let mut answers: [Result<u32, FieldFault>; N] = [Ok(0); N];
        for answer in &mut answers {
            *answer = number(self.field()?.bytes);
        }
        self.end_line()?;
        let mut numbers = [0; N];
        for (i, answer) in answers.iter().enumerate() {
            numbers[i] = (*answer)?;
        }
        Ok(numbers)
    }

    // The field after a word, in a line of these two.
    fn field_after(&mut self, word: &[u8]) -> Result<Field<'a>, LineFault>
        ensures { MatchResult result (λ f. next_line (left self.old) ≡ Some (word.now ∷ f.bytes.now ∷ [], left self.new)) (λ e. (e ≡ Shape) × Misshapen (word.now ∷ []) 1 (left self.old)) }
    {
        let name = self.field()?;
        let value = self.field()?;
        self.end_line()?;
        if name.bytes == word {
            Ok(value)
        } else {
            Err(LineFault::Shape)
        }
    }

    // A line of a word and a number.
    pub(crate) fn heading(&mut self, word: &[u8]) -> Result<u32, LineFault>
        ensures { MatchResult result (λ n. LineOf (word.now ∷ []) (left self.old) (n ∷ []) (left self.new) × (n ≤ max_number)) (λ e. WrongLine (word.now ∷ []) 1 (left self.old) e) }
    {
        let value = self.field_after(word)?;
        Ok(number(value.bytes)?)
    }

    // A line of a word and a number of at most `max`.
    pub(crate) fn limited_heading(&mut self, word: &[u8], max: u32) -> Result<u32, LineFault>
        ensures { MatchResult result (λ n. LimitedHeading word.now max (left self.old) n (left self.new)) (λ e. WrongHeading word.now max (left self.old) e) }
    {
        let n = self.heading(word)?;
        if n > max {
            return Err(LineFault::Limit);
        }
        Ok(n)
    }

    // Whether the file is read to its end.
    fn is_at_end(&self) -> bool
        ensures { MatchBool result (left self.now ≡ []) (left self.now ≢ []) }
    {
        self.at == self.input.len()
    }

    // The end of the file, after its last line.
    pub(crate) fn end(&self) -> Result<(), LineFault>
        ensures { MatchResult result (λ _. left self.now ≡ []) (λ e. (e ≡ Shape) × (left self.now ≢ [])) }
    {
        if self.is_at_end() {
            Ok(())
        } else {
            Err(LineFault::Shape)
        }
    }
}
