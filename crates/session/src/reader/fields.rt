// The fields of a line, one after another.
ghost use Rattle.std.specs.Prelude.{◌≡◌, ◌<◌, ◌≤◌, true, [], if◌then◌else◌, length, drop, IfSome, MatchOption};
ghost use Rattle.std.specs.List.{between, prefix_len};
ghost use Rattle.session.specs.Bytes.{is_space, in_field};
ghost use Rattle.session.specs.Lines.{next_line, with_field};
ghost use Rattle.session.specs.Places.{Run, FieldAt, OverAt};
ghost use Rattle.session.specs.Reading.{left};
ghost use Rattle.session.specs.Scans.{past_spaces, front_field, past_field, line_over};

use crate::bytes::goes_on;
use crate::field::Field;
use crate::reader::Reader;

impl<'a> Reader<'a> {
    pub fn new(input: &'a [u8]) -> Reader<'a>
        ensures input { result.input.now ≡ input.now }
        ensures at { result.at ≡ 0 }
        ensures left { left result ≡ input.now }
    {
        Reader { input, at: 0 }
    }

    // The next field of the line, with its place, or none where the line has no more.
    pub fn next_field(&mut self) -> Option<Field<'a>>
        ensures field { MatchOption result (front_field (past_spaces (left self.old)) ≡ []) (λ f. (f.bytes.now ≡ front_field (past_spaces (left self.old))) × (0 < length f.bytes.now)) }
        ensures rest { left self.new ≡ past_field (past_spaces (left self.old)) }
        ensures same { self.new.input.now ≡ self.old.input.now }
        ensures line { MatchOption result ((next_line (left self.new) ≡ next_line (left self.old)) × (line_over (left self.new) ≡ true)) (λ f. next_line (left self.old) ≡ with_field f.bytes.now (next_line (left self.new))) }
        ensures place { IfSome result (λ f. f.bytes.now ≡ between f.at self.new.at self.old.input.now) }
        ensures stands { MatchOption result (OverAt self.old.input.now self.old.at self.new.at) (λ f. FieldAt self.old.input.now self.old.at f.at self.new.at f.bytes.now) }
    {
        let input = self.input;
        let (start, end) = field_bounds(input, self.at);
        self.at = end;
        if start == end {
            return None;
        }
        Some(Field {
            bytes: &input[start..end],
            at: start,
        })
    }
}

// Where the next field of the line begins and ends; the same place if the line has no more.
fn field_bounds(input: &[u8], from: usize) -> (usize, usize)
    requires { from ≤ length input.now }
    ensures within { (result.0 ≤ result.1) × (result.1 ≤ length input.now) }
    ensures front { between result.0 result.1 input.now ≡ front_field (past_spaces (drop from input.now)) }
    ensures long { result.0 < result.1 → 0 < length (between result.0 result.1 input.now) }
    ensures empty { result.0 ≡ result.1 → front_field (past_spaces (drop from input.now)) ≡ [] }
    ensures rest { drop result.1 input.now ≡ past_field (past_spaces (drop from input.now)) }
    ensures none { result.0 ≡ result.1 → (next_line (drop result.1 input.now) ≡ next_line (drop from input.now)) × (line_over (drop result.1 input.now) ≡ true) }
    ensures some { result.0 < result.1 → next_line (drop from input.now) ≡ with_field (between result.0 result.1 input.now) (next_line (drop result.1 input.now)) }
    ensures runs { Run is_space input.now from result.0 × Run in_field input.now result.0 result.1 }
{
    let start = from + run_length(&input[from..], false);
    let end = start + run_length(&input[start..], true);
    (start, end)
}

// How many bytes at the front go on with what was begun.
fn run_length(bytes: &[u8], begun: bool) -> usize
    ensures value { result ≡ prefix_len (λ b. if begun then in_field b else is_space b) bytes.now }
    ensures within { result ≤ length bytes.now }
{
    bytes
        .iter()
        .take_while(|byte| goes_on(begun, **byte))
        .count()
}
