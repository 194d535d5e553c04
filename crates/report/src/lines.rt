// A line is a word and its numbers, in decimal without leading zeros, with one space before each number and a line feed
// at the end. A call that writes one answers its length, line feed included, and alters no byte after it; or it refuses
// for want of space, and alters none.
ghost use Rattle.std.specs.Prelude.{◌≡◌, ◌+◌, ◌≤◌, [], ◌∷◌, ◌++◌, length, drop};
ghost use Rattle.feasibility.specs.Told.{told};
ghost use Rattle.report.specs.Limits.{min_space};
ghost use Rattle.report.specs.Lines.{line_of, spaced, verdict_text, fault_text, tick_text, refusal_text};
ghost use Rattle.report.specs.Writes.{Writes, space_for};

use crate::space::{MIN_SPACE, NoSpace};
use feasibility::Verdict;
use itoa::write_digits;

// No line is longer: a word of 7 bytes, three numbers of 64 bits with a space before each, and a line feed.
const MAX_LINE: usize = 71;

// `verdict 0`, or the verdict's number and the two values that are told with it.
pub fn verdict_line(out: &mut [u8], verdict: Verdict) -> Result<usize, NoSpace>
    ensures { Writes (space_for (verdict_text (told verdict))) (verdict_text (told verdict)) out.old out.new result }
{
    let number = u64::from(verdict.number());
    match verdict {
        Verdict::Fit => write_line(out, "verdict", &[number]),
        Verdict::Overloaded { hyperperiod, load } => {
            write_line(out, "verdict", &[number, u64::from(hyperperiod), load])
        }
        Verdict::Blocked { row, length } => write_line(
            out,
            "verdict",
            &[number, u64::from(row), u64::from(length)],
        ),
    }
}

// `fault`, its number, the input's line and the cause.
pub fn fault_line(out: &mut [u8], number: u32, line: u32, cause: u32) -> Result<usize, NoSpace>
    ensures { Writes min_space (fault_text number line cause) out.old out.new result }
{
    write_short_line(out, "fault", [number, line, cause])
}

// `t`, the clock, the row and the state.
pub fn tick_line(out: &mut [u8], clock: u32, row: u32, state: u32) -> Result<usize, NoSpace>
    ensures { Writes min_space (tick_text clock row state) out.old out.new result }
{
    write_short_line(out, "t", [clock, row, state])
}

// `no`, the time, the row and the number of the refusal.
pub fn refusal_line(out: &mut [u8], time: u32, row: u32, refusal: u32) -> Result<usize, NoSpace>
    ensures { Writes min_space (refusal_text time row refusal) out.old out.new result }
{
    write_short_line(out, "no", [time, row, refusal])
}

// A line of three numbers of 32 bits, which never needs more than the least space.
#[tactic(auto, using(crate::proofs::Short::short_line, crate::proofs::Short::three))]
fn write_short_line(out: &mut [u8], word: &str, numbers: [u32; 3]) -> Result<usize, NoSpace>
    requires { length word.now ≤ 5 }
    ensures { Writes min_space (line_of word.now numbers) out.old out.new result }
{
    let [first, second, third] = numbers;
    write_line(out, word, &[first.into(), second.into(), third.into()])
}

// A line, unless the space is below the least or below the line's length.
fn write_line(out: &mut [u8], word: &str, numbers: &[u64]) -> Result<usize, NoSpace>
    requires { (length word.now ≤ 7) × (length numbers.now ≤ 3) }
    ensures { Writes (space_for (line_of word.now numbers.now)) (line_of word.now numbers.now) out.old out.new result }
{
    if out.len() < MIN_SPACE {
        return Err(NoSpace);
    }
    let mut space = [0; MAX_LINE];
    let line = line(&mut space, word, numbers);
    if out.len() < line.len() {
        return Err(NoSpace);
    }
    out[..line.len()].copy_from_slice(line);
    Ok(line.len())
}

// The text of a line. It is put into the space from its end, so that no number's length is asked for first.
fn line<'a>(space: &'a mut [u8; MAX_LINE], word: &str, numbers: &[u64]) -> &'a [u8]
    requires { (length word.now ≤ 7) × (length numbers.now ≤ 3) }
    ensures { result.now ≡ line_of word.now numbers.now }
{
    space[MAX_LINE - 1] = b'\n';
    let mut at = MAX_LINE - 1;
    for i in (0..numbers.len()).rev() {
        at = put_number(space, at, numbers[i]);
    }
    at = put_word(space, at, word);
    &space[at..]
}

// Puts a space and a number before a place, and answers where they start.
#[tactic(auto, using(crate::proofs::Numbers::at_most_twenty, crate::proofs::Numbers::one_before))]
fn put_number(space: &mut [u8], end: usize, n: u64) -> usize
    requires { (21 ≤ end) × (end ≤ length space.old) }
    ensures start { result + length (spaced n) ≡ end }
    ensures written { drop result space.new ≡ spaced n ++ drop end space.old }
{
    let at = write_digits(n, space, end) - 1;
    space[at] = b' ';
    at
}

// Puts a word before a place, and answers where it starts.
fn put_word(space: &mut [u8], end: usize, word: &str) -> usize
    requires { (length word.now ≤ end) × (end ≤ length space.old) }
    ensures start { result + length word.now ≡ end }
    ensures written { drop result space.new ≡ word.now ++ drop end space.old }
{
    let at = end - word.len();
    space[at..end].copy_from_slice(word.as_bytes());
    at
}
