// report: what the programs print of a verdict: its numbers, in decimal, parted by tabs on one line. It sees rules.
// The text goes into bytes that are lent, and not through Display, since each contract names the bytes and where they stand, and no
// memory is allocated.

#![tactic(auto)]

ghost use Rattle.std.specs.Prelude.{◌≡◌, ◌+◌, ◌*◌, ◌<◌, ◌≤◌, [], ◌∷◌, ◌++◌, length};
ghost use Rattle.rules.specs.Verdict.{told};
ghost use Rattle.rules.specs.Decimal.{decimal};
ghost use Rattle.report.specs.All.{all_numbers};
ghost use Rattle.report.specs.Line.{fields, line_of, report_line};
ghost use Rattle.report.specs.Writing.{Wrote, WroteWithin};

use rules::{Told, Verdict};

// All numbers of a verdict: what document 01 says of it, and the counts that came with the follow-up requests. (Nine, where the judging
// program and the C interface tell seven: both are laid down.)
pub fn tell_all(v: Verdict) -> [u32; 9]
    ensures { result ≡ all_numbers (told v) }
{
    let told = Told::from(v);
    let counts = told.counts;
    [
        told.number,
        told.line,
        told.cell,
        told.index,
        counts.moves,
        counts.waits,
        counts.outcomes,
        counts.passed,
        counts.idle,
    ]
}

// The byte of a digit.
fn digit(d: u32) -> u8
    requires { d < 10 }
    ensures { result ≡ 48 + d }
{
    b'0' + d as u8
}

// Writes one byte, and returns the place after it.
fn write_byte(room: &mut [u8], at: usize, b: u8) -> usize
    requires { at < length room.old }
    ensures { Wrote (b ∷ []) room.old at room.new result }
{
    room[at] = b;
    at + 1
}

// Writes a number from its highest digit, and returns the place after it. (It divides by ten and calls itself, as the specification lays down.)
fn write_number(room: &mut [u8], at: usize, n: u32) -> usize
    requires { at + 10 ≤ length room.old }
    ensures { WroteWithin 10 (decimal n) room.old at room.new result }
{
    if n < 10 {
        return write_byte(room, at, digit(n));
    }
    let last = write_number(room, at, n / 10);
    write_byte(room, last, digit(n % 10))
}

// Writes further numbers of a line, each after a tab, and returns the place after them.
fn write_fields(room: &mut [u8], at: usize, numbers: &[u32]) -> usize
    requires { at + 11 * length numbers.now ≤ length room.old }
    ensures { WroteWithin (11 * length numbers.now) (fields numbers.now) room.old at room.new result }
{
    let mut end = at;
    for &number in numbers {
        let after_tab = write_byte(room, end, b'\t');
        end = write_number(room, after_tab, number);
    }
    end
}

// Writes a line of numbers, the further ones from two lists, and returns the place after it.
pub fn write_line(room: &mut [u8], at: usize, first: u32, others: &[u32], listed: &[u32]) -> usize
    requires { at + 11 * length others.now + 11 * length listed.now + 11 ≤ length room.old }
    ensures { Wrote (line_of first (others.now ++ listed.now)) room.old at room.new result }
{
    let after = write_number(room, at, first);
    let middle = write_fields(room, after, others);
    let last = write_fields(room, middle, listed);
    write_byte(room, last, b'\n')
}

// Writes the line that the judging program prints of a verdict, and returns the place after it.
pub fn report(room: &mut [u8], at: usize, v: Verdict) -> usize
    requires { at + 77 ≤ length room.old }
    ensures { Wrote (report_line (told v)) room.old at room.new result }
{
    let told = Told::from(v);
    let place = [told.line, told.cell, told.index];
    let counts = told.counts;
    let counted = [counts.moves, counts.waits, counts.outcomes];
    write_line(room, at, told.number, &place, &counted)
}
