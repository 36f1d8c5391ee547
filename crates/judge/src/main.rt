// judge: the program. It reads a sheet from standard input and prints one line: verdict, line, cell, index, moves, waits,
// outcomes. It sees sheet and report.

#![tactic(auto)]

ghost use Rattle.std.specs.Prelude.{◌≡◌, ℕ, ◌≤◌, length, IfOk, OnErr};
ghost use Rattle.rules.specs.Sizes.{least_workspace};
ghost use Rattle.report.specs.Line.{judge_line};
ghost use Rattle.report.specs.Writing.{Wrote};

use report::report;
use sheet::judge;
use std::io::{self, Read};

// The most bytes of the line: seven numbers of ten digits, each followed by a tab or the line feed.
const MOST_LINE: usize = 77;
// A sheet is judged with the least workspace.
const WORKSPACE: usize = 8192;

// Judges the sheet, writes the line that is printed of it into the first bytes of the room, and returns its length.
fn write_judge(text: &[u8], workspace: &mut [u32; WORKSPACE], room: &mut [u8; MOST_LINE]) -> usize
    ensures { Wrote (judge_line least_workspace text.now) room.old 0 room.new result }
{
    let verdict = judge(text, workspace);
    report(room, 0, verdict)
}

// Writes the line of the sheet's verdict to standard output, whole. (The sheet is handed in to say whose line it is.)
fn print(out: &impl Print, text: &[u8], line: &[u8]) -> io::Result<()>
    requires { line.now ≡ judge_line least_workspace text.now }
{
    out.write_all(line)
}

// Judges the sheet and prints its line, which stands in the room then, printed or not.
fn print_judge(
    out: &impl Print,
    text: &[u8],
    workspace: &mut [u32; WORKSPACE],
    room: &mut [u8; MOST_LINE],
) -> io::Result<()>
    ensures { (end : ℕ) × Wrote (judge_line least_workspace text.now) room.old 0 room.new end }
{
    let end = write_judge(text, workspace, room);
    print(out, text, &room[..end])
}

// Reads until the room is full or the input ends, and returns how many bytes it put at the start. (A loop over `read`, which counts the
// bytes that came: std's `read_exact` refuses an input that ends before.)
fn read_full(input: &mut impl Read, room: &mut [u8]) -> io::Result<usize>
    ensures ok { IfOk result (λ n. n ≤ length room.new) }
    ensures err { OnErr result (length room.new ≡ length room.old) }
{
    let mut done = 0;
    while done < room.len() {
        let got = input.read(&mut room[done..])?;
        if got == 0 {
            break;
        }
        done += got;
    }
    Ok(done)
}

fn main(rt: HostRuntime) -> io::Result<()> {
    // One byte more than a sheet may have, so that a longer text shows.
    let mut text = [0u8; 32769];
    let n = read_full(&mut rt.stdin(), &mut text)?;
    let mut workspace = [0; WORKSPACE];
    let mut room = [0; MOST_LINE];
    print_judge(&rt, &text[..n], &mut workspace, &mut room)
}
