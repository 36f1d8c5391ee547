// The replies: a request is answered with memory that is lent to the entries, and the requests of some bytes one after another.
// Output, memory and replies are lent anew at each call, so they are in no struct.
ghost use Rattle.std.specs.Prelude.{◌≡◌, true, ◌+◌, ◌≤◌, length, take};
ghost use Rattle.requests.specs.Request.{RequestOf};
ghost use Rattle.replies.specs.Reply.{verdict_line, play_line, outcome_line, reply_of};
ghost use Rattle.replies.specs.Answers.{Says, Replies, AnswerOf, GatheredFrom};

use crate::lent::{FILLING, Memory, lent_right, workspace_right};
use crate::print;
use crate::written::{MOST_SAID, Said};
use report::{report, tell_all, write_line};
use requests::{Ask, Found, Request, Unfound, find};
use rules::Told;
use sheet::{judge, outcome, play};
use std::io::Stdout;

// The most bytes of a reply's line: seven numbers and a thousand more, each of ten digits and followed by a tab or the line feed. (That a
// reply fits is not true of all `Said`, so each function that writes one asks it.)
const MOST_REPLY: usize = 11077;

// Prints the replies that were gathered, and says that the memory that was lent is not as the entries leave it; none of them is left to
// print then. It asks that the memory is right and is called only where it is not, so it is proved that it never comes to that.
fn say_memory(out: Stdout, right: bool, said: &mut Said)
    requires never { right ≡ true }
    requires said { Replies (take said.old.end said.old.bytes) }
    ensures { (said.new.end ≡ 0) × (said.new.bytes ≡ said.old.bytes) }
{
    let _ = print(out, said.replies());
    let _ = out.write_all(b"memory\n");
    said.end = 0;
}

// Judges the sheet, and writes the reply: the judging program's line, or all counts.
// (`all` as in `Ask`: the same is done, and the reply is longer by two numbers.)
fn answer_judge(out: Stdout, text: &[u8], all: bool, workspace: &mut [u32], said: &mut Said)
    requires { said.old.end + 11077 ≤ 32768 }
    ensures { Says (verdict_line all (length workspace.old) text.now) said.old said.new }
{
    workspace.fill(FILLING);
    let verdict = judge(text, workspace);
    let right = workspace_right(workspace);
    if !right {
        return say_memory(out, right, said);
    }
    if !all {
        said.end = report(&mut said.bytes, said.end, verdict);
        return;
    }
    let told = tell_all(verdict);
    said.end = write_line(&mut said.bytes, said.end, told[0], &told[1..], &[]);
}

// Plays the cells on the sheet, and writes the reply.
fn answer_play(
    out: Stdout,
    text: &[u8],
    moves: &[u32],
    room: &mut [u32],
    workspace: &mut [u32],
    said: &mut Said,
)
    requires { (length room.old ≤ 1000) × (said.old.end + 11077 ≤ 32768) }
    ensures { Says (play_line (length workspace.old) text.now moves.now (length room.old)) said.old said.new }
{
    workspace.fill(FILLING);
    room.fill(FILLING);
    let played = play(text, moves, room, workspace);
    let told = Told::from(played.verdict);
    let right = lent_right(workspace, room, told.number, played.answers);
    if !right {
        return say_memory(out, right, said);
    }
    let others = [
        told.line,
        told.cell,
        told.index,
        played.place as u32,
        played.answers as u32,
        u32::from(played.over),
    ];
    let answers = &room[..played.answers];
    said.end = write_line(&mut said.bytes, said.end, told.number, &others, answers);
}

// Names the outcome of the sheet with a number, and writes the reply. (One function for play and outcome would need a contract for the
// call that is handed in, longer than what the two share.)
fn answer_outcome(
    out: Stdout,
    text: &[u8],
    number: u32,
    room: &mut [u32],
    workspace: &mut [u32],
    said: &mut Said,
)
    requires { (length room.old ≤ 1000) × (said.old.end + 11077 ≤ 32768) }
    ensures { Says (outcome_line (length workspace.old) text.now number (length room.old)) said.old said.new }
{
    workspace.fill(FILLING);
    room.fill(FILLING);
    let named = outcome(text, number, room, workspace);
    let told = Told::from(named.verdict);
    let right = lent_right(workspace, room, told.number, named.cells);
    if !right {
        return say_memory(out, right, said);
    }
    let others = [told.line, told.cell, told.index, named.cells as u32];
    let cells = &room[..named.cells];
    said.end = write_line(&mut said.bytes, said.end, told.number, &others, cells);
}

// Answers a request about a sheet, with as much memory lent as it says.
fn answer(out: Stdout, text: &[u8], request: Request, memory: &mut Memory, said: &mut Said)
    requires asked { RequestOf (take request.count memory.old.numbers) request }
    requires place { said.old.end + 11077 ≤ 32768 }
    ensures { Says (reply_of request (take request.count memory.old.numbers) text.now) said.old said.new }
{
    let ask = request.ask;
    let numbers = &memory.numbers[..request.count];
    let (workspace, _) = memory.workspace.split_at_mut(request.work);
    let (room, _) = memory.room.split_at_mut(request.room);
    match ask {
        Ask::Judge { all } => answer_judge(out, text, all, workspace, said),
        Ask::Play => answer_play(out, text, &numbers[3..], room, workspace, said),
        Ask::Outcome => answer_outcome(out, text, numbers[3], room, workspace, said),
    }
}

// Answers the first request of the bytes, and returns the place after it.
fn answer_first(
    out: Stdout,
    bytes: &[u8],
    memory: &mut Memory,
    said: &mut Said,
) -> Result<usize, Unfound>
    requires { said.old.end + 11077 ≤ 32768 }
    ensures { AnswerOf bytes.now said.old said.new result }
{
    let Found { request, text } = find(bytes, &mut memory.numbers)?;
    let next = text + request.bytes;
    answer(out, &bytes[text..next], request, memory, said);
    Ok(next)
}

// How many bytes were taken by requests, and why there are no more: the next is not found, or its reply may not fit.
#[derive(Clone, Copy)]
pub struct Gathered {
    pub taken: usize,
    pub unfound: Option<Unfound>,
}

// Answers the requests of the bytes, one after another.
// (How many there are is known at their end alone: a `while`.)
pub fn gather(out: Stdout, bytes: &[u8], memory: &mut Memory, said: &mut Said) -> Gathered
    ensures { GatheredFrom bytes.now said.new result }
{
    let mut taken = 0;
    said.end = 0;
    while MOST_REPLY <= MOST_SAID - said.end {
        match answer_first(out, &bytes[taken..], memory, said) {
            Ok(next) => taken += next,
            Err(unfound) => {
                return Gathered {
                    taken,
                    unfound: Some(unfound),
                };
            }
        }
    }
    Gathered {
        taken,
        unfound: None,
    }
}
