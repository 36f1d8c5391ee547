// sheet: the public face: the three entries over a sheet's text and a lent workspace. It sees rules, cells, nodes, live, outcomes,
// answering, loading and judging.

#![tactic(auto)]

ghost use Rattle.std.specs.Prelude.{◌≡◌, ◌≤◌, length};
ghost use Rattle.std.specs.Fn.{CalledAtMut};
ghost use Rattle.rules.specs.Text.{Bytes};
ghost use Rattle.rules.specs.Sizes.{least_workspace};
ghost use Rattle.rules.specs.Tree.{Sheet};
ghost use Rattle.nodes.specs.Sheets.{HoldsSheet, HoldsWhole, SomeWhole, HeldStones};
ghost use Rattle.live.specs.Thinning.{KeepsLive};
ghost use Rattle.rules.specs.declared.Board as declared;
ghost use Rattle.rules.specs.Answering.{start};
ghost use Rattle.rules.specs.Entries.{read_text, judge, JudgeKept, named, outcome, OutcomeKept, rounds, played_out, play, PlayKept};
ghost use Rattle.answering.specs.Playing.{Playable, SomePlayable, as_played};
ghost use Rattle.rules.specs.Reading.{got};
ghost use Rattle.sheet.specs.Table.{RanOn};
ghost use Rattle.sheet.specs.Naming.{listing, naming, HasOutcome, SomeOutcome, as_named, NamedKept};
ghost use Rattle.sheet.specs.Playing.{ReadyHeld, ReadyReply, SomeReady, PlayedKept};

use answering::{PlayedOut, Stopped, play_moves};
use cells::{Cells, Grid};
use judging::{accept_sheet, fair_sheet, judge_table};
use loading::{clear, read_sheet};
use nodes::Head;
use outcomes::pick_move;
use rules::{Named, Played, Verdict};

// The verdict on a sheet that is read into the table.
fn judge_text(sheet: &[u8], table: &mut [u32; 8192]) -> Verdict
    ensures { result ≡ judge least_workspace sheet.now }
{
    match read_sheet(sheet, table) {
        Ok(head) => judge_table(table, head),
        Err(verdict) => verdict,
    }
}

// Runs on the first 8,192 numbers of the workspace, and then clears them; nothing is run where there are fewer. What runs is lent, so that
// the room that it wrote to is known when it is back.
fn on_table<R, F: FnMut(&mut [u32; 8192]) -> R>(workspace: &mut [u32], run: &mut F) -> Option<R>
    requires { F.IsAlwaysCallable run.old }
    ensures { RanOn (CalledAtMut F.FnMut run.old) workspace.old result run.old run.new workspace.new }
{
    let table = workspace.first_chunk_mut::<8192>()?;
    let answer = run(table);
    clear(table);
    Some(answer)
}

// Judge takes a sheet and answers a verdict.
pub fn judge(sheet: &[u8], workspace: &mut [u32]) -> Verdict
    ensures { JudgeKept workspace.old sheet.now result workspace.new }
{
    let mut run = |table: &mut [u32; 8192]| judge_text(sheet, table);
    on_table(workspace, &mut run).unwrap_or(Verdict::SmallWorkspace)
}

// Lists the own set-up stones and the cells of the outcome with a number of the sheet in the table, and returns their number: or 14.
fn list_outcome(
    table: &[u32],
    grid: Grid,
    own: Cells,
    number: usize,
    room: &mut [u32],
) -> Result<usize, Verdict>
    requires { SomeOutcome table.now grid.board own.rows number }
    ensures { (s : Sheet) → HasOutcome table.now grid.board own.rows s number → NamedKept (named (listing s number (length room.old))) room.old (as_named result) room.new }
{
    let cells = pick_move(table, grid, 0, number, own);
    if room.len() < cells.count(grid) {
        return Err(Verdict::ShortRoom);
    }
    Ok(cells.list(grid, room))
}

// Names an outcome of the sheet in the table: or 20, 10, 24, 11, 12, 18, 14.
fn name_outcome(
    table: &mut [u32],
    head: Head,
    number: u32,
    room: &mut [u32],
) -> Result<usize, Verdict>
    requires { SomeWhole table.old head.grid.board head.set_up }
    ensures { (s : Sheet) → HoldsWhole table.old head.grid.board head.set_up s → NamedKept (named (naming s number (length room.old))) room.old (as_named result) room.new }
{
    let fair = fair_sheet(table, head)?;
    if fair.outcomes <= number {
        return Err(Verdict::NoSuchOutcome);
    }
    list_outcome(
        table,
        head.grid,
        head.set_up.stones.own,
        number as usize,
        room,
    )
}

// Names an outcome of a sheet that is read into the table.
fn outcome_text(
    sheet: &[u8],
    number: u32,
    room: &mut [u32],
    table: &mut [u32; 8192],
) -> Result<usize, Verdict>
    ensures { NamedKept (outcome least_workspace sheet.now number (length room.old)) room.old (as_named result) room.new }
{
    let head = read_sheet(sheet, table)?;
    name_outcome(table, head, number, room)
}

// What outcome returns: a refusal lists no cells. (No From: neither type is of this crate. No one function for this and what play returns:
// `Named` and `Played` share the verdict alone.)
fn shown_named(answer: Result<usize, Verdict>) -> Named
    ensures { result ≡ as_named answer }
{
    match answer {
        Ok(cells) => Named {
            verdict: Verdict::Done,
            cells,
        },
        Err(verdict) => Named { verdict, cells: 0 },
    }
}

// Outcome takes a sheet, an outcome's number and room for its cells, listed in ascending order.
pub fn outcome(sheet: &[u8], number: u32, room: &mut [u32], workspace: &mut [u32]) -> Named
    ensures { OutcomeKept workspace.old sheet.now number room.old result workspace.new room.new }
{
    let mut run = |table: &mut [u32; 8192]| outcome_text(sheet, number, room, table);
    let answer = on_table(workspace, &mut run).unwrap_or(Err(Verdict::SmallWorkspace));
    shown_named(answer)
}

// Plays the moves on the accepted sheet in the table: or 15, 16, 17. The answers are kept apart until no move is refused, with a place for
// the answer of each wait that a sheet can have.
// (Memory of a fixed size, and how much of it is in use: nothing is allocated.)
fn play_table(
    table: &mut [u32],
    head: Head,
    moves: &[u32],
    room: &mut [u32],
) -> Result<PlayedOut, Stopped>
    requires holds { SomePlayable table.old head.grid.board head.player head.set_up.stones.own head.set_up.stones.opp }
    requires enough { length moves.now ≤ length room.old }
    ensures { (s : Sheet) → Playable table.old head.grid.board head.player s → HeldStones head.grid.board s.set_up head.set_up.stones.own head.set_up.stones.opp → PlayedKept (played_out s (rounds s (start s) 1 moves.now)) room.old (as_played result) room.new }
{
    let mut answers = [0u32; 2048];
    let played = play_moves(
        table,
        head.grid,
        head.player,
        head.set_up.stones,
        moves,
        &mut answers,
    )?;
    room[..played.answers].copy_from_slice(&answers[..played.answers]);
    Ok(played)
}

// Reads a sheet again where moves were taken out of the table: the answering rule looks at every line.
fn whole_again(sheet: &[u8], table: &mut [u32; 8192], idle: u32)
    ensures { (b : declared.Board) (s : Sheet) → read_text sheet.now ≡ got s → KeepsLive table.old b s idle → HoldsSheet table.new b s }
{
    if idle != 0 {
        let _ = read_sheet(sheet, table);
    }
}

// Reads a sheet into the table: or 2 to 9, and 19; then 20, 10, 24, 11, 12, 13. If it is accepted its whole tree is in the table.
fn ready_text(sheet: &[u8], table: &mut [u32; 8192]) -> Result<Head, Verdict>
    ensures { ReadyReply sheet.now result table.new }
{
    let head = read_sheet(sheet, table)?;
    let accepted = accept_sheet(table, head)?;
    whole_again(sheet, table, accepted.idle);
    Ok(head)
}

// Plays the accepted sheet in the table: or 14, and then for each move in turn 15, 16, 17.
fn play_sheet(
    table: &mut [u32],
    head: Head,
    moves: &[u32],
    room: &mut [u32],
) -> Result<PlayedOut, Stopped>
    requires { SomeReady table.old head }
    ensures { (text : Bytes) → ReadyHeld text table.old head → PlayedKept (play least_workspace text moves.now (length room.old)) room.old (as_played result) room.new }
{
    if room.len() < moves.len() {
        return Err(Stopped::from(Verdict::ShortRoom));
    }
    play_table(table, head, moves, room)
}

// Plays a sheet that is read into the table.
// (Beside `outcome_text`, since `outcome` and `play` are definitions of their own.)
fn play_text(
    sheet: &[u8],
    moves: &[u32],
    room: &mut [u32],
    table: &mut [u32; 8192],
) -> Result<PlayedOut, Stopped>
    ensures { PlayedKept (play least_workspace sheet.now moves.now (length room.old)) room.old (as_played result) room.new }
{
    let head = ready_text(sheet, table)?;
    play_sheet(table, head, moves, room)
}

// What play returns: a refusal gives no answers. (No From: neither type is of this crate.)
fn shown_played(answer: Result<PlayedOut, Stopped>) -> Played
    ensures { result ≡ as_played answer }
{
    match answer {
        Ok(played) => Played {
            verdict: Verdict::Done,
            place: 0,
            answers: played.answers,
            over: played.over,
        },
        Err(stopped) => Played {
            verdict: stopped.verdict,
            place: stopped.place,
            answers: 0,
            over: false,
        },
    }
}

// Play takes a sheet, a list of opponent cell numbers and room for answers.
pub fn play(sheet: &[u8], moves: &[u32], room: &mut [u32], workspace: &mut [u32]) -> Played
    ensures { PlayKept workspace.old sheet.now moves.now room.old result workspace.new room.new }
{
    let mut run = |table: &mut [u32; 8192]| play_text(sheet, moves, room, table);
    let answer = on_table(workspace, &mut run).unwrap_or(Err(Stopped::from(
        Verdict::SmallWorkspace,
    )));
    shown_played(answer)
}
