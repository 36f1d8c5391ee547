// answering: a sheet that the node table holds is played against a list of opponent moves by the answering rule. While it is
// played, a node's count is 1 at an open wait and 0 at every other node. It sees rules, cells and nodes.
// A walk goes on by a number of the table, the end of a node: a `while`. What is asked of the
// table: see the head of nodes.

#![tactic(auto)]

ghost use Rattle.std.specs.Prelude.{◌≡◌, ℕ, ◌+◌, ◌*◌, ◌<◌, ◌≤◌, length};
ghost use Rattle.rules.specs.Sizes.{most_nodes};
ghost use Rattle.rules.specs.Tree.{Waits, Moves, Sheet};
ghost use Rattle.rules.specs.Choice.{PlaceIn, Choice};
ghost use Rattle.rules.specs.declared.Board as declared;
ghost use Rattle.rules.specs.Answer.{as_result};
ghost use Rattle.cells.specs.Cells.{held};
ghost use Rattle.nodes.specs.Nodes.{a_move, Nodes};
ghost use Rattle.nodes.specs.Table.{end_in, At, SomeNode};
ghost use Rattle.nodes.specs.Sheets.{HeldStones};
ghost use Rattle.answering.specs.Rows.{Within, Ended, with_mark, Cleared, marked, Started};
ghost use Rattle.answering.specs.Marks.{Opens, SomeOpen, FirstOpen};
ghost use Rattle.answering.specs.Choosing.{holds_at, touched_in, node_there, Dodge, SomeDodge, Asked, SomeAsked, Chosen, Answered};
ghost use Rattle.answering.specs.Playing.{Playable, SomePlayable, checked, PlaysMoves};

use cells::Grid;
use nodes::{Stones, cell_at, count_at, end_at, under_at, with_stone};
use rules::{Player, Verdict};

// The open wait that holds a cell, by its node. An enum of its own, and no Option: the answering rule is to be read here word for word, as a
// search that answers Found or Nothing, where let .. else turns Nothing into the free move.
#[derive(Clone, Copy)]
enum Found {
    At(usize),
    Nothing,
}

// The nodes of the answer: the wait that closes, and the move under it.
#[derive(Clone, Copy)]
struct Answer {
    wait: usize,
    node: usize,
}

// Moves that were all played: the number of answers, and whether play is over.
#[derive(Clone, Copy)]
pub struct PlayedOut {
    pub answers: usize,
    pub over: bool,
}

// A move that is refused: the verdict, and the move's place, from 1.
#[derive(Clone, Copy)]
pub struct Stopped {
    pub verdict: Verdict,
    pub place: usize,
}

// A refusal of all moves together: at place 0. (No Option: `as_played` hands it on, and `refused_play` names it.)
impl From<Verdict> for Stopped {
    ghost use Rattle.std.specs.Prelude.{◌≡◌};

    ghost from_gives = { λ v s. s ≡ record { verdict = v; place = 0 } };

    fn from(verdict: Verdict) -> Stopped {
        Stopped { verdict, place: 0 }
    }
}

// Stores the mark of node i.
fn set_mark(t: &mut [u32], i: usize, mark: u32)
    requires { 4 * i + 3 < length t.old }
    ensures { t.new ≡ with_mark t.old i mark }
{
    t[4 * i + 3] = mark;
}

// Clears the marks of all nodes.
fn clear_marks(t: &mut [u32])
    requires { Within t.old 0 }
    ensures { Cleared t.old (end_in t.old 0) t.new }
{
    let end = end_at(t, 0);
    for i in 0..end {
        set_mark(t, i, 0);
    }
}

// Opens the waits right under the move at node i.
fn open_under(t: &mut [u32], i: usize)
    requires { SomeNode (Ended t.old) a_move i }
    ensures { (c : ℕ) (u : Nodes) → At (Ended t.old) a_move i c u → t.new ≡ marked u (i + 1) t.old }
{
    let under = under_at(t, i);
    let mut next = i + 1;
    for _ in 0..under {
        set_mark(t, next, 1);
        next = end_at(t, next);
    }
}

// Whether the cells of node i and under it hold the cell.
fn holds(t: &[u32], i: usize, cell: usize) -> bool
    requires { Within t.now i }
    ensures { result ≡ holds_at t.now i cell }
{
    // A loop: `any` on the range is slower (651 million instructions and not 490, over 80,000 moves on a sheet of 2,041 nodes).
    let end = end_at(t, i);
    for node in i..end {
        if cell_at(t, node) == cell {
            return true;
        }
    }
    false
}

// The first open wait from a node on, if there is one.
fn first_open(t: &[u32], from: usize) -> Option<usize>
    requires { Within t.now 0 }
    ensures { FirstOpen t.now from result }
{
    (from..end_at(t, 0)).find(|&i| count_at(t, i) == 1)
}

// The open wait that holds the cell, if one does. (It asks for a cell of 1 or more, as do the next three: 0 stands in the table for none.)
fn touched(t: &[u32], cell: usize) -> Found
    requires { (1 ≤ cell) × SomeOpen t.now }
    ensures { (f : ℕ) (b : declared.Board) (ws : Waits) → Opens f b t.now ws → result ≡ touched_in f cell ws }
{
    let mut from = 1;
    while let Some(wait) = first_open(t, from) {
        if holds(t, wait, cell) {
            return Found::At(wait);
        }
        from = end_at(t, wait);
    }
    Found::Nothing
}

// The first of the moves from node i on whose cells do not hold the cell.
fn first_without(t: &[u32], i: usize, cell: usize) -> usize
    requires { (1 ≤ cell) × SomeDodge t.now i cell }
    ensures { (b : declared.Board) (ms : Moves) (p : PlaceIn ms) → Dodge b t.now i cell ms p → result ≡ node_there i ms p }
{
    let mut next = i;
    while holds(t, next, cell) {
        next = end_at(t, next);
    }
    next
}

// The nodes of the answer to a stone on the cell.
fn answer_at(t: &[u32], cell: usize) -> Answer
    requires { (1 ≤ cell) × SomeAsked t.now cell }
    ensures { (f : ℕ) (b : declared.Board) (ws : Waits) (k : Choice ws) → Asked f b t.now cell ws k → Chosen f ws k result.wait result.node }
{
    let Found::At(wait) = touched(t, cell) else {
        let first = first_open(t, 1).unwrap();
        return Answer {
            wait: first,
            node: first + 1,
        };
    };
    let first = wait + 1;
    let node = first_without(t, first, cell);
    Answer { wait, node }
}

// Answers a stone on the cell: the wait closes, and the waits under the answered move open.
fn answer_to(t: &mut [u32], cell: usize) -> usize
    requires { (1 ≤ cell) × SomeAsked t.old cell }
    ensures { (f : ℕ) (b : declared.Board) (ws : Waits) (k : Choice ws) → Asked f b t.old cell ws k → Answered f b t.old ws k result t.new }
{
    let answer = answer_at(t, cell);
    set_mark(t, answer.wait, 0);
    open_under(t, answer.node);
    cell_at(t, answer.node)
}

// Whether the opponent may move to the cell: not after the game is over, nor where there is no cell, nor onto a stone.
fn checked_move(grid: Grid, player: Player, stones: Stones, cell: usize) -> Result<(), Verdict>
    ensures { as_result (λ x. x) result ≡ checked grid.board player (held grid.board stones.own.rows) (held grid.board stones.opp.rows) cell }
{
    if stones.own.joins(grid, player) {
        return Err(Verdict::AfterOver);
    }
    if !grid.is_cell(cell) {
        return Err(Verdict::NoSuchCell);
    }
    if stones.has(grid, cell) {
        return Err(Verdict::CellTaken);
    }
    Ok(())
}

// Opens the waits of the root, and no others.
fn open_start(t: &mut [u32])
    requires { SomeNode (Ended t.old) a_move 0 }
    ensures { (c : ℕ) (u : Nodes) → At (Ended t.old) a_move 0 c u → Started t.old u t.new }
{
    clear_marks(t);
    open_under(t, 0);
}

// Plays the moves: the table holds an accepted sheet, and these are its set-up stones. The answers are written into the first places of the
// room, which has one for each wait.
// (Grid, player and stones, and no Head: it asks for no line of a first node. The answers go by index, since a proof knows no element that
// is written through `iter_mut`.)
pub fn play_moves(
    t: &mut [u32],
    grid: Grid,
    player: Player,
    set_up: Stones,
    moves: &[u32],
    room: &mut [u32],
) -> Result<PlayedOut, Stopped>
    requires holds { SomePlayable t.old grid.board player set_up.own set_up.opp }
    requires enough { most_nodes ≤ length room.old }
    ensures { (s : Sheet) → Playable t.old grid.board player s → HeldStones grid.board s.set_up set_up.own set_up.opp → PlaysMoves s t.old moves.now room.old result t.new room.new }
{
    open_start(t);
    let root = cell_at(t, 0);
    let mut stones = Stones {
        own: with_stone(set_up.own, grid, root),
        opp: set_up.opp,
    };
    for (i, &moved) in moves.iter().enumerate() {
        let cell = moved as usize;
        checked_move(grid, player, stones, cell).map_err(|verdict| Stopped {
            verdict,
            place: i + 1,
        })?;
        let answer = answer_to(t, cell);
        stones.own = stones.own.with(grid, answer);
        stones.opp = stones.opp.with(grid, cell);
        room[i] = answer as u32;
    }
    Ok(PlayedOut {
        answers: moves.len(),
        over: stones.own.joins(grid, player),
    })
}
