// reading: from the body of a sheet, the text after its header, to the node table. It holds the number of the cell that a line
// names, the reading of set-up lines into two sets of stones, of node lines, and of nodes with all under them. It sees rules, cells,
// nodes and lines.

#![tactic(auto)]

ghost use Rattle.std.specs.Prelude.{◌≡◌, List, [], ◌∷◌, ◌++◌, ◌+◌, ◌≤◌, T, length};
ghost use Rattle.rules.specs.Board.{is_cell};
ghost use Rattle.rules.specs.Lines.{kind_under};
ghost use Rattle.rules.specs.Sizes.{most_bytes};
ghost use Rattle.rules.specs.Tree.{Stone};
ghost use Rattle.lines.specs.Seen.{name_of, side_of};
ghost use Rattle.nodes.specs.Sheets.{HeldStones};
ghost use Rattle.reading.specs.Numbered.{numbered};
ghost use Rattle.reading.specs.Spots.{spot_of};
ghost use Rattle.reading.specs.SetUp.{StepKept, SetUpReply};
ghost use Rattle.reading.specs.Storing.{store_all, store_node};
ghost use Rattle.reading.specs.Kept.{SaidKept, ReadKept, TreeKept, BodyKept};

use cells::Grid;
use lines::{Place, Side, node_line, set_up_line};
use nodes::{SetUp, Stones, set_node};
use rules::{LineKind, Verdict};

mod spot;

use spot::Spot;

// The most nodes of a sheet.
const MOST_NODES: usize = 2048;
// The most levels of a sheet.
const MOST_DEPTH: usize = 128;

// The number of the cell at a place, if the board has it. (Four comparisons: `contains` on two ranges says no more and takes a longer proof.)
fn number_at(grid: Grid, place: Place) -> Option<u32>
    ensures { result ≡ numbered grid.board (name_of (Some place)) }
{
    let column = place.column as usize;
    let row = place.row as usize;
    let columns = grid.board.columns;
    if column < 1 || columns < column {
        return None;
    }
    if row < 1 || grid.board.rows < row {
        return None;
    }
    Some(((row - 1) * columns + column) as u32)
}

// The number of the cell that a line names, if the board has it; 0, as `cell_of` says, where the line names none.
fn number_on(grid: Grid, name: Option<Place>) -> Option<u32>
    ensures { result ≡ numbered grid.board (name_of name) }
{
    match name {
        None => Some(0),
        Some(place) => number_at(grid, place),
    }
}

// One stone more.
fn put_stone(stones: &mut Stones, grid: Grid, side: Side, cell: usize)
    requires { T (is_cell grid.board cell) }
    ensures { (cs : List Stone) → HeldStones grid.board cs stones.old.own stones.old.opp → HeldStones grid.board (cs ++ record { side = side_of side; cell = cell } ∷ []) stones.new.own stones.new.opp }
{
    match side {
        Side::Own => stones.own.put(grid, cell),
        Side::Opp => stones.opp.put(grid, cell),
    }
}

// The set-up line at a spot, if one stands there: the spot after it; and its stone is put to the stones. In this order: 5, 19. A malformed
// one is none, so that it is refused with 4 in the first node's place. (The stones are lent: handed on by value they were copied at each line.)
fn stone_here<'a>(
    grid: Grid,
    stones: &mut Stones,
    spot: Spot<'a>,
) -> Result<Option<Spot<'a>>, Verdict>
    ensures { (cs : List Stone) → HeldStones grid.board cs stones.old.own stones.old.opp → spot.entry.line ≡ length cs + 2 → StepKept grid.board spot.entry cs stones.old result stones.new }
{
    let line = spot.line as u32;
    let Some((said, text)) = set_up_line(spot.text) else {
        return Ok(None);
    };
    let cell = number_at(grid, said.place).ok_or(Verdict::OffBoard { line })?;
    if stones.has(grid, cell as usize) {
        return Err(Verdict::SetUpTwice { line, cell });
    }
    put_stone(stones, grid, said.side, cell as usize);
    Ok(Some(Spot {
        text,
        line: spot.line + 1,
        nodes: spot.nodes,
    }))
}

// The spot at a body's front, which is the second line of its sheet. (A function of its own, since a function with a loop
// loses the ghost fields of a spot that it builds.)
fn front_of(body: &[u8]) -> Spot<'_>
    requires { length body.now ≤ most_bytes }
    ensures { spot_of result ≡ record { text = body.now; line = 2; nodes = 0 } }
{
    Spot {
        text: body,
        line: 2,
        nodes: 0,
    }
}

// All set-up lines of a body: the spot after them, and their stones. (How many there are is known at their end alone.)
fn read_set_up<'a>(grid: Grid, body: &'a [u8]) -> Result<(Spot<'a>, Stones), Verdict>
    requires { length body.now ≤ most_bytes }
    ensures { SetUpReply grid.board body.now result }
{
    let mut stones = Stones::empty();
    let mut here = front_of(body);
    while let Some(after) = stone_here(grid, &mut stones, here)? {
        here = after;
    }
    Ok((here, stones))
}

// What a node's line says: its cell's number, the number of nodes under it, and the text after the line.
#[derive(Clone, Copy)]
struct Said<'a> {
    cell: u32,
    under: u32,
    text: &'a [u8],
}

// The line of the next node. In this order: 8, 6, 4, 7, 5.
// (Grid, kind, levels and spot are in no struct: three of them change at each step down.)
fn line_here<'a>(
    grid: Grid,
    kind: LineKind,
    levels: usize,
    spot: Spot<'a>,
) -> Result<Said<'a>, Verdict>
    ensures { SaidKept grid.board kind levels spot.entry result }
{
    let line = spot.line as u32;
    if spot.text.is_empty() {
        return Err(Verdict::Unfinished { line });
    }
    if spot.nodes == MOST_NODES {
        return Err(Verdict::TooManyNodes { line });
    }
    let (said, text) = node_line(spot.text, kind).ok_or(Verdict::BadLine { line })?;
    if levels == 0 {
        return Err(Verdict::TooDeep { line });
    }
    let cell = number_on(grid, said.place).ok_or(Verdict::OffBoard { line })?;
    Ok(Said {
        cell,
        under: said.under,
        text,
    })
}

// Under a move stand waits, under a wait moves. (A walk down the tree is told which it meets: the levels alternate.)
fn kind_below(kind: LineKind) -> LineKind
    ensures { result ≡ kind_under kind }
{
    match kind {
        LineKind::First | LineKind::Move => LineKind::Wait,
        LineKind::Wait => LineKind::Move,
    }
}

// A node of the kind with all under it, stored in the table, where so many levels are left, its own among them; and the spot after it.
#[cycle(read_all_read_node)]
fn read_node<'a>(
    table: &mut [u32; 8192],
    grid: Grid,
    kind: LineKind,
    levels: usize,
    spot: Spot<'a>,
) -> Result<Spot<'a>, Verdict>
    ensures { ReadKept (store_node levels kind grid.board (spot_of spot.entry) table.old) result table.new }
{
    let said = line_here(grid, kind, levels, spot)?;
    set_node(table, spot.nodes, said.cell, said.under);
    let after = Spot {
        text: said.text,
        line: spot.line + 1,
        nodes: spot.nodes + 1,
    };
    read_all(table, grid, kind_below(kind), levels - 1, said.under, after)
}

// So many nodes of the kind one after another, each with all under it.
#[cycle(read_all_read_node)]
fn read_all<'a>(
    table: &mut [u32; 8192],
    grid: Grid,
    kind: LineKind,
    levels: usize,
    many: u32,
    spot: Spot<'a>,
) -> Result<Spot<'a>, Verdict>
    ensures { ReadKept (store_all many (store_node levels kind grid.board) (spot_of spot.entry) table.old) result table.new }
{
    let mut here = spot;
    for _ in 0..many {
        here = read_node(table, grid, kind, levels, here)?;
    }
    Ok(here)
}

// From a spot on: one tree and no text after it.
fn read_tree(table: &mut [u32; 8192], grid: Grid, start: Spot<'_>) -> Result<(), Verdict>
    requires { start.nodes ≡ 0 }
    ensures { TreeKept grid.board start.entry table.old result table.new }
{
    let after = read_node(table, grid, LineKind::First, MOST_DEPTH, start)?;
    if !after.text.is_empty() {
        let line = after.line as u32;
        return Err(Verdict::TextAfter { line });
    }
    Ok(())
}

// The body after the header line, read as a text that begins where the header ended: set-up lines, one tree and no text after it.
// (How long it may be is asked of each body: it is the caller's text, and no type holds that.)
pub fn read_body(body: &[u8], table: &mut [u32; 8192], grid: Grid) -> Result<SetUp, Verdict>
    requires { length body.now ≤ most_bytes }
    ensures { BodyKept grid.board body.now table.old result table.new }
{
    let (start, stones) = read_set_up(grid, body)?;
    read_tree(table, grid, start)?;
    Ok(SetUp {
        stones,
        first: start.line as u32,
    })
}
