// cells: a set of board cells by value, its operations, and the test whether it joins a player's sides. A word stands for
// each row, bit c of word r for the cell at column c, row r, both from 1; the words have an empty border on every side of a
// board of up to 19 by 19. It sees rules.

#![tactic(auto)]

ghost use Rattle.std.specs.Prelude.{◌≡◌, false, ◌&&◌, ◌||◌, List, ℕ, ◌+◌, ◌-◌, ◌^◌, ◌≤◌, T, eqb, length, replicate, bit_and};
ghost use Rattle.rules.specs.Board.{is_cell, on_first_side, on_last_side, listed, smallest};
ghost use Rattle.rules.specs.Joining.{joined};
ghost use Rattle.rules.specs.declared.Board as declared;
ghost use Rattle.cells.specs.Cells.{held, some_beyond, Listed, RowsHold, HeldInRows};
ghost use Rattle.cells.specs.Rows.{RowByRow, PlaceOf, Block, Clipped, Side};
ghost use Rattle.cells.specs.Growing.{grown_row, Framed, Closure};

mod grid;

pub use grid::Grid;
use rules::{Board, Player};
use std::array;

// A set of cells.
#[derive(Clone, Copy)]
pub struct Cells {
    rows: [u32; 21],
}

// The column and the row of a cell, both from 1.
#[derive(Clone, Copy)]
struct Place {
    column: usize,
    row: usize,
}

// The place of a cell of the board.
fn placed(grid: Grid, cell: usize) -> Place
    requires { T (is_cell grid.board cell) }
    ensures { PlaceOf grid.board cell result.column result.row }
{
    let at = cell - 1;
    let columns = grid.board.columns;
    Place {
        column: at % columns + 1,
        row: at / columns + 1,
    }
}

// The words that two sets have in common, row by row.
fn common(a: Cells, b: Cells) -> Cells
    ensures { RowByRow bit_and a.rows b.rows result.rows }
{
    Cells {
        rows: array::from_fn(|row| a.rows[row] & b.rows[row]),
    }
}

// The word with the bits of the columns from left to right.
fn word_of(left: usize, right: usize) -> u32
    requires { (left ≤ right) × (right ≤ 19) }
    ensures { result ≡ 2 ^ (right + 1) - 2 ^ left }
{
    (1 << (right + 1)) - (1 << left)
}

// The places from column left to column right, in the rows from top to bottom.
fn block(left: usize, right: usize, top: usize, bottom: usize) -> Cells
    requires { (left ≤ right) × (right ≤ 19) × (top ≤ bottom) × (bottom ≤ 19) }
    ensures { Block left right top bottom result.rows }
{
    let mut out = Cells::empty();
    out.rows[top..=bottom].fill(word_of(left, right));
    out
}

// The cells of a set that are on the board.
fn clipped(set: Cells, grid: Grid) -> Cells
    ensures { Clipped grid.board set.rows result.rows }
{
    common(set, block(1, grid.board.columns, 1, grid.board.rows))
}

// A row with those of the row's cells that touch it, or the rows above and below.
fn grow_row(cells: u32, up: u32, here: u32, down: u32) -> u32
    ensures { result ≡ grown_row cells up here down }
{
    here | (cells & (((here << 1) | (here >> 1)) | ((up | (up >> 1)) | (down | (down << 1)))))
}

// All that a set grows to inside the cells, which stand in the first rows. The rows are settled from the top, each until it takes no more in;
// where the row above takes in a cell that touches them, that one is settled again first. So the row goes up and down, and no `for` counts it.
fn closure(cells: Cells, a: Cells, rows: usize) -> Cells
    requires { (rows ≤ 19) × Framed rows cells.rows }
    ensures { Closure cells.rows a.rows result.rows }
{
    let mut words = a.rows;
    let mut row: usize = 1;
    while row <= rows {
        let word = grow_row(cells.rows[row], words[row - 1], words[row], words[row + 1]);
        if word == words[row] {
            row += 1;
        } else {
            let above = words[row - 1];
            words[row] = word;
            if grow_row(cells.rows[row - 1], 0, above, word) != above {
                row -= 1;
            }
        }
    }
    Cells { rows: words }
}

// The two sides that a player joins.
#[derive(Clone, Copy)]
struct Sides {
    first: Cells,
    last: Cells,
}

// The cells of the player's first side, and of the last.
fn sides_of(grid: Grid, player: Player) -> Sides
    ensures first { Side grid.board (on_first_side grid.board player) result.first.rows }
    ensures last { Side grid.board (on_last_side grid.board player) result.last.rows }
{
    let Board { columns, rows } = grid.board;
    match player {
        Player::D => Sides {
            first: block(1, columns, 1, 1),
            last: block(1, columns, rows, rows),
        },
        Player::A => Sides {
            first: block(1, 1, 1, rows),
            last: block(columns, columns, 1, rows),
        },
    }
}

// The smallest cell of a set, given those of its places that are on the board; 0 where there is none. (No Option: `smallest`, of which
// theorems speak, says 0.)
fn lowest(inside: Cells, grid: Grid) -> usize
    ensures { (s : List ℕ) → Clipped grid.board s inside.rows → result ≡ smallest grid.board (held grid.board s) }
{
    match (1..grid.board.rows + 1).find(|&row| inside.rows[row] != 0) {
        Some(row) => (row - 1) * grid.board.columns + inside.rows[row].trailing_zeros() as usize,
        None => 0,
    }
}

impl Cells {
    // The set with no cell.
    pub fn empty() -> Self
        ensures { (result.rows ≡ replicate 21 0) × ((b : declared.Board) (x : ℕ) → held b result.rows x ≡ false) }
    {
        Cells { rows: [0u32; 21] }
    }

    // Whether the cell is in the set; no number off the board is.
    pub fn has(self, grid: Grid, cell: usize) -> bool
        ensures { result ≡ held grid.board self.rows cell }
    {
        if !grid.is_cell(cell) {
            return false;
        }
        let at = placed(grid, cell);
        (self.rows[at.row] >> at.column) % 2 == 1
    }

    // The set with one cell of the board more.
    pub fn with(mut self, grid: Grid, cell: usize) -> Self
        requires { T (is_cell grid.board cell) }
        ensures { (y : ℕ) → held grid.board result.rows y ≡ (eqb y cell || held grid.board self.rows y) }
    {
        self.put(grid, cell);
        self
    }

    // Puts one cell of the board into the set.
    pub fn put(&mut self, grid: Grid, cell: usize)
        requires { T (is_cell grid.board cell) }
        ensures { (y : ℕ) → held grid.board self.new.rows y ≡ (eqb y cell || held grid.board self.old.rows y) }
    {
        let at = placed(grid, cell);
        self.rows[at.row] |= 1 << at.column;
    }

    // The cells that stand in the rows of a table, four numbers a row and the cell first, from one row up to another; 0 is no cell.
    pub fn of_rows(t: &[u32], grid: Grid, from: usize, end: usize) -> Self
        requires rows { RowsHold grid.board t.now from end }
        requires up { from ≤ end }
        ensures { HeldInRows grid.board t.now from end result.rows }
    {
        let mut out = Cells::empty();
        for row in from..end {
            let cell = t[4 * row] as usize;
            if cell != 0 {
                out.put(grid, cell);
            }
        }
        out
    }

    // The cells of one set or the other.
    pub fn union(self, other: Cells) -> Self
        ensures { (b : declared.Board) (x : ℕ) → held b result.rows x ≡ (held b self.rows x || held b other.rows x) }
    {
        Cells {
            rows: array::from_fn(|row| self.rows[row] | other.rows[row]),
        }
    }

    // The cells of one set and the other.
    pub fn meet(self, other: Cells) -> Self
        ensures { (b : declared.Board) (x : ℕ) → held b result.rows x ≡ (held b self.rows x && held b other.rows x) }
    {
        common(self, other)
    }

    // Whether some cell of the board is in the set and not in the other.
    pub fn exceeds(self, grid: Grid, other: Cells) -> bool
        ensures { result ≡ some_beyond grid.board self.rows other.rows }
    {
        let word = word_of(1, grid.board.columns);
        (1..grid.board.rows + 1).any(|row| self.rows[row] & word & !other.rows[row] != 0)
    }

    // The smallest cell of the board in the set; 0 where there is none, as `smallest` says.
    pub fn least(self, grid: Grid) -> usize
        ensures { result ≡ smallest grid.board (held grid.board self.rows) }
    {
        lowest(clipped(self, grid), grid)
    }

    // Whether a chain of neighbours inside the set runs from one of the player's sides to the other.
    pub fn joins(self, grid: Grid, player: Player) -> bool
        ensures { result ≡ joined grid.board player (held grid.board self.rows) }
    {
        let cells = clipped(self, grid);
        let Sides { first, last } = sides_of(grid, player);
        let all = closure(cells, common(cells, first), grid.board.rows);
        lowest(common(all, last), grid) != 0
    }

    // How many cells of the board are in the set. A loop: `filter(..).count()` over the cells was measured to take a third longer.
    pub fn count(self, grid: Grid) -> usize
        ensures { result ≡ length (listed grid.board (held grid.board self.rows)) }
    {
        let mut many: usize = 0;
        for cell in 1..grid.board.columns * grid.board.rows + 1 {
            if self.has(grid, cell) {
                many += 1;
            }
        }
        many
    }

    // Writes the cells of the set in ascending order into the first places of the room, and returns their number. The place is counted
    // by hand, since it goes on only at a cell of the set, and a proof knows no element that is written through `iter_mut`.
    pub fn list(self, grid: Grid, room: &mut [u32]) -> usize
        requires { (length (listed grid.board (held grid.board self.rows)) ≤ length room.old) }
        ensures { Listed (listed grid.board (held grid.board self.rows)) room.old room.new result }
    {
        let mut n: usize = 0;
        for cell in 1..grid.board.columns * grid.board.rows + 1 {
            if self.has(grid, cell) {
                room[n] = cell as u32;
                n += 1;
            }
        }
        n
    }
}
