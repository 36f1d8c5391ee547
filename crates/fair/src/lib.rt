// fair: free, apart and no branch twice, decided over the node table. It holds the three searches for the first faulty node, each
// with that node's smallest faulty cell where the fault is a cell's. (Elusive is in live.) It sees rules, cells and nodes.
// A walk over the moves of a wait goes on by a number of the table: a `while`. What is asked of the table: see
// the head of nodes.

#![tactic(auto)]

ghost use Rattle.std.specs.Prelude.{◌≡◌, ◌+◌, ◌*◌, ◌^◌, ◌<◌, ◌≤◌, length};
ghost use Rattle.rules.specs.Words.{any, same, twice};
ghost use Rattle.rules.specs.Fair.{not_apart, branches, first_on_set_up, first_not_apart, first_twice};
ghost use Rattle.rules.specs.Tree.{Wait, Sheet, set_up_cells};
ghost use Rattle.rules.specs.declared.Board as declared;
ghost use Rattle.cells.specs.Cells.{held, Holds};
ghost use Rattle.nodes.specs.Nodes.{a_move};
ghost use Rattle.nodes.specs.Table.{RowOn, SomeNode};
ghost use Rattle.nodes.specs.Order.{TreeNode};
ghost use Rattle.nodes.specs.Sheets.{HoldsSheet, SomeSheet};
ghost use Rattle.fair.specs.Faults.{FaultFound, bare, IsFault, FaultAt, not_free, at_moves, NodeAt, SomeTreeNode, FoundAtMove, OneMoreSet};
ghost use Rattle.fair.specs.Twice.{same_row, rows_in, branch_in, Spans, ForkAt, SomeFork, MovesFrom, twice_by};

use cells::{Cells, Grid};
use nodes::{cell_at, collect_wait, end_at, is_move, under_at, with_stone};

// A faulty node, and its smallest faulty cell.
#[derive(Clone, Copy)]
pub struct Fault {
    pub node: usize,
    pub cell: u32,
}

impl Fault {
    // The fault of a node, by its smallest faulty cell; none where that is 0, as `smallest` says.
    pub fn of(node: usize, cell: usize) -> Option<Fault>
        requires { cell < 2 ^ 32 }
        ensures { IsFault node cell result }
    {
        (cell != 0).then_some(Fault {
            node,
            cell: cell as u32,
        })
    }
}

// The cells found once or more, and those found twice or more.
#[derive(Clone, Copy)]
struct Seen {
    once: Cells,
    twice: Cells,
}

impl Seen {
    // One more set in the tally.
    fn add(self, more: Cells) -> Seen
        ensures { OneMoreSet self.once.rows self.twice.rows more.rows result.once.rows result.twice.rows }
    {
        let once = self.once;
        let twice = self.twice;
        let both = once.meet(more);
        Seen {
            once: once.union(more),
            twice: twice.union(both),
        }
    }
}

// The faulty cells of the move at node i: its own where it is found under it, and those found in two or more of its waits.
fn not_apart_at(table: &[u32], grid: Grid, i: usize) -> Cells
    requires stands { SomeNode (RowOn grid.board table.now) a_move i }
    ensures { FoundAtMove not_apart grid.board table.now i result.rows }
{
    let under = under_at(table, i);
    let cell = cell_at(table, i);
    let own = with_stone(Cells::empty(), grid, cell);
    let mut seen = Seen {
        once: own,
        twice: Cells::empty(),
    };
    let mut next = i + 1;
    for _ in 0..under {
        let w = collect_wait(table, grid, next, Cells::empty());
        seen = seen.add(w.cells);
        next = w.next;
    }
    seen.twice
}

// The fault of node i by 10. (A wait has none, nor has a move with nothing under it.)
fn fault_at(table: &[u32], grid: Grid, i: usize) -> Option<Fault>
    requires stands { SomeTreeNode grid.board table.now i }
    ensures { FaultAt (at_moves not_apart) grid.board table.now i result }
{
    if !is_move(table, i) || under_at(table, i) == 0 {
        return None;
    }
    let found = not_apart_at(table, grid, i);
    Fault::of(i, found.least(grid))
}

// The fault of node i by 20, given the cells of the set-up stones. (A wait has no cell.)
fn stone_at(table: &[u32], grid: Grid, stones: Cells, i: usize) -> Option<Fault>
    requires stands { SomeTreeNode grid.board table.now i }
    ensures { FaultAt (at_moves (not_free (held grid.board stones.rows))) grid.board table.now i result }
{
    let cell = cell_at(table, i);
    if !stones.has(grid, cell) {
        return None;
    }
    Fault::of(i, cell)
}

// 20: the first move on a set-up stone, given the cells of the stones.
pub fn on_set_up(table: &[u32], grid: Grid, stones: Cells) -> Option<Fault>
    requires { SomeSheet table.now grid.board }
    ensures { (s : Sheet) → HoldsSheet table.now grid.board s → Holds grid.board stones.rows (set_up_cells s.set_up) → FaultFound s (first_on_set_up s) result }
{
    (0..end_at(table, 0)).find_map(|i| stone_at(table, grid, stones, i))
}

// 10: the first move that is not apart.
pub fn not_apart(table: &[u32], grid: Grid) -> Option<Fault>
    requires { SomeSheet table.now grid.board }
    ensures { (s : Sheet) → HoldsSheet table.now grid.board s → FaultFound s (first_not_apart s) result }
{
    (0..end_at(table, 0)).find_map(|i| fault_at(table, grid, i))
}

// Whether nodes i and j have the same cell, and as many nodes right under them. (Their two other numbers, of what is under them, may differ.)
fn same_row(table: &[u32], i: usize, j: usize) -> bool
    requires { (4 * i + 3 < length table.now) × (4 * j + 3 < length table.now) }
    ensures { result ≡ same_row table.now i j }
{
    cell_at(table, i) == cell_at(table, j) && under_at(table, i) == under_at(table, j)
}

// Whether the n rows from node i on are those from node j on.
// (Row by row, and no `==`: only the numbers that `same_row` looks at.)
fn same_rows(table: &[u32], i: usize, j: usize, n: usize) -> bool
    requires { (4 * (i + n) ≤ length table.now) × (4 * (j + n) ≤ length table.now) }
    ensures { result ≡ same (rows_in table.now i n) (rows_in table.now j n) }
{
    // (A loop: `(0..n).all(..)` takes longer here, measured.)
    for k in 0..n {
        if !same_row(table, i + k, j + k) {
            return false;
        }
    }
    true
}

// Whether the moves at nodes i and j have the same branch: as many rows, and the same ones.
fn same_branch(table: &[u32], i: usize, j: usize) -> bool
    requires { Spans table.now i × Spans table.now j }
    ensures { result ≡ same (branch_in table.now i) (branch_in table.now j) }
{
    let rows = end_at(table, i) - i;
    end_at(table, j) - j == rows && same_rows(table, i, j, rows)
}

// Whether one of the moves from node `from` up to node `end` has the branch of the move at node i.
fn again_from(table: &[u32], i: usize, from: usize, end: usize) -> bool
    requires { Spans table.now i × MovesFrom table.now from end }
    ensures { (ms : MovesFrom table.now from end) → result ≡ any (same (branch_in table.now i)) (branches ms.moves) }
{
    let mut j = from;
    while j < end {
        if same_branch(table, i, j) {
            return true;
        }
        j = end_at(table, j);
    }
    false
}

// Whether the wait at node i has a branch twice.
fn twice_at(table: &[u32], i: usize) -> bool
    requires { SomeFork table.now i }
    ensures { (w : Wait) → ForkAt table.now i w → result ≡ twice (branches w.moves) }
{
    let end = end_at(table, i);
    let mut j = i + 1;
    while j < end {
        let next = end_at(table, j);
        if again_from(table, j, next, end) {
            return true;
        }
        j = next;
    }
    false
}

// Whether node i is a wait that has a branch twice.
fn has_twice(table: &[u32], i: usize) -> bool
    requires { (b : declared.Board) × SomeTreeNode b table.now i }
    ensures { (b : declared.Board) (n : TreeNode) → NodeAt b table.now i n → result ≡ twice_by n }
{
    !is_move(table, i) && twice_at(table, i)
}

// 24: the first wait that has a branch twice. (It has no faulty cell.)
pub fn branch_twice(table: &[u32]) -> Option<usize>
    requires { (b : declared.Board) × SomeSheet table.now b }
    ensures { (b : declared.Board) (s : Sheet) → HoldsSheet table.now b s → FaultFound s (first_twice s) (bare result) }
{
    (0..end_at(table, 0)).find(|i| has_twice(table, *i))
}
