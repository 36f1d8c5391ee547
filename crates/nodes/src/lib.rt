// nodes: the node table in a lent slice of 32-bit numbers. It holds the table's accessors and stores, and the functions for moves
// and for waits that call each other over it, to count outcomes and to collect cells; and the cells of a node's rows. It sees rules and
// cells. The workspace is lent as plain numbers, so a node is four of them side by side, and only the accessors know their places.
// The table is lent anew at each call, to half of the walks so that they write to it: it is handed on beside the grid, and in no struct,
// which would have to be there twice. What a walk asks (that a node's four numbers are there, that the table is no longer than a workspace,
// that a count is small) is asked of a node and this table, and is no fact of a type: a table may be shorter.
// A walk goes on to the node after all under a node, by a number of the table: a `while`, where it is not known how many there are.

#![tactic(auto)]

ghost use Rattle.std.specs.Prelude.{◌≡◌, ◌||◌, ℕ, ◌+◌, ◌*◌, ◌<◌, ◌≤◌, length};
ghost use Rattle.rules.specs.Board.{cells};
ghost use Rattle.rules.specs.Sizes.{least_workspace};
ghost use Rattle.rules.specs.Tree.{stone};
ghost use Rattle.rules.specs.Words.{among};
ghost use Rattle.cells.specs.Cells.{held};
ghost use Rattle.nodes.specs.Nodes.{Kind, a_wait, a_move, limited};
ghost use Rattle.nodes.specs.Table.{cell_in, under_in, end_in, count_in, is_move_at, with_node, with_weight, Row, RowOn, WeighedOn, SomeNode};
ghost use Rattle.nodes.specs.Weighing.{WeighsAny};
ghost use Rattle.nodes.specs.Collecting.{CollectsAny, CellsAny};

mod head;

use cells::{Cells, Grid};
pub use head::{Head, SetUp, Stones};

// A node's number of outcomes, at most 65,537, and the node after all under it.
#[derive(Clone, Copy)]
pub struct Weight {
    pub count: u64,
    pub next: usize,
}

// The cell of node i; 0 where it has none (a number of the table, and no Option).
pub fn cell_at(t: &[u32], i: usize) -> usize
    requires { 4 * i + 3 < length t.now }
    ensures { result ≡ cell_in t.now i }
{
    t[4 * i] as usize
}

// The number of nodes right under node i.
pub fn under_at(t: &[u32], i: usize) -> usize
    requires { 4 * i + 3 < length t.now }
    ensures { result ≡ under_in t.now i }
{
    t[4 * i + 1] as usize
}

// The node after all under node i.
pub fn end_at(t: &[u32], i: usize) -> usize
    requires { 4 * i + 3 < length t.now }
    ensures { result ≡ end_in t.now i }
{
    t[4 * i + 2] as usize
}

// The number of outcomes of node i, at most 65,537.
pub fn count_at(t: &[u32], i: usize) -> usize
    requires { 4 * i + 3 < length t.now }
    ensures { result ≡ count_in t.now i }
{
    t[4 * i + 3] as usize
}

// Whether node i is a move: the first node, and any other that has a cell.
pub fn is_move(t: &[u32], i: usize) -> bool
    requires { 4 * i + 3 < length t.now }
    ensures { result ≡ is_move_at t.now i }
{
    i == 0 || cell_at(t, i) != 0
}

// Stores the cell of node i and the number of nodes right under it.
pub fn set_node(t: &mut [u32], i: usize, cell: u32, under: u32)
    requires { 4 * i + 3 < length t.old }
    ensures { t.new ≡ with_node t.old i cell under }
{
    let at = 4 * i;
    t[at + 1] = under;
    t[at] = cell;
}

// Stores the node after all under node i, and its number of outcomes.
fn set_weight(t: &mut [u32], i: usize, end: usize, count: u64)
    requires { (4 * i + 3 < length t.old) × (end ≤ least_workspace) × (count ≤ 65537) }
    ensures { t.new ≡ with_weight t.old i end count }
{
    t[4 * i + 2] = end as u32;
    t[4 * i + 3] = count as u32;
}

// The sum of two counts, kept at the limit.
fn plus(a: u64, b: u64) -> u64
    requires { (a ≤ 65537) × (b ≤ 65537) }
    ensures { result ≡ limited (a + b) }
{
    (a + b).min(65537)
}

// The product of two counts, kept at the limit.
fn times(a: u64, b: u64) -> u64
    requires { (a ≤ 65537) × (b ≤ 65537) }
    ensures { result ≡ limited (a * b) }
{
    (a * b).min(65537)
}

// Weighs the move at node i and all under it: the end and the count of each are stored.
// Moves and waits are two functions that call each other, as the definitions of an outcome refer to each other.
#[cycle(weigh_move_weigh_wait)]
pub fn weigh_move(t: &mut [u32], i: usize) -> Weight
    requires stands { SomeNode (Row t.old) a_move i }
    requires small { length t.old ≤ least_workspace }
    ensures { WeighsAny a_move t.old i result.count result.next t.new }
{
    let under = under_at(t, i);
    let mut next = i + 1;
    let mut count: u64 = 1;
    for _ in 0..under {
        let w = weigh_wait(t, next);
        count = times(count, w.count);
        next = w.next;
    }
    set_weight(t, i, next, count);
    Weight { count, next }
}

// Weighs the wait at node i and all under it.
#[cycle(weigh_move_weigh_wait)]
fn weigh_wait(t: &mut [u32], i: usize) -> Weight
    requires stands { SomeNode (Row t.old) a_wait i }
    requires small { length t.old ≤ least_workspace }
    ensures { WeighsAny a_wait t.old i result.count result.next t.new }
{
    let under = under_at(t, i);
    let mut next = i + 1;
    let mut count: u64 = 0;
    for _ in 0..under {
        let m = weigh_move(t, next);
        count = plus(count, m.count);
        next = m.next;
    }
    set_weight(t, i, next, count);
    Weight { count, next }
}

// A set of cells, and the node after all under the node whose cells it has.
#[derive(Clone, Copy)]
pub struct Collected {
    pub cells: Cells,
    pub next: usize,
}

// The set with a move's stone; the cell 0 (a number of the table) puts none.
pub fn with_stone(mut set: Cells, grid: Grid, cell: usize) -> Cells
    requires { cell ≤ cells grid.board }
    ensures { (x : ℕ) → held grid.board result.rows x ≡ (held grid.board set.rows x || among (stone cell) x) }
{
    if cell != 0 {
        set.put(grid, cell);
    }
    set
}

// The cells of the move at node i, its own and those under it, added to a set.
// Moves and waits are two functions that call each other, as the definitions of an outcome refer to each other.
#[cycle(collect_move_collect_wait)]
fn collect_move(t: &[u32], grid: Grid, i: usize, set: Cells) -> Collected
    requires stands { SomeNode (RowOn grid.board t.now) a_move i }
    ensures { CollectsAny a_move grid.board t.now i set.rows result.cells.rows result.next }
{
    let under = under_at(t, i);
    let cell = cell_at(t, i);
    let cells = with_stone(set, grid, cell);
    let next = i + 1;
    let mut so_far = Collected { cells, next };
    for _ in 0..under {
        so_far = collect_wait(t, grid, so_far.next, so_far.cells);
    }
    so_far
}

// The cells of the wait at node i, those under it, added to a set.
#[cycle(collect_move_collect_wait)]
pub fn collect_wait(t: &[u32], grid: Grid, i: usize, set: Cells) -> Collected
    requires stands { SomeNode (RowOn grid.board t.now) a_wait i }
    ensures { CollectsAny a_wait grid.board t.now i set.rows result.cells.rows result.next }
{
    let under = under_at(t, i);
    let next = i + 1;
    let mut so_far = Collected { cells: set, next };
    for _ in 0..under {
        so_far = collect_move(t, grid, so_far.next, so_far.cells);
    }
    so_far
}

// The cells of node i, its own and those under it, which stand in its rows one after another.
pub fn cells_at(t: &[u32], grid: Grid, i: usize) -> Cells
    requires stands { (k : Kind) × SomeNode (WeighedOn grid.board t.now) k i }
    ensures { CellsAny grid.board t.now i result.rows }
{
    let end = end_at(t, i);
    Cells::of_rows(t, grid, i, end)
}
