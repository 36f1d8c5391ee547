// live: the cells that all moves of a wait share, so whether it is elusive and which of its moves are live; and the table without the
// others. It sees rules, cells, nodes and fair.

#![tactic(auto)]

ghost use Rattle.std.specs.Prelude.{◌≡◌, ◌^◌, ◌<◌, ◌≤◌, length};
ghost use Rattle.rules.specs.Sizes.{least_workspace};
ghost use Rattle.rules.specs.Tree.{Sheet};
ghost use Rattle.rules.specs.Live.{idle_count};
ghost use Rattle.nodes.specs.Nodes.{a_wait, a_move};
ghost use Rattle.nodes.specs.Table.{WeighedOn, SomeNode};
ghost use Rattle.nodes.specs.Sheets.{HoldsSheet, HoldsLiving, SomeSheet};
ghost use Rattle.fair.specs.Faults.{SomeTreeNode};
ghost use Rattle.live.specs.Looking.{ToldAny, LeastAny, LookedAny, LookedAt, ElusiveFound};
ghost use Rattle.live.specs.Thinning.{MoveThinnedAny, WaitThinnedAny, SomeIdle, KeepsLive};

use cells::{Cells, Grid};
use fair::Fault;
use nodes::{cell_at, cells_at, end_at, is_move, set_node, under_at, weigh_move};

// The cells common to all moves so far of a wait.
#[derive(Clone, Copy)]
enum Common {
    // There was no move so far.
    NoMove,
    // These are in each.
    Left(Cells),
    // No cell is.
    Spent,
}

impl Common {
    // Takes in the move at node i, and tells whether it is live: it is if it is the first, or if some common cell isn't in it.
    fn and_this(&mut self, t: &[u32], grid: Grid, i: usize) -> bool
        requires stands { SomeNode (WeighedOn grid.board t.now) a_move i }
        requires below { 1 ≤ i }
        ensures { ToldAny grid.board t.now i self.old self.new result }
    {
        let own = cells_at(t, grid, i);
        let cells = match *self {
            Common::NoMove => {
                *self = Common::Left(own);
                return true;
            }
            Common::Left(cells) => cells,
            Common::Spent => return false,
        };
        if !cells.exceeds(grid, own) {
            return false;
        }
        let both = cells.meet(own);
        if both.exceeds(grid, Cells::empty()) {
            *self = Common::Left(both);
        } else {
            *self = Common::Spent;
        }
        true
    }

    // The smallest cell common to all moves so far, of which there are some; 0 where there is none, as `smallest` says.
    fn least(self, grid: Grid) -> usize
        ensures least { LeastAny grid.board self result }
        ensures low { result < 2 ^ 32 }
    {
        match self {
            Common::Left(cells) => cells.least(grid),
            _ => 0,
        }
    }
}

// How many moves of the wait at node i aren't live, or its fault. Where no cell is common any more, none that is left is live. (Those that
// are live are counted on the way, which also looks for the fault.)
fn look(t: &[u32], grid: Grid, i: usize) -> Result<usize, Fault>
    requires stands { SomeNode (WeighedOn grid.board t.now) a_wait i }
    ensures { LookedAny grid.board t.now i result }
{
    let under = under_at(t, i);
    let mut common = Common::NoMove;
    let mut next = i + 1;
    let mut live = 0;
    for _ in 0..under {
        if let Common::Spent = common {
            break;
        }
        if common.and_this(t, grid, next) {
            live += 1;
        }
        next = end_at(t, next);
    }
    match Fault::of(i, common.least(grid)) {
        Some(fault) => Err(fault),
        None => Ok(under - live),
    }
}

// The same of node i; a move has no fault, and no moves right under it.
fn look_at(t: &[u32], grid: Grid, i: usize) -> Result<usize, Fault>
    requires stands { SomeTreeNode grid.board t.now i }
    ensures { LookedAt grid.board t.now i result }
{
    if is_move(t, i) {
        return Ok(0);
    }
    look(t, grid, i)
}

// 11: how many moves aren't live, wherever they stand; or the first wait that is not elusive.
pub fn not_elusive(t: &[u32], grid: Grid) -> Result<usize, Fault>
    requires { SomeSheet t.now grid.board }
    ensures { (s : Sheet) → HoldsSheet t.now grid.board s → ElusiveFound s result }
{
    let end = end_at(t, 0);
    let mut idle = 0;
    for i in 0..end {
        idle += look_at(t, grid, i)?;
    }
    Ok(idle)
}

// Moves the move at node `from`, with all live moves under it, up to node `to`, and returns the node after it. (Moves and waits are two
// functions that call each other, as the definitions do.)
#[cycle(thin_move_thin_wait)]
fn thin_move(t: &mut [u32], grid: Grid, from: usize, to: usize) -> usize
    requires stands { SomeNode (WeighedOn grid.board t.old) a_move from }
    requires small { length t.old ≤ least_workspace }
    requires up { to ≤ from }
    ensures { MoveThinnedAny grid.board t.old from to result t.new }
{
    let under = under_at(t, from);
    let cell = cell_at(t, from);
    let mut next = from + 1;
    let mut out = to + 1;
    for _ in 0..under {
        let after = end_at(t, next);
        out = thin_wait(t, grid, next, out);
        next = after;
    }
    set_node(t, to, cell as u32, under as u32);
    out
}

// Moves the wait at node `from`, with the live moves under it and all live moves under these, up to node `to`, and returns the node after it.
#[cycle(thin_move_thin_wait)]
fn thin_wait(t: &mut [u32], grid: Grid, from: usize, to: usize) -> usize
    requires stands { SomeNode (WeighedOn grid.board t.old) a_wait from }
    requires small { length t.old ≤ least_workspace }
    requires up { to ≤ from }
    ensures { WaitThinnedAny grid.board t.old from to result t.new }
{
    let under = under_at(t, from);
    let mut common = Common::NoMove;
    let mut next = from + 1;
    let mut out = to + 1;
    // Counted by hand: a live move is also moved, and no `filter` could write the table.
    let mut kept: u32 = 0;
    for _ in 0..under {
        if let Common::Spent = common {
            break;
        }
        let after = end_at(t, next);
        if common.and_this(t, grid, next) {
            out = thin_move(t, grid, next, out);
            kept += 1;
        }
        next = after;
    }
    set_node(t, to, 0, kept);
    out
}

// Takes the moves that aren't live out of the sheet in the table, with all under them, and weighs it again.
fn thin(t: &mut [u32], grid: Grid)
    requires { SomeSheet t.old grid.board }
    ensures { (s : Sheet) → HoldsSheet t.old grid.board s → HoldsLiving t.new grid.board s }
{
    thin_move(t, grid, 0, 0);
    weigh_move(t, 0);
}

// Takes the moves that aren't live out of the sheet in the table, given how many they are, wherever they stand.
pub fn keep_live(t: &mut [u32], grid: Grid, idle: usize)
    requires { SomeIdle t.old grid.board idle }
    ensures { (s : Sheet) → HoldsSheet t.old grid.board s → idle ≡ idle_count s → KeepsLive t.new grid.board s idle }
{
    if idle != 0 {
        thin(t, grid);
    }
}
