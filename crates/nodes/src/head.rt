// What stands before a sheet's tree.
ghost use Rattle.std.specs.Prelude.{◌≡◌, ◌||◌, []};
ghost use Rattle.rules.specs.declared.Board as declared;
ghost use Rattle.cells.specs.Cells.{held};
ghost use Rattle.nodes.specs.Sheets.{HeldStones};

use cells::{Cells, Grid};
use rules::Player;

// Stones of both sides: the player's own, and the opponent's.
#[derive(Clone, Copy)]
pub struct Stones {
    pub own: Cells,
    pub opp: Cells,
}

impl Stones {
    // No stones.
    pub fn empty() -> Self
        ensures { (b : declared.Board) → HeldStones b [] result.own result.opp }
    {
        Stones {
            own: Cells::empty(),
            opp: Cells::empty(),
        }
    }

    // Whether a stone of either side is on the cell.
    pub fn has(self, grid: Grid, cell: usize) -> bool
        ensures { result ≡ (held grid.board self.own.rows cell || held grid.board self.opp.rows cell) }
    {
        self.own.has(grid, cell) || self.opp.has(grid, cell)
    }
}

// What is set up before the tree: the stones, and the line of the first node.
#[derive(Clone, Copy)]
pub struct SetUp {
    pub stones: Stones,
    pub first: u32,
}

// A sheet without its tree: its board, its player, and what is set up.
#[derive(Clone, Copy)]
pub struct Head {
    pub grid: Grid,
    pub player: Player,
    pub set_up: SetUp,
}
