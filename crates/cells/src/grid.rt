// The boards on which a set of cells is at home.
ghost use Rattle.std.specs.Prelude.{◌≡◌};
ghost use Rattle.rules.specs.Board.{is_cell};
ghost use Rattle.cells.specs.Cells.{Fits};

use rules::Board;

// A board of 1 to 19 columns and 1 to 19 rows: its cells have their place in the words of a set.
#[derive(Clone, Copy)]
pub struct Grid {
    pub board: Board,
    pub ghost fits: { Fits board },
}

impl Grid {
    // Whether the number is that of a cell of the board.
    pub fn is_cell(self, cell: usize) -> bool
        ensures { result ≡ is_cell self.board cell }
    {
        1 <= cell && cell <= self.board.columns * self.board.rows
    }
}
