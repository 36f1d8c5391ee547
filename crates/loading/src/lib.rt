// loading: a sheet's text is read into the lent table and two sets of stones, and the table is cleared. It sees rules, cells, nodes, lines and reading.

#![tactic(auto)]

ghost use Rattle.std.specs.Prelude.{◌≡◌, replicate};
ghost use Rattle.rules.specs.Sizes.{least_workspace};
ghost use Rattle.loading.specs.Held.{SheetKept};

use cells::Grid;
use lines::header_line;
use nodes::{Head, weigh_move};
use reading::read_body;
use rules::Verdict;

// A text has no more bytes.
const MOST_BYTES: usize = 32768;

// Sets every number of the table to 0. (A name for `fill`, with the contract that the entries need.)
pub fn clear(table: &mut [u32; 8192])
    ensures { table.new ≡ replicate least_workspace 0 }
{
    table.fill(0);
}

// Reads a sheet into the table: 2 to 9, and 19.
pub fn read_sheet(sheet: &[u8], table: &mut [u32; 8192]) -> Result<Head, Verdict>
    ensures { SheetKept sheet.now table.old result table.new }
{
    if MOST_BYTES < sheet.len() {
        return Err(Verdict::LongText);
    }
    let Some((header, body)) = header_line(sheet) else {
        return Err(Verdict::BadHeader);
    };
    let grid = Grid {
        board: header.board,
    };
    let set_up = read_body(body, table, grid)?;
    weigh_move(table, 0);
    Ok(Head {
        grid,
        player: header.player,
        set_up,
    })
}
