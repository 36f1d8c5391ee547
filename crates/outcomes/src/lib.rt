// outcomes: the outcome with a number, by the ends and the counts in the node table; the first outcome that does not join, and how many
// were passed over. It sees rules, cells and nodes.
// A walk goes on by a number of the table, the end of a node: a `while`. What is asked of the table:
// see the head of nodes.

#![tactic(auto)]

ghost use Rattle.outcomes.specs.Picking.{SomeMovePick, SomeWaitPick, MovePicked, WaitPicked};
ghost use Rattle.outcomes.specs.Searching.{Ahead, SomeAhead, WaitNext, SomeGoing, SearchFound, SomeCountable, UnjoinedFound};
ghost use Rattle.rules.specs.Tree.{Waits};
ghost use Rattle.rules.specs.declared.Board as declared;

use cells::{Cells, Grid};
use nodes::{cell_at, count_at, end_at, under_at, with_stone};
use rules::{Player, Verdict};

// The cells of the outcome with the number of the move at node i, added to a set: the last wait varies fastest.
#[cycle(pick_move_pick_wait)]
pub fn pick_move(t: &[u32], grid: Grid, i: usize, number: usize, set: Cells) -> Cells
    requires stands { SomeMovePick grid.board t.now i number }
    ensures { MovePicked grid.board t.now i number set.rows result.rows }
{
    let under = under_at(t, i);
    let cell = cell_at(t, i);
    let mut cells = with_stone(set, grid, cell);
    let mut left = count_at(t, i);
    let mut k = number;
    let mut next = i + 1;
    for _ in 0..under {
        let own = count_at(t, next);
        left = left / own;
        cells = pick_wait(t, grid, next, k / left, cells);
        k = k % left;
        next = end_at(t, next);
    }
    cells
}

// The cells of the outcome with the number of the wait at node i, added to a set: the first move's outcomes come first. (Moves and waits
// are two functions that call each other, as the definitions do.)
#[cycle(pick_move_pick_wait)]
fn pick_wait(t: &[u32], grid: Grid, i: usize, number: usize, set: Cells) -> Cells
    requires stands { SomeWaitPick grid.board t.now i number }
    ensures { WaitPicked grid.board t.now i number set.rows result.rows }
{
    let mut next = i + 1;
    let mut k = number;
    let mut own = count_at(t, next);
    while own <= k {
        k -= own;
        next = end_at(t, next);
        own = count_at(t, next);
    }
    pick_move(t, grid, next, k, set)
}

// A search among the outcomes of a move: the table, the board, the player, and the node after all under the move.
#[derive(Clone, Copy)]
struct Search<'a> {
    t: &'a [u32],
    grid: Grid,
    player: Player,
    end: usize,
}

impl Search<'_> {
    // The first wait from node i on, past the moves that stand before it; the end where there is none (there the walk goes on, and no Option).
    fn next_wait(&self, i: usize) -> usize
        requires { SomeAhead self.now.t.now self.now.end i }
        ensures { (b : declared.Board) (ws : Waits) → Ahead b self.now.t.now self.now.end i ws → WaitNext b self.now.t.now self.now.end i result ws }
    {
        let mut next = i;
        while next < self.end {
            if cell_at(self.t, next) == 0 {
                return next;
            }
            next = end_at(self.t, next);
        }
        next
    }

    // The first outcome that does not join among those that go on from a set by the waits from node i on; there are so many, and the first has the number.
    // Where the set joins one is looked at, and the others are passed over. (Its number alone: a verdict of many words would be handed up through each level.)
    fn first_from(&self, i: usize, many: usize, number: usize, set: Cells) -> Result<u32, u32>
        requires stands { SomeGoing self.now.grid.board self.now.t.now self.now.end i many number }
        ensures { SearchFound self.now.grid.board self.now.player self.now.t.now self.now.end i many number set.rows result }
    {
        if set.joins(self.grid, self.player) {
            return Ok((many - 1) as u32);
        }
        let wait = self.next_wait(i);
        if wait == self.end {
            return Err(number as u32);
        }
        let others = many / count_at(self.t, wait);
        let after = end_at(self.t, wait);
        let mut next = wait + 1;
        let mut n = number;
        let mut passed = 0;
        while next < after {
            let with = with_stone(set, self.grid, cell_at(self.t, next));
            let own = count_at(self.t, next) * others;
            let more = self.first_from(next + 1, own, n, with)?;
            passed += more;
            n += own;
            next = end_at(self.t, next);
        }
        Ok(passed)
    }
}

// The first outcome of the move at node i that does not join for the player with the cells of a set; or how many were passed over.
pub fn first_unjoined(
    t: &[u32],
    grid: Grid,
    player: Player,
    i: usize,
    set: Cells,
) -> Result<u32, Verdict>
    requires stands { SomeCountable grid.board t.now i }
    ensures { UnjoinedFound grid.board player t.now i set.rows result }
{
    let with = with_stone(set, grid, cell_at(t, i));
    let many = count_at(t, i);
    let search = Search {
        t,
        grid,
        player,
        end: end_at(t, i),
    };
    search
        .first_from(i + 1, many, 0, with)
        .map_err(|index| Verdict::NotJoined { index })
}
