// judging: the checks of a sheet that the table holds, one function a check, and the verdict with its counts. It sees rules, cells,
// nodes, fair, live and outcomes.
// What the searches tell is turned into a verdict by a `match`, where the line is reckoned too.
// The table is lent anew at each call, so it is handed on beside the head of its sheet. The checks are functions of one shape and not one
// function: each is a definition's own, with its verdict, and a verdict handed in as a function would need more words in the contract than
// it saves.

#![tactic(auto)]

ghost use Rattle.std.specs.Prelude.{◌≡◌, ◌+◌, ◌<◌, ◌≤◌, IfOk};
ghost use Rattle.rules.specs.Sizes.{most_nodes, most_bytes};
ghost use Rattle.rules.specs.Tree.{Sheet, move_count};
ghost use Rattle.rules.specs.Live.{idle_count};
ghost use Rattle.rules.specs.Fair.{first_on_set_up, first_not_apart, first_twice, first_not_elusive};
ghost use Rattle.rules.specs.Entries.{refuse_fault, fair, judged};
ghost use Rattle.rules.specs.declared.Board as declared;
ghost use Rattle.rules.specs.declared.Verdict.TheVariants.{OnSetUp, NotApart, NotElusive, SameBranch};
ghost use Rattle.nodes.specs.Sheets.{HoldsSheet, SomeSheet, HoldsWhole, SomeWhole};
ghost use Rattle.live.specs.Thinning.{KeepsLive};
ghost use Rattle.judging.specs.Checked.{checked, from_count, SomeLiving, passing, Tells, TellsAll};

use cells::Grid;
use fair::{branch_twice, not_apart, on_set_up};
use live::{keep_live, not_elusive};
use nodes::{Head, SetUp, count_at, end_at, is_move};
use outcomes::first_unjoined;
use rules::{Counts, Verdict};

// A sheet that is fair: its number of outcomes, and how many of its moves aren't live.
#[derive(Clone, Copy)]
pub struct Fair {
    pub outcomes: u32,
    pub idle: u32,
}

// A sheet that is accepted: its number of outcomes, how many of them were passed over, and how many of its moves aren't live.
#[derive(Clone, Copy)]
pub struct Accepted {
    pub outcomes: u32,
    pub passed: u32,
    pub idle: u32,
}

// The line of a node, by the line of the first one.
fn line_of(node: usize, first: u32) -> u32
    requires { (node < most_nodes) × (first ≤ most_bytes + 2) }
    ensures { result ≡ node + first }
{
    node as u32 + first
}

// 20: a move on a set-up stone. Where the first node stands on line 2, which `none_told` names, there is no stone.
fn free_on(table: &[u32], head: Head) -> Result<(), Verdict>
    requires { SomeWhole table.now head.grid.board head.set_up }
    ensures { (s : Sheet) → HoldsWhole table.now head.grid.board head.set_up s → checked result ≡ refuse_fault OnSetUp (first_on_set_up s) }
{
    let SetUp { stones, first } = head.set_up;
    let no_stone = first == 2;
    if no_stone {
        return Ok(());
    }
    match on_set_up(table, head.grid, stones.own.union(stones.opp)) {
        None => Ok(()),
        Some(fault) => Err(Verdict::OnSetUp {
            line: line_of(fault.node, first),
            cell: fault.cell,
        }),
    }
}

// 10: a move that is not apart.
fn apart_on(table: &[u32], head: Head) -> Result<(), Verdict>
    requires { SomeWhole table.now head.grid.board head.set_up }
    ensures { (s : Sheet) → HoldsWhole table.now head.grid.board head.set_up s → checked result ≡ refuse_fault NotApart (first_not_apart s) }
{
    match not_apart(table, head.grid) {
        None => Ok(()),
        Some(fault) => Err(Verdict::NotApart {
            line: line_of(fault.node, head.set_up.first),
            cell: fault.cell,
        }),
    }
}

// 24: a wait that has a branch twice.
fn single_on(table: &[u32], head: Head) -> Result<(), Verdict>
    requires { SomeWhole table.now head.grid.board head.set_up }
    ensures { (s : Sheet) → HoldsWhole table.now head.grid.board head.set_up s → checked result ≡ refuse_fault (λ line cell. SameBranch line) (first_twice s) }
{
    match branch_twice(table) {
        None => Ok(()),
        Some(node) => Err(Verdict::SameBranch {
            line: line_of(node, head.set_up.first),
        }),
    }
}

// 11: a wait that is not elusive; or how many moves aren't live.
fn elusive_on(table: &[u32], head: Head) -> Result<usize, Verdict>
    requires { SomeWhole table.now head.grid.board head.set_up }
    ensures { (s : Sheet) → HoldsWhole table.now head.grid.board head.set_up s → (checked result ≡ refuse_fault NotElusive (first_not_elusive s)) × IfOk result (λ idle. idle ≡ idle_count s) }
{
    not_elusive(table, head.grid).map_err(|fault| Verdict::NotElusive {
        line: line_of(fault.node, head.set_up.first),
        cell: fault.cell,
    })
}

// 12: more than 65,536 outcomes, of a sheet whose table has its live moves alone.
fn few_on(table: &[u32], grid: Grid, idle: usize) -> Result<Fair, Verdict>
    requires { SomeLiving table.now grid.board idle }
    ensures { (s : Sheet) → KeepsLive table.now grid.board s idle → Tells table.now grid.board s (from_count s) result }
{
    let outcomes = count_at(table, 0);
    let too_many = 65536 < outcomes;
    if too_many {
        return Err(Verdict::TooManyOutcomes);
    }
    Ok(Fair {
        outcomes: outcomes as u32,
        idle: idle as u32,
    })
}

// Whether the sheet in the table is fair: 20, 10, 24, 11, and then, without the moves that aren't live, 12.
pub fn fair_sheet(table: &mut [u32], head: Head) -> Result<Fair, Verdict>
    requires { SomeWhole table.old head.grid.board head.set_up }
    ensures { (s : Sheet) → HoldsWhole table.old head.grid.board head.set_up s → Tells table.new head.grid.board s (fair s) result }
{
    free_on(table, head)?;
    apart_on(table, head)?;
    single_on(table, head)?;
    let idle = elusive_on(table, head)?;
    keep_live(table, head.grid, idle);
    few_on(table, head.grid, idle)
}

// How many moves the sheet in the table has.
fn count_moves(table: &[u32]) -> usize
    requires { (b : declared.Board) × SomeSheet table.now b }
    ensures { (b : declared.Board) (s : Sheet) → HoldsSheet table.now b s → result ≡ move_count s }
{
    (0..end_at(table, 0)).filter(|&i| is_move(table, i)).count()
}

// Whether the sheet in the table is fair and satisfying: 20, 10, 24, 11, 12, 13.
pub fn accept_sheet(table: &mut [u32], head: Head) -> Result<Accepted, Verdict>
    requires { SomeWhole table.old head.grid.board head.set_up }
    ensures { (s : Sheet) → HoldsWhole table.old head.grid.board head.set_up s → s.player ≡ head.player → TellsAll table.new head.grid.board s result }
{
    let fair = fair_sheet(table, head)?;
    let passed = first_unjoined(table, head.grid, head.player, 0, head.set_up.stones.own)?;
    Ok(Accepted {
        outcomes: fair.outcomes,
        passed,
        idle: fair.idle,
    })
}

// The verdict on the sheet in the table, with its counts. Moves and waits are counted on every line.
pub fn judge_table(table: &mut [u32], head: Head) -> Verdict
    requires { SomeWhole table.old head.grid.board head.set_up }
    ensures { (s : Sheet) → HoldsWhole table.old head.grid.board head.set_up s → s.player ≡ head.player → result ≡ judged (passing s) }
{
    let moves = count_moves(table);
    let waits = end_at(table, 0) - moves;
    match accept_sheet(table, head) {
        Err(verdict) => verdict,
        Ok(accepted) => Verdict::Accepted {
            counts: Counts {
                moves: moves as u32,
                waits: waits as u32,
                outcomes: accepted.outcomes,
                passed: accepted.passed,
                idle: accepted.idle,
            },
        },
    }
}
