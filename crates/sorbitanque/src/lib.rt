// sorbitanque: the three entries for programs in other languages, on numbers and slices. Each function puts the numbers of its reply into
// places that are lent: seven, or nine with all counts, as the C interface has it. It sees rules, sheet and report.

#![tactic(auto)]

ghost use Rattle.sorbitanque.specs.Details.{judge_details, counts_details, JudgeTold, OutcomeTold, PlayTold};

use report::tell_all;
use rules::Told;
use sheet::{judge, outcome, play};

// Judges a sheet: verdict, line, cell, index, moves, waits, outcomes.
#[unsafe(no_mangle)]
pub extern "C" fn sorbitanque_judge(sheet: &[u8], workspace: &mut [u32], details: &mut [u32; 7])
    ensures { JudgeTold judge_details workspace.old sheet.now workspace.new details.new }
{
    let told = Told::from(judge(sheet, workspace));
    let counts = told.counts;
    *details = [
        told.number,
        told.line,
        told.cell,
        told.index,
        counts.moves,
        counts.waits,
        counts.outcomes,
    ];
}

// Judges a sheet: verdict, line, cell, index, moves, waits, outcomes, passed, idle.
#[unsafe(no_mangle)]
pub extern "C" fn sorbitanque_counts(sheet: &[u8], workspace: &mut [u32], details: &mut [u32; 9])
    ensures { JudgeTold counts_details workspace.old sheet.now workspace.new details.new }
{
    *details = tell_all(judge(sheet, workspace));
}

// Lists the cells of an outcome of a sheet: verdict, line, cell, index, cells, 0, 0.
#[unsafe(no_mangle)]
pub extern "C" fn sorbitanque_outcome(
    sheet: &[u8],
    number: u32,
    room: &mut [u32],
    workspace: &mut [u32],
    details: &mut [u32; 7],
)
    ensures { OutcomeTold workspace.old sheet.now number room.old workspace.new room.new details.new }
{
    let named = outcome(sheet, number, room, workspace);
    let told = Told::from(named.verdict);
    *details = [
        told.number,
        told.line,
        told.cell,
        told.index,
        named.cells as u32,
        0,
        0,
    ];
}

// Plays a sheet against a list of opponent cells: verdict, line, cell, index, place, answers, over.
#[unsafe(no_mangle)]
pub extern "C" fn sorbitanque_play(
    sheet: &[u8],
    moves: &[u32],
    room: &mut [u32],
    workspace: &mut [u32],
    details: &mut [u32; 7],
)
    ensures { PlayTold workspace.old sheet.now moves.now room.old workspace.new room.new details.new }
{
    let played = play(sheet, moves, room, workspace);
    let told = Told::from(played.verdict);
    let over = u32::from(played.over);
    *details = [
        told.number,
        told.line,
        told.cell,
        told.index,
        played.place as u32,
        played.answers as u32,
        over,
    ];
}
