// rules: the words of document 01. It holds the types of a board and of every reply, and what is told of a verdict; what the words mean
// stands in specs/, and what follows from it in proofs/. It sees no other crate.

#![tactic(auto)]

ghost use Rattle.std.specs.Prelude.{◌≡◌};
ghost use Rattle.rules.specs.Verdict.{told, told_as};

// D joins row 1 to the last row, A joins the first column to the last.
#[derive(Clone, Copy)]
pub enum Player {
    D,
    A,
}

// A board has so many columns and so many rows.
#[derive(Clone, Copy)]
pub struct Board {
    pub columns: usize,
    pub rows: usize,
}

// The kinds of node lines: that of the first node, of a move under a wait, of a wait.
#[derive(Clone, Copy)]
pub enum LineKind {
    First,
    Move,
    Wait,
}

// What judge counts on a sheet that it accepts: moves, waits, outcomes, the outcomes that were passed over, the moves that aren't live.
#[derive(Clone, Copy)]
pub struct Counts {
    pub moves: u32,
    pub waits: u32,
    pub outcomes: u32,
    pub passed: u32,
    pub idle: u32,
}

// The verdict is one value with a case for each kind of reply and its details.
#[derive(Clone, Copy)]
pub enum Verdict {
    Accepted { counts: Counts },
    Done,
    SmallWorkspace,
    LongText,
    BadHeader,
    BadLine { line: u32 },
    OffBoard { line: u32 },
    TooManyNodes { line: u32 },
    TooDeep { line: u32 },
    Unfinished { line: u32 },
    TextAfter { line: u32 },
    NotApart { line: u32, cell: u32 },
    NotElusive { line: u32, cell: u32 },
    TooManyOutcomes,
    NotJoined { index: u32 },
    ShortRoom,
    AfterOver,
    NoSuchCell,
    CellTaken,
    NoSuchOutcome,
    SetUpTwice { line: u32, cell: u32 },
    OnSetUp { line: u32, cell: u32 },
    UnknownName { line: u32 },
    WrongCells { line: u32 },
    NameTwice { line: u32 },
    SameBranch { line: u32 },
}

// What document 01 says of a verdict: its number, line, cell and index, and the counts.
#[derive(Clone, Copy)]
pub struct Told {
    pub number: u32,
    pub line: u32,
    pub cell: u32,
    pub index: u32,
    pub counts: Counts,
}

// What document 01 says of a refusal: the counts are 0.
fn refusal(number: u32, line: u32, cell: u32, index: u32) -> Told
    ensures { result ≡ told_as number line cell index }
{
    Told {
        number,
        line,
        cell,
        index,
        counts: Counts {
            moves: 0,
            waits: 0,
            outcomes: 0,
            passed: 0,
            idle: 0,
        },
    }
}

// What document 01 says of a verdict.
impl From<Verdict> for Told {
    ghost from_gives = { λ v t. t ≡ told v };

    fn from(verdict: Verdict) -> Told {
        match verdict {
            Verdict::Accepted { counts } => Told {
                number: 0,
                line: 0,
                cell: 0,
                index: 0,
                counts,
            },
            Verdict::Done => refusal(0, 0, 0, 0),
            Verdict::SmallWorkspace => refusal(1, 0, 0, 0),
            Verdict::LongText => refusal(2, 0, 0, 0),
            Verdict::BadHeader => refusal(3, 1, 0, 0),
            Verdict::BadLine { line } => refusal(4, line, 0, 0),
            Verdict::OffBoard { line } => refusal(5, line, 0, 0),
            Verdict::TooManyNodes { line } => refusal(6, line, 0, 0),
            Verdict::TooDeep { line } => refusal(7, line, 0, 0),
            Verdict::Unfinished { line } => refusal(8, line, 0, 0),
            Verdict::TextAfter { line } => refusal(9, line, 0, 0),
            Verdict::NotApart { line, cell } => refusal(10, line, cell, 0),
            Verdict::NotElusive { line, cell } => refusal(11, line, cell, 0),
            Verdict::TooManyOutcomes => refusal(12, 0, 0, 0),
            Verdict::NotJoined { index } => refusal(13, 0, 0, index),
            Verdict::ShortRoom => refusal(14, 0, 0, 0),
            Verdict::AfterOver => refusal(15, 0, 0, 0),
            Verdict::NoSuchCell => refusal(16, 0, 0, 0),
            Verdict::CellTaken => refusal(17, 0, 0, 0),
            Verdict::NoSuchOutcome => refusal(18, 0, 0, 0),
            Verdict::SetUpTwice { line, cell } => refusal(19, line, cell, 0),
            Verdict::OnSetUp { line, cell } => refusal(20, line, cell, 0),
            Verdict::UnknownName { line } => refusal(21, line, 0, 0),
            Verdict::WrongCells { line } => refusal(22, line, 0, 0),
            Verdict::NameTwice { line } => refusal(23, line, 0, 0),
            Verdict::SameBranch { line } => refusal(24, line, 0, 0),
        }
    }
}

// Play also returns the place of the refused move, the number of answers, and whether play is over.
#[derive(Clone, Copy)]
pub struct Played {
    pub verdict: Verdict,
    pub place: usize,
    pub answers: usize,
    pub over: bool,
}

// Outcome also returns the number of cells.
#[derive(Clone, Copy)]
pub struct Named {
    pub verdict: Verdict,
    pub cells: usize,
}
