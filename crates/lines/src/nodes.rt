// The lines of nodes: those of moves and of waits.
ghost use Rattle.rules.specs.Sizes.{most_under};
ghost use Rattle.rules.specs.Text.{number_in};
ghost use Rattle.rules.specs.Lines as L;
ghost use Rattle.lines.specs.Parts as parts;
ghost use Rattle.lines.specs.Seen.{Reads, skipped, number_seen, place_seen, name_seen, line_seen};

use crate::numbers::{byte_at, number_in};
use rules::LineKind;

// The highest row that a cell's name may have.
const HIGHEST_ROW: u32 = 99;
// A line names at most 2047 nodes right under it.
const MOST_UNDER: u32 = 2047;

// The column of a lower-case letter.
#[tactic(auto, unfolding(rules::specs::Text::bind, rules::specs::Text::guard, rules::specs::Text::give, rules::specs::Text::any_byte, rules::specs::Lines::letter))]
fn letter_at(s: &[u8]) -> Option<(u32, &[u8])>
    ensures { Reads s.now L.letter (number_seen result) }
{
    let (&letter, rest) = s.split_first()?;
    if !letter.is_ascii_lowercase() {
        return None;
    }
    Some((letter as u32 - 96, rest))
}

// A cell's column and row.
#[derive(Clone, Copy)]
pub struct Place {
    pub column: u32,
    pub row: u32,
}

// A cell is a lower-case letter and a number 1 to 99.
pub fn place_at(s: &[u8]) -> Option<(Place, &[u8])>
    ensures { Reads s.now L.place (place_seen result) }
{
    let (column, middle) = letter_at(s)?;
    let (row, rest) = number_in(middle, 1, HIGHEST_ROW)?;
    Some((Place { column, row }, rest))
}

// A cell; or `-`, where that may stand instead. (One function for the first node and the others: they differ by this alone.)
fn name_at(s: &[u8], dash: bool) -> Option<(Option<Place>, &[u8])>
    ensures { Reads s.now (parts.name dash) (name_seen result) }
{
    if let Some((place, rest)) = place_at(s) {
        return Some((Some(place), rest));
    }
    if !dash {
        return None;
    }
    let rest = byte_at(s, b'-')?;
    Some((None, rest))
}

// A line's first letter and the tab after it.
fn begun_at(s: &[u8], letter: u8) -> Option<&[u8]>
    ensures { Reads s.now (parts.begun letter) (skipped result) }
{
    let tab = byte_at(s, letter)?;
    byte_at(tab, b'\t')
}

// The number of nodes under a node, at least lo, and the line's end.
fn under_at(s: &[u8], lo: u32) -> Option<(u32, &[u8])>
    ensures { Reads s.now (parts.closed (number_in lo most_under)) (number_seen result) }
{
    let (under, feed) = number_in(s, lo, MOST_UNDER)?;
    let rest = byte_at(feed, b'\n')?;
    Some((under, rest))
}

// What a node's line says: the cell that it names, if any, and the number of nodes right under it.
#[derive(Clone, Copy)]
pub struct Line {
    pub place: Option<Place>,
    pub under: u32,
}

// A move's line: `m`, cell, number of waits under it. Where dash is true, `-` may stand instead of the cell, for the first node alone. (One
// function, as `name_at`.)
fn cell_line(s: &[u8], dash: bool) -> Option<(Line, &[u8])>
    ensures { Reads s.now (parts.cell_line dash) (line_seen result) }
{
    let name = begun_at(s, b'm')?;
    let (place, tab) = name_at(name, dash)?;
    let number = byte_at(tab, b'\t')?;
    let (under, rest) = under_at(number, 0)?;
    Some((Line { place, under }, rest))
}

// A wait's line: `w`, number of moves under it.
fn wait_line(s: &[u8]) -> Option<(Line, &[u8])>
    ensures { Reads s.now L.wait_line (line_seen result) }
{
    let number = begun_at(s, b'w')?;
    let (under, rest) = under_at(number, 1)?;
    Some((Line { place: None, under }, rest))
}

// The line of a node of the kind: only the first node may have `-` instead of a cell.
pub fn node_line(s: &[u8], kind: LineKind) -> Option<(Line, &[u8])>
    ensures { Reads s.now (L.reader_of kind) (line_seen result) }
{
    match kind {
        LineKind::First => cell_line(s, true),
        LineKind::Move => cell_line(s, false),
        LineKind::Wait => wait_line(s),
    }
}
