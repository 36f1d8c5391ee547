// Line 1: the board and the player.
ghost use Rattle.rules.specs.Lines as L;
ghost use Rattle.lines.specs.Parts as parts;
ghost use Rattle.lines.specs.Seen.{Reads, number_seen, board_seen, player_seen, header_seen};

use crate::numbers::{byte_at, number_in, word_at};
use rules::{Board, Player};

// A board has 1 to 19 columns and 1 to 19 rows.
const LARGEST: u32 = 19;

// A tab, and the columns or the rows of a board.
fn size_at(s: &[u8]) -> Option<(u32, &[u8])>
    ensures { Reads s.now parts.size (number_seen result) }
{
    let number = byte_at(s, b'\t')?;
    number_in(number, 1, LARGEST)
}

// The columns and the rows, a tab before each.
fn board_at(s: &[u8]) -> Option<(Board, &[u8])>
    ensures { Reads s.now parts.board (board_seen result) }
{
    let (columns, middle) = size_at(s)?;
    let (rows, rest) = size_at(middle)?;
    let board = Board {
        columns: columns as usize,
        rows: rows as usize,
    };
    Some((board, rest))
}

// `D` or `A`.
#[tactic(auto, using(crate::proofs::Either::first_way, crate::proofs::Either::other_way), unfolding(rules::specs::Text::bind, rules::specs::Text::guard, rules::specs::Text::give, rules::specs::Text::any_byte, rules::specs::Text::byte, rules::specs::Text::word, rules::specs::Lines::player))]
fn player_at(s: &[u8]) -> Option<(Player, &[u8])>
    ensures { Reads s.now L.player (player_seen result) }
{
    let (&letter, rest) = s.split_first()?;
    match letter {
        b'D' => Some((Player::D, rest)),
        b'A' => Some((Player::A, rest)),
        _ => None,
    }
}

// `D` or `A`, and the line's end.
fn player_end(s: &[u8]) -> Option<(Player, &[u8])>
    ensures { Reads s.now (parts.closed L.player) (player_seen result) }
{
    let (player, feed) = player_at(s)?;
    let rest = byte_at(feed, b'\n')?;
    Some((player, rest))
}

// What line 1 says.
#[derive(Clone, Copy)]
pub struct Header {
    pub board: Board,
    pub player: Player,
}

// Line 1: `hex`, columns, rows, `D` or `A`.
pub fn header_line(s: &[u8]) -> Option<(Header, &[u8])>
    ensures { Reads s.now L.header_line (header_seen result) }
{
    let sizes = word_at(s, b'h', b'e', b'x')?;
    let (board, tab) = board_at(sizes)?;
    let letter = byte_at(tab, b'\t')?;
    let (player, rest) = player_end(letter)?;
    Some((Header { board, player }, rest))
}
