// The set-up lines: whose stone, and its cell.
ghost use Rattle.rules.specs.Lines as L;
ghost use Rattle.lines.specs.Seen.{Reads, side_seen, set_up_seen};

use crate::nodes::{Place, place_at};
use crate::numbers::byte_at;

// A set-up stone is the player's own or the opponent's.
#[derive(Clone, Copy)]
pub enum Side {
    Own,
    Opp,
}

// `own` or `opp`.
#[tactic(auto, using(crate::proofs::Either::first_way, crate::proofs::Either::other_way), unfolding(rules::specs::Text::bind, rules::specs::Text::guard, rules::specs::Text::give, rules::specs::Text::any_byte, rules::specs::Text::byte, rules::specs::Text::word, rules::specs::Lines::side))]
fn side_at(s: &[u8]) -> Option<(Side, &[u8])>
    ensures { Reads s.now L.side (side_seen result) }
{
    if let Some(rest) = s.strip_prefix(b"own") {
        return Some((Side::Own, rest));
    }
    let rest = s.strip_prefix(b"opp")?;
    Some((Side::Opp, rest))
}

// What a set-up line says: whose stone it is, and its cell.
#[derive(Clone, Copy)]
pub struct SetUpLine {
    pub side: Side,
    pub place: Place,
}

// A set-up line: `own` or `opp`, cell.
pub fn set_up_line(s: &[u8]) -> Option<(SetUpLine, &[u8])>
    ensures { Reads s.now L.set_up_line (set_up_seen result) }
{
    let (side, tab) = side_at(s)?;
    let name = byte_at(tab, b'\t')?;
    let (place, feed) = place_at(name)?;
    let rest = byte_at(feed, b'\n')?;
    Some((SetUpLine { side, place }, rest))
}
