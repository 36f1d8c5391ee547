// lines: the lines of a sheet, read from its bytes. Each function reads what stands at the front of a text, and hands back what it read
// and the text after it. `header` reads line 1, `set_up` the set-up lines, `nodes` the lines of moves and of waits, all with the bytes and
// the numbers of `numbers`. It sees rules.

// The proofs see through these definitions of rules, a reader after another and what each line is made of.
#![tactic(auto, unfolding(rules::specs::Text::bind, rules::specs::Text::give, rules::specs::Text::tab, rules::specs::Text::line_feed, rules::specs::Text::word, rules::specs::Lines::place, rules::specs::Lines::wait_line, rules::specs::Lines::header_up_to, rules::specs::Lines::set_up_line))]

mod header;
mod nodes;
mod numbers;
mod set_up;

pub use header::{Header, header_line};
pub use nodes::{Line, Place, node_line, place_at};
pub use numbers::{byte_at, number_in, word_at};
pub use set_up::{SetUpLine, Side, set_up_line};
