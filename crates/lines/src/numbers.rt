// Bytes, words and numbers at the front of a text.
ghost use Rattle.std.specs.Prelude.{◌≡◌, ◌+◌, ◌*◌, ◌-◌, ◌≤◌, ◌<◌, min, length};
ghost use Rattle.rules.specs.Text.{byte, digits, well_spelled, number_in};
ghost use Rattle.lines.specs.Parts as parts;
ghost use Rattle.lines.specs.Run.{ceiling, run_of};
ghost use Rattle.lines.specs.Seen.{Reads, skipped, number_seen};

// Numbers are counted no further than this, which is past every number that a line may name.
const CEILING: u32 = 100000;

// The text after one byte, which is b.
#[tactic(auto, unfolding(rules::specs::Text::bind, rules::specs::Text::guard, rules::specs::Text::any_byte, rules::specs::Text::byte))]
pub fn byte_at(s: &[u8], b: u8) -> Option<&[u8]>
    ensures { Reads s.now (byte b) (skipped result) }
{
    s.strip_prefix(&[b])
}

// The text after a word of three letters.
#[tactic(auto, unfolding(rules::specs::Text::bind, rules::specs::Text::guard, rules::specs::Text::give, rules::specs::Text::any_byte, rules::specs::Text::byte))]
pub fn word_at(s: &[u8], first: u8, second: u8, third: u8) -> Option<&[u8]>
    ensures { Reads s.now (parts.three first second third) (skipped result) }
{
    s.strip_prefix(&[first, second, third])
}

// A run of digits: what it spells, or the ceiling if that is less, and how many there are.
#[derive(Clone, Copy)]
struct Run {
    value: u32,
    long: usize,
}

// One digit more, up to the ceiling.
fn appended(value: u32, digit: u8) -> u32
    requires { (value ≤ ceiling) × (48 ≤ digit) }
    ensures { result ≡ min ceiling (value * 10 + (digit - 48)) }
{
    CEILING.min(value * 10 + (digit as u32 - 48))
}

// The digits at the front of a text, as many as there are.
// (By hand, with their number beside: `run_of` names the value up to the ceiling and how many digits there are, also past 32 bits, which no
// `parse` tells.)
fn digit_run(s: &[u8]) -> Run
    ensures { result ≡ run_of s.now }
{
    let mut value: u32 = 0;
    for (long, &digit) in s.iter().enumerate() {
        if !digit.is_ascii_digit() {
            return Run { value, long };
        }
        value = appended(value, digit);
    }
    Run {
        value,
        long: s.len(),
    }
}

// One digit at least, and no 0 in front of another.
#[tactic(auto, using(std::proofs::lemmas::Bool::Decides::nat_tests, crate::proofs::Digits::digits_fit, crate::proofs::Digits::digits_first, crate::proofs::Digits::well_spelled_is))]
fn well_spelled(s: &[u8], long: usize) -> bool
    requires { long ≡ length (digits s.now) }
    ensures { result ≡ well_spelled (digits s.now) }
{
    match long {
        0 => false,
        1 => true,
        _ => s[0] != b'0',
    }
}

// A decimal number without leading zeros, from lo to hi, and the text after it.
#[tactic(auto, using(std::proofs::lemmas::Grind::common_steps, std::proofs::lemmas::Bool::Decides::nat_tests, crate::proofs::Digits::digits_fit, crate::proofs::Digits::after_digits_is, crate::proofs::Digits::well_spelled_is), unfolding(rules::specs::Text::bind, rules::specs::Text::guard, rules::specs::Text::give, rules::specs::Text::number, rules::specs::Text::number_in, crate::specs::Run::run_of))]
pub fn number_in(s: &[u8], lo: u32, hi: u32) -> Option<(u32, &[u8])>
    requires { hi < ceiling }
    ensures { Reads s.now (number_in lo hi) (number_seen result) }
{
    let Run { value, long } = digit_run(s);
    if !well_spelled(s, long) {
        return None;
    }
    if !(lo..=hi).contains(&value) {
        return None;
    }
    Some((value, &s[long..]))
}
