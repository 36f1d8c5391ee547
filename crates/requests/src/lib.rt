// requests: the requests that lie in some bytes: what a request's line asks, its numbers and their limits, and where its sheet's text
// is. It sees rules and report (how numbers are written).

#![tactic(auto)]

ghost use Rattle.std.specs.Prelude.{Decides, MatchResult};
ghost use Rattle.requests.specs.Request.{Plain, NumberReply, Ends, FirstField, CountReply, AskReply, HasNumbers, RequestReply, LineReply};
ghost use Rattle.requests.specs.Sent.{FirstLineEnd, UnfoundIn, FoundIn};

// The most numbers that a request has after its first field: workspace, bytes, room and 400 cells.
pub const MOST_NUMBERS: usize = 403;
// The most numbers that are lent as workspace.
pub const MOST_WORK: usize = 9000;
// The most bytes of a sheet.
const MOST_BYTES: usize = 65536;
// The most numbers that are lent as room.
pub const MOST_ROOM: usize = 1000;
// The largest number that a request has.
const MOST_NUMBER: u64 = 4294967295;
// The most bytes of a request's line: `play` and 403 numbers of ten digits, each after a tab.
const MOST_LINE: usize = 4437;

// What is asked of a sheet: `judge`, or with all counts `counts`; `play`; `outcome`. (`all` is no case more: the same is done, and the reply is
// longer by two numbers.)
#[derive(Clone, Copy)]
pub enum Ask {
    Judge { all: bool },
    Play,
    Outcome,
}

// A request: what is asked, how many numbers are lent as workspace and as room, the bytes of the sheet, and how many numbers its line has.
// (They lie in memory of a fixed size that the caller lends, since none is allocated; so how many there are is told beside them.)
#[derive(Clone, Copy)]
pub struct Request {
    pub ask: Ask,
    pub work: usize,
    pub bytes: usize,
    pub room: usize,
    pub count: usize,
}

// The first request of some bytes, and where its text begins.
#[derive(Clone, Copy)]
pub struct Found {
    pub request: Request,
    pub text: usize,
}

// Why no request lies whole at the front of some bytes: they end in it, or no request begins so.
#[derive(Clone, Copy)]
pub enum Unfound {
    Partial,
    Malformed,
}

// One digit at least, and no 0 in front of another, in a whole field. (`lines` asks it of the digits at the front of a text.)
fn well_spelled(field: &[u8]) -> bool
    ensures { Decides result (Plain field.now) }
{
    match field {
        [] => false,
        [_] => true,
        [first, ..] => *first != b'0',
    }
}

// A decimal number without leading zeros, up to 4294967295, that is the whole field.
// (By hand: the whole field is to be `decimal` of a number, and `parse` takes a `str` and another spelling too; `lines` reads what stands at
// the front of a text, and neither crate sees the other. In 64 bits with one comparison a digit: `checked_mul` and `checked_add` were measured to
// take a quarter longer on requests of many large numbers.)
fn number(field: &[u8]) -> Option<u32>
    ensures { NumberReply field.now result }
{
    if !well_spelled(field) {
        return None;
    }
    let mut value: u64 = 0;
    for &digit in field {
        if !digit.is_ascii_digit() {
            return None;
        }
        value = value * 10 + u64::from(digit - b'0');
        if MOST_NUMBER < value {
            return None;
        }
    }
    Some(value as u32)
}

// The first field of a text, and what follows it: nothing, or a tab and more.
fn first_field(text: &[u8]) -> (&[u8], &[u8])
    ensures { FirstField text.now result.0.now result.1.now }
{
    let end = text.iter().position(|&b| b == b'\t').unwrap_or(text.len());
    text.split_at(end)
}

// Reads the numbers, each after a tab, that a text is, and returns how many they are. (The place is counted by hand: the loop goes over
// what is left of the text, and a proof knows no element that is written through `iter_mut`.)
fn read_numbers(text: &[u8], numbers: &mut [u32; MOST_NUMBERS]) -> Option<usize>
    requires { Ends text.now }
    ensures { CountReply text.now numbers.new result }
{
    let mut rest = text;
    let mut count = 0;
    while let Some((_, fields)) = rest.split_first() {
        if count == MOST_NUMBERS {
            return None;
        }
        let (field, others) = first_field(fields);
        numbers[count] = number(field)?;
        rest = others;
        count += 1;
    }
    Some(count)
}

// What the first field asks.
fn read_ask(field: &[u8]) -> Option<Ask>
    ensures { AskReply field.now result }
{
    match field {
        b"judge" => Some(Ask::Judge { all: false }),
        b"counts" => Some(Ask::Judge { all: true }),
        b"play" => Some(Ask::Play),
        b"outcome" => Some(Ask::Outcome),
        _ => None,
    }
}

// Whether a request of the kind has so many numbers.
fn right_count(ask: Ask, count: usize) -> bool
    ensures { Decides result (HasNumbers ask count) }
{
    match ask {
        Ask::Judge { all: _ } => count == 2,
        Ask::Play => 3 <= count,
        Ask::Outcome => count == 4,
    }
}

// The request that the numbers make, where they are within the limits.
fn request_of(ask: Ask, numbers: &[u32]) -> Option<Request>
    ensures { RequestReply ask numbers.now result }
{
    let count = numbers.len();
    if !right_count(ask, count) {
        return None;
    }
    let work = numbers[0] as usize;
    let bytes = numbers[1] as usize;
    // No third number: no room, so 0, as `room_of` says.
    let room = numbers.get(2).map_or(0, |&n| n as usize);
    if MOST_WORK < work || MOST_BYTES < bytes || MOST_ROOM < room {
        return None;
    }
    Some(Request {
        ask,
        work,
        bytes,
        room,
        count,
    })
}

// Reads a request's line, and its numbers.
fn read_request(line: &[u8], numbers: &mut [u32; MOST_NUMBERS]) -> Option<Request>
    ensures { LineReply line.now numbers.new result }
{
    let (word, rest) = first_field(line);
    let ask = read_ask(word)?;
    let count = read_numbers(rest, numbers)?;
    request_of(ask, &numbers[..count])
}

// Where the first line of the bytes ends, at its line feed; or why there is no such place within the most bytes of a request's line.
fn line_end(bytes: &[u8]) -> Result<usize, Unfound>
    ensures { MatchResult result (FirstLineEnd bytes.now) (UnfoundIn bytes.now) }
{
    let first = &bytes[..bytes.len().min(MOST_LINE + 1)];
    let unfound = if bytes.len() <= MOST_LINE {
        Unfound::Partial
    } else {
        Unfound::Malformed
    };
    first.iter().position(|&b| b == b'\n').ok_or(unfound)
}

// Finds the first request of the bytes, and reads its numbers.
pub fn find(bytes: &[u8], numbers: &mut [u32; MOST_NUMBERS]) -> Result<Found, Unfound>
    ensures { FoundIn bytes.now numbers.new result }
{
    let end = line_end(bytes)?;
    let request = read_request(&bytes[..end], numbers).ok_or(Unfound::Malformed)?;
    let text = end + 1;
    if bytes.len() - text < request.bytes {
        return Err(Unfound::Partial);
    }
    Ok(Found { request, text })
}
