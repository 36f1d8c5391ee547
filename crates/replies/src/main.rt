// replies: the program. It answers requests about sheets from standard input, one line for each, until the input ends. The crate
// `requests` finds them in what was read; `window` takes the input, `answers` has the replies, `written` holds them, `lent` looks after the memory that is lent,
// here are what is printed and the loop over them. It sees rules, sheet, report and requests.

#![tactic(auto)]

mod answers;
mod lent;
mod window;
mod written;

ghost use Rattle.std.specs.Prelude.{◌≡◌, false};
ghost use Rattle.replies.specs.Answers.{Replies};
ghost use Rattle.replies.specs.Window.{WentOn, RequestsEnd};

use answers::{Gathered, gather};
use lent::Memory;
use requests::{MOST_NUMBERS, MOST_ROOM, MOST_WORK, Unfound};
use std::io::{self, Stdin, Stdout};
use window::{MOST_HELD, Window};
use written::{MOST_SAID, Said};

// Writes replies to standard output; they are the replies to some requests, and nothing else.
fn print(out: Stdout, said: &[u8]) -> io::Result<()>
    requires { Replies said.now }
{
    out.write_all(said)
}

// Says that the request is malformed.
fn say_request(out: Stdout) -> io::Result<()> {
    out.write_all(b"request\n")
}

// Answers the requests of the window and prints their replies, before more is read; returns whether requests go on.
fn answer_next(
    input: Stdin,
    out: Stdout,
    window: &mut Window,
    memory: &mut Memory,
    said: &mut Said,
) -> io::Result<bool>
    ensures went_on { WentOn window.old window.new }
    ensures ended { result ≡ Ok false → RequestsEnd window.old }
{
    let Gathered { taken, unfound } = gather(
        out,
        &window.buffer[window.start..window.end],
        memory,
        said,
    );
    print(out, said.replies())?;
    window.start += taken;
    match unfound {
        None => Ok(true),
        Some(Unfound::Partial) => window.read_on(input, out),
        Some(Unfound::Malformed) => {
            say_request(out)?;
            Ok(false)
        }
    }
}

// Answers the requests of standard input by way of a buffer for two sheets, with places for a request's numbers, for the memory that is
// lent, and for replies, until the input ends or a request is malformed. A proved loop has to end, so it counts its turns up to a number
// that no run uses up.
fn main(rt: HostRuntime) -> io::Result<()> {
    let mut window = Window {
        buffer: [0; MOST_HELD],
        start: 0,
        end: 0,
    };
    let mut memory = Memory {
        numbers: [0; MOST_NUMBERS],
        workspace: [0; MOST_WORK],
        room: [0; MOST_ROOM],
    };
    let mut said = Said {
        bytes: [0; MOST_SAID],
        end: 0,
    };
    for _ in 0..u64::MAX {
        if !answer_next(rt.stdin(), rt.stdout(), &mut window, &mut memory, &mut said)? {
            break;
        }
    }
    Ok(())
}
