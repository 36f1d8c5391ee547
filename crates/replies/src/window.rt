// The window: the bytes of the input that were read and not yet taken, and the reading of more behind them.
ghost use Rattle.std.specs.Prelude.{◌≤◌};

use crate::say_request;
use std::io::{self, Read, Stdin, Stdout};

// The most bytes of the input that are held, which is more than a request has.
pub const MOST_HELD: usize = 131072;

// The bytes of the input that were read and not yet taken: those of the buffer from start up to end. (A buffer of a fixed size and two
// places in it: nothing is allocated.)
#[derive(Clone, Copy)]
pub struct Window {
    pub buffer: [u8; MOST_HELD],
    pub start: usize,
    pub end: usize,
    pub ghost within: { (start ≤ end) × (end ≤ 131072) },
}

impl Window {
    ghost use Rattle.std.specs.Prelude.{◌≡◌, ◌+◌, ◌-◌, ◌<◌};
    ghost use Rattle.replies.specs.Window.{bytes_of, PlaceBehind, ReadBehind};

    // Moves its bytes to the front of the buffer: `copy_within` and its places, with the contract that `make_place` needs.
    fn to_front(&mut self)
        ensures same { bytes_of self.new ≡ bytes_of self.old }
        ensures front { (self.new.start ≡ 0) × (self.new.end ≡ self.old.end - self.old.start) }
    {
        self.buffer.copy_within(self.start..self.end, 0);
        self.end -= self.start;
        self.start = 0;
    }

    // Moves its bytes to the front where the buffer has no place behind them, or where there are none.
    fn make_place(&mut self)
        requires { self.old.end < self.old.start + 131072 }
        ensures { PlaceBehind self.old self.new }
    {
        if self.start == self.end || self.end == MOST_HELD {
            self.to_front();
        }
    }

    // Reads from standard input once, behind its bytes, and returns whether anything came: nothing where the input has ended. A request
    // in which it ends is malformed.
    pub fn read_on(&mut self, mut input: Stdin, out: Stdout) -> io::Result<bool>
        requires { self.old.end < self.old.start + 131072 }
        ensures { ReadBehind self.old self.new }
    {
        self.make_place();
        let got = input.read(&mut self.buffer[self.end..])?;
        self.end += got;
        if got == 0 && self.start < self.end {
            say_request(out)?;
        }
        Ok(got != 0)
    }
}
