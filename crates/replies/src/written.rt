// The replies that were written and not yet printed.
ghost use Rattle.std.specs.Prelude.{◌≤◌};

// The most bytes of replies that are gathered before they are printed.
pub const MOST_SAID: usize = 32768;

// The replies that were gathered: the bytes up to end. (Bytes of a fixed size and a place in them: nothing is allocated.)
#[derive(Clone, Copy)]
pub struct Said {
    pub bytes: [u8; MOST_SAID],
    pub end: usize,
    pub ghost within: { end ≤ 32768 },
}

impl Said {
    ghost use Rattle.std.specs.Prelude.{◌≡◌, take};

    // The replies.
    pub fn replies(&self) -> &[u8]
        ensures { result.now ≡ take self.now.end self.now.bytes }
    {
        &self.bytes[..self.end]
    }
}
