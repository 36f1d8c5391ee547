// Where the reading of a body stands.
ghost use Rattle.std.specs.Prelude.{◌+◌, ◌≤◌, length};
ghost use Rattle.rules.specs.Sizes.{most_nodes, most_bytes};

// The text that is left, the number of the line that it begins with, and the nodes read so far. Each line before had a byte at least, and the
// nodes are not too many.
#[derive(Clone, Copy)]
pub struct Spot<'a> {
    pub text: &'a [u8],
    pub line: usize,
    pub nodes: usize,
    pub ghost short: { line + length text.now ≤ most_bytes + 2 },
    pub ghost few: { nodes ≤ most_nodes },
}
