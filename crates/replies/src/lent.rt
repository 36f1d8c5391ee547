// The memory that is lent for a request: filling it, and looking whether it was left as the entries promise.
ghost use Rattle.std.specs.Prelude.{Decides};
ghost use Rattle.replies.specs.Lent.{AllAre, WorkspaceLaid, RoomLaid};

use requests::{MOST_NUMBERS, MOST_ROOM, MOST_WORK};

// What stands in every place of the memory that is lent, so that each change shows: all bits 1, and no number of a sheet is so large.
pub const FILLING: u32 = 4294967295;

// The memory for requests: places for a request's numbers, the workspace and the room, of which as much is lent as the request says.
#[derive(Clone, Copy)]
pub struct Memory {
    pub numbers: [u32; MOST_NUMBERS],
    pub workspace: [u32; MOST_WORK],
    pub room: [u32; MOST_ROOM],
}

// Whether the numbers are all the same value: no bit of any is another.
fn all_are(value: u32, memory: &[u32]) -> bool
    ensures { Decides result (AllAre value memory.now) }
{
    // A fold, and no `all`, which stops at the first other number and took three times as long where there is none.
    memory
        .iter()
        .fold(0, |others, &number| others | (number ^ value))
        == 0
}

// Whether the workspace is as the entries leave it: fewer than 8,192 numbers are refused with 1.
pub fn workspace_right(workspace: &[u32]) -> bool
    ensures { Decides result (WorkspaceLaid workspace.now) }
{
    if workspace.len() < 8192 {
        return all_are(FILLING, workspace);
    }
    all_are(0, &workspace[..8192]) && all_are(FILLING, &workspace[8192..])
}

// Whether the room is as the entries leave it after a reply with the number, 0 where it is done (`RoomLaid` has it so), and so many answers
// or cells.
fn room_right(room: &[u32], number: u32, written: usize) -> bool
    ensures { Decides result (RoomLaid number written room.now) }
{
    if room.len() < written || number != 0 && written != 0 {
        return false;
    }
    all_are(FILLING, &room[written..])
}

// Whether all memory that was lent is as the entries leave it after a reply with the number and so many answers or cells.
pub fn lent_right(workspace: &[u32], room: &[u32], number: u32, written: usize) -> bool
    ensures { Decides result (WorkspaceLaid workspace.now × RoomLaid number written room.now) }
{
    workspace_right(workspace) && room_right(room, number, written)
}
