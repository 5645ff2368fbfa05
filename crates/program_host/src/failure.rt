// Why a call failed, in the system's words.
ghost use Rattle.std.specs.Prelude.{◌≤◌, length};

use std::io;
use std::io::{Cursor, Write};

// The system's number of a file that is not open.
pub(crate) const NOT_OPEN: i32 = 9;

// The system's number of a call that is not right.
pub(crate) const INVALID: i32 = 22;

// The system's number of too many open files.
pub(crate) const TOO_MANY: i32 = 24;

// The system's number of a name that is too long.
pub(crate) const TOO_LONG: i32 = 36;

// The system's number of octets that are no text.
pub(crate) const NO_TEXT: i32 = 84;

// More octets than the words of an error have.
pub(crate) const TEXT: usize = 256;

// What stands behind the system's words, before its number.
const NUMBER: &[u8] = b" (os error ";

// Where the words end: before the system's number, or at the end.
fn words_end(text: &[u8]) -> usize
    ensures { result ≤ length text.now }
{
    text.windows(NUMBER.len())
        .position(|words| words == NUMBER)
        .unwrap_or(text.len())
}

// Writes an error to the start of the room, and answers how many octets that takes.
fn put_error(e: io::Error, room: &mut [u8]) -> usize
    ensures { result ≤ length room.new }
{
    let most = room.len();
    let mut page = Cursor::new(room);
    let _ = write!(page, "{e}");
    (page.position() as usize).min(most)
}

// Puts the system's words for an error at the start of the room, and answers how many octets they have.
pub(crate) fn put_words(e: io::Error, room: &mut [u8]) -> usize
    ensures { result ≤ length room.new }
{
    let n = put_error(e, room);
    words_end(&room[..n])
}
