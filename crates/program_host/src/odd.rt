// Opening a file by its name. The library opens names in UTF-8 alone. For any other the caller of the program may open the file and tell the name of that in
// the environment, as /dev/fd/10: the variable is CABBOOK_FILE_ and the octets of the name in hexadecimal digits.
ghost use Rattle.std.specs.Prelude.{◌≤◌, length};

use crate::failure;
use std::env::Env;
use std::fs::File;
use std::io;

// What the variable's name starts with.
const START: &[u8] = b"CABBOOK_FILE_";

// More octets than the name of such a variable has.
const NAME: usize = 4096;

// More octets than the name of an open file has.
const LINK: usize = 64;

// The hexadecimal digits.
const DIGITS: [u8; 16] = *b"0123456789abcdef";

// Writes the start and the digits to the start of the room, as far as there is room, and answers how many octets that takes.
fn put_name(path: &[u8], room: &mut [u8]) -> usize
    ensures { result ≤ length room.new }
{
    let mut n: usize = 0;
    for octet in START {
        if n < room.len() {
            room[n] = *octet;
            n += 1;
        }
    }
    for octet in path {
        if n < room.len() && room.len() - n > 1 {
            room[n] = DIGITS[usize::from(*octet / 16)];
            room[n + 1] = DIGITS[usize::from(*octet % 16)];
            n += 2;
        }
    }
    n
}

// Opens the file that the variable of this name tells.
fn open_told(rt: HostRuntime, name: &[u8]) -> io::Result<File> {
    let Ok(name) = str::from_utf8(name) else {
        return Err(io::Error::from_raw_os_error(failure::NO_TEXT));
    };
    let mut link = [0u8; LINK];
    let Ok(n) = rt.var(name, &mut link) else {
        return Err(io::Error::from_raw_os_error(failure::NO_TEXT));
    };
    match str::from_utf8(&link[..n]) {
        Ok(path) => File::open(&rt, path),
        Err(_) => Err(io::Error::from_raw_os_error(failure::NO_TEXT)),
    }
}

// Opens the file of that name for reading.
pub(crate) fn open(rt: HostRuntime, path: &[u8]) -> io::Result<File> {
    match str::from_utf8(path) {
        Ok(name) => File::open(&rt, name),
        Err(_) => {
            let mut name = [0u8; NAME];
            let n = put_name(path, &mut name);
            open_told(rt, &name[..n])
        }
    }
}
