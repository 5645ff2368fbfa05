// Files: one is opened by its name, `-` for standard input, and its octets are read.
#![tactic(auto)]

ghost use Rattle.std.specs.Prelude.{◌≡◌};
ghost use Rattle.program_files.specs.Inputs.{Fetched, Descriptor};

use octets::cases::same_name;
use octets::slices::part;
use program_host::{Host, STDERR, STDIN};
use program_output::put_all;

// More octets than the name of a file can have.
const LONG: usize = 4096;

// The octets that are shown of a longer one.
const SHOWN: usize = 60;

// Opens the file of that name, `-` for standard input, and answers its descriptor.
fn open(host: &mut Host, path: &[u8]) -> Option<i32>
    ensures { Descriptor result }
{
    if same_name(path, b"-") {
        return Some(STDIN);
    }
    host.open_read(path)
}

// Adds a file's name, and of a longer text its start.
fn put_name(room: &mut [u8], path: &[u8]) -> usize {
    if path.len() < LONG {
        return program_visible::put_visible(room, 0, path);
    }
    let start_end = program_visible::put_visible(room, 0, part(path, 0, SHOWN));
    put_all(room, start_end, b"...")
}

// Says why a file can't be read.
fn complain(host: &mut Host, path: &[u8]) {
    let mut room = program_host::large_buffer();
    let n = put_name(&mut room, path);
    host.write_all(STDERR, part(&room, 0, n));
    host.fail(b": can't be read");
}

// Reads once to the start of the room, by way of the page, so that the octets past those read stay as they were, and answers how many octets.
fn read_by(host: &mut Host, fd: i32, room: &mut [u8], page: &mut [u8]) -> Option<usize>
    ensures { Fetched result room.old room.new }
{
    let want = room.len().min(page.len());
    let n = host.read(fd, &mut page[..want])?.min(want);
    octets::copying::copy_in(room, &page[..n]);
    Some(n)
}

// Reads once to the start of the room.
fn read_once(host: &mut Host, fd: i32, room: &mut [u8]) -> Option<usize>
    ensures { Fetched result room.old room.new }
{
    let mut page = program_host::buffer();
    read_by(host, fd, room, &mut page)
}

// Reads to the start of the room until that is full or the file ends, and answers how many octets, or none after saying that the file can't be read.
pub fn fetch(host: &mut Host, fd: i32, path: &[u8], room: &mut [u8]) -> Option<usize>
    ensures { Fetched result room.old room.new }
{
    let mut n: usize = 0;
    while n < room.len() {
        let Some(more) = read_once(host, fd, &mut room[n..]) else {
            complain(host, path);
            return None;
        };
        if more == 0 {
            return Some(n);
        }
        n += more;
    }
    Some(n)
}

// The descriptor with which a file was opened, or none after saying why it can't be read.
fn told(host: &mut Host, path: &[u8], fd: Option<i32>) -> Option<i32>
    ensures { result ≡ fd }
{
    if fd.is_none() {
        complain(host, path);
    }
    fd
}

// Opens the file of that name, `-` for standard input, and answers its descriptor, or none after saying why it can't be read.
pub fn open_named(host: &mut Host, path: &[u8]) -> Option<i32>
    ensures { Descriptor result }
{
    let fd = open(host, path);
    told(host, path, fd)
}

// Reads the file of that name to the start of the room, and answers how many octets, or none after saying why it can't be read.
pub fn read(host: &mut Host, path: &[u8], room: &mut [u8]) -> Option<usize>
    ensures { Fetched result room.old room.new }
{
    let fd = open_named(host, path)?;
    let got = fetch(host, fd, path, room);
    host.close(fd);
    got
}

// Opens the file that argument i names, and answers its descriptor, or none after saying why it can't be read.
pub fn open_argument(host: &mut Host, i: usize) -> Option<i32>
    ensures { Descriptor result }
{
    let mut path = program_host::large_buffer();
    let n = host.arg(i, &mut path);
    let fd = host.open_read(&path[..n]);
    told(host, &path[..n], fd)
}

// Reads from the file that argument i names and that is open.
pub fn fetch_argument(host: &mut Host, i: usize, fd: i32, room: &mut [u8]) -> Option<usize>
    ensures { Fetched result room.old room.new }
{
    let mut path = program_host::buffer();
    let n = host.arg(i, &mut path);
    fetch(host, fd, &path[..n], room)
}
