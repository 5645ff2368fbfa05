// The system as a program uses it: its arguments, files by number, the standard streams, and why the last call failed.
#![tactic(auto)]

mod failure;
mod odd;

ghost use Rattle.std.specs.Prelude.{◌≤◌, ◌≡◌, ◌<◌, length, IfSome};
ghost use Rattle.program_host.specs.Numbers.{Opened};
ghost use Rattle.std.specs.Io.{ReadsAtMost};

use std::env::{Env, FillError};
use std::fs::File;
use std::io;
use std::io::{IsTerminal, Read, Seek, SeekFrom};

// The number of standard input.
pub const STDIN: i32 = 0;

// The number of standard output.
pub const STDOUT: i32 = 1;

// The number of standard error.
pub const STDERR: i32 = 2;

// The number of the first file that is opened; those of the others follow it.
const FIRST: i32 = 3;

// The most files that are open at a time: one for each slot of a desk, and more.
const FILES: usize = 64;

// No file.
const NO_FILE: Option<File> = None;

// The system, the files that are open, and why the last call failed.
#[derive(Drop)]
pub struct Host {
    rt: HostRuntime,
    files: [Option<File>; FILES],
    error: io::Error,
}

// 4,096 zeros.
pub fn buffer() -> [u8; 4096]
    ensures { 4096 ≡ length result }
{
    [0; 4096]
}

// 65,536 zeros.
pub fn large_buffer() -> [u8; 65536]
    ensures { 65536 ≡ length result }
{
    [0; 65536]
}

// The place in the table of a number that is not that of a standard stream.
fn place_of(fd: i32) -> Option<usize> {
    if fd < FIRST {
        return None;
    }
    Some((fd - FIRST) as usize)
}

impl Host {
    // Before the first file is opened.
    pub fn new(rt: HostRuntime) -> Host {
        Host {
            rt,
            files: [NO_FILE; FILES],
            error: io::Error::from_raw_os_error(0),
        }
    }

    // Puts argument i at the start of the room, and answers its length; 0 where it is missing or longer than the room.
    pub fn arg(&self, i: usize, room: &mut [u8]) -> usize
        ensures { result ≤ length room.new }
    {
        self.rt.arg(i, room).unwrap_or(0)
    }

    // Whether argument i is there.
    fn has_arg(&self, i: usize) -> bool {
        let mut room = [0u8; 1];
        !matches!(self.rt.arg(i, &mut room), Err(FillError::NotPresent))
    }

    // How many arguments there are, the program's own name among them.
    pub fn arg_count(&self) -> usize {
        for n in 0..usize::MAX {
            if !self.has_arg(n) {
                return n;
            }
        }
        usize::MAX
    }

    // Puts argument i at the start of the room, and answers its length, or that it is missing or longer than the room.
    pub fn whole_arg(&mut self, i: usize, room: &mut [u8]) -> Option<usize>
        ensures { IfSome result (λ n. n ≤ length room.new) }
    {
        match self.rt.arg(i, room) {
            Ok(n) => Some(n),
            Err(FillError::TooLong) => {
                self.error = io::Error::from_raw_os_error(failure::TOO_LONG);
                None
            }
            Err(FillError::NotPresent) => {
                self.error = io::Error::from_raw_os_error(failure::INVALID);
                None
            }
        }
    }

    // The first place of the table that has no file.
    fn free_place(&self) -> Option<usize>
        ensures { IfSome result (λ k. k < 64) }
    {
        self.files.iter().position(|file| file.is_none())
    }

    // Opens the file of that name for reading, and answers its number.
    pub fn open_read(&mut self, path: &[u8]) -> Option<i32>
        ensures { Opened result }
    {
        let Some(k) = self.free_place() else {
            self.error = io::Error::from_raw_os_error(failure::TOO_MANY);
            return None;
        };
        match odd::open(self.rt, path) {
            Ok(file) => {
                self.files[k] = Some(file);
                Some(FIRST + k as i32)
            }
            Err(e) => {
                self.error = e;
                None
            }
        }
    }

    // The file of that number, if it is open.
    fn file(&mut self, fd: i32) -> Option<&mut File> {
        self.files.get_mut(place_of(fd)?)?.as_mut()
    }

    // Closes a file.
    pub fn close(&mut self, fd: i32) {
        let Some(k) = place_of(fd) else {
            return;
        };
        if k < FILES {
            self.files[k] = None;
        }
    }

    // Reads once, from standard input or a file that is open.
    fn read_some(&mut self, fd: i32, room: &mut [u8]) -> io::Result<usize>
        ensures { ReadsAtMost result room.new }
    {
        if fd == STDIN {
            return self.rt.stdin().read(room);
        }
        match self.file(fd) {
            Some(file) => file.read(room),
            None => Err(io::Error::from_raw_os_error(failure::NOT_OPEN)),
        }
    }

    // Reads once, from standard input or a file that is open, and answers how many octets, or that this failed.
    pub fn read(&mut self, fd: i32, room: &mut [u8]) -> Option<usize>
        ensures { IfSome result (λ n. n ≤ length room.new) }
    {
        match self.read_some(fd, room) {
            Ok(n) => Some(n),
            Err(e) => {
                self.error = e;
                None
            }
        }
    }

    // Goes to a place of a file that is open, and answers how far that is from its start; 0 where there is no going.
    fn seek(&mut self, fd: i32, to: SeekFrom) -> u64 {
        match self.file(fd) {
            Some(file) => file.seek(to).unwrap_or(0),
            None => 0,
        }
    }

    // Goes back to the start of a file that is open, where it can be read again.
    pub fn rewind(&mut self, fd: i32) {
        self.seek(fd, SeekFrom::Start(0));
    }

    // How many octets a file has that is open, where it can be read again; else 0.
    pub fn size(&mut self, fd: i32) -> u64 {
        let n = self.seek(fd, SeekFrom::End(0));
        self.rewind(fd);
        n
    }

    // Writes all of a text to standard output or standard error, and answers whether that was done.
    pub fn write_all(&mut self, to: i32, text: &[u8]) -> bool {
        let written = if to == STDOUT {
            io::Print::write_all(&self.rt.stdout(), text)
        } else if to == STDERR {
            io::Print::write_all(&self.rt.stderr(), text)
        } else {
            Err(io::Error::from_raw_os_error(failure::NOT_OPEN))
        };
        match written {
            Ok(()) => true,
            Err(e) => {
                self.error = e;
                false
            }
        }
    }

    // Whether standard error is a terminal.
    pub fn tells_terminal(&self) -> bool {
        self.rt.stderr().is_terminal()
    }

    // Writes a line to standard error: what failed, and why the last call did.
    pub fn fail(&mut self, what: &[u8]) {
        let mut text = [0u8; failure::TEXT];
        let n = failure::put_words(self.error, &mut text);
        self.write_all(STDERR, what);
        self.write_all(STDERR, b": ");
        self.write_all(STDERR, &text[..n]);
        self.write_all(STDERR, b"\n");
    }
}
