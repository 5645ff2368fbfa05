// `report`: the counts of the files' judgements, a row a count, and a bar before each where that is asked for.
ghost use Rattle.std.specs.Prelude.{IfOk};
ghost use Rattle.cabbook_output.specs.Ends.{Status};

use cabbook_options::arguments;
use cabbook_options::names::Switch;
use cabbook_options::words::Words;
use cabbook_output::{Ended, Unwritten};
use cabbook_tables::status;
use numbers::{count, limit};
use octets::indices::wide_number;
use program_host::{Host, STDERR, STDOUT};
use report::Report;

// More octets than the rows of a report have with their bars.
const PAGE: usize = 8192;

// The report so far, and the exit status of what could not be counted.
#[derive(Clone, Copy)]
struct Gathered {
    report: Report,
    status: u8,
}

// Reads the file that argument i names, and says where that fails.
fn read_argument(host: &mut Host, i: usize, room: &mut [u8]) -> Option<usize> {
    let mut path = program_host::large_buffer();
    let n = host.arg(i, &mut path);
    program_files::read(host, &path[..n], room)
}

// Reads the file that argument i names; one that can't be opened was told before.
fn read_again(host: &mut Host, i: usize, room: &mut [u8]) -> Option<usize> {
    let mut path = program_host::large_buffer();
    let n = host.arg(i, &mut path);
    let fd = host.open_read(&path[..n])?;
    let got = program_files::fetch(host, fd, &path[..n], room);
    host.close(fd);
    got
}

// Takes the judgement of a file's octets.
fn take(host: &mut Host, g: Gathered, s: &[u8]) -> Gathered {
    let t = g.report.take(s);
    match t.answer {
        Ok(()) => Gathered {
            report: t.report,
            status: g.status,
        },
        Err(_) => {
            host.write_all(STDERR, b"cabbook: the report is full\n");
            Gathered {
                report: t.report,
                status: status::FAILED,
            }
        }
    }
}

// Takes the judgement of what was read of a file; one that was not read is not counted.
fn take_read(host: &mut Host, g: Gathered, got: Option<usize>, room: &[u8]) -> Gathered {
    let Some(n) = got else {
        return Gathered {
            report: g.report,
            status: status::FAILED,
        };
    };
    take(host, g, octets::slices::part(room, 0, n.min(room.len())))
}

// Takes the judgement of the file that argument i names.
fn take_argument(host: &mut Host, g: Gathered, i: usize, again: bool) -> Gathered {
    let mut room = [0u8; limit::READ_ROOM];
    if again {
        let got = read_again(host, i, &mut room);
        return take_read(host, g, got, &room);
    }
    let got = read_argument(host, i, &mut room);
    take_read(host, g, got, &room)
}

// Takes the judgements of the files that the arguments name.
fn gather(host: &mut Host, w: Words, count: usize, again: bool) -> Gathered {
    let mut g = Gathered {
        report: Report::new(),
        status: status::ACCEPTED,
    };
    let mut next = arguments::first_file(host, w, count);
    while let Some(i) = next {
        g = take_argument(host, g, i, again);
        next = arguments::next_file(host, i + 1, w.dashes, count);
    }
    g
}

// Adds the rows of a report, with bars where they are asked for.
fn put_rows(room: &mut [u8], r: Report, bars: bool) -> Result<usize, Unwritten> {
    if bars {
        return Ok(cabbook_report::put_bars(room, &r.counts));
    }
    r.print(room).map_err(|_| Unwritten)
}

// Prints a report, with bars where they are asked for.
fn print_rows(host: &mut Host, r: Report, bars: bool) -> Result<(), Unwritten> {
    let mut room = [0u8; PAGE];
    let n = put_rows(&mut room, r, bars)?;
    cabbook_output::send(host, STDOUT, &room, n)
}

// The exit status: what could not be counted, or whether an upload was refused.
fn status_of(g: Gathered) -> u8
    ensures { Status result }
{
    if g.status != status::ACCEPTED {
        return status::FAILED;
    }
    let counts = g.report.counts;
    if wide_number(counts[count::ACCEPTED]) < wide_number(counts[count::UPLOADS]) {
        return status::REFUSED;
    }
    status::ACCEPTED
}

// Prints the report of the files that the arguments name, and answers the exit status.
pub(crate) fn report_files(host: &mut Host, w: Words, count: usize) -> Ended
    ensures { IfOk result Status }
{
    let g = gather(host, w, count, false);
    print_rows(host, g.report, w.has(Switch::Bars))?;
    Ok(status_of(g))
}

// Prints the report of files that were uploaded, behind an empty line, and answers the exit status; that of the uploads where it is written.
pub(crate) fn print_after(host: &mut Host, w: Words, count: usize, status: u8) -> Ended
    requires { Status status }
    ensures { IfOk result Status }
{
    cabbook_output::written(host.write_all(STDOUT, b"\n"))?;
    let g = gather(host, w, count, true);
    print_rows(host, g.report, false)?;
    Ok(status)
}
