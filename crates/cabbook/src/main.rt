// cabbook: the workshop's command-line tool, which ends with the status that `cabbook_run` answers.
#![tactic(auto)]

ghost use Rattle.std.specs.Prelude.{◌≤◌};
ghost use Rattle.cabbook_tables.specs.Statuses as status;

use cabbook_output::Unwritten;
use cabbook_tables::status;
use program_host::Host;
use std::process::ExitCode;

// Runs the command that the arguments name, says where standard output can't be written, and answers the exit status.
pub fn cabbook_run(host: &mut Host) -> u8
    ensures { result ≤ status.failed }
{
    match cabbook_commands::start(host) {
        Ok(status) => status,
        Err(Unwritten) => {
            host.fail(b"cabbook: standard output");
            status::FAILED
        }
    }
}

// Ends with the exit status.
fn main(rt: HostRuntime) -> ExitCode {
    let mut host = Host::new(rt);
    ExitCode::from(cabbook_run(&mut host))
}
