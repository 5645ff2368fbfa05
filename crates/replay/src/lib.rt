// Replaying a record of calls: a script of them is run on a fresh desk, and the answers are written to a log.
#![tactic(auto)]

ghost use Rattle.std.specs.Prelude.{◌≡◌, true, ◌≤◌, length};
ghost use Rattle.octets.specs.Scan.{scan};
ghost use Rattle.desk_slots.specs.Sound.{bounds};
ghost use Rattle.desk.specs.Steps.{new_step};
ghost use Rattle.desk_ledger.specs.Ticks.{run_ticked, after_ticked};
ghost use Rattle.desk_ledger.specs.Desks.{desk_step};
ghost use Rattle.replay_script.specs.Scripts.{width, calls_in, decode};
ghost use Rattle.replay_log.specs.Logs.{written, Put};
ghost use Rattle.replay_call.specs.Stepped.{world_of};
ghost use Rattle.replay.specs.Outcome.{answered, replayed, played, replay_outcome};

use desk::Desk;
use numbers::limit;
use numbers::refusal::{Reason, Refusal};

// How many calls were run, and how many octets of the log are written.
#[derive(Clone, Copy, Debug, PartialEq, Eq)]
pub struct Run {
    pub calls: usize,
    pub wrote: usize,
}

// Runs the calls of a script one after the other, and answers how many octets of the log are written.
fn run_all(desk: Desk, script: &[u8], pool: &mut [u8], log: &mut [u8]) -> usize
    requires script_value { scan width script.now 0 ≡ length script.now }
    requires script_in_bounds { length (written (run_ticked desk_step (world_of desk pool.old) (calls_in script.now 0))) ≤ length log.old }
    ensures pool_after { pool.new ≡ (after_ticked desk_step (world_of desk pool.old) (calls_in script.now 0)).pool }
    ensures put { Put (written (run_ticked desk_step (world_of desk pool.old) (calls_in script.now 0))) log.old log.new result }
{
    let mut d = desk;
    let mut at: usize = 0;
    let mut to: usize = 0;
    while at < script.len() {
        let w = replay_script::width(&script[at..]);
        let r = replay_call::run_call(d, &script[at..], pool, &mut log[to..]);
        let next = r.desk;
        d = next;
        to += r.wrote;
        at += w;
    }
    to
}

// Runs a script on a fresh desk, or refuses with 90, 91 or 92.
fn play(
    slots: usize,
    desk: Desk,
    script: &[u8],
    pool: &mut [u8],
    log: &mut [u8],
) -> Result<Run, Refusal>
    requires { (bounds slots 1 ≡ true) × (desk ≡ (new_step slots).desk) }
    ensures { replayed (answered result) pool.new log.new ≡ played slots pool.old log.old (decode script.now) }
{
    let counted = replay_script::count(script)?;
    let size = pool.len();
    if size != slots * limit::OCTETS {
        return Err(Refusal(Reason::ReplayPool, size));
    }
    let room = log.len();
    if !replay_log::has_room(counted.calls, counted.shows, room) {
        return Err(Refusal(Reason::ReplayLog, room));
    }
    let wrote = run_all(desk, script, pool, log);
    Ok(Run {
        calls: counted.calls,
        wrote,
    })
}

// Makes a desk and runs a script on it: the calls run and the octets written, or 26, 90, 91 or 92, which change nothing.
pub fn replay(slots: usize, script: &[u8], pool: &mut [u8], log: &mut [u8]) -> Result<Run, Refusal>
    ensures { replayed (answered result) pool.new log.new ≡ replay_outcome slots script.now pool.old log.old }
{
    let turn = Desk::new(slots);
    turn.answer?;
    play(slots, turn.desk, script, pool, log)
}
