// A call run on a desk, with its answer in a log.
#![tactic(auto)]

ghost use Rattle.std.specs.Prelude.{◌≡◌, ◌≤◌, length};
ghost use Rattle.desk.specs.Answer.{answer};
ghost use Rattle.desk_ledger.specs.Desks.{said, ask_step, desk_step};
ghost use Rattle.replay_script.specs.Scripts.{width, query_of, call_of};
ghost use Rattle.replay_log.specs.Logs.{entry, Put};
ghost use Rattle.replay_call.specs.Stepped.{world_of, Stepped};

use desk::{Desk, Turn};
use replay_script::{call, numerals};

// The next desk, and how many octets of the log were written.
#[derive(Clone, Copy, Debug, PartialEq, Eq)]
pub struct After {
    pub desk: Desk,
    pub wrote: usize,
}

// Writes what the desk answered, and hands the next desk on.
fn put_turn(turn: Turn, log: &mut [u8]) -> After
    requires { length (entry (said (answer turn.answer))) ≤ length log.old }
    ensures { (result.desk ≡ turn.desk) × Put (entry (said (answer turn.answer))) log.old log.new result.wrote }
{
    After {
        desk: turn.desk,
        wrote: replay_log::put_answer(log, turn.answer),
    }
}

// Runs judge, show or held, by the octet that names the call, and answers how many octets of the log are written.
fn run_query(desk: Desk, pool: &[u8], name: u8, t: u32, log: &mut [u8]) -> usize
    requires { length (entry (ask_step (world_of desk pool.now) t (query_of name)).reply) ≤ length log.old }
    ensures { Put (entry (ask_step (world_of desk pool.now) t (query_of name)).reply) log.old log.new result }
{
    if name == call::JUDGE {
        return replay_log::put_verdict(log, desk.judge(pool, t));
    }
    if name == call::SHOW {
        return replay_log::put_part(log, desk.show(pool, t));
    }
    replay_log::put_answer(log, desk.held(pool, t))
}

// Runs the call at the start of s and writes its answer to the start of the log.
pub fn run_call(desk: Desk, s: &[u8], pool: &mut [u8], log: &mut [u8]) -> After
    requires bound { 1 ≤ width s.now }
    requires s_in_bounds { length (entry (desk_step (world_of desk pool.old) (call_of s.now)).reply) ≤ length log.old }
    ensures { Stepped (world_of desk pool.old) (call_of s.now) result.desk pool.new log.old log.new result.wrote }
{
    let b = s[0];
    let n = numerals::read_four(s, 1);
    if b == call::OPEN {
        let tick = numerals::read_four(s, call::LENGTH);
        return put_turn(desk.open(pool, n, tick), log);
    }
    if b == call::ADD {
        let tick = numerals::read_four(s, call::LENGTH);
        let end = call::CHUNK + numerals::read_two(s, call::OPENING) as usize;
        return put_turn(desk.add(pool, n, &s[call::CHUNK..end], tick), log);
    }
    if b == call::RELEASE {
        return put_turn(desk.release(pool, n), log);
    }
    After {
        desk: desk,
        wrote: run_query(desk, pool, b, n, log),
    }
}
