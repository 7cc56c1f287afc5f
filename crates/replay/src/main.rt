// Request 3's program: replays a day's log.
#![tactic(auto)]

use std::io;

fn main(rt: HostRuntime) -> io::Result<()> {
    log_day::replay(&mut rt.stdin(), &mut rt.stdout())
}
