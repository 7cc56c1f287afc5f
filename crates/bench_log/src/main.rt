// The same program on a longer log.
#![tactic(auto)]

use std::io;

fn main(rt: HostRuntime) -> io::Result<()> {
    log_day::replay(&mut rt.stdin(), &mut rt.stdout())
}
