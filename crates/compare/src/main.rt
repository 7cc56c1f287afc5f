// Request 12's program: replays a log through both trees and reports their pages.
#![tactic(auto)]

use std::io;

fn main(rt: HostRuntime) -> io::Result<()> {
    compare_input::compare(&mut rt.stdin(), &mut rt.stdout())
}
