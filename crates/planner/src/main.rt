// The listing program: calls on a plan, one a line, from standard input to its end; an answer for each on
// standard output. All but the reads and the writes is `listing`'s.
#![tactic(auto)]

use std::io;

fn main(rt: HostRuntime) -> io::Result<()> {
    listing::run(&mut rt.stdin(), &mut rt.stdout())
}
