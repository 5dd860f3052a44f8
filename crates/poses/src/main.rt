//! Reads frame records from standard input and lists their poses on standard output.
#![tactic(auto)]

use listing_program::command::start;
use listing_program::stream::Streams;

fn main(rt: HostRuntime) {
    let mut streams = Streams {
        input: rt.stdin(),
        output: rt.stdout(),
        errors: rt.stderr(),
    };
    start(&rt, &mut streams);
}
