// The program check: frames on standard input, a verdict a line on standard output. What a part of the
// input makes and tells is proved in the crate `session`, what surrounds that in `program`; what is read
// and written is tested.
#![tactic(auto)]

use program::Streams;

// The streams are taken here, in either program: a function of `program` that took them of a runtime would be a public
// promise more, for four lines.
fn main(rt: HostRuntime) {
    let streams = Streams {
        input: rt.stdin(),
        output: rt.stdout(),
        errors: rt.stderr(),
        name: b"check",
    };
    program::run(streams, session::CHECK, u64::MAX);
}
