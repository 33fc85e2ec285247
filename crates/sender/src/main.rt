// The program send: bodies on standard input, a frame line each on standard output. What a part of the
// input makes and tells is proved in the crate `session`, what surrounds that in `program`; what is read
// and written is tested.
#![tactic(auto)]

use program::Streams;

// The streams are taken here, in either program: a function of `program` that took them of a runtime would be a public
// promise more, for four lines.
fn main(rt: HostRuntime) {
    let streams = Streams {
        input: rt.stdin(),
        output: rt.stdout(),
        errors: rt.stderr(),
        name: b"send",
    };
    program::run(streams, session::SEND, u64::MAX);
}
