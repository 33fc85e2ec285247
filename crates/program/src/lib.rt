// What surrounds the step of a program of lines: it reads standard input, has what came answered, and
// writes the texts to standard output, until the input ends, the session is over, or a read or a write
// fails. No contract can see what a read brought or a write did. So what a read gave is an argument of
// `hear`, whether a write failed is told by the reason that is handed back, and of `run` it is promised
// that there are turns, each of them one that `hear` permits, by which it ends as it does.
//
//     fn main(rt: HostRuntime) {
//         let streams = program::Streams {
//             input: rt.stdin(),
//             output: rt.stdout(),
//             errors: rt.stderr(),
//             name: b"check",
//         };
//         program::run(streams, session::CHECK, u64::MAX);
//     }
#![tactic(auto)]

ghost use Rattle.std.specs.Prelude.{◌≡◌, ◌≤◌, length, IfOk};
ghost use Rattle.program.specs.Given.{got_of, interrupted_of};
ghost use Rattle.program.specs.Reason.{told_of, answered, ended, ended_space};
ghost use Rattle.program.specs.Hear.{HearPromise};
ghost use Rattle.program.specs.Promise.{RunPromise};

mod streams;

use session::State;
use std::io;
use std::io::{ErrorKind, Read};
pub use streams::Streams;

// Why a turn ended, or the loop: more may be read; nothing more is answered; the input has ended; a read
// failed; a write did; or the input has ended, and the space has no room for a last text.
#[derive(Clone, Copy, Debug, PartialEq, Eq)]
pub enum Reason {
    GoesOn,
    SessionOver,
    InputEnded,
    ReadFailed,
    WriteFailed,
    NoRoom,
}

// The bytes that are read at a time, at most.
const READ: usize = 65536;

// The bytes of texts that are written at a time, at most: 780 verdicts, or 69 frame lines of bodies of 100
// bytes with tags of 16, where a full read brings 281 such frames or 326 such bodies. They are cleared for
// each part, so they are not many more.
const SPACE: usize = 16384;

// The room for the text at a last line that lacks its line feed.
const LAST: usize = 4096;

// What was made of a read: why the turn ended, and the state after it; the state that was given where the
// read or a write failed.
#[derive(Clone, Copy)]
pub struct Heard {
    pub reason: Reason,
    pub state: State,
}

// Why the loop ended, how many reads were left, and the state at its end.
#[derive(Clone, Copy)]
pub struct Ran {
    pub reason: Reason,
    pub reads: u64,
    pub state: State,
}

// After a part of the input, of which all texts were written.
#[tactic(auto, unfolding(crate::specs::Reason::told_of))]
fn told(state: State) -> Heard
    ensures { result ≡ told_of state }
{
    let reason = if session::is_over(state) {
        Reason::SessionOver
    } else {
        Reason::GoesOn
    };
    Heard { reason, state }
}

// Answers a part of the input: as much of it as a space has room for the texts at, again and again,
// and what was written goes out each time.
fn answer(streams: Streams<'_>, s: State, part: &[u8]) -> io::Result<Heard>
    requires { 1 ≤ length part.now }
    ensures { IfOk result (λ h. h ≡ answered s part.now) }
{
    let mut space = [0; SPACE];
    let mut state = s;
    let mut rest = part;
    while !rest.is_empty() {
        let stepped = session::step(state, rest, &mut space);
        streams.write_all(&space[..stepped.written])?;
        state = stepped.state;
        rest = &rest[stepped.taken..];
    }
    Ok(told(state))
}

// The end of the input: a last line may lack its line feed.
#[tactic(auto, unfolding(crate::specs::Reason::end_reason, crate::specs::Reason::ended, crate::specs::Reason::ended_space))]
fn finish(streams: Streams<'_>, s: State, space: &mut [u8]) -> io::Result<Heard>
    ensures told { IfOk result (λ h. h ≡ ended s space.old) }
    ensures left { space.new ≡ ended_space s space.old }
{
    let reason = if space.len() < session::width(s.kind) {
        Reason::NoRoom
    } else {
        Reason::InputEnded
    };
    let stepped = session::finish(s, space);
    streams.write_all(&space[..stepped.written])?;
    Ok(Heard {
        reason,
        state: stepped.state,
    })
}

// What is made of a read: of what it gave, and of what it brought. The texts go to standard output, and that
// the read or a write failed is said. A read that failed is no end of the input: the line that is begun is
// not answered; one that was only interrupted is made again. The space is for the text at a last line that
// lacks its line feed.
#[tactic(auto, using(crate::proofs::Hearing::interrupted_tells), unfolding(crate::specs::Hear::hears, crate::specs::Hear::hears_space))]
pub fn hear(
    streams: Streams<'_>,
    s: State,
    given: io::Result<usize>,
    input: &[u8],
    space: &mut [u8],
) -> Heard
    ensures { HearPromise s (got_of given) (interrupted_of given) input.now space.old result space.new }
{
    let n = match given {
        Ok(n) => n.min(input.len()),
        Err(why) if why.kind() == ErrorKind::Interrupted => {
            return Heard {
                reason: Reason::GoesOn,
                state: s,
            };
        }
        Err(why) => {
            streams.complain(b": standard input cannot be read: ", why);
            return Heard {
                reason: Reason::ReadFailed,
                state: s,
            };
        }
    };
    let heard = match n {
        0 => finish(streams, s, space),
        _ => answer(streams, s, &input[..n]),
    };
    match heard {
        Ok(heard) => heard,
        Err(why) => {
            streams.complain(b": standard output cannot be written: ", why);
            Heard {
                reason: Reason::WriteFailed,
                state: s,
            }
        }
    }
}

// The program of a kind, of at most so many reads: how it ended, how many were left, and the state at its
// end. It goes turn by turn, a read each, and what failed is said. A proved loop has to end, and nothing
// says that the input does. (A line that is begun when no read is left is not answered: 2^64 - 1 reads are
// more than any run makes.)
pub fn run(streams: Streams<'_>, kind: u8, reads: u64) -> Ran
    ensures { RunPromise kind reads result }
{
    let mut input = [0; READ];
    let mut space = [0; LAST];
    let mut from = streams.input;
    let mut s = session::begin(kind);
    for left in (0..reads).rev() {
        let given = from.read(&mut input);
        let heard = hear(streams, s, given, &input, &mut space);
        if heard.reason != Reason::GoesOn {
            return Ran {
                reason: heard.reason,
                reads: left,
                state: heard.state,
            };
        }
        s = heard.state;
    }
    Ran {
        reason: Reason::GoesOn,
        reads: 0,
        state: s,
    }
}
