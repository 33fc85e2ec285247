// The step of a program of lines: what it makes of some bytes of its input, however that is cut. The
// first line is the key line. Of a program that checks each later line is a frame, and it is answered by
// the verdict; of one that sends it is a body, and it is answered by its frame. A refused key line ends
// either: check answers that line, send does not, and nothing more is answered.
//
//     let s = session::begin(session::CHECK);
//     let a = session::step(s, &part, &mut space);    // a.taken bytes of the part are read, and the
//                                                     // texts are &space[..a.written]
//     let e = session::finish(a.state, &mut space);    // a last line may lack its line feed
#![tactic(auto)]

ghost use Rattle.std.specs.Prelude.{◌≡◌, [], length, ◌≤◌};
ghost use Rattle.lines.specs.Moves.{Wrote};
ghost use Rattle.numbers.specs.Told.{number_of};
ghost use Rattle.keys.specs.Told.{told_keys};
ghost use Rattle.session.specs.Session.{width, key_turn, key_tell, line_tell, refusal_tell, session_of, reader_of, state_of};
ghost use Rattle.session.specs.Inner.{Tells, TellsLine, Ready, Turned, Tidy, Within, Passed};
ghost use Rattle.session.specs.Promise.{WidthPromise, BeginPromise, IsOverPromise, StepPromise, FinishPromise};

use answer::ANSWER;
use frame::Judged;
use keys::{KeySet, Made};
use lines::{KEPT, LINE_FEED};
use numbers::Refusal;
use outgoing::MOST_TEXT;

// The kinds of a program: one that checks, which every number but the other's is, and one that sends. A kind
// and a stage are numbers and no enums: `State` is public, and `begin`, `width` and `step` answer every one
// (`check_in_parts` speaks of each kind).
pub const CHECK: u8 = 0;

pub const SEND: u8 = 1;

// The key line is awaited; other lines are; or the key line was refused, and nothing more is answered.
const AWAITS_KEYS: u8 = 0;

const HAS_KEYS: u8 = 1;

const OVER: u8 = 2;

// What is kept from one part of the input to the next: what the lines so far have made of it, and the
// line that is begun. Memory is fixed, so the line is an array with how many characters it has, and no Vec.
#[derive(Clone, Copy)]
pub struct State {
    pub kind: u8,
    pub stage: u8,
    pub keys: KeySet,
    pub line: [u8; KEPT],
    pub count: usize,
}

// What a step answers: the state after it, how many bytes of the part it took, and how many bytes of texts
// it wrote.
#[derive(Clone, Copy)]
pub struct Stepped {
    pub state: State,
    pub taken: usize,
    pub written: usize,
}

// What a line makes of a session, its stage as `State` has it, and how long the text is that was told at it.
#[derive(Clone, Copy)]
struct Told {
    stage: u8,
    keys: KeySet,
    written: usize,
}

// How long the text at a line may be in a program of a kind.
#[tactic(auto, unfolding(crate::specs::Session::width))]
pub fn width(kind: u8) -> usize
    ensures { WidthPromise kind result }
{
    if kind == SEND { MOST_TEXT } else { ANSWER }
}

// The state of a program of a kind at the start: the key line is awaited.
#[tactic(auto, unfolding(crate::specs::Session::begun))]
pub fn begin(kind: u8) -> State
    ensures { BeginPromise kind result }
{
    let awaited = Told {
        stage: AWAITS_KEYS,
        keys: keys::no_set(),
        written: 0,
    };
    fresh(kind, awaited)
}

// Whether the key line was refused: nothing more is answered.
#[tactic(auto, unfolding(crate::specs::Session::over))]
pub fn is_over(s: State) -> bool
    ensures { IsOverPromise s result }
{
    s.stage >= OVER
}

// Tells the text at a line behind the key line, at the front of a space: how long it is. (That the space has room for
// a text stands at each that is lent one: a type of the lent space and the kind would be no plainer.)
fn tell(kind: u8, keys: KeySet, line: &[u8], space: &mut [u8]) -> usize
    requires { width kind ≤ length space.old }
    ensures { Wrote (line_tell kind keys line.now) space.old 0 result space.new }
{
    if kind == SEND {
        return outgoing::tell(keys, line, space);
    }
    answer::tell(answer::of_line(keys, line).into(), space)
}

// Tells that a key line is refused, at the front of a space: how long that is. One that sends says nothing of it.
fn refusal_told(kind: u8, why: Refusal, space: &mut [u8]) -> usize
    requires { width kind ≤ length space.old }
    ensures { Wrote (refusal_tell kind (number_of why)) space.old 0 result space.new }
{
    if kind == SEND {
        return 0;
    }
    answer::tell(Judged::from(why).into(), space)
}

// After the key line: where it is refused, what the program tells of that.
fn keys_told(kind: u8, made: Result<Made, Refusal>, space: &mut [u8]) -> Told
    requires { width kind ≤ length space.old }
    ensures { Tells (key_turn (told_keys made)) (key_tell kind (told_keys made)) space.old result space.new }
{
    match made {
        Ok(made) => Told {
            stage: HAS_KEYS,
            keys: made.keys,
            written: 0,
        },
        Err(why) => Told {
            stage: OVER,
            keys: keys::no_set(),
            written: refusal_told(kind, why, space),
        },
    }
}

// After a line.
#[tactic(auto, using(lines::proofs::Telling::wrote_none), unfolding(crate::specs::Session::turn_of, crate::specs::Session::tell_of))]
fn line_told(s: State, line: &[u8], space: &mut [u8]) -> Told
    requires { width s.kind ≤ length space.old }
    ensures { TellsLine s.kind (session_of s.stage s.keys) line.now space.old result space.new }
{
    match s.stage {
        AWAITS_KEYS => keys_told(s.kind, keyline::read(line), space),
        HAS_KEYS => Told {
            stage: s.stage,
            keys: s.keys,
            written: tell(s.kind, s.keys, line, space),
        },
        _ => Told {
            stage: s.stage,
            keys: s.keys,
            written: 0,
        },
    }
}

// The state behind a line: none is begun.
#[tactic(auto, unfolding(crate::specs::Session::state_of, lines::specs::Gather::laid))]
fn fresh(kind: u8, t: Told) -> State
    ensures { result ≡ state_of kind (record { session = session_of t.stage t.keys; line = [] }) }
{
    State {
        kind,
        stage: t.stage,
        keys: t.keys,
        line: [0; KEPT],
        count: 0,
    }
}

// One line more, or what the part has of it: its characters are gathered, and where its line feed is
// there too, it is answered.
#[tactic(auto, using(crate::proofs::Turning::gathered_within))]
fn take_turn(t: Stepped, part: &[u8], space: &mut [u8]) -> Stepped
    requires { Ready t part.now space.old }
    ensures { Turned t part.now space.old result space.new }
{
    let s = t.state;
    let end = lines::find(part, t.taken);
    let g = lines::gather(s.line, s.count, &part[t.taken..end]);
    if end >= part.len() {
        return Stepped {
            state: State {
                line: g.line,
                count: g.count,
                ..s
            },
            taken: end,
            written: t.written,
        };
    }
    let told = line_told(s, &g.line[..g.count], &mut space[t.written..]);
    Stepped {
        state: fresh(s.kind, told),
        taken: end + 1,
        written: t.written + told.written,
    }
}

// Where the key line has come and no line is begun, the lines that lie whole in the part, each read where it
// lies: the keys stay where they are, and no state is made for a line. No iterator goes over them, as a line
// feed is looked for among sixteen characters at a time.
fn pass_whole(t: Stepped, part: &[u8], space: &mut [u8]) -> Stepped
    requires { Tidy t.state × Within t part.now space.old }
    ensures { Passed t part.now space.old result space.new }
{
    let s = t.state;
    if s.stage != HAS_KEYS || s.count != 0 {
        return t;
    }
    let keys = s.keys;
    let most = width(s.kind);
    let mut at = t.taken;
    let mut out = t.written;
    while at < part.len() && space.len() - out >= most {
        let stop = lines::find(part, at);
        if stop >= part.len() {
            break;
        }
        out += tell(s.kind, keys, &part[at..stop], &mut space[out..]);
        at = stop + 1;
    }
    Stepped {
        state: s,
        taken: at,
        written: out,
    }
}

// The state with nothing behind the characters of its line.
#[tactic(auto, unfolding(crate::specs::Session::state_of, crate::specs::Session::reader_of))]
fn tidied(s: State) -> State
    ensures { result ≡ state_of s.kind (reader_of s) }
{
    State {
        line: lines::tidy(s.line, s.count),
        count: lines::held(s.count),
        ..s
    }
}

// Takes as much of a part as the space has room for the texts at; with a space under the width, nothing. A
// line that lies whole in the part is read where it lies; one that goes on behind it, or that was begun
// before it, is gathered, and so is the key line.
pub fn step(s: State, part: &[u8], space: &mut [u8]) -> Stepped
    ensures { StepPromise s part.now space.old result space.new }
{
    let most = width(s.kind);
    let start = Stepped {
        state: tidied(s),
        taken: 0,
        written: 0,
    };
    let mut t = pass_whole(start, part, space);
    while t.taken < part.len() && space.len() - t.written >= most {
        t = pass_whole(take_turn(t, part, space), part, space);
    }
    t
}

// The end of the input: a last line may lack its line feed. It wants a space of the width, as step does.
pub fn finish(s: State, space: &mut [u8]) -> Stepped
    ensures { FinishPromise s space.old result space.new }
{
    if s.count == 0 {
        return step(s, &[], space);
    }
    step(s, &[LINE_FEED], space)
}
