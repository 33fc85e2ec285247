// A frame is a body, and behind it a tag; the order and the tag length come from the receiver's key
// set. It has at most 255 bytes, and at least one of them is the body's.
//
//     let judged = frame::judge(keys, &frame);               // judged.body is Ok where it is accepted
//     let body = frame::open(keys, &frame);                  // that part of the frame, or no bytes
//     let table = frame::open_or(keys, &frame, in_force);    // the body, or the table in force
#![tactic(auto)]

ghost use Rattle.std.specs.Prelude.{◌≡◌};
ghost use Rattle.numbers.specs.Told.{number, number_of};
ghost use Rattle.frame.specs.Frame.{frame_number, refused_frame};
ghost use Rattle.frame.specs.Told.{told_frame};
ghost use Rattle.frame.specs.Promise.{RefusedPromise, JudgePromise, OpenPromise, OpenOrPromise};

use keys::KeySet;
use numbers::Refusal;
use tag::Counts;

// The most bytes of a frame.
pub const LONGEST: usize = 255;

// The verdict on a frame: how long its body is, or why there is none; and the steps of each kind, which a
// tag that differs took too.
#[derive(Clone, Copy)]
pub struct Judged {
    pub body: Result<usize, Refusal>,
    pub counts: Counts,
}

// A verdict as it is told: its number, which `answer::tell` takes of any value, the steps of each kind, and how long
// its body is.
#[derive(Clone, Copy)]
pub struct FrameAnswer {
    pub number: u8,
    pub whole: usize,
    pub four: usize,
    pub body: usize,
}

impl From<Judged> for FrameAnswer {
    ghost from_gives = { λ judged answer. answer ≡ told_frame judged };

    fn from(judged: Judged) -> FrameAnswer {
        FrameAnswer {
            number: numbers::told(judged.body.and(Ok(()))),
            whole: judged.counts.whole,
            four: judged.counts.four,
            body: judged.body.unwrap_or(0),
        }
    }
}

// What is refused before its tag is looked at took no steps.
impl From<Refusal> for Judged {
    ghost from_gives = { λ why judged. told_frame judged ≡ refused_frame (number_of why) };

    fn from(why: Refusal) -> Judged {
        Judged {
            body: Err(why),
            counts: Counts { whole: 0, four: 0 },
        }
    }
}

// The first fault of a frame of n bytes, before its tag is looked at.
fn fault(keys: KeySet, n: usize) -> Result<(), Refusal>
    ensures { number result ≡ frame_number keys n }
{
    keys::set_fault(keys)?;
    if n > LONGEST {
        return Err(Refusal::BadLength);
    }
    if n <= tag::size(keys.bits) {
        return Err(Refusal::BadLength);
    }
    Ok(())
}

// A refusal, by its number, carries no counts and no length. (It stays, and by any number: RefusedPromise is of any
// number, and docs/WORDING.md names this call.)
pub fn refused(number: u8) -> FrameAnswer
    ensures { RefusedPromise number result }
{
    FrameAnswer {
        number,
        whole: 0,
        four: 0,
        body: 0,
    }
}

// The verdict on a frame: what stands before its tag is the message that the tag is checked for. There is
// no branch on what the check finds, so that a wrong tag takes as many instructions as the right one.
pub fn judge(keys: KeySet, frame: &[u8]) -> Judged
    ensures { JudgePromise keys frame.now (told_frame result) }
{
    if let Err(why) = fault(keys, frame.len()) {
        return Judged::from(why);
    }
    let end = frame.len() - tag::size(keys.bits);
    let v = message::verify(keys, &frame[..end], &frame[end..]);
    Judged {
        body: v.outcome.and(Ok(end)),
        counts: v.counts,
    }
}

// The body of an accepted frame, as that part of the frame; of a refused one, its first no bytes.
pub fn open<'a>(keys: KeySet, frame: &'a [u8]) -> &'a [u8]
    ensures { OpenPromise keys frame.entry result }
{
    open_or(keys, frame, &frame[..0])
}

// The body of an accepted frame, as that part of the frame; otherwise the table in force, whole.
pub fn open_or<'a>(keys: KeySet, frame: &'a [u8], table: &'a [u8]) -> &'a [u8]
    ensures { OpenOrPromise keys frame.entry table.entry result }
{
    match judge(keys, frame).body {
        Ok(length) => &frame[..length],
        Err(_) => table,
    }
}
