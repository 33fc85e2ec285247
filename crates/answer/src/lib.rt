// What the checking program says of a frame line: the verdict, and its text. The text is two digits of
// number, eight of whole-cipher steps, eight of four-round steps and two of body length, in
// hexadecimal, and a line feed.
//
//     let judged = answer::of_line(keys, &line);
//     let written = answer::tell(judged.into(), &mut space);    // the text is &space[..written]
#![tactic(auto)]

ghost use Rattle.std.specs.Prelude.{◌≡◌};
ghost use Rattle.frame.specs.Told.{told_frame};
ghost use Rattle.answer.specs.Text.{answer_bytes};
ghost use Rattle.answer.specs.Promise.{OfLinePromise, TellPromise};

use frame::{FrameAnswer, Judged};
use keys::KeySet;
use lines::LINE_FEED;

// The bytes of an answer's text.
pub const ANSWER: usize = 21;

// The verdict on a frame line. It is decoded first, and only a decoded line is judged as a frame.
pub fn of_line(keys: KeySet, line: &[u8]) -> Judged
    ensures { OfLinePromise keys line.now (told_frame result) }
{
    let mut space = [0u8; 255];
    match hex_line::decode(line, &mut space) {
        Ok(end) => frame::judge(keys, &space[..end]),
        Err(why) => Judged::from(why),
    }
}

// An answer as bytes; of a count the last four, of a body length the last.
fn bytes_of(a: FrameAnswer) -> [u8; 10]
    ensures { result ≡ answer_bytes a }
{
    let [_, _, _, _, w3, w2, w1, w0] = a.whole.to_be_bytes();
    let [_, _, _, _, f3, f2, f1, f0] = a.four.to_be_bytes();
    let [_, _, _, _, _, _, _, body] = a.body.to_be_bytes();
    [a.number, w3, w2, w1, w0, f3, f2, f1, f0, body]
}

// Writes the text of an answer at the front of a lent space, its bytes in hexadecimal and a line feed,
// and hands back how long it is; where the space has not room for it, nothing.
pub fn tell(a: FrameAnswer, space: &mut [u8]) -> usize
    ensures { TellPromise a space.old result space.new }
{
    if space.len() < ANSWER {
        return 0;
    }
    let Ok(end) = hex_line::encode(&bytes_of(a), space) else {
        return 0;
    };
    space[end] = LINE_FEED;
    end + 1
}
