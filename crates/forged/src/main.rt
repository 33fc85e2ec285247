// A tag is made, bits of it are flipped as asked, and it is checked once: so that the instructions of a
// check can be counted, for right tags and for wrong ones (bench/same asks, docs/BENCH.md has it).
//
// Standard input is 18 bytes, none of them read as a digit: the call that checks, V for message::verify,
// C for stream::check, J for frame::judge, any other for none; the tag length, in bits; and a mask of
// sixteen bytes, which is added to the tag. Written are two digits of the number that the call gives, and
// two of the length of the body that it accepts, which judging a frame alone has.
#![tactic(auto)]

ghost use Rattle.std.specs.Prelude.{◌≤◌};

use frame::FrameAnswer;
use keys::KeySet;
use numbers::told;

// The file descriptors of standard input and output. (Why by `io`: crates/vectors/src/text.rt.)
const STDIN: i32 = 0;

const STDOUT: i32 = 1;

// What is tagged.
const BODY: [u8; 100] = [5; 100];

// How many of sixteen bytes are a tag's.
fn bytes_of(bits: u8) -> usize
    ensures { result ≤ 16 }
{
    tag::size(bits).min(16)
}

// The key set of a tag length, zeros where there is none.
fn set_for(bits: usize) -> KeySet {
    match keys::key_call(2, bits, &[7u8; 16], &[9u8; 16]) {
        Ok(made) => made.keys,
        Err(_) => keys::no_set(),
    }
}

// The tag, with the bits of the mask flipped.
fn spoilt(set: KeySet, mask: [u8; 16]) -> [u8; 16] {
    let mut tag = [0u8; 16];
    let n = bytes_of(set.bits);
    let _ = message::tag(set, &BODY, &mut tag[..n]);
    block::xor(tag, mask)
}

// The body, and a tag behind it.
fn frame_of(tag: [u8; 16]) -> [u8; 116] {
    let mut frame = [0u8; 116];
    frame[..100].copy_from_slice(&BODY);
    frame[100..].copy_from_slice(&tag);
    frame
}

// What a call answers to the tag, its number and the body's length; zeros for no call.
fn answer_of(call: u8, set: KeySet, tag: [u8; 16]) -> [u8; 2] {
    let n = bytes_of(set.bits);
    match call {
        b'V' => [told(message::verify(set, &BODY, &tag[..n]).outcome), 0],
        b'C' => {
            let start = stream::start();
            let added = stream::add(set, start, &BODY).unwrap_or(start);
            [told(stream::check(set, added, &tag[..n]).outcome), 0]
        }
        b'J' => {
            let v = FrameAnswer::from(frame::judge(set, &frame_of(tag)[..100 + n]));
            [v.number, (v.body % 256) as u8]
        }
        _ => [0, 0],
    }
}

// Of an input that is too short the rest is zeros.
fn main() {
    let mut asked = [0u8; 18];
    io::read_full(STDIN, &mut asked);
    let [call, bits, ..] = asked;
    let set = set_for(usize::from(bits));
    let answer = answer_of(call, set, spoilt(set, block::read(&asked, 2)));
    let mut text = [b'\n'; 5];
    let _ = hex_line::encode(&answer, &mut text);
    io::write_all(STDOUT, &text);
}
