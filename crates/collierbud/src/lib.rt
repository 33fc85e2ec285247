// The library as C and Rust programs call it: a tag, its check, and the opening of a frame, each from
// an order, a tag length in bits, K and L. Nothing but numbers and slices goes in and out, and a slice
// crosses as a pointer and a length. include/collierbud.h says the same to a C program.
//
//     let number = collierbud_tag(2, 64, &k, &l, &text, &mut space, &mut counts);
//     let number = collierbud_check(2, 64, &k, &l, &text, &received, &mut counts);
//     let number = collierbud_open(2, 64, &k, &l, &frame, &mut counts);
//
// Each answers the number of the first fault: those of the key call, then 3 where the slice for the
// counts is not of just as many numbers, then those of the call under the key set that was made.
#![tactic(auto)]

ghost use Rattle.std.specs.Prelude.{◌≡◌, length};
ghost use Rattle.keys.specs.Told.{told_keys};
ghost use Rattle.tag.specs.Told.{told_made, told_checked};
ghost use Rattle.frame.specs.Told.{told_frame};
ghost use Rattle.collierbud.specs.Inner.{Starts, tagged_from, space_from, checked_from, opened_from, counted};
ghost use Rattle.collierbud.specs.Promise.{TagPromise, CheckPromise, OpenPromise};

use frame::{FrameAnswer, Judged};
use keys::{KeySet, Made};
use numbers::Refusal;
use tag::{Checked, Counts};

// The key set that was made, unless the key call refuses, or a slice for the counts has not just n places.
fn start(made: Result<Made, Refusal>, n: usize, places: usize) -> Result<KeySet, Refusal>
    ensures { Starts (told_keys made) n places result }
{
    let made = made?;
    if places == n {
        Ok(made.keys)
    } else {
        Err(Refusal::BadSize)
    }
}

// The tag of a message under the key set, where there is no fault before.
fn tagged<'a>(
    keys: Result<KeySet, Refusal>,
    message: &'a [u8],
    space: &'a mut [u8],
) -> Result<Counts, Refusal>
    ensures value { told_made result ≡ tagged_from keys message.now (length space.old) }
    ensures space_after { space.new ≡ space_from keys message.now space.old }
{
    message::tag(keys?, message, space)
}

// The verdict on a received tag, where there is no fault before.
fn checked<'a>(keys: Result<KeySet, Refusal>, message: &'a [u8], received: &'a [u8]) -> Checked
    ensures { told_checked result ≡ checked_from keys message.now received.now }
{
    match keys {
        Ok(keys) => message::verify(keys, message, received),
        Err(why) => tag::unchecked(why),
    }
}

// The verdict on a frame, where there is no fault before.
fn opened(keys: Result<KeySet, Refusal>, frame: &[u8]) -> Judged
    ensures { told_frame result ≡ opened_from keys frame.now }
{
    match keys {
        Ok(keys) => frame::judge(keys, frame),
        Err(why) => Judged::from(why),
    }
}

// What is counted into a slice of just as many numbers.
fn put(told: &[u64], counts: &mut [u64])
    ensures { counts.new ≡ counted told.now counts.old }
{
    if counts.len() == told.len() {
        counts.copy_from_slice(told);
    }
}

// The tag of a message under K and L, into a lent space of just its bytes.
#[unsafe(no_mangle)]
pub extern "C" fn collierbud_tag<'a>(
    order: usize,
    bits: usize,
    k: &'a [u8],
    l: &'a [u8],
    message: &'a [u8],
    space: &'a mut [u8],
    counts: &'a mut [u64],
) -> u8
    ensures { TagPromise order bits k.now l.now message.now space.old
        counts.old result space.new counts.new }
{
    let keys = start(keys::key_call(order, bits, k, l), 2, counts.len());
    let outcome = tagged(keys, message, space);
    let taken = outcome.unwrap_or(Counts { whole: 0, four: 0 });
    put(&[taken.whole as u64, taken.four as u64], counts);
    numbers::told(outcome.and(Ok(())))
}

// The verdict on a received tag for a message, under K and L.
#[unsafe(no_mangle)]
pub extern "C" fn collierbud_check<'a>(
    order: usize,
    bits: usize,
    k: &'a [u8],
    l: &'a [u8],
    message: &'a [u8],
    received: &'a [u8],
    counts: &'a mut [u64],
) -> u8
    ensures { CheckPromise order bits k.now l.now message.now received.now
        counts.old result counts.new }
{
    let keys = start(keys::key_call(order, bits, k, l), 2, counts.len());
    let a = checked(keys, message, received);
    put(&[a.counts.whole as u64, a.counts.four as u64], counts);
    numbers::told(a.outcome)
}

// The verdict on a frame under K and L: the body is the first bytes of the frame, as many as the third
// count says.
#[unsafe(no_mangle)]
pub extern "C" fn collierbud_open<'a>(
    order: usize,
    bits: usize,
    k: &'a [u8],
    l: &'a [u8],
    frame: &'a [u8],
    counts: &'a mut [u64],
) -> u8
    ensures { OpenPromise order bits k.now l.now frame.now counts.old
        result counts.new }
{
    let keys = start(keys::key_call(order, bits, k, l), 3, counts.len());
    let a = FrameAnswer::from(opened(keys, frame));
    put(&[a.whole as u64, a.four as u64, a.body as u64], counts);
    a.number
}
