// A tag out of the chain after its closing step: the first p bits of the chain's value, as bytes in a
// lent slice, or compared with those that were received, over every byte (`differences`). The spare low
// bits of a tag's last byte are written as zeros, and a received tag has them zero, or it differs.
//
//     let n = tag::size(60);                            // 8 bytes
//     let counts = tag::write(made, 60, &mut space)?;   // or why no tag is written
//     let checked = tag::compare(made, 60, &received);  // its outcome is TagDiffers where the tag differs
//     let none = tag::compare(made, 0, &received);      // BadTagLength: there is no such tag
#![tactic(auto)]

ghost use Rattle.std.specs.Prelude.{◌≡◌, ◌-◌, ◌*◌, ◌%◌, ◌^◌, ◌<◌};
ghost use Rattle.numbers.specs.Told.{number, number_of};
ghost use Rattle.block.specs.Bits.{bytes};
ghost use Rattle.block.specs.Block.{cut, sixteen};
ghost use Rattle.tag.specs.Difference.{differences};
ghost use Rattle.tag.specs.Fault.{tag_number};
ghost use Rattle.tag.specs.Told.{told_made, told_checked};
ghost use Rattle.tag.specs.Promise.{SizePromise, RefusedPromise, SizeFaultPromise, WritePromise, ComparePromise};

use chain::Chain;
use keys::LONGEST_TAG;
use numbers::Refusal;
use std::array;

// In what two tags differ, each at the front of a block with zeros behind its bytes. Each of the sixteen
// bytes is looked at, whatever those before it gave, and the bits in which it differs are gathered; what
// was gathered is 0 exactly where the two are the same (`no_difference`, proofs/Difference.antt). A loop
// that left at the first difference would take longer the more of a forged tag is right. Of time
// nothing is proved: bench/same counts instructions. No other code in crates/ compares tags.
fn differences(x: [u8; 16], y: [u8; 16]) -> u8
    ensures { result ≡ differences 16 x y }
{
    let mut gathered = 0;
    // by the place, and not by zip: a wrong program that leaves out a byte is then refused for what it
    // gathers, and not for its iterator's type
    for at in 0..16 {
        gathered |= x[at] ^ y[at];
    }
    gathered
}

// The steps of each kind that a call took.
#[derive(Clone, Copy)]
pub struct Counts {
    pub whole: usize,
    pub four: usize,
}

impl From<Chain> for Counts {
    ghost from_gives = { λ made counts. counts ≡ record { whole = made.whole; four = made.four } };

    fn from(made: Chain) -> Counts {
        Counts {
            whole: made.whole,
            four: made.four,
        }
    }
}

// The verdict on a received tag, and the steps that it took: a tag that differs has them too.
#[derive(Clone, Copy)]
pub struct Checked {
    pub outcome: Result<(), Refusal>,
    pub counts: Counts,
}

// What a call that makes or checks a tag hands back, as it is told: its number, and the steps of each kind, none where
// it refuses.
#[derive(Clone, Copy)]
pub struct TagAnswer {
    pub number: u8,
    pub whole: usize,
    pub four: usize,
}

// Of a call that makes a tag.
impl From<Result<Counts, Refusal>> for TagAnswer {
    ghost from_gives = { λ outcome answer. answer ≡ told_made outcome };

    fn from(outcome: Result<Counts, Refusal>) -> TagAnswer {
        match outcome {
            Ok(counts) => TagAnswer {
                number: 0,
                whole: counts.whole,
                four: counts.four,
            },
            Err(why) => refused(numbers::told(Err(why))),
        }
    }
}

// Of a call that checks a tag.
impl From<Checked> for TagAnswer {
    ghost from_gives = { λ checked answer. answer ≡ told_checked checked };

    fn from(checked: Checked) -> TagAnswer {
        TagAnswer {
            number: numbers::told(checked.outcome),
            whole: checked.counts.whole,
            four: checked.counts.four,
        }
    }
}

// How many bytes a tag of so many bits occupies.
pub fn size(bits: u8) -> usize
    ensures { SizePromise bits result }
{
    (bits as usize).div_ceil(8)
}

// A refusal, by its number, which may be any, is told with no steps.
pub fn refused(number: u8) -> TagAnswer
    ensures { RefusedPromise number result }
{
    TagAnswer {
        number,
        whole: 0,
        four: 0,
    }
}

// The verdict where nothing was checked: why, and no steps.
// A function, and no From as `frame` has for its verdict: docs/WORDING.md has its promise, RefusedPromise, by its name.
pub fn unchecked(why: Refusal) -> Checked
    ensures { RefusedPromise (number_of why) (told_checked result) }
{
    Checked {
        outcome: Err(why),
        counts: Counts { whole: 0, four: 0 },
    }
}

// 3: a slice of n bytes is not of just the bytes of a tag of so many bits.
pub fn size_fault(bits: u8, n: usize) -> Result<(), Refusal>
    ensures { SizeFaultPromise bits n (number result) }
{
    if n == size(bits) {
        Ok(())
    } else {
        Err(Refusal::BadSize)
    }
}

// The first fault of a tag length and of a tag slice of n bytes.
fn fault(bits: u8, n: usize) -> Result<(), Refusal>
    ensures { number result ≡ tag_number bits n }
{
    keys::bits_fault(bits)?;
    size_fault(bits, n)
}

// How many of p bits stand in byte i of a block or after it.
fn bits_from(p: u8, i: usize) -> usize
    requires { i < 16 }
    ensures { result ≡ p - 8 * i }
{
    (p as usize).saturating_sub(8 * i)
}

// The first k bits of a byte, and then zeros; all of it where k is 8 or more.
fn kept_byte(byte: u8, k: usize) -> u8
    ensures { result ≡ byte - byte % 2 ^ (8 - k) }
{
    if k >= 8 {
        return byte;
    }
    if k == 0 {
        return 0;
    }
    byte - byte % (1u8 << (8 - k))
}

// The first p bits of a block, and then zeros. Of 128 bits, the tag length where none is said, that is
// the block as it is: going through it byte by byte would cost a tag over 100 instructions for nothing.
fn kept(x: [u8; 16], p: u8) -> [u8; 16]
    ensures { result ≡ sixteen (bytes (cut p x)) }
{
    if p as usize >= LONGEST_TAG {
        return x;
    }
    array::from_fn(|i| kept_byte(x[i], bits_from(p, i)))
}

// The tag into its slice: the first p bits of the chain's value after the closing step.
pub fn write(made: Chain, bits: u8, slice: &mut [u8]) -> Result<Counts, Refusal>
    ensures { WritePromise made bits slice.old (told_made result) slice.new }
{
    fault(bits, slice.len())?;
    let tag = kept(made.value, bits);
    slice.copy_from_slice(&tag[..slice.len()]);
    Ok(Counts::from(made))
}

// The verdict on a received tag. It stands at the front of a block, zeros behind it, and so does the tag
// that was made (`kept`). Nothing is masked on the received side: a spare bit that is set differs as any
// other bit does, so that a tag has one spelling.
pub fn compare(made: Chain, bits: u8, received: &[u8]) -> Checked
    ensures { ComparePromise made bits received.now (told_checked result) }
{
    if let Err(why) = fault(bits, received.len()) {
        return unchecked(why);
    }
    let differing = differences(block::read(received, 0), kept(made.value, bits));
    Checked {
        outcome: if differing == 0 {
            Ok(())
        } else {
            Err(Refusal::TagDiffers)
        },
        counts: Counts::from(made),
    }
}
