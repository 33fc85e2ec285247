// Blocks of 16 bytes, as NEC's specification of PC-MAC-AES uses them: exclusive or, a number as a
// block, doubling in GF(2^128), padding; and a block out of a slice. Blocks go by value.
#![tactic(auto)]

ghost use Rattle.std.specs.Prelude.{◌≡◌, ◌++◌, ◌+◌, ◌*◌, ◌/◌, ◌%◌, ◌<◌, get_or, take};
ghost use Rattle.block.specs.Block.{shifted};
ghost use Rattle.block.specs.Promise.{XorPromise, NumberedPromise, DoublePromise};
ghost use Rattle.block.specs.Promise.{JoinPromise, PadPromise, ReadPromise};

use std::array;

// What doubling adds where a bit is shifted out.
const REDUCTION: u8 = 0x87;

// x ⊕ y.
pub fn xor(x: [u8; 16], y: [u8; 16]) -> [u8; 16]
    ensures { XorPromise x y result }
{
    array::from_fn(|i| x[i] ^ y[i])
}

// [i]: the number as 128 bits, big endian. (Here and in `shift` a u128 was tried; std has laws of the bytes of
// smaller numbers alone, and the proof did not close.)
pub fn numbered(i: u8) -> [u8; 16]
    ensures { NumberedPromise i result }
{
    [0, 0, 0, 0, 0, 0, 0, 0, 0, 0, 0, 0, 0, 0, 0, i]
}

// A byte moved up by one bit, with the top bit of the byte after it.
fn moved(byte: u8, next: u8) -> u8
    ensures { result ≡ byte * 2 % 256 + next / 128 }
{
    (byte << 1) + (next >> 7)
}

// x ≪ 1.
fn shift(x: [u8; 16]) -> [u8; 16]
    ensures { result ≡ shifted x }
{
    array::from_fn(|i| moved(x[i], x.get(i + 1).copied().unwrap_or(0)))
}

// mul2(x). The block 0^120 ‖ 10000111 is [0x87].
pub fn double(x: [u8; 16]) -> [u8; 16]
    ensures { DoublePromise x result }
{
    if x[0] < 128 {
        return shift(x);
    }
    xor(shift(x), numbered(REDUCTION))
}

// The byte at place i of the first n bytes of a block with a part behind them; 0 where both have ended.
fn byte_at(x: [u8; 16], n: usize, part: &[u8], i: usize) -> u8
    requires { i < 16 }
    ensures { result ≡ get_or (take n x ++ part.now) i 0 }
{
    if i < n {
        x[i]
    } else {
        part.get(i - n).copied().unwrap_or(0)
    }
}

// The first n bytes of a block with a part behind them, as far as sixteen bytes go, and then zeros. (A block and how
// many of its bytes, also in `pad`: JoinPromise and PadPromise are of the two.)
pub fn join(x: [u8; 16], n: usize, part: &[u8]) -> [u8; 16]
    ensures { JoinPromise x n part.now result }
{
    array::from_fn(|i| byte_at(x, n, part, i))
}

// Sixteen bytes of a slice, from `at` on, and zeros where it has ended.
pub fn read(bytes: &[u8], at: usize) -> [u8; 16]
    ensures { ReadPromise bytes.now at result }
{
    let rest = bytes.get(at..).unwrap_or(&[]);
    match rest.first_chunk() {
        Some(block) => *block,
        None => join([0; 16], 0, rest),
    }
}

// pad of the first n bytes of a block: a full block stays, a shorter one gets 80 and then zeros.
pub fn pad(x: [u8; 16], n: usize) -> [u8; 16]
    ensures { PadPromise x n result }
{
    if n >= 16 {
        return x;
    }
    let mut r = read(&x[..n], 0);
    r[n] = 0x80;
    r
}
