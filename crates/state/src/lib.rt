// The state of FIPS 197: four rows of four bytes, by value. Byte r + 4c of a block stands in row r,
// column c. Each function takes states and hands back a new one.
#![tactic(auto)]

ghost use Rattle.std.specs.Prelude.{◌≡◌, ◌*◌, ◌/◌, ◌%◌, ◌^◌, ◌<◌, [], get_or};
ghost use Rattle.field.specs.Field.{mul};
ghost use Rattle.state.specs.State.{word, xor_word, mix};
ghost use Rattle.state.specs.Promise.{LoadPromise, StorePromise, ShiftRowsPromise};
ghost use Rattle.state.specs.Promise.{MixColumnsPromise, XorWordPromise, AddRoundKeyPromise};

use std::array;

// The state of a block.
pub fn load(block: [u8; 16]) -> [[u8; 4]; 4]
    ensures { LoadPromise block result }
{
    [
        [block[0], block[4], block[8], block[12]],
        [block[1], block[5], block[9], block[13]],
        [block[2], block[6], block[10], block[14]],
        [block[3], block[7], block[11], block[15]],
    ]
}

// The block of a state. Written out, since by `array::from_fn(|i| s[i % 4][i / 4])` a block of E takes
// more instructions: 1,841 where this takes 1,832.
pub fn store(s: [[u8; 4]; 4]) -> [u8; 16]
    ensures { StorePromise s result }
{
    let a = s[0];
    let b = s[1];
    let c = s[2];
    let d = s[3];
    [
        a[0], b[0], c[0], d[0], a[1], b[1], c[1], d[1], a[2], b[2], c[2], d[2], a[3], b[3], c[3],
        d[3],
    ]
}

// ShiftRows: row r is turned to the left by r places.
pub fn shift_rows(s: [[u8; 4]; 4]) -> [[u8; 4]; 4]
    ensures { ShiftRowsPromise s result }
{
    let a = s[0];
    let b = s[1];
    let c = s[2];
    let d = s[3];
    [
        [a[0], a[1], a[2], a[3]],
        [b[1], b[2], b[3], b[0]],
        [c[2], c[3], c[0], c[1]],
        [d[3], d[0], d[1], d[2]],
    ]
}

// The sum of two words.
pub fn xor_word(p: [u8; 4], q: [u8; 4]) -> [u8; 4]
    ensures { XorWordPromise p q result }
{
    array::from_fn(|j| p[j] ^ q[j])
}

// The top digit of each byte. These four and the next are written out, since by `map` or `array::from_fn`
// the compiler makes of them more than one operation: a block of E then takes 1,913 or 2,048 instructions.
fn tops(p: [u8; 4]) -> [u8; 4]
    ensures { result ≡ word (λ j. get_or p j 0 / 128) }
{
    [p[0] >> 7, p[1] >> 7, p[2] >> 7, p[3] >> 7]
}

// Each byte moved up by N digits.
fn up<const N: u32>(p: [u8; 4]) -> [u8; 4]
    requires { N < 8 }
    ensures { result ≡ word (λ j. get_or p j 0 * 2 ^ N % 256) }
{
    [p[0] << N, p[1] << N, p[2] << N, p[3] << N]
}

// {02} times each byte: moved up, and {1b} added where the top digit was 1. {1b} is {03} and {03}
// moved up by three. Each line is one operation on all four bytes, which the compiler makes one
// operation on a 32-bit register.
fn doubled(p: [u8; 4]) -> [u8; 4]
    ensures { result ≡ word (λ j. mul 2 (get_or p j 0)) }
{
    let top = tops(p);
    let three = xor_word(top, up::<1>(top));
    xor_word(up::<1>(p), xor_word(three, up::<3>(three)))
}

// A row of MixColumns, from the row in its place and the three below it, around. {02}p + {03}q is
// {02}(p + q) + q: one doubling in place of two.
fn mix_row(p: [u8; 4], q: [u8; 4], t: [u8; 4], v: [u8; 4]) -> [u8; 4]
    ensures { result ≡ word (λ j. mix (get_or p j 0) (get_or q j 0) (get_or t j 0) (get_or v j 0)) }
{
    xor_word(xor_word(doubled(xor_word(p, q)), q), xor_word(t, v))
}

// MixColumns.
pub fn mix_columns(s: [[u8; 4]; 4]) -> [[u8; 4]; 4]
    ensures { MixColumnsPromise s result }
{
    let p = s[0];
    let q = s[1];
    let t = s[2];
    let v = s[3];
    [
        mix_row(p, q, t, v),
        mix_row(q, t, v, p),
        mix_row(t, v, p, q),
        mix_row(v, p, q, t),
    ]
}

// Row r of AddRoundKey.
fn add_row(s: [[u8; 4]; 4], k: [[u8; 4]; 4], r: usize) -> [u8; 4]
    requires { r < 4 }
    ensures { result ≡ xor_word (get_or s r []) (get_or k r []) }
{
    xor_word(s[r], k[r])
}

// AddRoundKey. Row by row: the check knows nothing of what a closure gives that is itself an array, so
// `from_fn` is for bytes alone.
pub fn add_round_key(s: [[u8; 4]; 4], k: [[u8; 4]; 4]) -> [[u8; 4]; 4]
    ensures { AddRoundKeyPromise s k result }
{
    [
        add_row(s, k, 0),
        add_row(s, k, 1),
        add_row(s, k, 2),
        add_row(s, k, 3),
    ]
}
