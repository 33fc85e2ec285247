// What is counted: chains of blocks, of which the schedule is made once and each block goes through
// one public call; streams; and messages at once. bench/count asks, docs/BENCH.md has the figures.
//
// Standard input is a letter and a digit: E or G, and how many times 4,096 blocks. Or a letter and
// two digits, of which the second is the order: S, how many streams of 1 MiB, in one part, are added
// to and closed; T, how many messages of 100 bytes are tagged in one call. The last block of the
// chain or the last tag is written, 16 bytes.
#![tactic(auto)]

ghost use Rattle.std.specs.Prelude.{◌<◌};

use keys::KeySet;

// The file descriptors of standard input and output. (Why by `io`: crates/vectors/src/text.rt.)
const STDIN: i32 = 0;

const STDOUT: i32 = 1;

// What is counted, done so many times over sixteen bytes, which begin as zeros.
fn repeated<F: Fn(&mut [u8; 16])>(times: usize, step: F) -> [u8; 16]
    requires { F.IsAlwaysCallable step }
{
    let mut bytes = [0u8; 16];
    for _ in 0..times {
        step(&mut bytes);
    }
    bytes
}

// The last block of a chain of E.
fn encrypted(blocks: usize) -> [u8; 16] {
    let w = aes::expand_key([7u8; 16]);
    repeated(blocks, |block| *block = aes::encrypt_block(&w, *block))
}

// The last block of a chain of G under U1, U2, U3, which are E of the blocks of ones, twos and threes.
fn four(blocks: usize) -> [u8; 16] {
    let w = aes::expand_key([7u8; 16]);
    let u1 = aes::encrypt_block(&w, [1u8; 16]);
    let u2 = aes::encrypt_block(&w, [2u8; 16]);
    let u3 = aes::encrypt_block(&w, [3u8; 16]);
    repeated(
        blocks,
        |block| *block = aes::four_rounds(u1, u2, u3, *block),
    )
}

// The key set of an order, zeros where there is none.
fn set_for(order: usize) -> KeySet {
    match keys::key_call(order, 128, &[7u8; 16], &[9u8; 16]) {
        Ok(made) => made.keys,
        Err(_) => keys::no_set(),
    }
}

// The tag of a stream of 1 MiB, made so many times.
fn streamed(order: usize, times: usize) -> [u8; 16] {
    let set = set_for(order);
    let part = [5u8; 1048576];
    repeated(times, |tag| {
        let start = stream::start();
        let added = stream::add(set, start, &part).unwrap_or(start);
        let _ = stream::close(set, added, tag);
    })
}

// The tag of a message of 100 bytes, made so many times.
fn tagged(order: usize, times: usize) -> [u8; 16] {
    let set = set_for(order);
    let message = [5u8; 100];
    repeated(times, |tag| {
        let _ = message::tag(set, &message, tag);
    })
}

// The digit's value, 0 where it is none.
fn value(digit: u8) -> usize
    ensures { result < 10 }
{
    match digit {
        b'0'..=b'9' => usize::from(digit - b'0'),
        _ => 0,
    }
}

fn main() {
    let mut asked = [0u8; 3];
    io::read_full(STDIN, &mut asked);
    let [letter, times, order] = asked;
    let n = value(times);
    let last = match letter {
        b'S' => streamed(value(order), n),
        b'T' => tagged(value(order), n),
        b'E' => encrypted(4096 * n),
        _ => four(4096 * n),
    };
    io::write_all(STDOUT, &last);
}
