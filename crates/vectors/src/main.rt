// Runs published vectors of AES-128, of its four-round function and of doubling: tests/vectors says
// where they come from. (PC-MAC-AES has none: `probe` is questioned about it.)
//
// Standard input is lines of a letter and 32 hexadecimal digits, 34 bytes each:
//     K key     the key of the blocks that follow
//     P block   writes E of the block under that key
//     G block   writes G of the block under round keys 1, 2 and 3 of that key
//     D block   writes mul2 of the block
//     W key     writes the 44 words of the key's schedule, a line each
// A line that is none of these is answered by a question mark.
#![tactic(auto)]

mod text;

ghost use Rattle.std.specs.Prelude.{◌<◌};

use text::Line;

// The file descriptor of standard input.
const STDIN: i32 = 0;

// Round key i of a schedule.
fn round_key(w: &[u8; 176], i: usize) -> [u8; 16]
    requires { i < 11 }
{
    let (keys, _) = w.as_chunks::<16>();
    keys[i]
}

// G under round keys 1, 2 and 3: what four rounds of the cipher do, up to the fourth MixColumns.
fn four(w: &[u8; 176], block: [u8; 16]) -> [u8; 16] {
    aes::four_rounds(round_key(w, 1), round_key(w, 2), round_key(w, 3), block)
}

// Answers a line under the schedule w of the last key, which a line may change.
fn answer(w: &mut [u8; 176], line: Line) {
    let bytes = line.bytes;
    match line.letter {
        b'K' => *w = aes::expand_key(bytes),
        b'P' => text::write(&aes::encrypt_block(w, bytes)),
        b'G' => text::write(&four(w, bytes)),
        b'D' => text::write(&block::double(bytes)),
        b'W' => {
            for word in aes::expand_key(bytes).chunks_exact(4) {
                text::write(word);
            }
        }
        _ => text::write_unknown(),
    }
}

// A proved loop has to end, and nothing says that the input does: it has as many turns as no run uses up.
fn main() {
    let mut w = aes::expand_key([0u8; 16]);
    for _ in 0..u64::MAX {
        let mut text = [0u8; 34];
        if io::read_full(STDIN, &mut text) < text.len() {
            return;
        }
        match text::parsed(text) {
            Some(line) => answer(&mut w, line),
            None => text::write_unknown(),
        }
    }
}
