// The plain engine of PC-MAC-AES: the steps of Algorithm 2.2 (NEC's specification, section 2.5) over
// lent keys. What stands above hands in round keys and subkeys as they lie in a key set, and no
// table: E and G are called here, and E by the key call for its own steps.
//
//     let c = engine::absorb(2, &round, &subkeys, 0, begun, &part);   // the whole blocks of a part
//     let made = engine::seal(&round, full, short, c, last, n);       // and the last, of n bytes
#![tactic(auto)]

ghost use Rattle.std.specs.Prelude.{◌≡◌, ◌+◌, ◌%◌, ◌≤◌, ◌<◌, take};
ghost use Rattle.pcmac.specs.Functions.{G};
ghost use Rattle.chain.specs.Walk.{stepped};
ghost use Rattle.keys.specs.Arrangement.{u_part};
ghost use Rattle.engine.specs.Engine.{chain_step, roomy, closing};
ghost use Rattle.engine.specs.Promise.{StepPromise, AbsorbPromise, SealPromise};

use chain::Chain;

// Half of what a count can hold. A part has fewer blocks than the other half, so a count up to here
// has room for all of them.
const COUNT_LIMIT: usize = 9223372036854775808;

// What the steps of a chain are taken under: the round keys of E, and the subkeys.
#[derive(Clone, Copy)]
struct Keys<'a> {
    round: &'a [u8; 176],
    subkeys: &'a [u8; 304],
}

impl<'a> Keys<'a> {
    // G under U_w.
    fn four(self, w: usize, x: [u8; 16]) -> [u8; 16]
        ensures { result ≡ G (u_part self.entry.subkeys.now w) x }
    {
        let u1 = keys::u_part(self.subkeys, w, 1);
        let u2 = keys::u_part(self.subkeys, w, 2);
        let u3 = keys::u_part(self.subkeys, w, 3);
        aes::four_rounds(u1, u2, u3, x)
    }

    // One step of the chain: the value s and the block b at place w of the cycle.
    fn step(self, w: usize, s: [u8; 16], b: [u8; 16]) -> [u8; 16]
        ensures { StepPromise self.entry.round.now self.entry.subkeys.now w s b result }
    {
        if w == 0 {
            return aes::encrypt_block(self.round, block::xor(s, b));
        }
        if w == 1 {
            return self.four(1, block::xor(s, b));
        }
        let x = keys::x_key(self.subkeys, w - 1);
        self.four(w, block::xor(block::xor(s, x), b))
    }

    // The same, counted as it is taken.
    fn take_step(self, w: usize, c: Chain, b: [u8; 16]) -> Chain
        requires { (c.whole < 18446744073709551615) × (c.four < 18446744073709551615) }
        ensures { result ≡ stepped (chain_step self.entry.round.now self.entry.subkeys.now) w b c }
    {
        let value = self.step(w, c.value, b);
        if w == 0 {
            Chain {
                value,
                whole: c.whole + 1,
                four: c.four,
            }
        } else {
            Chain {
                value,
                whole: c.whole,
                four: c.four + 1,
            }
        }
    }
}

// One step of the chain under these keys: the value s and the block b at place w of the cycle. (The public calls
// take the arrays, which their promises are of.)
pub fn step<'a>(
    round: &'a [u8; 176],
    subkeys: &'a [u8; 304],
    w: usize,
    s: [u8; 16],
    b: [u8; 16],
) -> [u8; 16]
    ensures { StepPromise round.now subkeys.now w s b result }
{
    Keys { round, subkeys }.step(w, s, b)
}

// The place after w in the cycle of the order d, carried from block to block, so that none takes a division.
fn place_after(d: usize, w: usize) -> usize
    requires { (d < 256) × (w ≤ d) }
    ensures { result ≡ (w + 1) % (d + 1) }
{
    if w < d { w + 1 } else { 0 }
}

// Whether the counts of a chain have room for the blocks of any part.
fn has_room(c: Chain) -> bool
    ensures { result ≡ roomy c }
{
    c.whole <= COUNT_LIMIT && c.four <= COUNT_LIMIT
}

// The chain after the whole blocks of a part, taken where they lie, which follow the first `done`
// blocks of the message; a chain whose counts leave no room is handed back as it is.
pub fn absorb<'a>(
    order: u8,
    round: &'a [u8; 176],
    subkeys: &'a [u8; 304],
    done: usize,
    c: Chain,
    part: &'a [u8],
) -> Chain
    ensures { AbsorbPromise order round.now subkeys.now done c part.now result }
{
    if !has_room(c) {
        return c;
    }
    let keys = Keys { round, subkeys };
    let d = order as usize;
    let (blocks, _) = part.as_chunks::<16>();
    let mut r = c;
    let mut w = done % (d + 1);
    for b in blocks {
        r = keys.take_step(w, r, *b);
        w = place_after(d, w);
    }
    r
}

// What the closing step encrypts, of a last block of n bytes.
fn closing(full: [u8; 16], short: [u8; 16], s: [u8; 16], last: [u8; 16], n: usize) -> [u8; 16]
    ensures { result ≡ closing full short s (take n last) }
{
    let h = block::xor(s, block::pad(last, n));
    if n >= 16 {
        return block::xor(full, h);
    }
    block::xor(short, h)
}

// The chain after the closing step over the first n bytes of the last block: its value is what the
// tag is cut from. A chain whose counts leave no room is handed back as it is. (SealPromise is of the block and n.)
pub fn seal(
    round: &[u8; 176],
    full: [u8; 16],
    short: [u8; 16],
    c: Chain,
    last: [u8; 16],
    n: usize,
) -> Chain
    ensures { SealPromise round.now full short c last n result }
{
    if !has_room(c) {
        return c;
    }
    let s = c.value;
    let whole = c.whole;
    let value = aes::encrypt_block(round, closing(full, short, s, last, n));
    Chain {
        value,
        whole: whole + 1,
        four: c.four,
    }
}
