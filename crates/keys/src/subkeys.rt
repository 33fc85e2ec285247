// The subkeys in their array: its two accessors, and Algorithm 2.1, which fills it. Nothing outside
// this file knows an offset in it.
ghost use Rattle.std.specs.Prelude.{◌≡◌, ◌+◌, ◌≤◌, ◌<◌};
ghost use Rattle.aes.specs.Cipher.{cipher};
ghost use Rattle.block.specs.Block.{◌⊕◌, numbered};
ghost use Rattle.keys.specs.Arrangement.{place_at};
ghost use Rattle.keys.specs.Promise.{UPartPromise, XKeyPromise};
ghost use Rattle.keys.specs.Store.{laid, stored, ran, taken};

// The first place of U's parts, and that of the auxiliary keys.
const PARTS: usize = 0;

const AUXES: usize = 15;

// The subkeys so far, and the steps taken for them.
#[derive(Clone, Copy)]
pub struct Taken {
    pub subkeys: [u8; 304],
    pub steps: usize,
}

// The sixteen bytes at a place, of which there are nineteen. (That stands at the three that take one: a type for a
// place would be no plainer.)
fn place_at(subkeys: &[u8; 304], n: usize) -> [u8; 16]
    requires { n < 19 }
    ensures { result ≡ place_at subkeys.now n }
{
    let mut r = [0u8; 16];
    r.copy_from_slice(&subkeys[16 * n..16 * n + 16]);
    r
}

// U_w^(j), for w from 1 to 5 and j from 1 to 3: what stands at its place, which the key call leaves
// zero beyond the order. Outside these, zeros.
pub fn u_part(subkeys: &[u8; 304], w: usize, j: usize) -> [u8; 16]
    ensures { UPartPromise subkeys.now w j result }
{
    if (1..=5).contains(&w) && (1..=3).contains(&j) {
        place_at(subkeys, 3 * (w - 1) + (j - 1))
    } else {
        [0; 16]
    }
}

// The auxiliary key K_j^xor, for j from 1 to 4: what stands at its place, which the key call leaves
// zero beyond the order. Outside these, zeros.
pub fn x_key(subkeys: &[u8; 304], j: usize) -> [u8; 16]
    ensures { XKeyPromise subkeys.now j result }
{
    if (1..=4).contains(&j) {
        place_at(subkeys, AUXES + (j - 1))
    } else {
        [0; 16]
    }
}

// The store: a block at a place.
fn put(subkeys: [u8; 304], n: usize, block: [u8; 16]) -> [u8; 304]
    requires { n < 19 }
    ensures { result ≡ laid subkeys n block }
{
    let mut r = subkeys;
    r[16 * n..16 * n + 16].copy_from_slice(&block);
    r
}

// What every step is taken with: the schedule of K, for E, and L.
#[derive(Clone, Copy)]
struct Source<'a> {
    round: &'a [u8; 176],
    l: [u8; 16],
}

impl<'a> Source<'a> {
    // One step: E of L ⊕ [counter], counted as it is taken, and its block at place n.
    fn take_one(&self, t: Taken, n: usize, counter: u8) -> Taken
        requires { (n < 19) × (t.steps < 19) }
        ensures { result ≡ stored t n (cipher self.now.round.now (self.now.l ⊕ numbered counter)) }
    {
        let block = aes::encrypt_block(self.round, block::xor(self.l, block::numbered(counter)));
        let before = t.subkeys;
        Taken {
            subkeys: put(before, n, block),
            steps: t.steps + 1,
        }
    }

    // n steps, their counters and their places one after the other.
    fn run(&self, t: Taken, place: usize, counter: u8, n: u8) -> Taken
        requires { (place + n ≤ 19) × (counter + n ≤ 19) × (t.steps + n ≤ 19) }
        ensures { result ≡ ran (cipher self.now.round.now) self.now.l place counter t n }
    {
        let mut r = t;
        for i in 0..n {
            r = self.take_one(r, place + i as usize, counter + i);
        }
        r
    }
}

// Algorithm 2.1 for the order d: its first loop makes the parts, its second the auxiliary keys.
pub(crate) fn made(round: &[u8; 176], l: [u8; 16], d: u8) -> Taken
    requires { (1 ≤ d) × (d ≤ 5) }
    ensures { result ≡ taken (cipher round.now) l d }
{
    let source = Source { round, l };
    let none = Taken {
        subkeys: [0; 304],
        steps: 0,
    };
    let parts = source.run(none, PARTS, 0, 3 * d);
    source.run(parts, AUXES, 3 * d, d - 1)
}
