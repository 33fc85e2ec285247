// Lines as they come, in parts of any size. A line that lies whole in a part is found and read where it
// lies. One that goes on in the next part is gathered in a space that does not grow with it: a line of
// more than 510 characters is too long whatever it holds, so 511 of them are kept, and the others are
// passed over.
//
//     let end = lines::find(&part, at);                       // a line feed stands there, or the part ends
//     let g = lines::gather(line, count, &part[at..end]);     // g.line has g.count characters of it
#![tactic(auto)]

ghost use Rattle.std.specs.Prelude.{◌≡◌, true, ◌≤◌, length, take};
ghost use Rattle.lines.specs.Lines.{plain};
ghost use Rattle.lines.specs.Promise.{TidyPromise, HeldPromise, GatherPromise, FindPromise};

// The character that ends a line.
pub const LINE_FEED: u8 = 10;

// As many characters are kept as make a line too long.
pub const KEPT: usize = 511;

// So many characters are looked at together.
const STRIDE: usize = 16;

// The line so far, with zeros behind its characters, and how many they are. Memory is fixed, so it is no Vec.
#[derive(Clone, Copy)]
pub struct Gathered {
    pub line: [u8; KEPT],
    pub count: usize,
}

// The first characters of a line, with zeros behind them. (The two arguments are what TidyPromise is of, as those of
// `gather` are GatherPromise's: an array and any count, which need be no Gathered.)
pub fn tidy(line: [u8; KEPT], count: usize) -> [u8; KEPT]
    ensures { TidyPromise line count result }
{
    let kept = held(count);
    let mut r = [0u8; KEPT];
    r[..kept].copy_from_slice(&line[..kept]);
    r
}

// How many characters are kept of so many.
pub fn held(count: usize) -> usize
    ensures { HeldPromise count result }
{
    count.min(KEPT)
}

// The line that the first characters of an array are, with more behind them, as many as are kept.
pub fn gather(line: [u8; KEPT], count: usize, more: &[u8]) -> Gathered
    ensures { GatherPromise line count more.now result }
{
    let mut r = tidy(line, count);
    let n = held(count);
    let end = n + more.len().min(KEPT - n);
    r[n..end].copy_from_slice(&more[..end - n]);
    Gathered {
        line: r,
        count: end,
    }
}

// True only where none of some characters is a line feed. There is no branch on a character, so that
// the compiler looks at all of them at once.
fn clear(some: &[u8]) -> bool
    ensures { result ≡ true → plain some.now ≡ some.now }
{
    let mut n: u8 = 0;
    for c in some {
        n |= (*c == LINE_FEED) as u8;
    }
    n == 0
}

// How many characters at the front of a part have no line feed, as far as sixteen at a time have none.
fn skip(part: &[u8]) -> usize
    ensures within { result ≤ length part.now }
    ensures passed { plain (take result part.now) ≡ take result part.now }
{
    let times = part.len() / STRIDE;
    // by an index: chunks_exact takes nine instructions for sixteen characters where this takes eight
    for k in 0..times {
        let n = k * STRIDE;
        if !clear(&part[n..n + STRIDE]) {
            return n;
        }
    }
    times * STRIDE
}

// How many characters of a part stand before its first line feed: all of them where it has none.
fn ahead(part: &[u8]) -> usize
    ensures { result ≡ length (plain part.now) }
{
    part.iter()
        .position(|c| *c == LINE_FEED)
        .unwrap_or(part.len())
}

// The place of the next line feed from a place on, or the end of the part where it has none.
pub fn find(part: &[u8], at: usize) -> usize
    ensures { FindPromise part.now at result }
{
    if at >= part.len() {
        return at;
    }
    let rest = &part[at..];
    let passed = skip(rest);
    at + passed + ahead(&rest[passed..])
}
