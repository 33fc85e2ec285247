// The fields of a question, which stand one after the other. A field that is not there, or is cut short,
// or longer than it may be, is none, and then there is no question.
ghost use Rattle.std.specs.Prelude.{◌≡◌, length, IfSome};

use keys::KeySet;
use stream::Stream;

// The bytes of a question that are not read yet.
#[derive(Drop)]
pub(crate) struct Fields<'a> {
    pub rest: &'a [u8],
}

// What fields are laid into: the first bytes field of a call, its second, and the space that is lent to it,
// each as long as it may be.
#[derive(Drop)]
pub(crate) struct Room {
    pub first: [u8; 1048577],
    pub second: [u8; 4096],
    pub space: [u8; 1024],
}

impl Room {
    pub(crate) fn new() -> Room {
        Room {
            first: [0u8; 1048577],
            second: [0u8; 4096],
            space: [0u8; 1024],
        }
    }
}

impl<'a> Fields<'a> {
    // The next bytes, as many as asked.
    fn part(&mut self, n: usize) -> Option<&'a [u8]>
        ensures { IfSome result (λ p. length p.now ≡ n) }
    {
        let (part, rest) = self.rest.split_at_checked(n)?;
        self.rest = rest;
        Some(part)
    }

    // The next bytes, as many as the array has.
    fn array<const N: usize>(&mut self) -> Option<[u8; N]> {
        let (part, rest) = self.rest.split_first_chunk::<N>()?;
        self.rest = rest;
        Some(*part)
    }

    // Nothing stands behind the last field.
    pub(crate) fn end(&self) -> Option<()> {
        self.rest.is_empty().then_some(())
    }

    pub(crate) fn byte(&mut self) -> Option<u8> {
        let [byte] = self.array::<1>()?;
        Some(byte)
    }

    // A length, in two bytes.
    fn short(&mut self) -> Option<usize> {
        Some(usize::from(u16::from_be_bytes(self.array::<2>()?)))
    }

    // A length, in four.
    fn long(&mut self) -> Option<usize> {
        Some(u32::from_be_bytes(self.array::<4>()?) as usize)
    }

    pub(crate) fn number(&mut self) -> Option<usize> {
        Some(usize::from_be_bytes(self.array::<8>()?))
    }

    pub(crate) fn key_set(&mut self) -> Option<KeySet> {
        let order = self.byte()?;
        let bits = self.byte()?;
        let round = self.array::<176>()?;
        let subkeys = self.array::<304>()?;
        let full = self.array::<16>()?;
        let short = self.array::<16>()?;
        Some(KeySet {
            order,
            bits,
            round,
            subkeys,
            full,
            short,
        })
    }

    pub(crate) fn stream(&mut self) -> Option<Stream> {
        let total = self.number()?;
        let value = self.array::<16>()?;
        let held = self.array::<16>()?;
        let count = self.number()?;
        let whole = self.number()?;
        let four = self.number()?;
        Some(Stream {
            total,
            value,
            held,
            count,
            whole,
            four,
        })
    }

    // Bytes, laid into a space: they are written out, or given by a pattern.
    pub(crate) fn bytes<'b>(&mut self, into: &'b mut [u8]) -> Option<&'b [u8]> {
        match self.byte()? {
            0 => self.spelt(into),
            1 => self.patterned(into),
            _ => None,
        }
    }

    fn spelt<'b>(&mut self, into: &'b mut [u8]) -> Option<&'b [u8]> {
        let n = self.short()?;
        let part = into.get_mut(..n)?;
        part.copy_from_slice(self.part(n)?);
        Some(part)
    }

    // Each byte is the one before it and a step, modulo 256.
    fn patterned<'b>(&mut self, into: &'b mut [u8]) -> Option<&'b [u8]> {
        let part = into.get_mut(..self.long()?)?;
        let mut next = self.byte()?;
        let step = self.byte()?;
        for byte in part.iter_mut() {
            *byte = next;
            next = next.wrapping_add(step);
        }
        Some(part)
    }

    // The space that is lent, filled.
    pub(crate) fn space<'b>(&mut self, into: &'b mut [u8]) -> Option<&'b mut [u8]> {
        let part = into.get_mut(..self.short()?)?;
        part.fill(self.byte()?);
        Some(part)
    }
}
