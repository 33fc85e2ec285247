// The substitution of FIPS 197, section 5.1.1, by its table: built once for a call, and lent down.
ghost use Rattle.std.specs.Prelude.{◌≡◌};
ghost use Rattle.field.specs.Sbox.{sub_byte, sbox_table};
ghost use Rattle.state.specs.State.{sub_bytes};
ghost use Rattle.aes.specs.Schedule.{sub_word};

// The table, which is S(x) at each x.
#[derive(Clone, Copy)]
pub(crate) struct Substitution {
    table: [u8; 256],
    ghost is_sbox: { table ≡ sbox_table },
}

impl Substitution {
    pub(crate) fn new() -> Self {
        Substitution {
            table: field::sbox(),
        }
    }

    // S of a byte.
    fn byte(&self, x: u8) -> u8
        ensures { result ≡ sub_byte x }
    {
        self.table[x as usize]
    }

    // SubWord, and SubBytes of a row.
    pub(crate) fn word(&self, t: [u8; 4]) -> [u8; 4]
        ensures { result ≡ sub_word t }
    {
        t.map(|x| self.byte(x))
    }

    // SubBytes, row by row: the check knows nothing of a closure's array.
    pub(crate) fn state(&self, s: [[u8; 4]; 4]) -> [[u8; 4]; 4]
        ensures { result ≡ sub_bytes s }
    {
        [
            self.word(s[0]),
            self.word(s[1]),
            self.word(s[2]),
            self.word(s[3]),
        ]
    }
}
