// What a host lends, and values laid over it: definitions and laws, and a page that is filled byte by byte.
#![tactic(auto)]

// A lent buffer that is filled from its start on, and the place up to which it is filled.
#[derive(Drop)]
pub struct Page<'a> {
    pub out: &'a mut [u8],
    pub at: usize,
}

impl Page<'_> {
    ghost use Rattle.std.specs.Prelude.{◌∷◌, []};
    ghost use Rattle.lent.specs.Page.{HasRoomFor, Puts};

    #[tactic(auto, using(crate::proofs::Putting::put_one))]
    pub fn put_byte(&mut self, byte: u8)
        requires { HasRoomFor self.old (byte ∷ []) }
        ensures { Puts self.old (byte ∷ []) self.new }
    {
        self.out[self.at] = byte;
        self.at += 1;
    }

    // Byte by byte: the library's copy calls `memmove`, which a host need not have.
    pub fn put_bytes(&mut self, bytes: &[u8])
        requires { HasRoomFor self.old bytes.now }
        ensures { Puts self.old bytes.now self.new }
    {
        for (i, byte) in bytes.iter().enumerate() {
            self.out[self.at + i] = *byte;
        }
        self.at += bytes.len();
    }
}
