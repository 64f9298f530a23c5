// A text is put on a sheet: a lent row of bytes, written from its front, and how far it is filled. What does not fit is left
// out, so nobody has to make room beforehand. These are functions and not std's Display, which promises its text on Ok alone.
#![tactic(auto)]

ghost use Rattle.std.specs.Prelude.{◌≡◌, [], ◌∷◌};
ghost use Rattle.texts.specs.Sheet.{sheet, put as ofSheet·put};
ghost use Rattle.texts.specs.Lent.{Puts};

#[derive(Drop)]
pub struct Sheet<'a> {
    pub bytes: &'a mut [u8],
    pub at: usize,
}

impl Sheet<'_> {
    // One byte more.
    #[tactic(auto, unfolding(crate::specs::Sheet::put, crate::specs::Sheet::puts))]
    pub fn put(&mut self, byte: u8)
        ensures { Puts (byte ∷ []) self.old self.new }
    {
        self.at = put(self.bytes, self.at, byte);
    }

    // A text more.
    #[tactic(auto, using(crate::proofs::Sheets::bytes_more, crate::proofs::Sheets::bytes_all), unfolding(crate::specs::Sheet::puts))]
    pub fn put_text(&mut self, text: &[u8])
        ensures { Puts text.now self.old self.new }
    {
        for &byte in text {
            self.put(byte);
        }
    }
}

// One byte more on a row that is filled up to this place, and the place after it.
#[tactic(auto, unfolding(crate::specs::Sheet::put))]
pub fn put(row: &mut [u8], at: usize, byte: u8) -> usize
    ensures { sheet row.new result ≡ ofSheet·put byte (sheet row.old at) }
{
    if at < row.len() {
        row[at] = byte;
        return at + 1;
    }
    at
}
