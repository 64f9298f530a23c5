// A plant file as one word of a line: signs stand for the bytes that could not stand in a word, every other byte for itself.
#![tactic(auto)]

mod signs;

ghost use Rattle.std.specs.Prelude.{◌≡◌};
ghost use Rattle.texts.specs.Sheet.{sheet, puts};
ghost use Rattle.texts.specs.Lent.{Puts};
ghost use Rattle.file_word.specs.FileWord.{is_file, unpacked, packed_byte, packed};

use crate::signs::Sign;
use texts::Sheet;

// Whether a word is a file: each backslash begins a sign, and the sign is whole.
#[tactic(auto, using(crate::proofs::Unpacking::judged_more, crate::proofs::Unpacking::judged_end), unfolding(crate::specs::FileWord::is_file, crate::specs::FileWord::is_over))]
pub fn is_file(word: &[u8]) -> bool
    ensures { result ≡ is_file word.now }
{
    let mut sign = Sign::Over;
    for &byte in word {
        sign = sign.with(byte).sign;
    }
    sign == Sign::Over
}

// Puts the bytes that a word stands for on a lent row, from its front, and hands back how many they are.
#[tactic(auto, using(crate::proofs::Unpacking::unpacked_more, crate::proofs::Unpacking::unpacked_end), unfolding(crate::specs::FileWord::unpacked))]
pub fn unpack(word: &[u8], out: &mut [u8]) -> usize
    ensures { sheet out.new result ≡ puts (unpacked word.now) (sheet out.old 0) }
{
    let mut sheet = Sheet { bytes: out, at: 0 };
    let mut sign = Sign::Over;
    for &byte in word {
        let step = sign.with(byte);
        step.put_given(&mut sheet);
        sign = step.sign;
    }
    sheet.at
}

// Puts the bytes of a file on a sheet as they stand in one word.
#[tactic(auto, using(crate::proofs::Packing::packed_more, crate::proofs::Packing::packed_all), unfolding(crate::specs::FileWord::packed, texts::specs::Sheet::puts))]
pub fn put_packed(sheet: &mut Sheet<'_>, bytes: &[u8])
    ensures { Puts (packed bytes.now) sheet.old sheet.new }
{
    for &byte in bytes {
        put_byte(sheet, byte);
    }
}

#[tactic(auto, unfolding(texts::specs::Text::text, laws::specs::Fills::tabulate, crate::specs::FileWord::packed_byte))]
fn put_byte(sheet: &mut Sheet<'_>, byte: u8)
    ensures { Puts (packed_byte byte) sheet.old sheet.new }
{
    match byte {
        b'\t' => sheet.put_text(b"\\t"),
        b'\n' => sheet.put_text(b"\\n"),
        _ => sheet.put(byte),
    }
}
