// Numbers of up to 64 bits as decimal text: read from a word, and put on a sheet. A word that is no such number is refused
// and never cut short.
#![tactic(auto)]

ghost use Rattle.std.specs.Prelude.{◌%◌, ◌≡◌, [], ◌∷◌};
ghost use Rattle.texts.specs.Sheet.{sheet, puts};
ghost use Rattle.texts.specs.Lent.{Puts};
ghost use Rattle.decimals.specs.Decimals.{sign, decimal, number_after, number_of, plain_of};

use texts::{Sheet, put};

const BASE: u64 = 10;

// A number more on the sheet.
pub fn put_number(sheet: &mut Sheet<'_>, n: u64)
    ensures { Puts (decimal n) sheet.old sheet.new }
{
    sheet.at = put_digits(sheet.bytes, sheet.at, n);
}

// What stands before the last digit, and then that digit. By the row and the place: through a sheet each digit waits for the
// place that the one before stored, and a plant file took twice as long.
#[tactic(auto, using(crate::proofs::Digits::put_one, crate::proofs::Digits::put_more), unfolding(texts::specs::Sheet::puts))]
fn put_digits(row: &mut [u8], at: usize, n: u64) -> usize
    ensures { sheet row.new result ≡ puts (decimal n) (sheet row.old at) }
{
    if n < BASE {
        return put(row, at, last_sign(n));
    }
    let next = put_digits(row, at, n / BASE);
    put(row, next, last_sign(n))
}

fn last_sign(n: u64) -> u8
    ensures { result ≡ sign (n % 10) }
{
    b'0' + (n % BASE) as u8
}

// What a word says, read as a number.
#[tactic(auto, using(crate::proofs::Reading::no_word, crate::proofs::Reading::a_word, crate::proofs::Reading::walk_refused, crate::proofs::Reading::walk_more, crate::proofs::Reading::walk_end, crate::proofs::Reading::has_64_bits))]
pub fn read_number(word: &[u8]) -> Option<u64>
    ensures { result ≡ number_of word.now }
{
    if word.is_empty() {
        return None;
    }
    let mut value = 0;
    for &byte in word {
        value = with_byte(value, byte)?;
    }
    Some(value)
}

// What a word says, read as a number without leading zeros.
#[tactic(auto, using(crate::proofs::Plain::short_plain, crate::proofs::Plain::zero_first, crate::proofs::Plain::other_first))]
pub fn read_plain(word: &[u8]) -> Option<u64>
    ensures { result ≡ plain_of word.now }
{
    if word.len() >= 2 && word[0] == b'0' {
        return None;
    }
    read_number(word)
}

// The number with one byte more after it, if that is a digit and the value still fits.
#[tactic(auto, using(crate::proofs::Reading::no_digit, crate::proofs::Reading::too_large, crate::proofs::Reading::still_fits))]
fn with_byte(value: u64, byte: u8) -> Option<u64>
    ensures { result ≡ number_after value (byte ∷ []) }
{
    if !byte.is_ascii_digit() {
        return None;
    }
    value.checked_mul(BASE)?.checked_add(u64::from(byte - b'0'))
}
