// The text of the printer's lines: a number in decimal, a word, a byte, a price or `-`. Each goes into a lent buffer from a place on, every
// other byte stays, and the answer is the place after it. Nothing is refused here: whoever asks has tested the room.
#![tactic(auto)]

ghost use Rattle.std.specs.Prelude.{◌≡◌, ◌+◌, ◌≤◌, [], ◌∷◌, length};
ghost use Rattle.text.specs.Text.{laid_at, decimal_of, price_text};

use facts::Mills;

// How many digits a number has.
fn decimal_length(mut n: u32) -> usize
    ensures { (result ≡ length (decimal_of n)) × (result ≤ 10) }
{
    let mut digits: usize = 1;
    while 10 <= n {
        n = n / 10;
        digits += 1;
    }
    digits
}

// A number in decimal, without leading zeros. The digits are written from the last one on, each before those that stand already.
pub fn add_decimal(out: &mut [u8], at: usize, n: u32) -> usize
    requires { at + 10 ≤ length out.old }
    ensures { (result ≡ at + length (decimal_of n)) × (out.new ≡ laid_at at (decimal_of n) out.old) × (result ≤ at + 10) }
{
    let digits = decimal_length(n);
    let mut place = at + digits;
    let mut rest = n;
    while 10 <= rest {
        place -= 1;
        out[place] = 48 + (rest % 10) as u8;
        rest = rest / 10;
    }
    out[at] = 48 + (rest as u8);
    at + digits
}

// A fixed byte string.
pub fn add_word(out: &mut [u8], at: usize, word: &[u8]) -> usize
    requires { at + length word.now ≤ length out.old }
    ensures { (result ≡ at + length word.now) × (out.new ≡ laid_at at word.now out.old) }
{
    let end = at + word.len();
    out[at..end].copy_from_slice(word);
    end
}

// One byte.
pub fn add_byte(out: &mut [u8], at: usize, b: u8) -> usize
    requires { at + 1 ≤ length out.old }
    ensures { (result ≡ at + 1) × (out.new ≡ laid_at at (b ∷ []) out.old) }
{
    out[at] = b;
    at + 1
}

// A price in mills, or `-` for none.
pub fn add_price(out: &mut [u8], at: usize, p: Option<Mills>) -> usize
    requires { at + 10 ≤ length out.old }
    ensures { (result ≡ at + length (price_text p)) × (out.new ≡ laid_at at (price_text p) out.old) × (result ≤ at + 10) }
{
    match p {
        Some(m) => add_decimal(out, at, m.0),
        None => add_byte(out, at, b'-'),
    }
}
