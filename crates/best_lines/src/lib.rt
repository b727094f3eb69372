// The lines that say where a best price was born: the best bid or offer, and an exchange whose last quote is at that price. They go into a lent
// buffer from a place on, every other byte stays, and the answer is the place after them. Nothing is refused here: whoever asks has tested the
// room.
#![tactic(auto)]

ghost use Rattle.std.specs.Prelude.{◌≡◌, ◌+◌, ◌≤◌, length};
ghost use Rattle.text.specs.Text.{laid_at};
ghost use Rattle.halves.specs.Halves.{same};
ghost use Rattle.best_lines.specs.BestLines.{size_text, head_name, amount_text, head_line, quote_line, sayer_line};

use facts::{Mills, Quote};
use halves::Half;
use quotes::Posted;

// How many contracts, which ends the line.
fn add_size(out: &mut [u8], at: usize, n: u32) -> usize
    requires { at + 16 ≤ length out.old }
    ensures { (result ≡ at + length (size_text n)) × (out.new ≡ laid_at at (size_text n) out.old) × (result ≤ at + 16) }
{
    let word = text::add_word(out, at, b" for ");
    let figures = text::add_decimal(out, word, n);
    text::add_byte(out, figures, b'\n')
}

// ---- the best of a half

#[tactic(auto, unfolding(crate::specs::BestLines::head_name))]
fn head_name(half: Half) -> &'static [u8]
    ensures name { result.now ≡ head_name half }
    ensures short { length result.now ≤ 11 }
{
    match half {
        Half::Bid => b"best bid ",
        Half::Offer => b"best offer ",
    }
}

// None is for nothing.
#[tactic(auto, unfolding(crate::specs::BestLines::amount_text))]
fn add_amount(out: &mut [u8], at: usize, price: Option<Mills>, n: u32) -> usize
    requires { at + 16 ≤ length out.old }
    ensures { (result ≡ at + length (amount_text price n)) × (out.new ≡ laid_at at (amount_text price n) out.old) × (result ≤ at + 16) }
{
    match price {
        Some(_) => add_size(out, at, n),
        None => text::add_byte(out, at, b'\n'),
    }
}

// The line of the best bid or offer.
pub fn add_head(out: &mut [u8], at: usize, half: Half, best: Quote) -> usize
    requires { at + 41 ≤ length out.old }
    ensures { (result ≡ at + length (head_line half best)) × (out.new ≡ laid_at at (head_line half best) out.old) × (result ≤ at + 41) }
{
    let name = text::add_word(out, at, head_name(half));
    let dollars = spelling::add_dollars(out, name, best.price);
    add_amount(out, dollars, best.price, best.size.0)
}

// ---- an exchange at that price

fn same(p: Option<Mills>, q: Option<Mills>) -> bool
    ensures { result ≡ same p q }
{
    match (p, q) {
        (Some(a), Some(b)) => a.0 == b.0,
        _ => false,
    }
}

fn add_quote(out: &mut [u8], at: usize, half: Half, q: Posted) -> usize
    requires { at + 49 ≤ length out.old }
    ensures { (result ≡ at + length (quote_line half q)) × (out.new ≡ laid_at at (quote_line half q) out.old) × (result ≤ at + 49) }
{
    let word = text::add_word(out, at, b"  exchange ");
    let number = text::add_decimal(out, word, q.exchange);
    let since = text::add_word(out, number, b" at ");
    let time = spelling::add_time(out, since, q.time.0);
    add_size(out, time, halves::half_of(half, q).size.0)
}

// The line of what an exchange last sent, where it is at the price; else nothing.
pub fn add_sayer(
    out: &mut [u8],
    at: usize,
    half: Half,
    price: Option<Mills>,
    last: Option<Posted>,
) -> usize
    requires { at + 49 ≤ length out.old }
    ensures { (result ≡ at + length (sayer_line half price last)) × (out.new ≡ laid_at at (sayer_line half price last) out.old) × (result ≤ at + 49) }
{
    match last {
        Some(q) if same(price, halves::half_of(half, q).price) => add_quote(out, at, half, q),
        _ => at,
    }
}
