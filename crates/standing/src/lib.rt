// Where the best prices were born, for people: the best bid and offer of the quotes before a second, and under each the exchanges whose last
// quote is at that price; and how many quotes were read. Nothing is asked: any bytes as quotes and any word as a time have a text, and the buffer
// holds the longest.
#![tactic(auto)]

ghost use Rattle.std.specs.Prelude.{◌≡◌, ◌+◌, ◌≤◌, length, take};
ghost use Rattle.wire.specs.Laid.{laid};
ghost use Rattle.text.specs.Text.{laid_at};
ghost use Rattle.spelling.specs.Times.{time_in};
ghost use Rattle.quotes.specs.Quotes.{posted_in};
ghost use Rattle.earlier.specs.Earlier.{earlier};
ghost use Rattle.standing.specs.Standing.{sayers_text, born_text, before_line, read_line, lookup_line, found_text, best_text};

use facts::{Mills, Quote};
use halves::Half;

// The lines of the exchanges at the price, 1 to 16.
fn add_sayers(
    out: &mut [u8],
    at: usize,
    quotes: &[u8],
    time: u32,
    half: Half,
    price: Option<Mills>,
) -> usize
    requires { at + 784 ≤ length out.old }
    ensures { (result ≡ at + length (sayers_text half price (earlier time (posted_in quotes.now)))) × (out.new ≡ laid_at at (sayers_text half price (earlier time (posted_in quotes.now))) out.old) × (result ≤ at + 784) }
{
    let mut next = at;
    for i in 0..16 {
        let last = best::last_before(quotes, time, i + 1);
        next = best_lines::add_sayer(out, next, half, price, last);
    }
    next
}

// A best, and the exchanges at its price.
fn add_born(out: &mut [u8], at: usize, quotes: &[u8], time: u32, half: Half, best: Quote) -> usize
    requires { at + 825 ≤ length out.old }
    ensures { (result ≡ at + length (born_text half best (earlier time (posted_in quotes.now)))) × (out.new ≡ laid_at at (born_text half best (earlier time (posted_in quotes.now))) out.old) × (result ≤ at + 825) }
{
    let head = best_lines::add_head(out, at, half, best);
    add_sayers(out, head, quotes, time, half, best.price)
}

// The first line, at the start of the buffer.
fn put_before(out: &mut [u8], time: u32) -> usize
    requires { 23 ≤ length out.old }
    ensures { (result ≡ length (before_line time)) × (out.new ≡ laid (before_line time) out.old) × (result ≤ 23) }
{
    let words = text::add_word(out, 0, b"quotes before ");
    let figures = spelling::add_time(out, words, time);
    text::add_byte(out, figures, b'\n')
}

// The last line: how many quotes were read, of how many.
fn add_read(out: &mut [u8], at: usize, examined: u32, before: u32) -> usize
    requires { at + 37 ≤ length out.old }
    ensures { (result ≡ at + length (read_line examined before)) × (out.new ≡ laid_at at (read_line examined before) out.old) × (result ≤ at + 37) }
{
    let first = text::add_decimal(out, at, examined);
    let word = text::add_word(out, first, b" of ");
    let second = text::add_decimal(out, word, before);
    text::add_word(out, second, b" quotes read\n")
}

fn put_refused(out: &mut [u8], number: u8) -> usize
    requires { 97 ≤ length out.old }
    ensures { (result ≡ length (lookup_line number)) × (out.new ≡ laid (lookup_line number) out.old) × (result ≤ 97) }
{
    let word = text::add_word(out, 0, b"LOOKUP ");
    phrases::add_refusal(out, word, number)
}

// What is found before this second: both halves and how many quotes were read, or the refusal.
fn put_found(out: &mut [u8], quotes: &[u8], time: u32) -> usize
    requires { 1710 ≤ length out.old }
    ensures { (result ≡ length (found_text quotes.now time)) × (out.new ≡ laid (found_text quotes.now time) out.old) × (result ≤ 1710) }
{
    let before = earlier::quotes_before(quotes, time);
    let looked = best::find_best(quotes, time, before);
    if looked.found.refusal != 0 {
        return put_refused(out, looked.found.refusal);
    }
    let start = put_before(out, time);
    let middle = add_born(out, start, quotes, time, Half::Bid, looked.found.bid);
    let end = add_born(out, middle, quotes, time, Half::Offer, looked.found.offer);
    add_read(out, end, looked.examined as u32, before as u32)
}

// Prints where the best prices before the typed time were born, over the start of the buffer; every byte after the text stays. Answers how many
// bytes the text has.
pub fn print_best(quotes: &[u8], time: &[u8], out: &mut [u8; 4096]) -> usize
    ensures value { (result ≡ length (best_text quotes.now (time_in time.now))) × (out.new ≡ laid (best_text quotes.now (time_in time.now)) out.old) }
    ensures upper_bound { (result ≤ length out.new) × (result ≡ length (take result out.new)) }
{
    match spelling::read_time(time) {
        Some(t) => put_found(out, quotes, t),
        None => text::add_word(
            out,
            0,
            b"NO TIME: write it as 09:30:00, or in seconds since midnight\n",
        ),
    }
}
