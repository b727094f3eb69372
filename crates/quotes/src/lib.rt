// The exchanges' quotes: records of kind 32, 28 bytes each, and the tests on a list of them (RULE R16.1, R16.2). A list is refused with 20 to 22
// and a trade time with 23, each tested over the whole list before the next.
#![tactic(auto)]

ghost use Rattle.std.specs.Prelude.{◌≡◌, ◌+◌, ◌*◌, ◌≤◌, length};
ghost use Rattle.quotes.specs.Quotes.{quote_of, posted_at, whole_quotes, is_quote, side_ok, fields_ok, record_ok, list_fault_of, quotes_refusal_of};

use facts::{Contracts, Quote, Seconds};

// What a record says: an exchange's bid and offer from a second on.
#[derive(Clone, Copy)]
pub struct Posted {
    pub exchange: u32,
    pub time: Seconds,
    pub bid: Quote,
    pub offer: Quote,
}

// ---- a record read

fn quote_of(price: u32, size: u32) -> Quote
    ensures { result ≡ quote_of price size }
{
    Quote {
        price: facts::price_of(price),
        size: Contracts(size),
    }
}

// Record k. The whole of it must be there: whoever asks has counted the records.
pub fn posted_at(s: &[u8], k: usize) -> Posted
    requires { k * 28 + 28 ≤ length s.now }
    ensures { result ≡ posted_at s.now k }
{
    let at = k * 28;
    Posted {
        exchange: wire::read_u32(s, at + 4),
        time: Seconds(wire::read_u32(s, at + 8)),
        bid: quote_of(wire::read_u32(s, at + 12), wire::read_u32(s, at + 20)),
        offer: quote_of(wire::read_u32(s, at + 16), wire::read_u32(s, at + 24)),
    }
}

// ---- 20: the length

// A whole number of records, 2,000 at most.
fn whole_quotes(s: &[u8]) -> bool
    ensures { result ≡ whole_quotes s.now }
{
    (s.len() % 28 == 0) & (s.len() <= 56000)
}

// ---- 21: the fields. They are tested as the numbers that they are, and each test ends the next: most of a lookup's time is here.

fn is_quote(s: &[u8], k: usize) -> bool
    requires { k * 28 + 28 ≤ length s.now }
    ensures { result ≡ is_quote s.now k }
{
    let at = k * 28;
    if wire::read_u16(s, at) != 28 {
        return false;
    }
    wire::read_u16(s, at + 2) == 32
}

// A price and its size, by the definitions of tests 5 and 6: a price above zero, zero, none.
fn side_ok(price: u32, size: u32) -> bool
    ensures { result ≡ side_ok (quote_of price size) }
{
    if (1 <= price) & (price <= 9999999) {
        return (1 <= size) & (size <= 1000000);
    }
    if price == 0 {
        return size <= 1000000;
    }
    (price == 4294967295) & (size == 0)
}

fn fields_ok(s: &[u8], k: usize) -> bool
    requires { k * 28 + 28 ≤ length s.now }
    ensures { result ≡ fields_ok (posted_at s.now k) }
{
    let at = k * 28;
    let exchange = wire::read_u32(s, at + 4);
    if !((1 <= exchange) & (exchange <= 16)) {
        return false;
    }
    if 86399 < wire::read_u32(s, at + 8) {
        return false;
    }
    if !side_ok(wire::read_u32(s, at + 12), wire::read_u32(s, at + 20)) {
        return false;
    }
    side_ok(wire::read_u32(s, at + 16), wire::read_u32(s, at + 24))
}

fn record_ok(s: &[u8], k: usize) -> bool
    requires { k * 28 + 28 ≤ length s.now }
    ensures { result ≡ record_ok s.now k }
{
    if !is_quote(s, k) {
        return false;
    }
    fields_ok(s, k)
}

// ---- 21 and 22, in one pass: no record has a bad field; no time is lower than the one before it

fn list_fault(s: &[u8]) -> u8
    ensures { result ≡ list_fault_of s.now }
{
    let n = s.len() / 28;
    let mut earlier: u32 = 0;
    let mut rising = true;
    for k in 0..n {
        if !record_ok(s, k) {
            return 21;
        }
        let time = wire::read_u32(s, k * 28 + 8);
        rising = rising & (earlier <= time);
        earlier = time;
    }
    refusals::unless(rising, 0, 22)
}

// ---- the first that fails

// The number of the first of the tests 20 to 23 that these quotes and this trade time fail, or 0.
pub fn check_quotes(s: &[u8], trade_time: u32) -> u8
    ensures { result ≡ quotes_refusal_of s.now trade_time }
{
    if !whole_quotes(s) {
        return 20;
    }
    let number = list_fault(s);
    if number != 0 {
        return number;
    }
    refusals::unless(trade_time <= 86399, 0, 23)
}
