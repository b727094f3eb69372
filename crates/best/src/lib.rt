// The best bid and offer of the exchanges' quotes at a trade (RULE R16.3 to R16.9), and how many quotes were read for them (RULE R16.20 to R16.23): any
// bytes as quotes, any number as the trade's time and any as the number of quotes before it give both, or are refused with 20 to 23 or 28. Of each
// exchange its last quote strictly before the trade has a say. They are found by a walk back from the last quote before the trade, which takes the
// first that it meets of each exchange and stops where all sixteen are known.
#![tactic(auto)]

ghost use Rattle.std.specs.Prelude.{◌≡◌, true, ◌/◌, ◌≤◌, ◌<◌, length};
ghost use Rattle.quotes.specs.Quotes.{posted_from, quotes_in, posted_in, records_ok};
ghost use Rattle.earlier.specs.Earlier.{earlier, quotes_before_of};
ghost use Rattle.best.specs.Lasts.{last_of};
ghost use Rattle.best.specs.Best.{said_by, nobody, best_price, size_at, best_of};
ghost use Rattle.best.specs.Places.{placed_at, said, Within, met, Walked};
ghost use Rattle.best.specs.Looked.{looked_in, unread, looked_of};

use facts::{Contracts, Mills, Quote};
use halves::Half;
use quotes::Posted;

// What a lookup finds: the number where it was refused, beside nothing; else 0, the best bid and the best offer.
#[derive(Clone, Copy)]
pub struct Found {
    pub refusal: u8,
    pub bid: Quote,
    pub offer: Quote,
}

// What a lookup answers: what is found, and how many quotes were read for it; beside a refusal 0.
#[derive(Clone, Copy)]
pub struct Looked {
    pub found: Found,
    pub examined: usize,
}

// ---- one exchange

// The last quote of one exchange strictly before the trade, for who asks where a price was born. No test is needed: of quotes that are out of
// order it is the last record.
pub fn last_before(quotes: &[u8], trade_time: u32, exchange: u32) -> Option<Posted>
    ensures { result ≡ last_of exchange (earlier trade_time (posted_in quotes.now)) }
{
    for k in (0..quotes.len() / 28).rev() {
        let q = quotes::posted_at(quotes, k);
        if (q.time.0 < trade_time) & (q.exchange == exchange) {
            return Some(q);
        }
    }
    None
}

// ---- the walk back

// The place of each exchange's last quote so far: 0 for none, k + 1 for record k; and how many exchanges are known.
#[derive(Clone, Copy)]
struct Walk {
    last: [usize; 16],
    known: usize,
}

// The walk after the quote at a place, of the exchange at this index: the first that is met of each is kept.
fn meet(w: Walk, index: usize, place: usize) -> Walk
    requires { (index < 16) × (w.known < 16) }
    ensures { result ≡ met w index place }
{
    let mut last = w.last;
    if last[index] != 0 {
        return w;
    }
    last[index] = place;
    Walk {
        last,
        known: w.known + 1,
    }
}

// Where the walk ends: the places of the sixteen last quotes, and how many quotes were read.
#[derive(Clone, Copy)]
struct Back {
    last: [usize; 16],
    examined: usize,
}

// The walk over the first n quotes, from the last of them back.
fn walk_back(quotes: &[u8], n: usize) -> Back
    requires { (n ≤ length quotes.now / 28) × (records_ok quotes.now 0 (quotes_in quotes.now) ≡ true) }
    ensures { Walked quotes.now n result.last result.examined }
{
    let mut w = Walk {
        last: [0usize; 16],
        known: 0,
    };
    let mut i = n;
    while 0 < i && w.known < 16 {
        let q = quotes::posted_at(quotes, i - 1);
        w = meet(w, (q.exchange - 1) as usize, i);
        i -= 1;
    }
    let last = w.last;
    Back {
        last,
        examined: n - i,
    }
}

// ---- the best of the sixteen

fn nobody() -> Quote
    ensures { result ≡ nobody }
{
    Quote {
        price: None,
        size: Contracts(0),
    }
}

// The half of the quote at a place.
fn said_at(quotes: &[u8], place: usize, half: Half) -> Quote
    requires { place ≤ length quotes.now / 28 }
    ensures { result ≡ said_by half (placed_at quotes.now place) }
{
    if place == 0 {
        return nobody();
    }
    halves::half_of(half, quotes::posted_at(quotes, place - 1))
}

// The highest bid or the lowest offer at the places.
fn best_price(quotes: &[u8], last: [usize; 16], half: Half) -> Option<Mills>
    requires { Within quotes.now last }
    ensures { result ≡ best_price half (said half quotes.now last) }
{
    let mut best = None;
    for i in (0..16).rev() {
        best = halves::better(half, said_at(quotes, last[i], half).price, best);
    }
    best
}

// The sum of the sizes at the price.
fn size_at(quotes: &[u8], last: [usize; 16], half: Half, price: Option<Mills>) -> u64
    requires { Within quotes.now last }
    ensures { result ≡ size_at price (said half quotes.now last) }
{
    let mut sum: u64 = 0;
    for i in (0..16).rev() {
        sum += halves::size_if(price, said_at(quotes, last[i], half)) as u64;
    }
    sum
}

fn best_of(quotes: &[u8], last: [usize; 16], half: Half) -> Quote
    requires { Within quotes.now last }
    ensures { result ≡ best_of half (said half quotes.now last) }
{
    let price = best_price(quotes, last, half);
    let size = halves::capped(size_at(quotes, last, half, price));
    Quote {
        price,
        size: Contracts(size),
    }
}

// ---- the lookup

fn refuse(number: u8) -> Looked
    ensures { result ≡ unread number }
{
    Looked {
        found: Found {
            refusal: number,
            bid: nobody(),
            offer: nobody(),
        },
        examined: 0,
    }
}

// What is found among the first n quotes, and how many of them are read.
fn answer(quotes: &[u8], n: usize) -> Looked
    requires { (n ≤ length quotes.now / 28) × (records_ok quotes.now 0 (quotes_in quotes.now) ≡ true) }
    ensures { result ≡ looked_in (posted_from quotes.now 0 n) }
{
    let back = walk_back(quotes, n);
    Looked {
        found: Found {
            refusal: 0,
            bid: best_of(quotes, back.last, Half::Bid),
            offer: best_of(quotes, back.last, Half::Offer),
        },
        examined: back.examined,
    }
}

// The best bid and offer at a trade, with the number of quotes strictly before it: tests 20 to 23, then 28, then each exchange's last quote among
// that many.
pub fn find_best(quotes: &[u8], trade_time: u32, before: usize) -> Looked
    ensures { result ≡ looked_of quotes.now trade_time before }
{
    let number = quotes::check_quotes(quotes, trade_time);
    if number != 0 {
        return refuse(number);
    }
    if !earlier::number_ok(quotes, trade_time, before) {
        return refuse(28);
    }
    answer(quotes, before)
}

// The same for who does not have the number: it is found first, and the quotes are tested once.
pub fn count_and_find(quotes: &[u8], trade_time: u32) -> Looked
    ensures { result ≡ looked_of quotes.now trade_time (quotes_before_of quotes.now trade_time) }
{
    let number = quotes::check_quotes(quotes, trade_time);
    if number != 0 {
        return refuse(number);
    }
    answer(quotes, earlier::count_before(quotes, trade_time))
}
