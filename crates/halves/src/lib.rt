// The two halves of a quote, its bid and its offer: which of two prices is the better one, and the sizes at a price (RULE R16.5 to R16.8).
#![tactic(auto)]

ghost use Rattle.std.specs.Prelude.{◌≡◌, min};
ghost use Rattle.halves.specs.Halves.{half_of, winner, better, size_if};

use facts::{Mills, Quote};
use quotes::Posted;

// Which half of a quote is asked for.
#[derive(Clone, Copy, PartialEq, Eq)]
pub enum Half {
    Bid,
    Offer,
}

// That half of an exchange's quote.
pub fn half_of(half: Half, q: Posted) -> Quote
    ensures { result ≡ half_of half q }
{
    match half {
        Half::Bid => q.bid,
        Half::Offer => q.offer,
    }
}

fn winner(half: Half, a: Mills, b: Mills) -> Mills
    ensures { result ≡ winner half a b }
{
    match half {
        Half::Bid => if a.0 < b.0 { b } else { a },
        Half::Offer => if b.0 < a.0 { b } else { a },
    }
}

// The better of two prices; none has no say.
pub fn better(half: Half, p: Option<Mills>, best: Option<Mills>) -> Option<Mills>
    ensures { result ≡ better half p best }
{
    match (p, best) {
        (Some(a), Some(b)) => Some(winner(half, a, b)),
        (Some(_), None) => p,
        (None, _) => best,
    }
}

// The size of a quote that is at the price, else 0.
pub fn size_if(price: Option<Mills>, q: Quote) -> u32
    ensures { result ≡ size_if price q }
{
    match (price, q.price) {
        (Some(a), Some(b)) if a.0 == b.0 => q.size.0,
        _ => 0,
    }
}

// A sum of sizes as it is given: at most 1,000,000.
pub fn capped(sum: u64) -> u32
    ensures { result ≡ min sum 1000000 }
{
    if sum < 1000000 { sum as u32 } else { 1000000 }
}
