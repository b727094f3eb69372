// The tests 5 and 6 (RULE R3.5, R3.6): prices within their range or a permitted none; contracts, and sizes that fit their quotes. Their
// definitions stand in `refusals`, beside those of the other tests, and `faults` tells the first that fails.
#![tactic(auto)]

ghost use Rattle.std.specs.Prelude.{◌≡◌};
ghost use Rattle.refusals.specs.Tests.{mills_ok, price_ok, quotes_priced, differential_ok, prices_ok, quote_ok, counts_ok};

use facts::{Facts, Market, Mills, Quote, Trade};

// ---- 5: prices

fn mills_ok(m: Mills) -> bool
    ensures { result ≡ mills_ok m }
{
    m.0 <= 9999999
}

fn price_ok(p: Option<Mills>) -> bool
    ensures { result ≡ price_ok p }
{
    match p {
        Some(m) => mills_ok(m),
        None => true,
    }
}

fn quotes_priced(m: Market) -> bool
    ensures { result ≡ quotes_priced m }
{
    price_ok(m.bid.price) & price_ok(m.offer.price) & price_ok(m.official)
}

fn differential_ok(p: Option<Mills>) -> bool
    ensures { result ≡ differential_ok p }
{
    match p {
        Some(m) => (1 <= m.0) & (m.0 <= 9999999),
        None => true,
    }
}

// The execution price, the quotes and the official's price, both limits, the agreed price, the permitted differential.
pub fn prices_ok(f: Facts) -> bool
    ensures { result ≡ prices_ok f }
{
    if !mills_ok(f.trade.price) {
        return false;
    }
    if !quotes_priced(f.market) {
        return false;
    }
    price_ok(f.buyer.limit)
        & price_ok(f.seller.limit)
        & price_ok(f.settlement.agreed)
        & differential_ok(forms::differential_of(f.form))
}

// ---- 6: contracts and sizes

fn quote_ok(q: Quote) -> bool
    ensures { result ≡ quote_ok q.price q.size }
{
    match q.price {
        Some(m) => (q.size.0 <= 1000000) & ((m.0 == 0) | (1 <= q.size.0)),
        None => q.size.0 == 0,
    }
}

// The contracts traded, and the sizes of both quotes.
pub fn counts_ok(t: Trade, m: Market) -> bool
    ensures { result ≡ counts_ok t m }
{
    if !((1 <= t.contracts.0) & (t.contracts.0 <= 1000000)) {
        return false;
    }
    quote_ok(m.bid) & quote_ok(m.offer)
}
