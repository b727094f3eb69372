// Whether the market's quotes are too wide to trust: best bid and best offer at least twice the permitted differential apart (RULE R5.6).
// Refuses nothing. Mills are summed here, in a width in which no sum of them wraps.
#![tactic(auto)]

ghost use Rattle.std.specs.Prelude.{◌≡◌};
ghost use Rattle.width.specs.Width.{apart, wide};

use facts::{Market, Mills};

// Whether an offer is at least a bid plus twice the differential. A sum and no difference: a crossed market is never so far apart.
fn apart(differential: Mills, bid: Mills, offer: Mills) -> bool
    ensures { result ≡ apart differential bid offer }
{
    (bid.0 as u64) + 2 * (differential.0 as u64) <= (offer.0 as u64)
}

// Whether both quotes are present and so far apart; without a differential nobody asks.
pub fn is_wide(differential: Option<Mills>, market: Market) -> bool
    ensures { result ≡ wide differential market.bid.price market.offer.price }
{
    match (differential, market.bid.price, market.offer.price) {
        (Some(d), Some(bid), Some(offer)) => apart(d, bid, offer),
        _ => false,
    }
}
