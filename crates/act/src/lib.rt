// What becomes of a trade in error on which no agreement counts: adjusted to a price, nullified, or left as it
// is, each for its reason. A limit is read for one thing, whether the price that is tested violates it, and goes
// into an act as that yes or no. Refuses nothing and asks nothing: the row of the table is an argument, and any
// row has an act.
#![tactic(auto)]

ghost use Rattle.std.specs.Prelude.{◌≡◌, true};
ghost use Rattle.facts.specs.Numbers.{price_number};
ghost use Rattle.parties.specs.Parties.{by_side};
ghost use Rattle.act.specs.Minimum.{minimum_of};
ghost use Rattle.act.specs.Limits.{other_side, opening_tested, opening_stopped, customer_stopped, catastrophic_stopped};
ghost use Rattle.act.specs.Act.{obvious_act, opening_act, catastrophic_act, act_of};
ghost use Rattle.act.specs.Numbers.{act_outcome, act_reason, act_price, fits, price_for};

use bands::Band;
use facts::{Kind, Mills, Party, Side};
use way::Way;

// A new price and the reason for it.
#[derive(Clone, Copy)]
pub struct Change {
    pub reason: u8,
    pub price: Mills,
}

// The act: a new price, or the reason for which the trade is nullified or has no relief.
#[derive(Clone, Copy)]
pub enum Act {
    Adjust(Change),
    Nullify(u8),
    Leave(u8),
}

// The least error that counts on a way.
pub fn minimum_of(way: Way, band: Band) -> Mills
    ensures { result ≡ minimum_of way band }
{
    match way {
        Way::Obvious | Way::Opening => band.obvious,
        Way::Catastrophic => band.catastrophic,
    }
}

// ---- the limits that are tested

fn other_side(side: Side) -> Side
    ensures { result ≡ other_side side }
{
    match side {
        Side::Buy => Side::Sell,
        Side::Sell => Side::Buy,
    }
}

// The side whose limit the opening way tests.
pub fn opening_tested(side: Side, buyer: Kind, seller: Kind) -> Side
    ensures { result ≡ opening_tested side buyer seller }
{
    if parties::is_maker(parties::by_side(side, seller, buyer)) {
        return side;
    }
    other_side(side)
}

// Whether TP violates the limit that the opening way tests.
fn opening_stopped(side: Side, buyer: Party, seller: Party, tp: Mills) -> bool
    ensures { result ≡ opening_stopped side buyer seller tp }
{
    let tested = opening_tested(side, buyer.kind, seller.kind);
    facts::violates(
        tested,
        parties::by_side(tested, buyer.limit, seller.limit),
        tp,
    )
}

// Whether the party on this side is a Customer whose limit the price violates.
fn customer_stopped(side: Side, party: Party, price: Mills) -> bool
    ensures { result ≡ customer_stopped side party price }
{
    parties::is_customer(party.kind) & facts::violates(side, party.limit, price)
}

// Whether the price violates a Customer's limit, each against its own side.
fn catastrophic_stopped(buyer: Party, seller: Party, price: Mills) -> bool
    ensures { result ≡ catastrophic_stopped buyer seller price }
{
    customer_stopped(Side::Buy, buyer, price) | customer_stopped(Side::Sell, seller, price)
}

// ---- the act on each way

fn obvious_act(customer: bool, price: Mills) -> Act
    ensures { result ≡ obvious_act customer price }
{
    if customer {
        return Act::Nullify(11);
    }
    Act::Adjust(Change { reason: 6, price })
}

fn opening_act(stopped: bool, maker: bool, tp: Mills) -> Act
    ensures { result ≡ opening_act stopped maker tp }
{
    match (stopped, maker) {
        (true, true) => Act::Leave(4),
        (true, false) => Act::Leave(5),
        (false, _) => Act::Adjust(Change {
            reason: 7,
            price: tp,
        }),
    }
}

fn catastrophic_act(stopped: bool, accepted: bool, price: Mills) -> Act
    ensures { result ≡ catastrophic_act stopped accepted price }
{
    match (stopped, accepted) {
        (true, true) => Act::Adjust(Change { reason: 9, price }),
        (true, false) => Act::Nullify(12),
        (false, _) => Act::Adjust(Change { reason: 8, price }),
    }
}

// The act on a trade in error: `side` is the side in error, `accepted` whether a Customer's acceptance came in
// time, `band` the row of the table for TP. TP goes to the near price on the obvious way and to the far one on
// the catastrophic; on the opening way it is the price. In the page's numbers: the outcome fits the reason, and the
// new price is the one that the reason sets.
pub fn find_act(
    way: Way,
    side: Side,
    buyer: Party,
    seller: Party,
    accepted: bool,
    tp: Mills,
    band: Band,
) -> Act
    ensures { (result ≡ act_of way side buyer seller accepted tp band) × (fits (act_outcome result) (act_reason result) ≡ true) × (price_number (act_price result) ≡ price_for (act_reason result) side tp band) }
{
    let near = bands::moved(side, tp, bands::obvious_adjustment(tp));
    let far = bands::moved(side, tp, band.adjustment);
    match way {
        Way::Obvious => obvious_act(parties::any_customer(buyer.kind, seller.kind), near),
        Way::Opening => {
            let maker = parties::is_maker(parties::by_side(side, seller.kind, buyer.kind));
            opening_act(opening_stopped(side, buyer, seller, tp), maker, tp)
        }
        Way::Catastrophic => {
            catastrophic_act(catastrophic_stopped(buyer, seller, far), accepted, far)
        }
    }
}
