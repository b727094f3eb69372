// What each step of a ruling found, as one value: the way and why the earlier ones were shut, TP, the row and how far off, what was
// agreed and whether it counted, the price tested and the limits. A step that the ruling did not reach is not in the value.
// Refuses nothing: facts that were not accepted have steps too.
#![tactic(auto)]

ghost use Rattle.std.specs.Prelude.{◌≡◌};
ghost use Rattle.steps.specs.Tried.{clock_of, obvious_why, opening_why, catastrophic_why, tried_from, tried_of, open_of};
ghost use Rattle.steps.specs.Found.{gap_of, spread_from, looked_of, apart, floor_of, error_of, limit_of, obvious_step, opening_step, catastrophic_step, act_step_of, ignored_why};
ghost use Rattle.steps.specs.Steps.{end_of, settled_of, judged_of, reached_on, reached_if, steps_of};

use agreement::Heeded;
use bands::Band;
use facts::{
    Agreement, Day, Facts, Form, Kind, Market, Mills, Party, Request, Seconds, Settlement, Side,
    Trade,
};
use theory::Source;
use way::Way;

// ---- the way

// What the ways ask: the party in error, the flags, when the trade was executed and the request filed, how long that is after the execution,
// and how long the obvious way is open to this kind of party.
#[derive(Clone, Copy)]
pub struct Clock {
    pub side: Side,
    pub kind: Kind,
    pub opening: bool,
    pub expiry: bool,
    pub decided: bool,
    pub day: Day,
    pub executed: Seconds,
    pub filed: Seconds,
    pub since: Seconds,
    pub allowed: Seconds,
}

// Why the obvious and the opening way were shut.
#[derive(Clone, Copy)]
pub struct Shut {
    pub obvious: u8,
    pub opening: u8,
}

#[derive(Clone, Copy)]
pub struct AllShut {
    pub obvious: u8,
    pub opening: u8,
    pub catastrophic: u8,
}

// The ways tried, up to the first that is open: the obvious, the opening, the catastrophic, or none.
#[derive(Clone, Copy)]
pub enum Tried {
    First,
    Second(u8),
    Third(Shut),
    NoWay(AllShut),
}

// ---- the quotes

// Bid, offer and permitted differential; the bid plus twice the differential; whether the offer is at least that.
#[derive(Clone, Copy)]
pub struct Gap {
    pub differential: Mills,
    pub bid: Mills,
    pub offer: Mills,
    pub reach: Mills,
    pub wide: bool,
}

// The quote on the side in error and the official's price as they stand.
#[derive(Clone, Copy)]
pub struct Looked {
    pub quote: Option<Mills>,
    pub official: Option<Mills>,
    pub spread: Option<Gap>,
}

// ---- the error

// The row of the table, the lowest TP that it serves, the minimum, the lower and the higher of the two prices, how far up the minimum reaches from the lower one,
// whether that is an error, and by how much the higher price is short of it or over.
#[derive(Clone, Copy)]
pub struct Off {
    pub row: Band,
    pub floor: Mills,
    pub minimum: Mills,
    pub low: Mills,
    pub high: Mills,
    pub reach: Mills,
    pub wrong: bool,
    pub by: Mills,
}

// ---- the act

// A limit that an act may test: whose, the price that is held against it, whether it counts, and whether the price violates it.
#[derive(Clone, Copy)]
pub struct Limit {
    pub side: Side,
    pub kind: Kind,
    pub limit: Option<Mills>,
    pub price: Mills,
    pub counts: bool,
    pub stopped: bool,
}

#[derive(Clone, Copy)]
pub struct Near {
    pub buyer: Kind,
    pub seller: Kind,
    pub customer: bool,
    pub by: Mills,
    pub price: Mills,
}

#[derive(Clone, Copy)]
pub struct Even {
    pub maker: bool,
    pub tested: Limit,
}

#[derive(Clone, Copy)]
pub struct Far {
    pub by: Mills,
    pub price: Mills,
    pub buyer: Limit,
    pub seller: Limit,
    pub accepted: Option<Seconds>,
    pub timely: bool,
}

#[derive(Clone, Copy)]
pub enum Acting {
    OnObvious(Near),
    OnOpening(Even),
    OnCatastrophic(Far),
}

// ---- agreement

// What ended the case: a price agreed, nullification agreed, or the act.
#[derive(Clone, Copy)]
pub enum End {
    PriceCounts(Mills),
    NullifyCounts,
    Acted(Acting),
}

#[derive(Clone, Copy)]
pub struct Settled {
    pub terms: Settlement,
    pub customer: bool,
    pub allowed: Seconds,
    pub ignored: u8,
    pub end: End,
}

// ---- the whole

#[derive(Clone, Copy)]
pub struct Judged {
    pub way: Way,
    pub looked: Looked,
    pub source: Source,
    pub off: Off,
    pub after: Option<Settled>,
}

#[derive(Clone, Copy)]
pub enum Reached {
    Late,
    Decided,
    Unpriced(Looked),
    Priced(Judged),
}

#[derive(Clone, Copy)]
pub struct Steps {
    pub trade: Trade,
    pub clock: Clock,
    pub tried: Tried,
    pub reached: Reached,
}

// ---- why a way was shut: the number of the first test that failed, 0 where it is open

#[tactic(auto, unfolding(crate::specs::Tried::obvious_why))]
fn obvious_why(day: Day, executed: Seconds, filed: Seconds, kind: Kind) -> u8
    ensures { result ≡ obvious_why day executed filed kind }
{
    match day {
        Day::TradeDate if way::within(way::obvious_time(kind), executed, filed) => 0,
        Day::TradeDate => 2,
        _ => 1,
    }
}

#[tactic(auto, unfolding(crate::specs::Tried::opening_why))]
fn opening_why(day: Day, opening: bool, executed: Seconds, filed: Seconds, kind: Kind) -> u8
    ensures { result ≡ opening_why day opening executed filed kind }
{
    if !way::is_trade_date(day) {
        1
    } else if !opening {
        3
    } else if !parties::is_customer(kind) {
        4
    } else if way::within(Seconds(1200), executed, filed) {
        5
    } else if !way::no_later(filed, Seconds(59400)) {
        6
    } else {
        0
    }
}

#[tactic(auto, unfolding(crate::specs::Tried::catastrophic_why))]
fn catastrophic_why(day: Day, expiry: bool, filed: Seconds) -> u8
    ensures { result ≡ catastrophic_why day expiry filed }
{
    match (expiry, day) {
        (true, Day::TradeDate) if way::no_later(filed, Seconds(61200)) => 0,
        (true, Day::TradeDate) => 7,
        (true, _) => 1,
        (false, Day::TradeDate) => 0,
        (false, day) if !way::is_next_day(day) => 8,
        (false, _) if way::no_later(filed, Seconds(30600)) => 0,
        (false, _) => 9,
    }
}

#[tactic(auto, unfolding(crate::specs::Tried::tried_from))]
fn tried_from(obvious: u8, opening: u8, catastrophic: u8) -> Tried
    ensures { result ≡ tried_from obvious opening catastrophic }
{
    match (obvious, opening, catastrophic) {
        (0, _, _) => Tried::First,
        (_, 0, _) => Tried::Second(obvious),
        (_, _, 0) => Tried::Third(Shut { obvious, opening }),
        _ => Tried::NoWay(AllShut {
            obvious,
            opening,
            catastrophic,
        }),
    }
}

#[tactic(auto, unfolding(crate::specs::Tried::tried_of))]
fn find_tried(executed: Seconds, request: Request, kind: Kind) -> Tried
    ensures { result ≡ tried_of executed request kind }
{
    tried_from(
        obvious_why(request.day, executed, request.filed, kind),
        opening_why(request.day, request.opening, executed, request.filed, kind),
        catastrophic_why(request.day, request.expiry, request.filed),
    )
}

fn open_of(tried: Tried) -> Option<Way>
    ensures { result ≡ open_of tried }
{
    match tried {
        Tried::First => Some(Way::Obvious),
        Tried::Second(_) => Some(Way::Opening),
        Tried::Third(_) => Some(Way::Catastrophic),
        Tried::NoWay(_) => None,
    }
}

#[tactic(auto, unfolding(crate::specs::Tried::clock_of))]
fn find_clock(executed: Seconds, request: Request, kind: Kind) -> Clock
    ensures { result ≡ clock_of executed request kind }
{
    Clock {
        side: request.side,
        kind,
        opening: request.opening,
        expiry: request.expiry,
        decided: request.decided,
        day: request.day,
        executed,
        filed: request.filed,
        since: Seconds(request.filed.0.saturating_sub(executed.0)),
        allowed: way::obvious_time(kind),
    }
}

// ---- the quotes

// The sum is in 64 bits, where it can't wrap; `reach` is the largest number where four bytes don't hold it.
#[tactic(auto, unfolding(crate::specs::Found::gap_of, width::specs::Width::apart))]
fn gap_of(differential: Mills, bid: Mills, offer: Mills) -> Gap
    ensures { result ≡ gap_of differential bid offer }
{
    let sum = u64::from(bid.0) + 2 * u64::from(differential.0);
    Gap {
        differential,
        bid,
        offer,
        reach: Mills(sum.min(u64::from(u32::MAX)) as u32),
        wide: sum <= u64::from(offer.0),
    }
}

fn find_spread(differential: Option<Mills>, bid: Option<Mills>, offer: Option<Mills>) -> Option<Gap>
    ensures { result ≡ spread_from differential bid offer }
{
    Some(gap_of(differential?, bid?, offer?))
}

#[tactic(auto, unfolding(crate::specs::Found::looked_of))]
fn look(form: Form, side: Side, market: Market) -> Looked
    ensures { result ≡ looked_of form side market }
{
    Looked {
        quote: parties::by_side(side, market.offer.price, market.bid.price),
        official: market.official,
        spread: find_spread(
            forms::differential_of(form),
            market.bid.price,
            market.offer.price,
        ),
    }
}

// ---- the error

// The lowest TP that the row for TP serves: one mill above the row before it.
#[tactic(auto, unfolding(crate::specs::Found::floor_of))]
fn floor_of(tp: Mills) -> Mills
    ensures { result ≡ floor_of tp }
{
    match tp.0 {
        0..=1999 => Mills(0),
        2000..=5000 => Mills(2000),
        5001..=10000 => Mills(5001),
        10001..=20000 => Mills(10001),
        20001..=50000 => Mills(20001),
        50001..=100000 => Mills(50001),
        _ => Mills(100001),
    }
}

#[tactic(auto, unfolding(crate::specs::Found::apart))]
fn apart(a: Mills, b: Mills) -> Mills
    ensures { result ≡ apart a b }
{
    Mills(a.0.abs_diff(b.0))
}

#[tactic(auto, unfolding(crate::specs::Found::error_of))]
fn find_off(side: Side, execution: Mills, tp: Mills, way: Way) -> Off
    ensures { result ≡ error_of side execution tp way }
{
    let row = bands::band_of(tp);
    let minimum = act::minimum_of(way, row);
    let low = parties::by_side(side, tp, execution);
    let high = parties::by_side(side, execution, tp);
    let reach = bands::moved(Side::Buy, low, minimum);
    Off {
        row,
        floor: floor_of(tp),
        minimum,
        low,
        high,
        reach,
        wrong: bands::in_error(side, execution, tp, minimum),
        by: apart(reach, high),
    }
}

// ---- the act

#[tactic(auto, unfolding(crate::specs::Found::limit_of))]
fn limit_of(side: Side, party: Party, counts: bool, price: Mills) -> Limit
    ensures { result ≡ limit_of side party counts price }
{
    Limit {
        side,
        kind: party.kind,
        limit: party.limit,
        price,
        counts,
        stopped: counts && facts::violates(side, party.limit, price),
    }
}

#[tactic(auto, unfolding(crate::specs::Found::obvious_step))]
fn obvious_step(side: Side, buyer: Party, seller: Party, tp: Mills) -> Near
    ensures { result ≡ obvious_step side buyer seller tp }
{
    let by = bands::obvious_adjustment(tp);
    Near {
        buyer: buyer.kind,
        seller: seller.kind,
        customer: parties::any_customer(buyer.kind, seller.kind),
        by,
        price: bands::moved(side, tp, by),
    }
}

#[tactic(auto, unfolding(crate::specs::Found::opening_step))]
fn opening_step(side: Side, buyer: Party, seller: Party, tp: Mills) -> Even
    ensures { result ≡ opening_step side buyer seller tp }
{
    let on = act::opening_tested(side, buyer.kind, seller.kind);
    Even {
        maker: parties::is_maker(parties::by_side(side, seller.kind, buyer.kind)),
        tested: limit_of(on, parties::by_side(on, buyer, seller), true, tp),
    }
}

#[tactic(auto, unfolding(crate::specs::Found::catastrophic_step))]
fn catastrophic_step(
    side: Side,
    buyer: Party,
    seller: Party,
    accepted: Option<Seconds>,
    tp: Mills,
    band: Band,
) -> Far
    ensures { result ≡ catastrophic_step side buyer seller accepted tp band }
{
    let price = bands::moved(side, tp, band.adjustment);
    Far {
        by: band.adjustment,
        price,
        buyer: limit_of(Side::Buy, buyer, parties::is_customer(buyer.kind), price),
        seller: limit_of(Side::Sell, seller, parties::is_customer(seller.kind), price),
        accepted,
        timely: agreement::accepted_in_time(accepted),
    }
}

fn find_acting(
    way: Way,
    side: Side,
    buyer: Party,
    seller: Party,
    accepted: Option<Seconds>,
    tp: Mills,
    band: Band,
) -> Acting
    ensures { result ≡ act_step_of way side buyer seller accepted tp band }
{
    match way {
        Way::Obvious => Acting::OnObvious(obvious_step(side, buyer, seller, tp)),
        Way::Opening => Acting::OnOpening(opening_step(side, buyer, seller, tp)),
        Way::Catastrophic => {
            Acting::OnCatastrophic(catastrophic_step(side, buyer, seller, accepted, tp, band))
        }
    }
}

// ---- agreement

#[tactic(auto, unfolding(crate::specs::Found::ignored_why))]
fn ignored_why(s: Settlement, way: Way, customer: bool) -> u8
    ensures { result ≡ ignored_why s way customer }
{
    if matches!(s.agreement, Agreement::NotMade) {
        1
    } else if !agreement::in_time(s.made, customer) {
        2
    } else if matches!(s.agreement, Agreement::ToNullify)
        && !agreement::may_nullify(way, customer)
    {
        3
    } else {
        0
    }
}

fn find_end(f: Facts, way: Way, source: Source, heeded: Heeded) -> End
    ensures { result ≡ end_of f way source heeded }
{
    match heeded {
        Heeded::Ignored => End::Acted(find_acting(
            way,
            f.request.side,
            f.buyer,
            f.seller,
            f.settlement.accepted,
            source.price,
            bands::band_of(source.price),
        )),
        Heeded::Repriced(price) => End::PriceCounts(price),
        Heeded::Undone => End::NullifyCounts,
    }
}

#[tactic(auto, unfolding(crate::specs::Steps::settled_of))]
fn find_settled(f: Facts, way: Way, source: Source) -> Settled
    ensures { result ≡ settled_of f way source }
{
    let terms = f.settlement;
    let customer = parties::any_customer(f.buyer.kind, f.seller.kind);
    Settled {
        terms,
        customer,
        allowed: agreement::agreement_time(customer),
        ignored: ignored_why(terms, way, customer),
        end: find_end(f, way, source, agreement::heed(terms, way, customer)),
    }
}

// ---- the whole

// Nothing came after the error where the trade is not in error.
#[tactic(auto, unfolding(crate::specs::Steps::judged_of))]
fn judge(f: Facts, way: Way, source: Source) -> Judged
    ensures { result ≡ judged_of f way source }
{
    let off = find_off(f.request.side, f.trade.price, source.price, way);
    Judged {
        way,
        looked: look(f.form, f.request.side, f.market),
        source,
        off,
        after: off.wrong.then(|| find_settled(f, way, source)),
    }
}

#[tactic(auto, unfolding(crate::specs::Steps::reached_on))]
fn reach_on(f: Facts, way: Way) -> Reached
    ensures { result ≡ reached_on f way }
{
    match theory::find_theory(f.form, f.request.side, f.market) {
        Some(source) => Reached::Priced(judge(f, way, source)),
        None => Reached::Unpriced(look(f.form, f.request.side, f.market)),
    }
}

// The panel's decision is asked for on the catastrophic way alone.
#[tactic(auto, unfolding(crate::specs::Steps::reached_by))]
fn reach(f: Facts, found: Option<Way>) -> Reached
    ensures { result ≡ reached_if f found }
{
    match found {
        None => Reached::Late,
        Some(Way::Catastrophic) if f.request.decided => Reached::Decided,
        Some(way) => reach_on(f, way),
    }
}

// What each step of the ruling on these facts found.
#[tactic(auto, unfolding(crate::specs::Steps::steps_of))]
pub fn find_steps(f: Facts) -> Steps
    ensures { result ≡ steps_of f }
{
    let kind = parties::by_side(f.request.side, f.buyer.kind, f.seller.kind);
    let tried = find_tried(f.trade.executed, f.request, kind);
    Steps {
        trade: f.trade,
        clock: find_clock(f.trade.executed, f.request, kind),
        tried,
        reached: reach(f, open_of(tried)),
    }
}
