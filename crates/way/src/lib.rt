// The way that a request goes: the first that is open by the clock, for the party in error. It reads the times,
// the day and the flags 45 and 46 of the record; whether a panel has already decided (47) is for the ruling.
// Refuses nothing: every time has an answer, one that no accepted case holds too.
// Seconds are compared and summed here and nowhere above.
#![tactic(auto)]

ghost use Rattle.std.specs.Prelude.{◌≡◌};
ghost use Rattle.way.specs.Times.{is_trade_date, is_next_day, no_later, within};
ghost use Rattle.way.specs.Way.{obvious_time, obvious_open, opening_open, catastrophic_open, way_of};

use facts::{Day, Kind, Request, Seconds};

#[derive(Clone, Copy, PartialEq, Eq)]
pub enum Way {
    Obvious,
    Opening,
    Catastrophic,
}

// ---- times

pub fn is_trade_date(d: Day) -> bool
    ensures { result ≡ is_trade_date d }
{
    d == Day::TradeDate
}

pub fn is_next_day(d: Day) -> bool
    ensures { result ≡ is_next_day d }
{
    d == Day::NextDay
}

// At most the other, of two times or of two counts of seconds.
pub fn no_later(t: Seconds, by: Seconds) -> bool
    ensures { result ≡ no_later t by }
{
    t.0 <= by.0
}

// Whether t comes at most so many seconds after a start. The sum is wide enough for any two numbers of seconds.
pub fn within(count: Seconds, start: Seconds, t: Seconds) -> bool
    ensures { result ≡ within count start t }
{
    (t.0 as u64) <= (start.0 as u64) + (count.0 as u64)
}

// ---- the three ways

// How long after execution the obvious way is open to this party.
pub fn obvious_time(kind: Kind) -> Seconds
    ensures { result ≡ obvious_time kind }
{
    match kind {
        Kind::MarketMaker => Seconds(300),
        Kind::Customer | Kind::Other => Seconds(1200),
    }
}

fn obvious_open(day: Day, executed: Seconds, filed: Seconds, kind: Kind) -> bool
    ensures { result ≡ obvious_open day executed filed kind }
{
    is_trade_date(day) & within(obvious_time(kind), executed, filed)
}

fn opening_open(day: Day, opening: bool, executed: Seconds, filed: Seconds, kind: Kind) -> bool
    ensures { result ≡ opening_open day opening executed filed kind }
{
    is_trade_date(day)
        & opening
        & parties::is_customer(kind)
        & !within(Seconds(1200), executed, filed)
        & no_later(filed, Seconds(59400))
}

fn catastrophic_open(day: Day, expiry: bool, filed: Seconds) -> bool
    ensures { result ≡ catastrophic_open day expiry filed }
{
    if expiry {
        return is_trade_date(day) & no_later(filed, Seconds(61200));
    }
    is_trade_date(day) | is_next_day(day) & no_later(filed, Seconds(30600))
}

// The way of a request, `kind` being that of the party in error: the first that is open, and no other is tried.
pub fn find_way(executed: Seconds, request: Request, kind: Kind) -> Option<Way>
    ensures { result ≡ way_of executed request kind }
{
    let Request { day, filed, .. } = request;
    if obvious_open(day, executed, filed, kind) {
        return Some(Way::Obvious);
    }
    if opening_open(day, request.opening, executed, filed, kind) {
        return Some(Way::Opening);
    }
    if catastrophic_open(day, request.expiry, filed) {
        return Some(Way::Catastrophic);
    }
    None
}
