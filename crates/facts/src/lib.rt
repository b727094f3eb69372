// What a case is: its units, its parties, its facts in groups; the numbers by which the record spells prices and times that
// may be none; limits. Refuses nothing. The numbers of the coded bytes stand in `codes`.
#![tactic(auto)]

ghost use Rattle.std.specs.Prelude.{◌≡◌};
ghost use Rattle.facts.specs.Numbers.{price_of, price_number, moment_of, moment_number};
ghost use Rattle.facts.specs.Limits.{violates};

// ---- the three units: none is ever added to another

#[derive(Clone, Copy, PartialEq, Eq)]
pub struct Mills(pub u32);

#[derive(Clone, Copy, PartialEq, Eq)]
pub struct Contracts(pub u32);

#[derive(Clone, Copy, PartialEq, Eq)]
pub struct Seconds(pub u32);

// ---- what may be none

// ---- what the coded bytes say

// The side in error.
#[derive(Clone, Copy, PartialEq, Eq)]
pub enum Side {
    Buy,
    Sell,
}

#[derive(Clone, Copy, PartialEq, Eq)]
pub enum Kind {
    Customer,
    MarketMaker,
    Other,
}

// The filing day.
#[derive(Clone, Copy, PartialEq, Eq)]
pub enum Day {
    TradeDate,
    NextDay,
    Later,
}

#[derive(Clone, Copy, PartialEq, Eq)]
pub enum Agreement {
    NotMade,
    OnPrice,
    ToNullify,
}

// ---- the facts, in groups

// The form of the record: its kind, with what that kind says besides what every kind says (`forms`).
#[derive(Clone, Copy, PartialEq, Eq)]
pub enum Form {
    One,
    // With the permitted differential.
    Two(Mills),
}

#[derive(Clone, Copy, PartialEq, Eq)]
pub struct Party {
    pub code: [u8; 4],
    pub limit: Option<Mills>,
    pub kind: Kind,
}

#[derive(Clone, Copy, PartialEq, Eq)]
pub struct Trade {
    pub number: u32,
    pub price: Mills,
    pub contracts: Contracts,
    pub executed: Seconds,
}

#[derive(Clone, Copy, PartialEq, Eq)]
pub struct Quote {
    pub price: Option<Mills>,
    pub size: Contracts,
}

#[derive(Clone, Copy, PartialEq, Eq)]
pub struct Market {
    pub bid: Quote,
    pub offer: Quote,
    pub official: Option<Mills>,
}

#[derive(Clone, Copy, PartialEq, Eq)]
pub struct Request {
    pub side: Side,
    pub opening: bool,
    pub expiry: bool,
    pub decided: bool,
    pub day: Day,
    pub filed: Seconds,
}

// What the parties settled after notice. The agreed price stands beside the agreement, so that
// the two can contradict each other (refusal 9) in facts that are to be written, too.
#[derive(Clone, Copy, PartialEq, Eq)]
pub struct Settlement {
    pub agreement: Agreement,
    pub agreed: Option<Mills>,
    pub made: Seconds,
    pub accepted: Option<Seconds>,
}

#[derive(Clone, Copy, PartialEq, Eq)]
pub struct Facts {
    pub form: Form,
    pub trade: Trade,
    pub market: Market,
    pub request: Request,
    pub buyer: Party,
    pub seller: Party,
    pub settlement: Settlement,
}

// ---- prices and moments as numbers

pub fn price_of(n: u32) -> Option<Mills>
    ensures { (result ≡ price_of n) × (price_number result ≡ n) }
{
    match n {
        4294967295 => None,
        _ => Some(Mills(n)),
    }
}

pub fn price_number(p: Option<Mills>) -> u32
    ensures { result ≡ price_number p }
{
    match p {
        Some(m) => m.0,
        None => 4294967295,
    }
}

pub fn moment_of(n: u32) -> Option<Seconds>
    ensures { (result ≡ moment_of n) × (moment_number result ≡ n) }
{
    match n {
        4294967295 => None,
        _ => Some(Seconds(n)),
    }
}

pub fn moment_number(m: Option<Seconds>) -> u32
    ensures { result ≡ moment_number m }
{
    match m {
        Some(t) => t.0,
        None => 4294967295,
    }
}

// ---- limits

// Whether a price violates the limit of the party on this side.
pub fn violates(side: Side, limit: Option<Mills>, price: Mills) -> bool
    ensures { result ≡ violates side limit price }
{
    match (side, limit) {
        (_, None) => false,
        (Side::Buy, Some(highest)) => highest.0 < price.0,
        (Side::Sell, Some(lowest)) => price.0 < lowest.0,
    }
}
