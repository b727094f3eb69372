// The bytes of a case record: the facts that they say, all of them or a group at a time, so that a step of a ruling reads what it needs
// and no more. Nothing is refused here: whoever asks has tested the length (`cases`), and the tests of `refusals` judge the bytes and the facts.
#![tactic(auto)]

ghost use Rattle.std.specs.Prelude.{◌≡◌, ◌+◌, ◌≤◌, ◌<◌, length};
ghost use Rattle.wire.specs.Numbers.{elements};
ghost use Rattle.record.specs.Record.{party_at, trade_of, market_of, request_of, settlement_of, facts_of};

use codes::Coded;
use facts::{
    Agreement, Contracts, Day, Facts, Kind, Market, Mills, Party, Quote, Request, Seconds,
    Settlement, Side, Trade,
};

// The four bytes of a member code.
fn code_at(s: &[u8], at: usize) -> [u8; 4]
    requires { at + 4 ≤ length s.now }
    ensures { result ≡ elements 4 s.now at }
{
    [s[at], s[at + 1], s[at + 2], s[at + 3]]
}

// The code at `at` with the limit behind it, and the kind at `kind_at`.
fn party_at(s: &[u8], at: usize, kind_at: usize) -> Party
    requires { (at + 8 ≤ length s.now) × (kind_at < length s.now) }
    ensures { result ≡ party_at s.now at kind_at }
{
    Party {
        code: code_at(s, at),
        limit: facts::price_of(wire::read_u32(s, at + 4)),
        kind: Kind::from_byte(s[kind_at]),
    }
}

// The trade: number, price, contracts, time of execution.
pub fn trade_of(s: &[u8]) -> Trade
    requires { 88 ≤ length s.now }
    ensures { result ≡ trade_of s.now }
{
    Trade {
        number: wire::read_u32(s, 4),
        price: Mills(wire::read_u32(s, 8)),
        contracts: Contracts(wire::read_u32(s, 12)),
        executed: Seconds(wire::read_u32(s, 16)),
    }
}

// The market: bid and offer with their sizes, and the official's price.
pub fn market_of(s: &[u8]) -> Market
    requires { 88 ≤ length s.now }
    ensures { result ≡ market_of s.now }
{
    Market {
        bid: Quote {
            price: facts::price_of(wire::read_u32(s, 20)),
            size: Contracts(wire::read_u32(s, 28)),
        },
        offer: Quote {
            price: facts::price_of(wire::read_u32(s, 24)),
            size: Contracts(wire::read_u32(s, 32)),
        },
        official: facts::price_of(wire::read_u32(s, 40)),
    }
}

// The request: side in error, the three flags, day and time of filing.
pub fn request_of(s: &[u8]) -> Request
    requires { 88 ≤ length s.now }
    ensures { result ≡ request_of s.now }
{
    Request {
        side: Side::from_byte(s[44]),
        opening: bool::from_byte(s[45]),
        expiry: bool::from_byte(s[46]),
        decided: bool::from_byte(s[47]),
        day: Day::from_byte(s[66]),
        filed: Seconds(wire::read_u32(s, 72)),
    }
}

// The kind by itself, for the steps that ask no more of a party.
pub fn buyer_kind(s: &[u8]) -> Kind
    requires { 88 ≤ length s.now }
    ensures { result ≡ (party_at s.now 48 64).kind }
{
    Kind::from_byte(s[64])
}

pub fn seller_kind(s: &[u8]) -> Kind
    requires { 88 ≤ length s.now }
    ensures { result ≡ (party_at s.now 56 65).kind }
{
    Kind::from_byte(s[65])
}

// A party with its code, its limit and its kind.
pub fn buyer_of(s: &[u8]) -> Party
    requires { 88 ≤ length s.now }
    ensures { result ≡ party_at s.now 48 64 }
{
    party_at(s, 48, 64)
}

pub fn seller_of(s: &[u8]) -> Party
    requires { 88 ≤ length s.now }
    ensures { result ≡ party_at s.now 56 65 }
{
    party_at(s, 56, 65)
}

// What the parties settled after notice: the agreement, its price and seconds, the acceptance.
pub fn settlement_of(s: &[u8]) -> Settlement
    requires { 88 ≤ length s.now }
    ensures { result ≡ settlement_of s.now }
{
    Settlement {
        agreement: Agreement::from_byte(s[67]),
        agreed: facts::price_of(wire::read_u32(s, 68)),
        made: Seconds(wire::read_u32(s, 76)),
        accepted: facts::moment_of(wire::read_u32(s, 80)),
    }
}

// The facts that a case says.
pub fn facts_of(s: &[u8]) -> Facts
    requires { 88 ≤ length s.now }
    ensures { result ≡ facts_of s.now }
{
    Facts {
        form: forms::form_of(s),
        trade: trade_of(s),
        market: market_of(s),
        request: request_of(s),
        buyer: buyer_of(s),
        seller: seller_of(s),
        settlement: settlement_of(s),
    }
}
