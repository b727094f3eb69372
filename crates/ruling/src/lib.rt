// The ruling on a case: the steps of the page joined (RULE R1.8), from the facts of a record to outcome, reason, price and counts. Each step
// reads from the record the groups of facts that it needs: handed down by value, all facts would lie on the stack until the last step.
// Refuses nothing: a record that was not accepted has a ruling too, and nobody asks for it; whoever asks has tested the length.
// Contracts are subtracted here and nowhere else; besides, only the tests (`prices`) compare them, with their bounds.
#![tactic(auto)]

ghost use Rattle.std.specs.Prelude.{◌≡◌, ◌≤◌, length};
ghost use Rattle.record.specs.Record.{facts_of};
ghost use Rattle.ruling.specs.Counts.{covered_by, covered, rest_of};
ghost use Rattle.ruling.specs.Ruling.{no_relief, waiting, nullify, adjust, carried_out, settled, ruled_at, ruled_on, ruled_by, ruling_of};
ghost use Rattle.ruling.specs.Numbers.{InNumbers};

use act::Act;
use agreement::Heeded;
use facts::{Contracts, Mills, Trade};
use theory::{Origin, Source};
use way::Way;

// How many contracts are adjusted, nullified and left standing.
#[derive(Clone, Copy)]
pub struct Counts {
    pub adjusted: Contracts,
    pub nullified: Contracts,
    pub standing: Contracts,
}

#[derive(Clone, Copy)]
pub struct Repricing {
    pub price: Mills,
    pub counts: Counts,
}

#[derive(Clone, Copy)]
pub enum Outcome {
    NoRelief(Counts),
    Adjusted(Repricing),
    Nullified(Counts),
    Waiting(Counts),
}

#[derive(Clone, Copy)]
pub struct Ruling {
    pub trade: u32,
    pub outcome: Outcome,
    pub reason: u8,
    pub tp: Option<Source>,
}

// ---- contracts

fn covered_by(origin: Origin, contracts: Contracts) -> Contracts
    ensures { result ≡ covered_by origin contracts }
{
    match origin {
        Origin::Quoted(size) if size.0 < contracts.0 => size,
        _ => contracts,
    }
}

fn cover_on(way: Way, origin: Origin, contracts: Contracts) -> Contracts
    ensures { result ≡ covered way origin contracts }
{
    match way {
        Way::Opening => covered_by(origin, contracts),
        Way::Obvious | Way::Catastrophic => contracts,
    }
}

fn rest_of(contracts: Contracts, taken: Contracts) -> Contracts
    ensures { result ≡ rest_of contracts taken }
{
    Contracts(contracts.0.saturating_sub(taken.0))
}

// ---- the four outcomes

fn no_relief(trade: Trade, reason: u8, tp: Option<Source>) -> Ruling
    ensures { result ≡ no_relief trade reason tp }
{
    Ruling {
        trade: trade.number,
        outcome: Outcome::NoRelief(Counts {
            adjusted: Contracts(0),
            nullified: Contracts(0),
            standing: trade.contracts,
        }),
        reason,
        tp,
    }
}

fn wait(trade: Trade) -> Ruling
    ensures { result ≡ waiting trade }
{
    Ruling {
        trade: trade.number,
        outcome: Outcome::Waiting(Counts {
            adjusted: Contracts(0),
            nullified: Contracts(0),
            standing: trade.contracts,
        }),
        reason: 14,
        tp: None,
    }
}

fn nullify(trade: Trade, reason: u8, source: Source) -> Ruling
    ensures { result ≡ nullify trade reason source }
{
    Ruling {
        trade: trade.number,
        outcome: Outcome::Nullified(Counts {
            adjusted: Contracts(0),
            nullified: trade.contracts,
            standing: Contracts(0),
        }),
        reason,
        tp: Some(source),
    }
}

fn adjust(trade: Trade, way: Way, source: Source, reason: u8, price: Mills) -> Ruling
    ensures { result ≡ adjust trade way source reason price }
{
    let taken = cover_on(way, source.origin, trade.contracts);
    Ruling {
        trade: trade.number,
        outcome: Outcome::Adjusted(Repricing {
            price,
            counts: Counts {
                adjusted: taken,
                nullified: Contracts(0),
                standing: rest_of(trade.contracts, taken),
            },
        }),
        reason,
        tp: Some(source),
    }
}

// ---- the steps

fn carry_out(trade: Trade, way: Way, source: Source, act: Act) -> Ruling
    ensures { result ≡ carried_out trade way source act }
{
    match act {
        Act::Adjust(change) => adjust(trade, way, source, change.reason, change.price),
        Act::Nullify(reason) => nullify(trade, reason, source),
        Act::Leave(reason) => no_relief(trade, reason, Some(source)),
    }
}

// Agreement, then the act.
fn settle(case: &[u8], way: Way, source: Source, heeded: Heeded) -> Ruling
    requires { 88 ≤ length case.now }
    ensures { result ≡ settled (facts_of case.now) way source heeded }
{
    match heeded {
        Heeded::Ignored => {
            let tp = source.price;
            let side = record::request_of(case).side;
            let told = agreement::accepted_in_time(record::settlement_of(case).accepted);
            let buyer = record::buyer_of(case);
            let seller = record::seller_of(case);
            let act = act::find_act(way, side, buyer, seller, told, tp, bands::band_of(tp));
            carry_out(record::trade_of(case), way, source, act)
        }
        Heeded::Repriced(price) => adjust(record::trade_of(case), way, source, 10, price),
        Heeded::Undone => nullify(record::trade_of(case), 13, source),
    }
}

// The error, then agreement.
fn rule_at(case: &[u8], way: Way, source: Source) -> Ruling
    requires { 88 ≤ length case.now }
    ensures { result ≡ ruled_at (facts_of case.now) way source }
{
    let trade = record::trade_of(case);
    let side = record::request_of(case).side;
    let tp = source.price;
    let minimum = act::minimum_of(way, bands::band_of(tp));
    if bands::in_error(side, trade.price, tp, minimum) {
        let customer = parties::any_customer(record::buyer_kind(case), record::seller_kind(case));
        let heeded = agreement::heed(record::settlement_of(case), way, customer);
        return settle(case, way, source, heeded);
    }
    no_relief(trade, 1, Some(source))
}

// The theoretical price, then the error; where no one gave a price the case waits.
fn rule_on(case: &[u8], way: Way) -> Ruling
    requires { 88 ≤ length case.now }
    ensures { result ≡ ruled_on (facts_of case.now) way }
{
    let side = record::request_of(case).side;
    let found = theory::find_theory(forms::form_of(case), side, record::market_of(case));
    let Some(source) = found else {
        return wait(record::trade_of(case));
    };
    rule_at(case, way, source)
}

fn rule_by(case: &[u8], way: Way) -> Ruling
    requires { 88 ≤ length case.now }
    ensures { result ≡ ruled_by (facts_of case.now) way }
{
    if let Way::Catastrophic = way {
        if record::request_of(case).decided {
            return no_relief(record::trade_of(case), 3, None);
        }
    }
    rule_on(case, way)
}

// The ruling on the facts of a case: the way first. In the page's numbers, outcome, price and counts are those of its reason.
pub fn rule(case: &[u8]) -> Ruling
    requires { 88 ≤ length case.now }
    ensures { (result ≡ ruling_of (facts_of case.now)) × InNumbers (facts_of case.now) result }
{
    let trade = record::trade_of(case);
    let request = record::request_of(case);
    let buyer = record::buyer_kind(case);
    let seller = record::seller_kind(case);
    let kind = parties::by_side(request.side, buyer, seller);
    match way::find_way(trade.executed, request, kind) {
        Some(way) => rule_by(case, way),
        None => no_relief(trade, 2, None),
    }
}
