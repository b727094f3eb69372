// A ruling in the page's numbers: what the record, the notices and the printed line have in common. Nothing is refused here: every
// ruling has its figures, and whoever has a case judged has tested its length.
#![tactic(auto)]

ghost use Rattle.std.specs.Prelude.{◌≡◌, ◌≤◌, length};
ghost use Rattle.record.specs.Record.{facts_of};
ghost use Rattle.ruling.specs.Ruling.{ruling_of};
ghost use Rattle.reasons.specs.Reasons.{reason_outcome};
ghost use Rattle.figures.specs.Figures.{figures_of};

use facts::Mills;
use ruling::{Counts, Outcome};

// 4,294,967,295 for a price of none; the outcome 0 no relief, 1 adjusted, 2 nullified, 3 waiting; the origin of TP 1 a quote, 2 an official, 0 where
// TP is none.
#[derive(Clone, Copy)]
pub struct Figures {
    pub trade: u32,
    pub outcome: u8,
    pub reason: u8,
    pub origin: u8,
    pub tp: u32,
    pub price: u32,
    pub adjusted: u32,
    pub nullified: u32,
    pub standing: u32,
}

// The figures for a reason: TP's origin, TP and the new price as numbers, and the counts.
fn spell(trade: u32, reason: u8, origin: u8, tp: u32, price: u32, counts: Counts) -> Figures
    ensures { result ≡ record { trade = trade; outcome = reason_outcome reason; reason = reason; origin = origin; tp = tp; price = price; adjusted = counts.adjusted.0; nullified = counts.nullified.0; standing = counts.standing.0 } }
{
    Figures {
        trade,
        outcome: reasons::outcome_of(reason),
        reason,
        origin,
        tp,
        price,
        adjusted: counts.adjusted.0,
        nullified: counts.nullified.0,
        standing: counts.standing.0,
    }
}

// The ruling on a case, in the page's numbers. The outcome is decided by the reason, which `rule` promises to be the same.
// Reading, ruling and figures in one call, so that neither the facts nor the ruling need pass through memory; each outcome is spelt in its
// own arm, since what has come together from several lies on the stack.
pub fn judge(case: &[u8]) -> Figures
    requires { 88 ≤ length case.now }
    ensures { result ≡ figures_of (ruling_of (facts_of case.now)) }
{
    let r = ruling::rule(case);
    let origin = theory::origin_number(r.tp);
    let tp = theory::tp_number(r.tp);
    let none = facts::price_number(None);
    match r.outcome {
        Outcome::NoRelief(counts) => spell(r.trade, r.reason, origin, tp, none, counts),
        Outcome::Adjusted(a) => { spell(r.trade, r.reason, origin, tp, a.price.0, a.counts) }
        Outcome::Nullified(counts) => spell(r.trade, r.reason, origin, tp, none, counts),
        Outcome::Waiting(counts) => spell(r.trade, r.reason, origin, tp, none, counts),
    }
}
