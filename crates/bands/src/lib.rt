// The error table: the row for a theoretical price (TP), whether an execution is in error, and where an
// adjustment moves TP. Refuses nothing and asks nothing: a TP above every other row has the last one, and a
// move past the numbers that there are stops at the end, where the adjustment of an error never comes.
#![tactic(auto)]

ghost use Rattle.std.specs.Prelude.{◌≡◌};
ghost use Rattle.bands.specs.Table.{band_of};
ghost use Rattle.bands.specs.Amounts.{obvious_adjustment_of, in_error, moved_by};

use facts::{Mills, Side};

// A row: the highest TP that it serves, the least error that is obvious, the least that is catastrophic,
// and how far a catastrophic error moves TP.
#[derive(Clone, Copy)]
pub struct Band {
    pub top: Mills,
    pub obvious: Mills,
    pub catastrophic: Mills,
    pub adjustment: Mills,
}

// The highest TP that each row serves, but for the last. A constant each: a test that names a row's field builds the whole row first, and
// the proof follows it.
const TOP_BELOW_2: u32 = 1999;

const TOP_TO_5: u32 = 5000;

const TOP_TO_10: u32 = 10000;

const TOP_TO_20: u32 = 20000;

const TOP_TO_50: u32 = 50000;

const TOP_TO_100: u32 = 100000;

// The table, in mills: a row for each line of the page (RULE R6.2).

// TP below $2
const BELOW_2: Band = Band {
    top: Mills(TOP_BELOW_2),
    obvious: Mills(250),
    catastrophic: Mills(1000),
    adjustment: Mills(1000),
};

// 2 to 5
const TO_5: Band = Band {
    top: Mills(TOP_TO_5),
    obvious: Mills(400),
    catastrophic: Mills(2000),
    adjustment: Mills(2000),
};

// above 5 to 10
const TO_10: Band = Band {
    top: Mills(TOP_TO_10),
    obvious: Mills(500),
    catastrophic: Mills(3000),
    adjustment: Mills(3000),
};

// above 10 to 20
const TO_20: Band = Band {
    top: Mills(TOP_TO_20),
    obvious: Mills(800),
    catastrophic: Mills(5000),
    adjustment: Mills(5000),
};

// above 20 to 50
const TO_50: Band = Band {
    top: Mills(TOP_TO_50),
    obvious: Mills(1000),
    catastrophic: Mills(7000),
    adjustment: Mills(7000),
};

// above 50 to 100
const TO_100: Band = Band {
    top: Mills(TOP_TO_100),
    obvious: Mills(1000),
    catastrophic: Mills(10000),
    adjustment: Mills(10000),
};

// above 100
const ABOVE_100: Band = Band {
    top: Mills(9999999),
    obvious: Mills(1000),
    catastrophic: Mills(15000),
    adjustment: Mills(15000),
};

// The row for a TP: the first whose top is at least TP, and the last for every TP above the others.
pub fn band_of(tp: Mills) -> Band
    ensures { result ≡ band_of tp }
{
    if tp.0 <= TOP_BELOW_2 {
        return BELOW_2;
    }
    if tp.0 <= TOP_TO_5 {
        return TO_5;
    }
    if tp.0 <= TOP_TO_10 {
        return TO_10;
    }
    if tp.0 <= TOP_TO_20 {
        return TO_20;
    }
    if tp.0 <= TOP_TO_50 {
        return TO_50;
    }
    if tp.0 <= TOP_TO_100 {
        return TO_100;
    }
    ABOVE_100
}

// How far an obvious error moves TP.
pub fn obvious_adjustment(tp: Mills) -> Mills
    ensures { result ≡ obvious_adjustment_of tp }
{
    if tp.0 < 3000 {
        return Mills(150);
    }
    Mills(300)
}

// Whether an execution is in error by at least the minimum. The sums are in 64 bits, where they can't wrap.
pub fn in_error(side: Side, execution: Mills, tp: Mills, minimum: Mills) -> bool
    ensures { result ≡ in_error side execution tp minimum }
{
    let x = execution.0 as u64;
    let t = tp.0 as u64;
    let m = minimum.0 as u64;
    match side {
        Side::Buy => t + m <= x,
        Side::Sell => x + m <= t,
    }
}

// TP plus (buy) or minus (sell) an amount; each is tested before it is taken.
pub fn moved(side: Side, tp: Mills, by: Mills) -> Mills
    ensures { result ≡ moved_by side tp by }
{
    match side {
        Side::Buy => Mills(tp.0.saturating_add(by.0)),
        Side::Sell => Mills(tp.0.saturating_sub(by.0)),
    }
}
