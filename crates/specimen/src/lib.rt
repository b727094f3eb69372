// A good case record of each kind, and that of kind 1 with one place changed: what the programs that run the edges bring to the desk, and
// what shows that the tests let something through (`refusals`, `demands`).
#![tactic(auto)]

ghost use Rattle.std.specs.Prelude.{◌≡◌, ◌+◌, ◌≤◌, ◌<◌, set};
ghost use Rattle.wire.specs.Numbers.{bytes, stored};
ghost use Rattle.specimen.specs.Good.{good_case, good_two};

// The bytes of a case record of kind 1.
pub type Record = [u8; 88];

// And of kind 2.
pub type RecordTwo = [u8; 92];

// Trade 7: a Market Maker bought 10 at 2.000 from another at 9:30:00 (34,200), the market 1.400 for 20 to 1.500 for 30;
// filed 120 s later. No limits, no agreement, no official's price. The order is that of the page's table (RULE R2.6).
pub fn good() -> Record
    ensures { result ≡ good_case }
{
    [
        88, 0, 1, 0, // length, kind
        7, 0, 0, 0, // trade number
        208, 7, 0, 0, // execution price
        10, 0, 0, 0, // contracts
        152, 133, 0, 0, // execution time
        120, 5, 0, 0, // best bid
        220, 5, 0, 0, // best offer
        20, 0, 0, 0, // bid size
        30, 0, 0, 0, // offer size
        0, 0, 0, 0, // zero
        255, 255, 255, 255, // official's price
        1, 0, 0, 0, // side, opening, expiry deadline, panel
        65, 66, 49, 50, // buyer's code
        255, 255, 255, 255, // and limit
        90, 88, 57, 48, // seller's code
        255, 255, 255, 255, // and limit
        2, 2, 0, 0, // kinds, filing day, agreement
        255, 255, 255, 255, // agreed price
        16, 134, 0, 0, // filing time
        0, 0, 0, 0, // agreement made
        255, 255, 255, 255, // acceptance
        0, 0, 0, 0, // zero
    ]
}

// The same trade in kind 2 (RULE R2.11): another head, and behind the same bytes a permitted differential of 50 mills. Bid and offer are 100
// apart, so the quotes are wide, and not by a mill more (R5.6).
pub fn good_two() -> RecordTwo
    ensures { result ≡ good_two }
{
    [
        92, 0, 2, 0, // length, kind
        7, 0, 0, 0, // trade number
        208, 7, 0, 0, // execution price
        10, 0, 0, 0, // contracts
        152, 133, 0, 0, // execution time
        120, 5, 0, 0, // best bid
        220, 5, 0, 0, // best offer
        20, 0, 0, 0, // bid size
        30, 0, 0, 0, // offer size
        0, 0, 0, 0, // zero
        255, 255, 255, 255, // official's price
        1, 0, 0, 0, // side, opening, expiry deadline, panel
        65, 66, 49, 50, // buyer's code
        255, 255, 255, 255, // and limit
        90, 88, 57, 48, // seller's code
        255, 255, 255, 255, // and limit
        2, 2, 0, 0, // kinds, filing day, agreement
        255, 255, 255, 255, // agreed price
        16, 134, 0, 0, // filing time
        0, 0, 0, 0, // agreement made
        255, 255, 255, 255, // acceptance
        0, 0, 0, 0, // zero
        50, 0, 0, 0, // permitted differential
    ]
}

// The record with one byte changed. The place is one of the record's.
pub fn byte(case: Record, at: usize, b: u8) -> Record
    requires { at < 88 }
    ensures { result ≡ set case at b }
{
    let mut changed = case;
    changed[at] = b;
    changed
}

// The record with a four-byte number changed. The place is one of the record's.
pub fn word(case: Record, at: usize, n: u32) -> Record
    requires { at + 4 ≤ 88 }
    ensures { result ≡ stored case at (bytes 4 n) }
{
    let mut changed = case;
    wire::put_u32(&mut changed, at, n);
    changed
}
