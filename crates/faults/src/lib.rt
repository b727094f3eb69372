// The tests on facts behind "Numbers given back instead of a ruling" (RULE R3.4 to R3.9), in the table's order; 4 also of a record's bytes. Their
// definitions stand in `refusals`, beside those of 1 to 3; the code of 5 and 6 in `prices`. The first that fails is told.
#![tactic(auto)]

ghost use Rattle.std.specs.Prelude.{◌≡◌, ◌&&◌, ◌+◌, ◌≤◌, length};
ghost use Rattle.wire.specs.Numbers.{elements};
ghost use Rattle.refusals.specs.Tests.{code_byte_ok, code_ok, codes_ok, moment_ok, filed_ok, times_ok, limits_ok, agreement_ok, later_fault_of, fault_of};

use facts::{Agreement, Day, Facts, Mills, Party, Request, Seconds, Settlement, Side, Trade};

// ---- 4: member codes

fn code_byte_ok(b: u8) -> bool
    ensures { result ≡ code_byte_ok b }
{
    matches!(b, b'A'..=b'Z' | b'0'..=b'9')
}

// A code's bytes, asked side by side. No byte below '0' is allowed, and that is asked of all four first: of what is left the compiler then makes one
// comparison of four bytes, where it would go byte by byte and bound by bound.
fn bytes_ok(first: u8, second: u8, third: u8, last: u8) -> bool
    ensures { result ≡ (code_byte_ok first && code_byte_ok second && code_byte_ok third && code_byte_ok last) }
{
    if (first < b'0') | (second < b'0') | (third < b'0') | (last < b'0') {
        return false;
    }
    code_byte_ok(first) & code_byte_ok(second) & code_byte_ok(third) & code_byte_ok(last)
}

fn code_ok(c: [u8; 4]) -> bool
    ensures { result ≡ code_ok c }
{
    bytes_ok(c[0], c[1], c[2], c[3])
}

fn codes_ok(buyer: Party, seller: Party) -> bool
    ensures { result ≡ codes_ok buyer seller }
{
    if !code_ok(buyer.code) {
        return false;
    }
    code_ok(seller.code)
}

// The same of the code that stands at a place of a record: from the bytes themselves, which lie beside each other there.
fn code_at(s: &[u8], at: usize) -> bool
    requires { at + 4 ≤ length s.now }
    ensures { result ≡ code_ok (elements 4 s.now at) }
{
    bytes_ok(s[at], s[at + 1], s[at + 2], s[at + 3])
}

// Test 4 of a record, before its facts are read: the buyer's code at 48, the seller's at 56.
pub fn codes_at(s: &[u8]) -> bool
    requires { 88 ≤ length s.now }
    ensures { result ≡ (code_ok (elements 4 s.now 48) && code_ok (elements 4 s.now 56)) }
{
    if !code_at(s, 48) {
        return false;
    }
    code_at(s, 56)
}

// ---- 7: times

fn moment_ok(m: Option<Seconds>) -> bool
    ensures { result ≡ moment_ok m }
{
    match m {
        Some(t) => t.0 <= 86400,
        None => true,
    }
}

fn filed_ok(day: Day, executed: Seconds, filed: Seconds) -> bool
    ensures { result ≡ filed_ok day executed filed }
{
    match day {
        Day::TradeDate => executed.0 <= filed.0,
        Day::NextDay | Day::Later => true,
    }
}

fn times_ok(t: Trade, r: Request, s: Settlement) -> bool
    ensures { result ≡ times_ok t r s }
{
    (t.executed.0 <= 86399)
        & (r.filed.0 <= 86399)
        & (s.made.0 <= 86400)
        & moment_ok(s.accepted)
        & filed_ok(r.day, t.executed, r.filed)
}

// ---- 8: limits

fn limits_ok(t: Trade, buyer: Party, seller: Party) -> bool
    ensures { result ≡ limits_ok t buyer seller }
{
    !facts::violates(Side::Buy, buyer.limit, t.price)
        & !facts::violates(Side::Sell, seller.limit, t.price)
}

// ---- 9: the agreement

fn agreement_ok(s: Settlement) -> bool
    ensures { result ≡ agreement_ok s.agreement s.agreed s.made }
{
    match (s.agreement, s.agreed) {
        (Agreement::NotMade, None) => s.made.0 == 0,
        (Agreement::OnPrice, Some(_)) => true,
        (Agreement::ToNullify, None) => true,
        _ => false,
    }
}

// ---- the first that fails

// The number of the first of the tests 5 to 9 that these facts fail, or 0. No test is run after one that fails.
pub fn later_fault(f: Facts) -> u8
    ensures { result ≡ later_fault_of f }
{
    if !prices::prices_ok(f) {
        return 5;
    }
    if !prices::counts_ok(f.trade, f.market) {
        return 6;
    }
    if !times_ok(f.trade, f.request, f.settlement) {
        return 7;
    }
    if !limits_ok(f.trade, f.buyer, f.seller) {
        return 8;
    }
    refusals::unless(agreement_ok(f.settlement), 0, 9)
}

// The same of the tests 4 to 9.
pub fn fault(f: Facts) -> u8
    ensures { result ≡ fault_of f }
{
    if !codes_ok(f.buyer, f.seller) {
        return 4;
    }
    later_fault(f)
}
