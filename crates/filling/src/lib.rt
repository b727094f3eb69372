// A case filled with the best bid and offer at its own execution time (RULE R16.10 to R16.12, R16.24): bytes 20 to 35 of the record, and no other.
// Refused with 1 to 9 as in reading, then with 20 to 22 (23 cannot arise: an accepted case's execution time is a time of day; nor can 28: the number of
// quotes before it is found here); a refused call writes nothing.
#![tactic(auto)]

ghost use Rattle.std.specs.Prelude.{◌≡◌, ◌≤◌, length};
ghost use Rattle.filling.specs.Filling.{filled, filling_of, tried_of};

use facts::Quote;

// What filling a case answers, and how many quotes are read for it; beside a refusal 0.
#[derive(Clone, Copy)]
pub struct Tried {
    pub refusal: u8,
    pub examined: usize,
}

// Bid and offer into a case; every other byte stays.
fn put_quotes(case: &mut [u8], bid: Quote, offer: Quote)
    requires { 88 ≤ length case.old }
    ensures { case.new ≡ filled case.old bid offer }
{
    wire::put_u32(case, 20, facts::price_number(bid.price));
    wire::put_u32(case, 24, facts::price_number(offer.price));
    wire::put_u32(case, 28, bid.size.0);
    wire::put_u32(case, 32, offer.size.0);
}

// What filling a case would answer, and nothing written.
pub fn check_fill(quotes: &[u8], case: &[u8]) -> Tried
    ensures { result ≡ tried_of quotes.now case.now }
{
    let fault = cases::check_case(case);
    if fault != 0 {
        return Tried {
            refusal: fault,
            examined: 0,
        };
    }
    let would = best::count_and_find(quotes, record::trade_of(case).executed.0);
    Tried {
        refusal: would.found.refusal,
        examined: would.examined,
    }
}

// Fills a case: the number of the first test that fails, 0 where it is filled.
pub fn fill_case(quotes: &[u8], case: &mut [u8]) -> u8
    ensures { (result ≡ (filling_of quotes.now case.old).0) × (case.new ≡ (filling_of quotes.now case.old).1) }
{
    let number = cases::check_case(case);
    if number != 0 {
        return number;
    }
    let found = best::count_and_find(quotes, record::trade_of(case).executed.0).found;
    if found.refusal != 0 {
        return found.refusal;
    }
    put_quotes(case, found.bid, found.offer);
    0
}
