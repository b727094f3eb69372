// A case read and written: any byte string gives facts or the number of the first test that it fails; any facts give
// the bytes of their form or such a number. Refused with 1 to 9 in reading, 11 and 4 to 9 in writing (3 cannot arise there: the facts'
// types have no other cases). A refused writing leaves the buffer as it was.
#![tactic(auto)]

ghost use Rattle.std.specs.Prelude.{◌≡◌, length, replicate};
ghost use Rattle.wire.specs.Laid.{laid};
ghost use Rattle.wire.specs.Numbers.{AreBytes};
ghost use Rattle.forms.specs.Heads.{IsCase};
ghost use Rattle.record.specs.Record.{facts_of};
ghost use Rattle.cases.specs.Cases.{refusal_of, refused, reading_of, writing_of, Held};

use facts::{
    Agreement, Contracts, Day, Facts, Form, Kind, Market, Mills, Party, Quote, Request, Seconds,
    Settlement, Side, Trade,
};

// The facts where refusal is 0; otherwise the number of the first test that failed, beside fixed facts that nobody uses.
#[derive(Clone, Copy)]
pub struct Reading {
    pub refusal: u8,
    pub facts: Facts,
}

// What 88 zero bytes say, made without the bytes.
fn no_facts() -> Facts
    ensures { result ≡ facts_of (replicate 88 0) }
{
    let quote = Quote {
        price: Some(Mills(0)),
        size: Contracts(0),
    };
    let party = Party {
        code: [0u8; 4],
        limit: Some(Mills(0)),
        kind: Kind::Other,
    };
    Facts {
        form: Form::One,
        trade: Trade {
            number: 0,
            price: Mills(0),
            contracts: Contracts(0),
            executed: Seconds(0),
        },
        market: Market {
            bid: quote,
            offer: quote,
            official: Some(Mills(0)),
        },
        request: Request {
            side: Side::Sell,
            opening: false,
            expiry: false,
            decided: false,
            day: Day::TradeDate,
            filed: Seconds(0),
        },
        buyer: party,
        seller: party,
        settlement: Settlement {
            agreement: Agreement::NotMade,
            agreed: Some(Mills(0)),
            made: Seconds(0),
            accepted: Some(Seconds(0)),
        },
    }
}

fn refuse(n: u8) -> Reading
    ensures { result ≡ refused n }
{
    Reading {
        refusal: n,
        facts: no_facts(),
    }
}

// Tests what is known to be a case by its head: 3 to 9. Whoever has cut a sheet into its cases knows so much of each, and need not ask it again.
pub fn check_known(s: &[u8]) -> u8
    requires { IsCase s.now }
    ensures { result ≡ refusal_of s.now }
{
    if !refusals::coded_ok(s) {
        return 3;
    }
    if !faults::codes_at(s) {
        return 4;
    }
    faults::later_fault(record::facts_of(s))
}

// Tests a case: 1, then 2 to 9. Answers the number of the first test that it fails, or 0.
pub fn check_case(s: &[u8]) -> u8
    ensures { result ≡ refusal_of s.now }
{
    let head = refusals::head_fault(s);
    if head != 0 {
        return head;
    }
    check_known(s)
}

// Reads a case: its facts, where no test fails. The promise also hands on what the type gives, that each element is a byte, so that
// what is said of every call need not ask for it.
pub fn read_case(s: &[u8]) -> Reading
    ensures { (result ≡ reading_of s.now) × AreBytes s.now }
{
    let n = check_case(s);
    if n != 0 {
        return refuse(n);
    }
    Reading {
        refusal: 0,
        facts: record::facts_of(s),
    }
}

// Writes a case: tests 11 (room for the form's own length), then 3 to 9. Answers the number, 0 where the bytes are written. The promise also
// hands on what the type of the facts gives (`Held`).
pub fn write_case(f: Facts, out: &mut [u8]) -> u8
    ensures { (result ≡ (writing_of f (length out.old)).0) × (out.new ≡ laid (writing_of f (length out.old)).1 out.old) × Held f }
{
    if out.len() < forms::length_of(f.form) as usize {
        return 11;
    }
    let n = faults::fault(f);
    if n != 0 {
        return n;
    }
    writing::put_facts(out, f);
    0
}
