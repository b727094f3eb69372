// What goes out: the ruling record and the two notices, written as 96 bytes, each field straight to its place in the lent buffer. Nothing is
// refused here: whoever asks has tested the room.
#![tactic(auto)]

ghost use Rattle.std.specs.Prelude.{◌≡◌, ◌≤◌, length};
ghost use Rattle.wire.specs.Numbers.{bytes, elements, stored};
ghost use Rattle.wire.specs.Laid.{laid};
ghost use Rattle.notices.specs.Records.{start_bytes, ruled_bytes, ruling_record, told_bytes, shows, shown_code, code_bytes, notice_record, answer_records};

use codes::Coded;
use facts::Side;
use figures::Figures;

// ---- whether a party learns the other's code

fn shows(outcome: u8) -> bool
    ensures { result ≡ shows outcome }
{
    matches!(outcome, 1..=2)
}

// ---- the stretches of a record

fn put_head(out: &mut [u8], kind: u16, n: Figures, own: u8)
    requires { 32 ≤ length out.old }
    ensures { out.new ≡ stored out.old 0 (start_bytes kind n own) }
{
    wire::put_u16(out, 0, 32);
    wire::put_u16(out, 2, kind);
    wire::put_u32(out, 4, n.trade);
    wire::put(out, 8, [n.outcome, n.reason, own, 0]);
}

fn put_ruled(out: &mut [u8], n: Figures)
    requires { 32 ≤ length out.old }
    ensures { out.new ≡ stored out.old 12 (ruled_bytes n) }
{
    wire::put_u32(out, 12, n.tp);
    wire::put_u32(out, 16, n.price);
    wire::put_u32(out, 20, n.adjusted);
    wire::put_u32(out, 24, n.nullified);
    wire::put_u32(out, 28, n.standing);
}

fn put_told(out: &mut [u8], n: Figures)
    requires { 32 ≤ length out.old }
    ensures { out.new ≡ stored out.old 12 (told_bytes n) }
{
    wire::put_u32(out, 12, n.price);
    wire::put_u32(out, 16, n.adjusted);
    wire::put_u32(out, 20, n.nullified);
}

// A member code goes from the record into a notice as the four-byte number that it stands there as. Where it is not shown zeros are written, since
// the buffer is lent with anything in it.
fn put_shown(out: &mut [u8], outcome: u8, other: u32)
    requires { 32 ≤ length out.old }
    ensures { out.new ≡ stored out.old 24 (elements 4 (shown_code outcome (bytes 4 other)) 0) }
{
    if shows(outcome) {
        wire::put_u32(out, 24, other);
        return;
    }
    wire::put_u32(out, 24, 0);
}

fn put_codes(out: &mut [u8], outcome: u8, code: u32, other: u32)
    requires { 32 ≤ length out.old }
    ensures { out.new ≡ stored out.old 24 (code_bytes outcome (bytes 4 code) (bytes 4 other)) }
{
    put_shown(out, outcome, other);
    wire::put_u32(out, 28, code);
}

// ---- the records, each over the start of its part

fn put_ruling(out: &mut [u8], n: Figures)
    requires { 32 ≤ length out.old }
    ensures { out.new ≡ laid (ruling_record n) out.old }
{
    put_head(out, 16, n, n.origin);
    put_ruled(out, n);
}

fn put_notice(out: &mut [u8], n: Figures, recipient: Side, code: u32, other: u32)
    requires { 32 ≤ length out.old }
    ensures { out.new ≡ laid (notice_record n recipient (bytes 4 code) (bytes 4 other)) out.old }
{
    put_head(out, 17, n, recipient.byte());
    put_told(out, n);
    put_codes(out, n.outcome, code, other);
}

// The answer to a case: the ruling record, the buyer's notice, the seller's notice, over the first 96 bytes of the buffer; every
// byte after them stays. A code is the number that its four bytes are.
pub fn put_answer(out: &mut [u8], n: Figures, buyer: u32, seller: u32)
    requires { 96 ≤ length out.old }
    ensures { out.new ≡ laid (answer_records n (bytes 4 buyer) (bytes 4 seller)) out.old }
{
    put_ruling(out, n);
    put_notice(&mut out[32..], n, Side::Buy, buyer, seller);
    put_notice(&mut out[64..], n, Side::Sell, seller, buyer);
}
