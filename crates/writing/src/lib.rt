// The bytes that say facts, written over the start of a lent buffer, a stretch of the record after the other, and what its form adds last.
// Nothing is refused here: `cases` has tested the room and the facts. What the bytes are is defined in `record`, beside what they say.
#![tactic(auto)]

ghost use Rattle.std.specs.Prelude.{◌≡◌, ◌+◌, ◌≤◌, length};
ghost use Rattle.wire.specs.Numbers.{stored};
ghost use Rattle.wire.specs.Laid.{laid};
ghost use Rattle.forms.specs.Forms.{form_length};
ghost use Rattle.record.specs.Record.{head_bytes, trade_bytes, market_bytes, flag_bytes, party_stored, list_bytes, tail_bytes, record_bytes};

use codes::Coded;
use facts::{Facts, Form, Market, Party, Request, Seconds, Settlement, Trade};

fn put_head(out: &mut [u8], form: Form)
    requires { 88 ≤ length out.old }
    ensures { out.new ≡ stored out.old 0 (head_bytes form) }
{
    wire::put_u16(out, 0, forms::length_of(form));
    wire::put_u16(out, 2, forms::kind_of(form));
}

fn put_trade(out: &mut [u8], t: Trade)
    requires { 88 ≤ length out.old }
    ensures { out.new ≡ stored out.old 4 (trade_bytes t) }
{
    wire::put_u32(out, 4, t.number);
    wire::put_u32(out, 8, t.price.0);
    wire::put_u32(out, 12, t.contracts.0);
    wire::put_u32(out, 16, t.executed.0);
}

fn put_market(out: &mut [u8], m: Market)
    requires { 88 ≤ length out.old }
    ensures { out.new ≡ stored out.old 20 (market_bytes m) }
{
    wire::put_u32(out, 20, facts::price_number(m.bid.price));
    wire::put_u32(out, 24, facts::price_number(m.offer.price));
    wire::put_u32(out, 28, m.bid.size.0);
    wire::put_u32(out, 32, m.offer.size.0);
    wire::put_u32(out, 36, 0);
    wire::put_u32(out, 40, facts::price_number(m.official));
}

fn put_flags(out: &mut [u8], r: Request)
    requires { 88 ≤ length out.old }
    ensures { out.new ≡ stored out.old 44 (flag_bytes r) }
{
    wire::put(
        out,
        44,
        [
            r.side.byte(),
            r.opening.byte(),
            r.expiry.byte(),
            r.decided.byte(),
        ],
    );
}

fn put_party(out: &mut [u8], at: usize, p: Party)
    requires { at + 8 ≤ length out.old }
    ensures { out.new ≡ party_stored out.old at p }
{
    wire::put(out, at, p.code);
    wire::put_u32(out, at + 4, facts::price_number(p.limit));
}

fn put_lists(out: &mut [u8], f: Facts)
    requires { 88 ≤ length out.old }
    ensures { out.new ≡ stored out.old 64 (list_bytes f) }
{
    wire::put(
        out,
        64,
        [
            f.buyer.kind.byte(),
            f.seller.kind.byte(),
            f.request.day.byte(),
            f.settlement.agreement.byte(),
        ],
    );
}

fn put_tail(out: &mut [u8], filed: Seconds, s: Settlement)
    requires { 88 ≤ length out.old }
    ensures { out.new ≡ stored out.old 68 (tail_bytes filed s) }
{
    wire::put_u32(out, 68, facts::price_number(s.agreed));
    wire::put_u32(out, 72, filed.0);
    wire::put_u32(out, 76, s.made.0);
    wire::put_u32(out, 80, facts::moment_number(s.accepted));
    wire::put_u32(out, 84, 0);
}

// The bytes that say these facts, over the start of the buffer; every byte after them stays.
pub fn put_facts(out: &mut [u8], f: Facts)
    requires { (88 ≤ length out.old) × (form_length f.form ≤ length out.old) }
    ensures { out.new ≡ laid (record_bytes f) out.old }
{
    put_head(out, f.form);
    put_trade(out, f.trade);
    put_market(out, f.market);
    put_flags(out, f.request);
    put_party(out, 48, f.buyer);
    put_party(out, 56, f.seller);
    put_lists(out, f);
    put_tail(out, f.request.filed, f.settlement);
    forms::put_form(out, f.form);
}
