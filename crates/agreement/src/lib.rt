// What the parties settled after notice, as far as it counts: the agreement that a ruling heeds, and a Customer's
// acceptance. Refuses nothing: whatever does not count is ignored. An agreement on a price without a price, which
// refusal 9 keeps out of every accepted case, is ignored too.
#![tactic(auto)]

ghost use Rattle.std.specs.Prelude.{◌≡◌, ◌⊎◌};
ghost use Rattle.codes.specs.Codes.{agreement_number};
ghost use Rattle.agreement.specs.Agreed.{agreement_time, in_time, is_opening, may_nullify, terms_of, heeded_of, heeded_number, accepted_in_time};

use facts::{Agreement, Mills, Seconds, Settlement};
use way::Way;

// What a ruling makes of an agreement.
#[derive(Clone, Copy)]
pub enum Heeded {
    Ignored,
    Repriced(Mills),
    Undone,
}

// How long after notice an agreement is in time; `customer` says that some party is a Customer.
pub fn agreement_time(customer: bool) -> Seconds
    ensures { result ≡ agreement_time customer }
{
    if customer {
        return Seconds(1800);
    }
    Seconds(600)
}

// An agreement made so many seconds after notice is in time.
pub fn in_time(made: Seconds, customer: bool) -> bool
    ensures { result ≡ in_time made customer }
{
    way::no_later(made, agreement_time(customer))
}

fn is_opening(way: Way) -> bool
    ensures { result ≡ is_opening way }
{
    way == Way::Opening
}

// Whether an agreement to nullify counts.
pub fn may_nullify(way: Way, customer: bool) -> bool
    ensures { result ≡ may_nullify way customer }
{
    !customer | is_opening(way)
}

// What was agreed, where it was agreed in time.
fn terms(agreement: Agreement, agreed: Option<Mills>, nullify: bool) -> Heeded
    ensures { result ≡ terms_of agreement agreed nullify }
{
    match (agreement, agreed) {
        (Agreement::OnPrice, Some(price)) => Heeded::Repriced(price),
        (Agreement::ToNullify, _) if nullify => Heeded::Undone,
        _ => Heeded::Ignored,
    }
}

// The agreement that counts, on this way; `customer` says that some party is a Customer.
pub fn heed(settlement: Settlement, way: Way, customer: bool) -> Heeded
    ensures { (result ≡ heeded_of settlement way customer) × ((heeded_number result ≡ 0) ⊎ (heeded_number result ≡ agreement_number settlement.agreement)) }
{
    if !in_time(settlement.made, customer) {
        return Heeded::Ignored;
    }
    terms(
        settlement.agreement,
        settlement.agreed,
        may_nullify(way, customer),
    )
}

// Whether a Customer accepted in time; where it never did, no.
pub fn accepted_in_time(accepted: Option<Seconds>) -> bool
    ensures { result ≡ accepted_in_time accepted }
{
    match accepted {
        Some(t) => way::no_later(t, Seconds(1800)),
        None => false,
    }
}
