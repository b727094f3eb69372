// Which field of a refused case broke its test, and what the field may hold (RULE R3.1 to R3.9). The fields of a test are asked in the record's
// order, the tests in the table's; the first field that is not in order is told, with the number that stands there and the bounds it was held
// against. The test of that field is the case's refusal (proofs/Numbers.antt).
#![tactic(auto)]

ghost use Rattle.std.specs.Prelude.{◌≡◌, ◌+◌, ◌≤◌, ◌<◌, ◌⊎◌, length};
ghost use Rattle.wire.specs.Numbers.{number_at};
ghost use Rattle.facts.specs.Numbers.{price_of};
ghost use Rattle.forms.specs.Forms.{form_of};
ghost use Rattle.blame.specs.Fields.{field_ok, first_bad, within, or_none, held_at, capped, case_length, head_fields, coded_fields, code_fields, money_field, differential_fields, price_fields, size_bounds, count_fields, filed_bounds, filed_because, time_fields, limit_fields, agreed_bounds, made_bounds, agreement_fields, inside_blame, blame_of};

use codes::Coded;
use facts::{Agreement, Day, Mills};

// The fields of the record, as the page's table has them (RULE R2.6); the two stretches of zeros share a name, and so do the bytes of a code.
#[derive(Clone, Copy)]
pub enum FieldName {
    CaseLength,
    HeadLength,
    HeadKind,
    ZeroBytes,
    SideInError,
    OpeningFlag,
    ExpiryFlag,
    PanelFlag,
    BuyerKind,
    SellerKind,
    FilingDay,
    AgreementCode,
    BuyerCode,
    SellerCode,
    ExecutionPrice,
    BestBid,
    BestOffer,
    OfficialPrice,
    BuyerLimit,
    SellerLimit,
    AgreedPrice,
    Differential,
    ContractsTraded,
    BidSize,
    OfferSize,
    ExecutionTime,
    FilingTime,
    AgreementMade,
    AcceptanceMade,
}

// How a field's numbers are told: a bare number, a count, mills, a time of day, seconds after notice, a letter.
#[derive(Clone, Copy)]
pub enum Measure {
    Plain,
    Counted,
    Money,
    Clocked,
    Lapsed,
    Lettered,
}

// What else the bounds came from: nothing; the length of the case; the bid; the offer; the execution time; the execution price; the agreement.
#[derive(Clone, Copy)]
pub enum Because {
    NoMatter,
    TheCase,
    TheBid,
    TheOffer,
    Executed,
    TheExecution,
    TheAgreement,
}

// A field and its test: the number in its `width` bytes from `at` on, which is to be low to high, or low2 to high2. A range of 1 to 0 holds
// nothing. The length of the case has no place: its width is 0.
#[derive(Clone, Copy)]
pub struct Field {
    pub name: FieldName,
    pub test: u8,
    pub unit: Measure,
    pub at: u8,
    pub width: u8,
    pub number: u32,
    pub low: u32,
    pub high: u32,
    pub low2: u32,
    pub high2: u32,
    pub because: Because,
}

// Two ranges, as a field has them.
#[derive(Clone, Copy)]
struct Bounds {
    low: u32,
    high: u32,
    low2: u32,
    high2: u32,
}

// ---- a field held against its bounds

impl Field {
    fn is_ok(self) -> bool
        ensures { result ≡ field_ok self }
    {
        (self.low..=self.high).contains(&self.number)
            | (self.low2..=self.high2).contains(&self.number)
    }
}

// The first of these that is not in order.
fn first_bad(fields: &[Field]) -> Option<Field>
    ensures { result ≡ first_bad fields.now }
{
    fields.iter().find(|f| !f.is_ok()).copied()
}

fn within(low: u32, high: u32) -> Bounds
    ensures { result ≡ within low high }
{
    Bounds {
        low,
        high,
        low2: 1,
        high2: 0,
    }
}

// The mark "none" besides (RULE R2.4).
fn or_none(low: u32, high: u32) -> Bounds
    ensures { result ≡ or_none low high }
{
    Bounds {
        low,
        high,
        low2: u32::MAX,
        high2: u32::MAX,
    }
}

// A field of `width` bytes from `at` on: one, two or four.
#[tactic(auto, using(crate::proofs::Ranges::byte_number))]
fn held_at(
    s: &[u8],
    name: FieldName,
    test: u8,
    unit: Measure,
    at: u8,
    width: u8,
    bounds: Bounds,
    because: Because,
) -> Field
    requires fits { at + width ≤ length s.now }
    requires read { (width ≡ 1) ⊎ ((width ≡ 2) ⊎ (width ≡ 4)) }
    ensures { result ≡ held_at s.now name test unit at width bounds because }
{
    Field {
        name,
        test,
        unit,
        at,
        width,
        number: match width {
            1 => s[at as usize] as u32,
            2 => wire::read_u16(s, at as usize) as u32,
            _ => wire::read_u32(s, at as usize),
        },
        low: bounds.low,
        high: bounds.high,
        low2: bounds.low2,
        high2: bounds.high2,
        because,
    }
}

// ---- 1: the length of the case

// A length that four bytes cannot hold is told as the highest that they can.
fn capped(n: usize) -> u32
    ensures { result ≡ capped n }
{
    n.min(u32::MAX as usize) as u32
}

#[tactic(auto, unfolding(crate::specs::Fields::case_length))]
fn case_length(s: &[u8]) -> Field
    ensures { result ≡ case_length s.now }
{
    Field {
        name: FieldName::CaseLength,
        test: 1,
        unit: Measure::Counted,
        at: 0,
        width: 0,
        number: capped(s.len()),
        low: 88,
        high: 88,
        low2: 92,
        high2: 92,
        because: Because::NoMatter,
    }
}

// ---- 2: length and kind at the head

#[tactic(auto, unfolding(crate::specs::Fields::head_length, crate::specs::Fields::head_kind))]
fn head_blame(s: &[u8]) -> Option<Field>
    requires { 88 ≤ length s.now }
    ensures { result ≡ first_bad (head_fields s.now) }
{
    let long = capped(s.len());
    let kind = forms::kind_of(forms::form_of(s)) as u32;
    let head = |name, unit, at, number, because| {
        held_at(s, name, 2, unit, at, 2, within(number, number), because)
    };
    first_bad(&[
        head(
            FieldName::HeadLength,
            Measure::Counted,
            0,
            long,
            Because::TheCase,
        ),
        head(
            FieldName::HeadKind,
            Measure::Plain,
            2,
            kind,
            Because::NoMatter,
        ),
    ])
}

// ---- 3: zeros and coded bytes

#[tactic(auto, unfolding(crate::specs::Fields::zero_field, crate::specs::Fields::coded_field))]
fn coded_blame(s: &[u8]) -> Option<Field>
    requires { 88 ≤ length s.now }
    ensures { result ≡ first_bad (coded_fields s.now) }
{
    let plain = |name, at, width, low, high| {
        held_at(
            s,
            name,
            3,
            Measure::Plain,
            at,
            width,
            within(low, high),
            Because::NoMatter,
        )
    };
    first_bad(&[
        plain(FieldName::ZeroBytes, 36, 4, 0, 0),
        plain(FieldName::SideInError, 44, 1, 1, 2),
        plain(FieldName::OpeningFlag, 45, 1, 0, 1),
        plain(FieldName::ExpiryFlag, 46, 1, 0, 1),
        plain(FieldName::PanelFlag, 47, 1, 0, 1),
        plain(FieldName::BuyerKind, 64, 1, 1, 3),
        plain(FieldName::SellerKind, 65, 1, 1, 3),
        plain(FieldName::FilingDay, 66, 1, 0, 2),
        plain(FieldName::AgreementCode, 67, 1, 0, 2),
        plain(FieldName::ZeroBytes, 84, 4, 0, 0),
    ])
}

// ---- 4: member codes

#[tactic(auto, unfolding(crate::specs::Fields::letter_field))]
fn code_blame(s: &[u8]) -> Option<Field>
    requires { 88 ≤ length s.now }
    ensures { result ≡ first_bad (code_fields s.now) }
{
    let bounds = Bounds {
        low: 48,
        high: 57,
        low2: 65,
        high2: 90,
    };
    let letter = |name, at| held_at(
        s,
        name,
        4,
        Measure::Lettered,
        at,
        1,
        bounds,
        Because::NoMatter,
    );
    first_bad(&[
        letter(FieldName::BuyerCode, 48),
        letter(FieldName::BuyerCode, 49),
        letter(FieldName::BuyerCode, 50),
        letter(FieldName::BuyerCode, 51),
        letter(FieldName::SellerCode, 56),
        letter(FieldName::SellerCode, 57),
        letter(FieldName::SellerCode, 58),
        letter(FieldName::SellerCode, 59),
    ])
}

// ---- 5: prices

#[tactic(auto, unfolding(crate::specs::Fields::money_field))]
fn money_at(s: &[u8], name: FieldName, at: u8, bounds: Bounds) -> Field
    requires { at + 4 ≤ length s.now }
    ensures { result ≡ money_field s.now name at bounds }
{
    held_at(s, name, 5, Measure::Money, at, 4, bounds, Because::NoMatter)
}

fn differential_blame(s: &[u8]) -> Option<Field>
    ensures { result ≡ first_bad (differential_fields (form_of s.now) s.now) }
{
    if s.len() < 92 {
        return None;
    }
    first_bad(&[money_at(s, FieldName::Differential, 88, within(1, 9999999))])
}

fn price_blame(s: &[u8]) -> Option<Field>
    requires { 88 ≤ length s.now }
    ensures { result ≡ first_bad (price_fields s.now) }
{
    let bounds = or_none(0, 9999999);
    first_bad(&[
        money_at(s, FieldName::ExecutionPrice, 8, within(0, 9999999)),
        money_at(s, FieldName::BestBid, 20, bounds),
        money_at(s, FieldName::BestOffer, 24, bounds),
        money_at(s, FieldName::OfficialPrice, 40, bounds),
        money_at(s, FieldName::BuyerLimit, 52, bounds),
        money_at(s, FieldName::SellerLimit, 60, bounds),
        money_at(s, FieldName::AgreedPrice, 68, bounds),
    ])
    .or_else(|| differential_blame(s))
}

// ---- 6: contracts and sizes

fn size_bounds(quote: Option<Mills>) -> Bounds
    ensures { result ≡ size_bounds quote }
{
    match quote {
        Some(Mills(0)) => within(0, 1000000),
        Some(_) => within(1, 1000000),
        None => within(0, 0),
    }
}

// What the size of the quote at a place may be.
fn size_by(s: &[u8], at: usize) -> Bounds
    requires { at + 4 ≤ length s.now }
    ensures { result ≡ size_bounds (price_of (number_at 4 s.now at)) }
{
    size_bounds(facts::price_of(wire::read_u32(s, at)))
}

#[tactic(auto, unfolding(crate::specs::Fields::count_field))]
fn count_blame(s: &[u8]) -> Option<Field>
    requires { 88 ≤ length s.now }
    ensures { result ≡ first_bad (count_fields s.now) }
{
    let count = |name, at, bounds, because| {
        held_at(s, name, 6, Measure::Counted, at, 4, bounds, because)
    };
    first_bad(&[
        count(
            FieldName::ContractsTraded,
            12,
            within(1, 1000000),
            Because::NoMatter,
        ),
        count(FieldName::BidSize, 28, size_by(s, 20), Because::TheBid),
        count(FieldName::OfferSize, 32, size_by(s, 24), Because::TheOffer),
    ])
}

// ---- 7: times

// When the filing may be, and what that goes by.
fn filed(day: Day, executed: u32) -> (Bounds, Because)
    ensures bounds { result.0 ≡ filed_bounds day executed }
    ensures because { result.1 ≡ filed_because day }
{
    match day {
        Day::TradeDate => (within(executed, 86399), Because::Executed),
        Day::NextDay | Day::Later => (within(0, 86399), Because::NoMatter),
    }
}

#[tactic(auto, unfolding(crate::specs::Fields::clock_field, crate::specs::Fields::lapse_field))]
fn time_blame(s: &[u8]) -> Option<Field>
    requires { 88 ≤ length s.now }
    ensures { result ≡ first_bad (time_fields s.now) }
{
    let time = |name, unit, at, bounds, because| held_at(s, name, 7, unit, at, 4, bounds, because);
    let (filed, why) = filed(Day::from_byte(s[66]), wire::read_u32(s, 16));
    let free = Because::NoMatter;
    first_bad(&[
        time(
            FieldName::ExecutionTime,
            Measure::Clocked,
            16,
            within(0, 86399),
            free,
        ),
        time(FieldName::FilingTime, Measure::Clocked, 72, filed, why),
        time(
            FieldName::AgreementMade,
            Measure::Lapsed,
            76,
            within(0, 86400),
            free,
        ),
        time(
            FieldName::AcceptanceMade,
            Measure::Lapsed,
            80,
            or_none(0, 86400),
            free,
        ),
    ])
}

// ---- 8: limits

#[tactic(auto, unfolding(crate::specs::Fields::limit_field))]
fn limit_blame(s: &[u8]) -> Option<Field>
    requires { 88 ≤ length s.now }
    ensures { result ≡ first_bad (limit_fields s.now) }
{
    let price = wire::read_u32(s, 8);
    let limit = |name, at, bounds| {
        held_at(
            s,
            name,
            8,
            Measure::Money,
            at,
            4,
            bounds,
            Because::TheExecution,
        )
    };
    let highest = limit(FieldName::BuyerLimit, 52, or_none(price, 4294967294));
    let lowest = limit(FieldName::SellerLimit, 60, or_none(0, price));
    first_bad(&[highest, lowest])
}

// ---- 9: the agreement

fn agreed_bounds(agreement: Agreement) -> Bounds
    ensures { result ≡ agreed_bounds agreement }
{
    match agreement {
        Agreement::OnPrice => within(0, 4294967294),
        Agreement::NotMade | Agreement::ToNullify => within(u32::MAX, u32::MAX),
    }
}

fn made_bounds(agreement: Agreement) -> Bounds
    ensures { result ≡ made_bounds agreement }
{
    match agreement {
        Agreement::NotMade => within(0, 0),
        Agreement::OnPrice | Agreement::ToNullify => within(0, u32::MAX),
    }
}

#[tactic(auto, unfolding(crate::specs::Fields::terms_field))]
fn agreement_blame(s: &[u8]) -> Option<Field>
    requires { 88 ≤ length s.now }
    ensures { result ≡ first_bad (agreement_fields s.now) }
{
    let agreement = Agreement::from_byte(s[67]);
    let term = |name, unit, at, bounds| {
        held_at(s, name, 9, unit, at, 4, bounds, Because::TheAgreement)
    };
    first_bad(&[
        term(
            FieldName::AgreedPrice,
            Measure::Money,
            68,
            agreed_bounds(agreement),
        ),
        term(
            FieldName::AgreementMade,
            Measure::Lapsed,
            76,
            made_bounds(agreement),
        ),
    ])
}

// ---- the first field that is not in order

// What the tests 2 to 9 say of a case that is long enough to be asked.
fn blame_inside(s: &[u8]) -> Option<Field>
    requires { 88 ≤ length s.now }
    ensures { result ≡ inside_blame s.now }
{
    head_blame(s)
        .or_else(|| coded_blame(s))
        .or_else(|| code_blame(s))
        .or_else(|| price_blame(s))
        .or_else(|| count_blame(s))
        .or_else(|| time_blame(s))
        .or_else(|| limit_blame(s))
        .or_else(|| agreement_blame(s))
}

// The field that broke the test by which a case is refused, or none. The length is asked first, so that the bytes behind it are there to read.
pub fn find_blame(s: &[u8]) -> Option<Field>
    ensures { result ≡ blame_of s.now }
{
    let long = case_length(s);
    if !long.is_ok() {
        return Some(long);
    }
    blame_inside(s)
}
