// The rows of a refused case: its head, and the field that broke its test, with the number that stands there and what is allowed. What is written goes
// into a lent buffer from a place on, every other byte stays, and the answer is the place after it. Nothing is refused here: whoever asks has tested
// the room, 1,040 bytes for each row.
#![tactic(auto)]

ghost use Rattle.std.specs.Prelude.{◌≡◌, ◌+◌, ◌≤◌, length};
ghost use Rattle.text.specs.Text.{laid_at};
ghost use Rattle.words.specs.Rows.{rows_text};
ghost use Rattle.blame_lines.specs.Lines.{name_phrase, timed, measured, bound, upper_piece, other_piece, other_upper_piece, price_in, cause_piece, because_piece, field_row, strange_row, refused_row, refused_head, field_rows, blame_rows};

use blame::{Because, Field, FieldName, Measure};
use codes::Coded;
use facts::{Agreement, Seconds};
use words::{Piece, Value};

fn name_phrase(name: FieldName) -> u8
    ensures { result ≡ name_phrase name }
{
    match name {
        FieldName::CaseLength => words::CASE_LENGTH,
        FieldName::HeadLength => words::HEAD_LENGTH,
        FieldName::HeadKind => words::HEAD_KIND,
        FieldName::ZeroBytes => words::ZERO,
        FieldName::SideInError => words::SIDE,
        FieldName::OpeningFlag => words::OPENING_FLAG,
        FieldName::ExpiryFlag => words::EXPIRY_FLAG,
        FieldName::PanelFlag => words::PANEL_FLAG,
        FieldName::BuyerKind => words::BUYER_KIND,
        FieldName::SellerKind => words::SELLER_KIND,
        FieldName::FilingDay => words::FILING_DAY,
        FieldName::AgreementCode => words::AGREEMENT_CODE,
        FieldName::BuyerCode => words::BUYER_CODE,
        FieldName::SellerCode => words::SELLER_CODE,
        FieldName::ExecutionPrice => words::EXECUTION_PRICE,
        FieldName::BestBid => words::BEST_BID,
        FieldName::BestOffer => words::BEST_OFFER,
        FieldName::OfficialPrice => words::OFFICIAL_PRICE,
        FieldName::BuyerLimit => words::BUYER_LIMIT,
        FieldName::SellerLimit => words::SELLER_LIMIT,
        FieldName::AgreedPrice => words::AGREED_PRICE,
        FieldName::Differential => words::DIFFERENTIAL,
        FieldName::ContractsTraded => words::CONTRACTS_TRADED,
        FieldName::BidSize => words::BID_SIZE,
        FieldName::OfferSize => words::OFFER_SIZE,
        FieldName::ExecutionTime => words::EXECUTION_TIME,
        FieldName::FilingTime => words::FILING_TIME,
        FieldName::AgreementMade => words::AGREEMENT_MADE,
        FieldName::AcceptanceMade => words::ACCEPTANCE_MADE,
    }
}

// ---- numbers in their measure

// A time of day; what is above 99:59:59 in seconds.
#[tactic(auto, unfolding(crate::specs::Lines::timed))]
fn timed(n: u32) -> Value
    ensures { result ≡ timed n }
{
    if n < 360000 {
        return Value::Time(Seconds(n));
    }
    Value::Lapse(Some(Seconds(n)))
}

fn bound(unit: Measure, n: u32) -> Value
    ensures { result ≡ bound unit n }
{
    match unit {
        Measure::Plain => Value::Number(n),
        Measure::Counted => Value::Count(n),
        Measure::Money => Value::Dollars(facts::price_of(n)),
        Measure::Clocked => Value::Time(Seconds(n)),
        Measure::Lapsed => Value::Lapse(facts::moment_of(n)),
        Measure::Lettered => Value::Letter((n % 256) as u8),
    }
}

// As a bound is told, but for what is no time of any day, and for the number that stands where a letter is wanted.
fn measured(unit: Measure, n: u32) -> Value
    ensures { result ≡ measured unit n }
{
    match unit {
        Measure::Clocked => timed(n),
        Measure::Lettered => Value::Number(n),
        Measure::Plain | Measure::Counted | Measure::Money | Measure::Lapsed => bound(unit, n),
    }
}

// ---- what is allowed

#[tactic(auto, unfolding(crate::specs::Lines::upper_piece))]
fn upper_piece(unit: Measure, low: u32, high: u32) -> Piece
    ensures { result ≡ upper_piece unit low high }
{
    if low == high {
        return words::said(words::NOTHING);
    }
    if 4294967294 <= high {
        return words::said(words::OR_MORE);
    }
    words::told(words::TO, bound(unit, high))
}

#[tactic(auto, unfolding(crate::specs::Lines::other_piece))]
fn other_piece(unit: Measure, low: u32, high: u32) -> Piece
    ensures { result ≡ other_piece unit low high }
{
    if low <= high {
        return words::told(words::OR, bound(unit, low));
    }
    words::said(words::NOTHING)
}

#[tactic(auto, unfolding(crate::specs::Lines::other_upper_piece))]
fn other_upper_piece(unit: Measure, low: u32, high: u32) -> Piece
    ensures { result ≡ other_upper_piece unit low high }
{
    if low < high {
        return words::told(words::TO, bound(unit, high));
    }
    words::said(words::NOTHING)
}

// ---- what else the bounds came from

fn price_at(s: &[u8], at: u8) -> Value
    requires { (88 ≤ length s.now) × (at ≤ 84) }
    ensures { result ≡ price_in s.now at }
{
    Value::Dollars(facts::price_of(wire::read_u32(s, at as usize)))
}

fn cause_piece(s: &[u8], because: Because) -> Piece
    requires { 88 ≤ length s.now }
    ensures { result ≡ cause_piece s.now because }
{
    match because {
        Because::NoMatter => words::said(words::NOTHING),
        Because::TheCase => words::said(words::CASE_HAS),
        Because::TheBid => words::found(words::BID_IS, price_at(s, 20), words::bytes_at(20, 4)),
        Because::TheOffer => words::found(words::OFFER_IS, price_at(s, 24), words::bytes_at(24, 4)),
        Because::Executed => words::found(
            words::EXECUTED_AT,
            Value::Time(Seconds(wire::read_u32(s, 16))),
            words::bytes_at(16, 4),
        ),
        Because::TheExecution => {
            words::found(words::EXECUTION_IS, price_at(s, 8), words::bytes_at(8, 4))
        }
        Because::TheAgreement => words::found(
            words::AGREEMENT_IS,
            Value::Terms(Agreement::from_byte(s[67])),
            words::bytes_at(67, 1),
        ),
    }
}

#[tactic(auto, unfolding(crate::specs::Lines::because_piece))]
fn because_piece(s: &[u8], because: Because) -> Piece
    ensures { result ≡ because_piece s.now because }
{
    if s.len() < 88 {
        return words::said(words::NOTHING);
    }
    cause_piece(s, because)
}

#[tactic(auto, unfolding(crate::specs::Lines::field_row))]
fn field_row(s: &[u8], field: Field) -> [Piece; 10]
    ensures { result ≡ field_row s.now field }
{
    let none = words::said(words::NOTHING);
    [
        words::found(
            name_phrase(field.name),
            measured(field.unit, field.number),
            words::bytes_at(field.at, field.width),
        ),
        words::told(words::ALLOWED, bound(field.unit, field.low)),
        upper_piece(field.unit, field.low, field.high),
        other_piece(field.unit, field.low2, field.high2),
        other_upper_piece(field.unit, field.low2, field.high2),
        because_piece(s, field.because),
        words::told(words::RULE_REFUSAL, Value::Number(field.test as u32)),
        words::said(words::BRACKET),
        none,
        none,
    ]
}

// ---- the head

#[tactic(auto, unfolding(crate::specs::Lines::strange_row))]
fn strange_row(test: u8) -> [Piece; 10]
    ensures { result ≡ strange_row test }
{
    let none = words::said(words::NOTHING);
    [
        words::told(words::REFUSED_CASE, Value::Number(test as u32)),
        words::said(words::END),
        none,
        none,
        none,
        none,
        none,
        none,
        none,
        none,
    ]
}

#[tactic(auto, unfolding(crate::specs::Lines::refused_row))]
fn refused_row(trade: u32, test: u8) -> [Piece; 10]
    ensures { result ≡ refused_row trade test }
{
    let none = words::said(words::NOTHING);
    [
        words::told(words::TRADE, Value::Number(trade)),
        words::told(words::REFUSED, Value::Number(test as u32)),
        words::said(words::END),
        none,
        none,
        none,
        none,
        none,
        none,
        none,
    ]
}

#[tactic(auto, unfolding(crate::specs::Lines::refused_head))]
fn refused_head(s: &[u8], test: u8) -> [Piece; 10]
    ensures { result ≡ refused_head s.now test }
{
    if test < 3 || s.len() < 88 {
        return strange_row(test);
    }
    refused_row(wire::read_u32(s, 4), test)
}

// ---- the rows written

fn add_field(out: &mut [u8], at: usize, s: &[u8], field: Field) -> usize
    requires { at + 2080 ≤ length out.old }
    ensures { (result ≡ at + length (rows_text (field_rows s.now field))) × (out.new ≡ laid_at at (rows_text (field_rows s.now field)) out.old) × (result ≤ at + 2080) }
{
    let next = words::add_row(out, at, refused_head(s, field.test));
    words::add_row(out, next, field_row(s, field))
}

// The rows of a refused case; none of one that is in order.
pub fn add_blame(out: &mut [u8], at: usize, s: &[u8], blame: Option<Field>) -> usize
    requires { at + 2080 ≤ length out.old }
    ensures { (result ≡ at + length (rows_text (blame_rows s.now blame))) × (out.new ≡ laid_at at (rows_text (blame_rows s.now blame)) out.old) × (result ≤ at + 2080) }
{
    match blame {
        None => at,
        Some(field) => add_field(out, at, s, field),
    }
}
