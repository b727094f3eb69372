// The words of an explanation. A row is ten pieces, each a phrase by its number, a value, and the place in the record where the value stands:
// branches choose pieces, and the writing has none. What is written goes into a lent buffer from a place on, every other byte stays, and the
// answer is the place after it. Nothing is refused here: whoever asks has tested the room.
#![tactic(auto)]

ghost use Rattle.std.specs.Prelude.{◌≡◌, ◌+◌, ◌≤◌, length};
ghost use Rattle.text.specs.Text.{laid_at};
ghost use Rattle.words.specs.Phrases.{phrases, start_of, all_phrases, phrase_of, phrase_count};
ghost use Rattle.words.specs.Grouped.{group, grouped_by, grouped_text};
ghost use Rattle.words.specs.Values.{kind_words, day_words, flag_words, agreement_words, lapse_text, value_text, byte_text, bytes_text, place_text};
ghost use Rattle.words.specs.Pieces.{piece_text, row_text, bytes_at, say, tell, found};
ghost use Rattle.words.specs.Rows.{index_text};

use facts::{Agreement, Day, Kind, Mills, Seconds};

// So many bytes of the record from one on; none where a value has no place.
#[derive(Clone, Copy)]
pub struct Place {
    pub at: u8,
    pub width: u8,
}

#[derive(Clone, Copy)]
pub enum Value {
    Nothing,
    Number(u32),
    Count(u32),
    Dollars(Option<Mills>),
    Time(Seconds),
    Lapse(Option<Seconds>),
    Letter(u8),
    Who(Kind),
    On(Day),
    Flag(bool),
    Terms(Agreement),
}

#[derive(Clone, Copy)]
pub struct Piece {
    pub phrase: u8,
    pub value: Value,
    pub place: Place,
}

// ---- born from phrases.txt

pub const NOTHING: u8 = 0;

pub const END: u8 = 1;

pub const TRADE: u8 = 2;

pub const NONE: u8 = 3;

pub const ADJUST: u8 = 4;

pub const NULLIFY: u8 = 5;

pub const WAIT: u8 = 6;

pub const REASON: u8 = 7;

pub const REFUSED: u8 = 8;

pub const REFUSED_CASE: u8 = 9;

pub const WAY_OBVIOUS: u8 = 10;

pub const WAY_OPENING: u8 = 11;

pub const WAY_CATASTROPHIC: u8 = 12;

pub const WAY_NONE: u8 = 13;

pub const ON: u8 = 14;

pub const COMMA: u8 = 15;

pub const AFTER_EXECUTION: u8 = 16;

pub const EXECUTED: u8 = 17;

pub const RULE_OBVIOUS: u8 = 18;

pub const RULE_OPENING: u8 = 19;

pub const RULE_CATASTROPHIC: u8 = 20;

pub const RULE_LATE: u8 = 21;

pub const NOT_OBVIOUS_DAY: u8 = 22;

pub const NOT_OBVIOUS_TIME: u8 = 23;

pub const FOR: u8 = 24;

pub const NOT_OPENING_DAY: u8 = 25;

pub const NOT_OPENING_TRADE: u8 = 26;

pub const NOT_OPENING_PARTY: u8 = 27;

pub const NOT_OPENING_SOON: u8 = 28;

pub const NOT_OPENING_LATE: u8 = 29;

pub const NOT_CATASTROPHIC_DAY: u8 = 30;

pub const NOT_CATASTROPHIC_EXPIRY: u8 = 31;

pub const NOT_CATASTROPHIC_NEXT: u8 = 32;

pub const OPEN_UP_TO: u8 = 33;

pub const FILED_ON: u8 = 34;

pub const PANEL: u8 = 35;

pub const RULE_PANEL: u8 = 36;

pub const QUOTES: u8 = 37;

pub const AT_LEAST_THE_BID: u8 = 38;

pub const UNDER_THE_BID: u8 = 39;

pub const PLUS_TWICE: u8 = 40;

pub const WIDE: u8 = 41;

pub const NOT_WIDE: u8 = 42;

pub const TP: u8 = 43;

pub const THE_OFFER: u8 = 44;

pub const THE_BID: u8 = 45;

pub const OFFICIAL: u8 = 46;

pub const TP_NONE: u8 = 47;

pub const OFFER_IS: u8 = 48;

pub const BID_IS: u8 = 49;

pub const RULE_OFFICIAL: u8 = 50;

pub const RULE_WIDE_OFFICIAL: u8 = 51;

pub const RULE_UNPRICED: u8 = 52;

pub const RULE_WIDE_UNPRICED: u8 = 53;

pub const ERROR: u8 = 54;

pub const IS_AT_LEAST: u8 = 55;

pub const IS_UNDER: u8 = 56;

pub const PLUS: u8 = 57;

pub const MINUS: u8 = 58;

pub const EQUALS: u8 = 59;

pub const BY: u8 = 60;

pub const SEMICOLON: u8 = 61;

pub const OBVIOUS_MINIMUM: u8 = 62;

pub const CATASTROPHIC_MINIMUM: u8 = 63;

pub const TO: u8 = 64;

pub const RULE_ERROR: u8 = 65;

pub const AGREEMENT: u8 = 66;

pub const NO_AGREEMENT: u8 = 67;

pub const MADE: u8 = 68;

pub const WITH_CUSTOMER: u8 = 69;

pub const WITHOUT_CUSTOMER: u8 = 70;

pub const PRICE_COUNTS: u8 = 71;

pub const NULLIFY_COUNTS: u8 = 72;

pub const TOO_LATE: u8 = 73;

pub const NOT_WITH_CUSTOMER: u8 = 74;

pub const ACT_BUYER: u8 = 75;

pub const SELLER_IS: u8 = 76;

pub const COLON: u8 = 77;

pub const UNDONE: u8 = 78;

pub const RULE_OBVIOUS_ACT: u8 = 79;

pub const ACT_ITSELF: u8 = 80;

pub const RULE_OPENING_ACT: u8 = 81;

pub const ACT: u8 = 82;

pub const RULE_CATASTROPHIC_ACT: u8 = 83;

pub const LIMIT_BUYER: u8 = 84;

pub const LIMIT_SELLER: u8 = 85;

pub const ITS_LIMIT: u8 = 86;

pub const IS_ABOVE: u8 = 87;

pub const IS_BELOW: u8 = 88;

pub const KEEPS: u8 = 89;

pub const RULE_OWN_LIMIT: u8 = 90;

pub const RULE_OTHER_LIMIT: u8 = 91;

pub const RULE_CUSTOMER_LIMIT: u8 = 92;

pub const ACCEPTANCE: u8 = 93;

pub const ALLOWED: u8 = 94;

pub const IN_TIME: u8 = 95;

pub const NOT_IN_TIME: u8 = 96;

pub const CONTRACTS: u8 = 97;

pub const OF: u8 = 98;

pub const ADJUSTED_TO: u8 = 99;

pub const STAND: u8 = 100;

pub const QUOTE_SIZE: u8 = 101;

pub const RULE_QUOTED_SIZE: u8 = 102;

pub const RULE_OFFICIAL_SIZE: u8 = 103;

pub const RULE_EVERY_CONTRACT: u8 = 104;

pub const NULLIFIED: u8 = 105;

pub const ALL_STAND: u8 = 106;

pub const CAREFUL_BID: u8 = 107;

pub const CAREFUL_OFFER: u8 = 108;

pub const CAREFUL_OFFICIAL: u8 = 109;

pub const CAREFUL_BUYER: u8 = 110;

pub const CAREFUL_SELLER: u8 = 111;

pub const TURNED: u8 = 112;

pub const NEARER: u8 = 113;

pub const CASE_LENGTH: u8 = 114;

pub const HEAD_LENGTH: u8 = 115;

pub const HEAD_KIND: u8 = 116;

pub const ZERO: u8 = 117;

pub const SIDE: u8 = 118;

pub const OPENING_FLAG: u8 = 119;

pub const EXPIRY_FLAG: u8 = 120;

pub const PANEL_FLAG: u8 = 121;

pub const BUYER_KIND: u8 = 122;

pub const SELLER_KIND: u8 = 123;

pub const FILING_DAY: u8 = 124;

pub const AGREEMENT_CODE: u8 = 125;

pub const BUYER_CODE: u8 = 126;

pub const SELLER_CODE: u8 = 127;

pub const EXECUTION_PRICE: u8 = 128;

pub const BEST_BID: u8 = 129;

pub const BEST_OFFER: u8 = 130;

pub const OFFICIAL_PRICE: u8 = 131;

pub const BUYER_LIMIT: u8 = 132;

pub const SELLER_LIMIT: u8 = 133;

pub const AGREED_PRICE: u8 = 134;

pub const DIFFERENTIAL: u8 = 135;

pub const CONTRACTS_TRADED: u8 = 136;

pub const BID_SIZE: u8 = 137;

pub const OFFER_SIZE: u8 = 138;

pub const EXECUTION_TIME: u8 = 139;

pub const FILING_TIME: u8 = 140;

pub const AGREEMENT_MADE: u8 = 141;

pub const ACCEPTANCE_MADE: u8 = 142;

pub const OR_MORE: u8 = 143;

pub const OR: u8 = 144;

pub const CASE_HAS: u8 = 145;

pub const EXECUTION_IS: u8 = 146;

pub const EXECUTED_AT: u8 = 147;

pub const AGREEMENT_IS: u8 = 148;

pub const RULE_REFUSAL: u8 = 149;

pub const BRACKET: u8 = 150;

const PHRASE_COUNT: usize = 151;

fn all_phrases() -> [u8; 2680]
    ensures { result ≡ all_phrases }
{
    *b"\ntrade : NONE: ADJUST: NULLIFY: WAIT, reason : REFUSED REFUSED   way        obvious: filed at   way        opening: filed at   way        catastrophic: filed at   way        none is open: filed at  on ,  after the execution at , executed at  [R4.1]\n [R4.2]\n [R4.3]\n [R4.4]\n             not obvious: filed on              not obvious: open to  for              not opening: filed on              not opening: an opening trade:              not opening: in error is              not opening: open only after              not opening: open up to              not catastrophic: filed on              not catastrophic: expiry deadline:              not catastrophic: next day, open up to , open up to , filed on   panel      already decided:  [R4.5]\n  quotes     the offer  is at least the bid  is under the bid  + twice : wide [R5.6]\n: not wide [R5.6]\n  TP         , the best offer [R5.1]\n, the best bid [R5.1]\n, an official's price  TP         none: the official's price is ; the best offer is ; the best bid is  [R5.2]\n, too wide [R5.8]\n [R5.3]\n, too wide [R5.9]\n  error       is at least  is under  +  -  = , by ;  is the obvious minimum for a TP of  is the catastrophic minimum for a TP of  to  [R6.1, R6.2]\n  agreement   [R7.4]\n, made  after notice; with a Customer allowed:  after notice; without a Customer allowed: : it counts [R7.2]\n: it counts [R7.3]\n: too late [R7.1, R7.4]\n: not with a Customer on this way [R7.3, R7.4]\n  act        the buyer is , the seller : : with a Customer undone [R8.2.2]\n [R8.2.1]\n  act        TP itself,  [R8.3.1]\n  act         [R8.4.1]\n  limit      the buyer is   limit      the seller is , its limit  is above it is below it does not violate it [R8.3.2]\n [R8.3.3]\n [R8.4.2]\n  acceptance after notice: ; allowed: : in time [R8.4.3]\n: not in time [R8.4.4]\n  contracts   of  adjusted to  stand; the quote's size is  [R9.1, R9.5]\n [R9.3]\n [R9.4]\n nullified [R9.4]\n stand [R9.5]\n  careful    the bid   careful    the offer   careful    the official's price   careful    the buyer's limit   careful    the seller's limit  read high byte first is , nearer the execution   length of the case   length at the head   kind at the head   zero bytes   side in error   on the opening   expiry deadline   panel already decided   buyer's kind   seller's kind   filing day   agreement   buyer's member code   seller's member code   execution price   best bid   best offer   official's price   buyer's limit   seller's limit   agreed price   permitted differential   contracts   bid size   offer size   execution time   filing time   agreement made   acceptance  or more or , as long as the case is; the execution price is ; executed at ; the agreement is  [R3.]\n"
}

const STARTS: [usize; 152] = [
    0, 0, 1, 7, 13, 21, 30, 36, 45, 55, 63, 94, 125, 161, 197, 201, 203, 227, 241, 249, 257, 265,
    273, 308, 342, 347, 382, 426, 464, 506, 543, 583, 631, 683, 696, 707, 737, 745, 768, 789, 807,
    816, 830, 848, 861, 885, 907, 928, 971, 991, 1009, 1017, 1035, 1043, 1061, 1074, 1087, 1097,
    1100, 1103, 1106, 1111, 1113, 1149, 1190, 1194, 1208, 1221, 1229, 1236, 1276, 1319, 1338, 1357,
    1381, 1428, 1454, 1467, 1469, 1503, 1513, 1537, 1547, 1560, 1570, 1596, 1623, 1635, 1647, 1659,
    1679, 1689, 1699, 1709, 1736, 1747, 1766, 1789, 1802, 1806, 1819, 1825, 1847, 1861, 1869, 1877,
    1895, 1909, 1930, 1953, 1987, 2018, 2050, 2075, 2098, 2119, 2140, 2159, 2172, 2188, 2205, 2223,
    2247, 2262, 2278, 2291, 2303, 2325, 2348, 2366, 2377, 2390, 2409, 2425, 2442, 2457, 2482, 2494,
    2505, 2518, 2535, 2549, 2566, 2579, 2587, 2591, 2615, 2640, 2654, 2673, 2678, 2680,
];

// ---- a phrase

fn start_of(n: usize) -> usize
    requires { n ≤ phrase_count }
    ensures { result ≡ start_of n phrases }
{
    STARTS[n]
}

// The n-th phrase; nothing where there is none.
fn add_phrase(out: &mut [u8], at: usize, n: u8) -> usize
    requires { at + 56 ≤ length out.old }
    ensures { (result ≡ at + length (phrase_of n)) × (out.new ≡ laid_at at (phrase_of n) out.old) × (result ≤ at + 56) }
{
    let k = usize::from(n);
    if PHRASE_COUNT <= k {
        return at;
    }
    let start = start_of(k);
    let end = start_of(k + 1);
    text::add_word(out, at, &all_phrases()[start..end])
}

// ---- a count with its commas

fn group_of(n: u32) -> [u8; 4]
    ensures { result ≡ group n }
{
    [
        b',',
        b'0' + (n / 100 % 10) as u8,
        b'0' + (n / 10 % 10) as u8,
        b'0' + (n % 10) as u8,
    ]
}

// In at most so many groups behind the first digits.
fn add_grouped(out: &mut [u8], at: usize, groups: u32, n: u32) -> usize
    requires { at + 14 ≤ length out.old }
    ensures { (result ≡ at + length (grouped_by groups n)) × (out.new ≡ laid_at at (grouped_by groups n) out.old) }
{
    if groups == 0 || n < 1000 {
        return text::add_decimal(out, at, n);
    }
    let next = add_grouped(out, at, groups - 1, n / 1000);
    text::add_word(out, next, &group_of(n))
}

// A number of four bytes has at most three.
#[tactic(auto, using(crate::proofs::Lengths::count_most), unfolding(crate::specs::Grouped::grouped_text))]
fn add_count(out: &mut [u8], at: usize, n: u32) -> usize
    requires { at + 14 ≤ length out.old }
    ensures { (result ≡ at + length (grouped_text n)) × (out.new ≡ laid_at at (grouped_text n) out.old) × (result ≤ at + 14) }
{
    add_grouped(out, at, 3, n)
}

// ---- a value

fn kind_words(kind: Kind) -> &'static [u8]
    ensures { (result.now ≡ kind_words kind) × (length result.now ≤ 22) }
{
    match kind {
        Kind::Customer => b"a Customer",
        Kind::MarketMaker => b"a Market Maker",
        Kind::Other => b"another kind of party",
    }
}

fn day_words(day: Day) -> &'static [u8]
    ensures { (result.now ≡ day_words day) × (length result.now ≤ 22) }
{
    match day {
        Day::TradeDate => b"the trade date",
        Day::NextDay => b"the next day",
        Day::Later => b"a later day",
    }
}

fn flag_words(flag: bool) -> &'static [u8]
    ensures { (result.now ≡ flag_words flag) × (length result.now ≤ 22) }
{
    if flag { b"yes" } else { b"no" }
}

fn agreement_words(agreement: Agreement) -> &'static [u8]
    ensures { (result.now ≡ agreement_words agreement) × (length result.now ≤ 22) }
{
    match agreement {
        Agreement::NotMade => b"none",
        Agreement::OnPrice => b"on a price",
        Agreement::ToNullify => b"to nullify",
    }
}

#[tactic(auto, using(crate::proofs::Rows::written), unfolding(crate::specs::Values::seconds_text))]
fn add_lapse(out: &mut [u8], at: usize, lapse: Option<Seconds>) -> usize
    requires { at + 16 ≤ length out.old }
    ensures { (result ≡ at + length (lapse_text lapse)) × (out.new ≡ laid_at at (lapse_text lapse) out.old) × (result ≤ at + 16) }
{
    let Some(t) = lapse else {
        return text::add_word(out, at, b"none");
    };
    let next = add_count(out, at, t.0);
    text::add_word(out, next, b" s")
}

#[tactic(auto, using(crate::proofs::Rows::nothing_laid), unfolding(crate::specs::Values::value_text))]
fn add_value(out: &mut [u8], at: usize, v: Value) -> usize
    requires { at + 22 ≤ length out.old }
    ensures { (result ≡ at + length (value_text v)) × (out.new ≡ laid_at at (value_text v) out.old) × (result ≤ at + 22) }
{
    match v {
        Value::Nothing => at,
        Value::Number(n) => text::add_decimal(out, at, n),
        Value::Count(n) => add_count(out, at, n),
        Value::Dollars(p) => spelling::add_dollars(out, at, p),
        Value::Time(t) => spelling::add_time(out, at, t.0),
        Value::Lapse(m) => add_lapse(out, at, m),
        Value::Letter(b) => text::add_byte(out, at, b),
        Value::Who(k) => text::add_word(out, at, kind_words(k)),
        Value::On(d) => text::add_word(out, at, day_words(d)),
        Value::Flag(b) => text::add_word(out, at, flag_words(b)),
        Value::Terms(a) => text::add_word(out, at, agreement_words(a)),
    }
}

// ---- a place

#[tactic(auto, using(crate::proofs::Rows::written), unfolding(crate::specs::Values::byte_text))]
fn add_one_byte(out: &mut [u8], at: usize, first: u8) -> usize
    requires { at + 26 ≤ length out.old }
    ensures { (result ≡ at + length (byte_text first)) × (out.new ≡ laid_at at (byte_text first) out.old) × (result ≤ at + 26) }
{
    let number = text::add_word(out, at, b" (byte ");
    let end = text::add_decimal(out, number, u32::from(first));
    text::add_word(out, end, b")")
}

// The decimals of a place are of at most three digits, which is why the second fits.
#[tactic(auto, using(crate::proofs::Rows::written, crate::proofs::Lengths::three_digits), unfolding(crate::specs::Values::bytes_text))]
fn add_bytes(out: &mut [u8], at: usize, first: u8, width: u8) -> usize
    requires { (at + 26 ≤ length out.old) × (1 ≤ width) }
    ensures { (result ≡ at + length (bytes_text first width)) × (out.new ≡ laid_at at (bytes_text first width) out.old) × (result ≤ at + 26) }
{
    let number = text::add_word(out, at, b" (bytes ");
    let to = text::add_decimal(out, number, u32::from(first));
    let second = text::add_word(out, to, b" to ");
    let end = text::add_decimal(out, second, u32::from(first) + u32::from(width) - 1);
    text::add_word(out, end, b")")
}

#[tactic(auto, using(crate::proofs::Rows::nothing_laid), unfolding(crate::specs::Values::place_text))]
fn add_place(out: &mut [u8], at: usize, place: Place) -> usize
    requires { at + 26 ≤ length out.old }
    ensures { (result ≡ at + length (place_text place)) × (out.new ≡ laid_at at (place_text place) out.old) × (result ≤ at + 26) }
{
    match place.width {
        0 => at,
        1 => add_one_byte(out, at, place.at),
        width => add_bytes(out, at, place.at, width),
    }
}

// ---- a piece, and a row of them

#[tactic(auto, using(crate::proofs::Rows::written), unfolding(crate::specs::Pieces::piece_text))]
fn add_piece(out: &mut [u8], at: usize, p: Piece) -> usize
    requires { at + 104 ≤ length out.old }
    ensures { (result ≡ at + length (piece_text p)) × (out.new ≡ laid_at at (piece_text p) out.old) × (result ≤ at + 104) }
{
    let told = add_phrase(out, at, p.phrase);
    let next = add_value(out, told, p.value);
    add_place(out, next, p.place)
}

// A row: its pieces one after the other.
pub fn add_row(out: &mut [u8], at: usize, row: [Piece; 10]) -> usize
    requires { at + 1040 ≤ length out.old }
    ensures { (result ≡ at + length (row_text row)) × (out.new ≡ laid_at at (row_text row) out.old) × (result ≤ at + 1040) }
{
    let mut next = at;
    for piece in row {
        next = add_piece(out, next, piece);
    }
    next
}

// ---- the makers of a piece

pub fn bytes_at(at: u8, width: u8) -> Place
    ensures { result ≡ bytes_at at width }
{
    Place { at, width }
}

// A phrase alone.
pub fn said(phrase: u8) -> Piece
    ensures { result ≡ say phrase }
{
    told(phrase, Value::Nothing)
}

// With a value.
pub fn told(phrase: u8, value: Value) -> Piece
    ensures { result ≡ tell phrase value }
{
    found(phrase, value, bytes_at(0, 0))
}

// With a value and the place where it stands.
pub fn found(phrase: u8, value: Value, place: Place) -> Piece
    ensures { result ≡ found phrase value place }
{
    Piece {
        phrase,
        value,
        place,
    }
}

// ---- what stands before the rows of a case

// `#` joined to the index, and a space.
#[tactic(auto, using(crate::proofs::Rows::written), unfolding(crate::specs::Rows::index_text))]
pub fn add_index(out: &mut [u8], at: usize, index: u32) -> usize
    requires { at + 12 ≤ length out.old }
    ensures { (result ≡ at + length (index_text index)) × (out.new ≡ laid_at at (index_text index) out.old) × (result ≤ at + 12) }
{
    let mark = text::add_byte(out, at, b'#');
    let number = text::add_decimal(out, mark, index);
    text::add_byte(out, number, b' ')
}
