// The rows of a ruled case: what each step found, with the numbers that decided it, the place in the record where each stood, and the paragraph
// that it was held against. Small functions choose pieces; what is written goes into a lent buffer from a place on, every other byte stays, and the
// answer is the place after it. Nothing is refused here: whoever asks has tested the room, 1,040 bytes for each row.
#![tactic(auto)]

ghost use Rattle.std.specs.Prelude.{◌≡◌, ◌+◌, ◌-◌, ◌≤◌, length, [], ◌∷◌, ◌++◌, replicate};
ghost use Rattle.text.specs.Text.{laid_at};
ghost use Rattle.wire.specs.Tests.{pick};
ghost use Rattle.step_lines.specs.Words.{On};
ghost use Rattle.words.specs.Pieces.{bytes_at, found, blank};
ghost use Rattle.words.specs.Rows.{rows_text};
ghost use Rattle.step_lines.specs.Rows.{money, passed, kind_place, limit_place, quote_place, size_place};
ghost use Rattle.step_lines.specs.Way.{way_phrase, way_rule, since_piece, executed_phrase, filed_row, obvious_shut, opening_shut, catastrophic_shut, before_rows, way_rows, panel_row};
ghost use Rattle.step_lines.specs.Theory.{gap_row, spread_rows, is_wide, quote_is, source_row, unpriced_row, unpriced_rows};
ghost use Rattle.step_lines.specs.Error.{minimum_phrase, error_row};
ghost use Rattle.step_lines.specs.Agreed.{verdict, made_row, agreement_row};
ghost use Rattle.step_lines.specs.Act.{move_words, obvious_row, itself_row, far_row, violated, limit_row, counted_rows, acceptance_row, acceptance_rows, far_rows, even_rows, act_rows, end_rows};
ghost use Rattle.step_lines.specs.Counts.{outcome_phrase, head_row, cover_of, size_piece, cover_rule, of_traded, adjusted_row, all_row, contracts_row};
ghost use Rattle.step_lines.specs.Explained.{settled_rows, after_rows, judged_rows, reached_rows, ruled_rows};

use facts::{Agreement, Contracts, Day, Mills, Seconds, Side};
use figures::Figures;
use steps::{
    Acting, Clock, End, Even, Far, Gap, Judged, Limit, Looked, Near, Off, Reached, Settled, Steps,
    Tried,
};
use theory::{Origin, Source};
use way::Way;
use words::{Piece, Place, Value};

// How many contracts an adjustment covers: every one; at most the size of the quote that gave TP; every one, since an official gave it.
#[derive(Clone, Copy)]
pub enum Cover {
    Every,
    UpTo(Contracts),
    ByOfficial,
}

// ---- values and places

fn money(m: Mills) -> Value
    ensures { result ≡ money m }
{
    Value::Dollars(Some(m))
}

fn passed(t: Seconds) -> Value
    ensures { result ≡ passed t }
{
    Value::Lapse(Some(t))
}

fn kind_place(side: Side) -> Place
    ensures { result ≡ kind_place side }
{
    parties::by_side(side, words::bytes_at(64, 1), words::bytes_at(65, 1))
}

fn limit_place(side: Side) -> Place
    ensures { result ≡ limit_place side }
{
    parties::by_side(side, words::bytes_at(52, 4), words::bytes_at(60, 4))
}

fn quote_place(side: Side) -> Place
    ensures { result ≡ quote_place side }
{
    parties::by_side(side, words::bytes_at(24, 4), words::bytes_at(20, 4))
}

fn size_place(side: Side) -> Place
    ensures { result ≡ size_place side }
{
    parties::by_side(side, words::bytes_at(32, 4), words::bytes_at(28, 4))
}

// The first of two phrases where the test holds.
fn either(test: bool, a: u8, b: u8) -> u8
    ensures { result ≡ pick test a b }
{
    if test { a } else { b }
}

fn filed_on(phrase: u8, day: Day) -> Piece
    ensures { result ≡ found phrase (On day) (bytes_at 66 1) }
{
    words::found(phrase, Value::On(day), words::bytes_at(66, 1))
}

// A row that starts with these pieces; those after them have no byte.
fn row_of(pieces: &[Piece]) -> [Piece; 10]
    requires { length pieces.now ≤ 10 }
    ensures { result ≡ pieces.now ++ replicate (10 - length pieces.now) blank }
{
    let mut row = [words::said(words::NOTHING); 10];
    row[..pieces.len()].copy_from_slice(pieces);
    row
}

// ---- the way and the filing

// The phrase of the way that is open, and the paragraph that opens it.
fn way_words(tried: Tried) -> (u8, u8)
    ensures { (result.0 ≡ way_phrase tried) × (result.1 ≡ way_rule tried) }
{
    match tried {
        Tried::First => (words::WAY_OBVIOUS, words::RULE_OBVIOUS),
        Tried::Second(_) => (words::WAY_OPENING, words::RULE_OPENING),
        Tried::Third(_) => (words::WAY_CATASTROPHIC, words::RULE_CATASTROPHIC),
        Tried::NoWay(_) => (words::WAY_NONE, words::RULE_LATE),
    }
}

fn since_piece(day: Day, since: Seconds) -> Piece
    ensures { result ≡ since_piece day since }
{
    match day {
        Day::TradeDate => words::told(words::COMMA, passed(since)),
        _ => words::said(words::NOTHING),
    }
}

fn executed_phrase(day: Day) -> u8
    ensures { result ≡ executed_phrase day }
{
    match day {
        Day::TradeDate => words::AFTER_EXECUTION,
        _ => words::EXECUTED,
    }
}

#[tactic(auto, unfolding(crate::specs::Way::filed_row))]
fn filed_row(clock: Clock, tried: Tried) -> [Piece; 10]
    ensures { result ≡ filed_row clock tried }
{
    let (way, rule) = way_words(tried);
    row_of(&[
        words::found(way, Value::Time(clock.filed), words::bytes_at(72, 4)),
        filed_on(words::ON, clock.day),
        since_piece(clock.day, clock.since),
        words::found(
            executed_phrase(clock.day),
            Value::Time(clock.executed),
            words::bytes_at(16, 4),
        ),
        words::said(rule),
    ])
}

// ---- why a way was shut, by the cause

#[tactic(auto, unfolding(crate::specs::Way::day_row, crate::specs::Way::past_row))]
fn obvious_shut(cause: u8, clock: Clock) -> [Piece; 10]
    ensures { result ≡ obvious_shut cause clock }
{
    let rule = words::said(words::RULE_OBVIOUS);
    match cause {
        1 => row_of(&[filed_on(words::NOT_OBVIOUS_DAY, clock.day), rule]),
        _ => row_of(&[
            words::found(
                words::NOT_OBVIOUS_TIME,
                Value::Who(clock.kind),
                kind_place(clock.side),
            ),
            words::told(words::FOR, passed(clock.allowed)),
            rule,
        ]),
    }
}

#[tactic(auto, unfolding(crate::specs::Way::day_row, crate::specs::Way::trade_row, crate::specs::Way::party_row, crate::specs::Way::soon_row, crate::specs::Way::late_row))]
fn opening_shut(cause: u8, clock: Clock) -> [Piece; 10]
    ensures { result ≡ opening_shut cause clock }
{
    let rule = words::said(words::RULE_OPENING);
    match cause {
        1 => row_of(&[filed_on(words::NOT_OPENING_DAY, clock.day), rule]),
        3 => row_of(&[
            words::found(
                words::NOT_OPENING_TRADE,
                Value::Flag(clock.opening),
                words::bytes_at(45, 1),
            ),
            rule,
        ]),
        4 => row_of(&[
            words::found(
                words::NOT_OPENING_PARTY,
                Value::Who(clock.kind),
                kind_place(clock.side),
            ),
            rule,
        ]),
        5 => row_of(&[
            words::told(words::NOT_OPENING_SOON, passed(Seconds(1200))),
            rule,
        ]),
        _ => row_of(&[
            words::told(words::NOT_OPENING_LATE, Value::Time(Seconds(59400))),
            rule,
        ]),
    }
}

#[tactic(auto, unfolding(crate::specs::Way::day_row, crate::specs::Way::expiry_day_row, crate::specs::Way::expiry_late_row, crate::specs::Way::next_late_row))]
fn catastrophic_shut(cause: u8, clock: Clock) -> [Piece; 10]
    ensures { result ≡ catastrophic_shut cause clock }
{
    let expiry = words::found(
        words::NOT_CATASTROPHIC_EXPIRY,
        Value::Flag(clock.expiry),
        words::bytes_at(46, 1),
    );
    let rule = words::said(words::RULE_CATASTROPHIC);
    match cause {
        1 => row_of(&[expiry, filed_on(words::FILED_ON, clock.day), rule]),
        7 => row_of(&[
            expiry,
            words::told(words::OPEN_UP_TO, Value::Time(Seconds(61200))),
            rule,
        ]),
        8 => row_of(&[filed_on(words::NOT_CATASTROPHIC_DAY, clock.day), rule]),
        _ => row_of(&[
            words::told(words::NOT_CATASTROPHIC_NEXT, Value::Time(Seconds(30600))),
            rule,
        ]),
    }
}

#[tactic(auto, unfolding(crate::specs::Way::panel_row))]
fn panel_row(clock: Clock) -> [Piece; 10]
    ensures { result ≡ panel_row clock }
{
    row_of(&[
        words::found(
            words::PANEL,
            Value::Flag(clock.decided),
            words::bytes_at(47, 1),
        ),
        words::said(words::RULE_PANEL),
    ])
}

// ---- the theoretical price

#[tactic(auto, unfolding(crate::specs::Theory::gap_row))]
fn gap_row(gap: Gap) -> [Piece; 10]
    ensures { result ≡ gap_row gap }
{
    row_of(&[
        words::found(words::QUOTES, money(gap.offer), words::bytes_at(24, 4)),
        words::found(
            either(gap.wide, words::AT_LEAST_THE_BID, words::UNDER_THE_BID),
            money(gap.bid),
            words::bytes_at(20, 4),
        ),
        words::found(
            words::PLUS_TWICE,
            money(gap.differential),
            words::bytes_at(88, 4),
        ),
        words::told(words::EQUALS, money(gap.reach)),
        words::said(either(gap.wide, words::WIDE, words::NOT_WIDE)),
    ])
}

fn is_wide(spread: Option<Gap>) -> bool
    ensures { result ≡ is_wide spread }
{
    spread.is_some_and(|gap| gap.wide)
}

fn quote_is(side: Side, looked: Looked) -> Piece
    ensures { result ≡ quote_is side looked }
{
    words::found(
        parties::by_side(side, words::OFFER_IS, words::BID_IS),
        Value::Dollars(looked.quote),
        quote_place(side),
    )
}

#[tactic(auto, unfolding(crate::specs::Theory::quoted_row, crate::specs::Theory::official_row))]
fn source_row(side: Side, looked: Looked, source: Source) -> [Piece; 10]
    ensures { result ≡ source_row side looked source source.origin }
{
    match source.origin {
        Origin::Quoted(_) => row_of(&[
            words::found(words::TP, money(source.price), quote_place(side)),
            words::said(parties::by_side(side, words::THE_OFFER, words::THE_BID)),
        ]),
        Origin::Official => row_of(&[
            words::found(words::TP, money(source.price), words::bytes_at(40, 4)),
            words::said(words::OFFICIAL),
            quote_is(side, looked),
            words::said(either(
                is_wide(looked.spread),
                words::RULE_WIDE_OFFICIAL,
                words::RULE_OFFICIAL,
            )),
        ]),
    }
}

#[tactic(auto, unfolding(crate::specs::Theory::unpriced_row))]
fn unpriced_row(side: Side, looked: Looked) -> [Piece; 10]
    ensures { result ≡ unpriced_row side looked }
{
    row_of(&[
        words::found(
            words::TP_NONE,
            Value::Dollars(looked.official),
            words::bytes_at(40, 4),
        ),
        quote_is(side, looked),
        words::said(either(
            is_wide(looked.spread),
            words::RULE_WIDE_UNPRICED,
            words::RULE_UNPRICED,
        )),
    ])
}

// ---- the error

fn minimum_phrase(way: Way) -> u8
    ensures { result ≡ minimum_phrase way }
{
    match way {
        Way::Obvious | Way::Opening => words::OBVIOUS_MINIMUM,
        Way::Catastrophic => words::CATASTROPHIC_MINIMUM,
    }
}

#[tactic(auto, unfolding(crate::specs::Error::error_row))]
fn error_row(side: Side, way: Way, off: Off) -> [Piece; 10]
    ensures { result ≡ error_row side way off }
{
    let execution = words::bytes_at(8, 4);
    let nowhere = words::bytes_at(0, 0);
    row_of(&[
        words::found(
            words::ERROR,
            money(off.high),
            parties::by_side(side, execution, nowhere),
        ),
        words::found(
            either(off.wrong, words::IS_AT_LEAST, words::IS_UNDER),
            money(off.low),
            parties::by_side(side, nowhere, execution),
        ),
        words::told(words::PLUS, money(off.minimum)),
        words::told(words::EQUALS, money(off.reach)),
        words::told(words::BY, money(off.by)),
        words::told(words::SEMICOLON, money(off.minimum)),
        words::told(minimum_phrase(way), money(off.floor)),
        words::told(words::TO, money(off.row.top)),
        words::said(words::RULE_ERROR),
    ])
}

// ---- agreement

fn verdict(counts: u8, ignored: u8) -> u8
    ensures { result ≡ verdict counts ignored }
{
    match ignored {
        0 => counts,
        2 => words::TOO_LATE,
        _ => words::NOT_WITH_CUSTOMER,
    }
}

#[tactic(auto, unfolding(crate::specs::Agreed::made_row))]
fn made_row(price: Piece, counts: u8, settled: Settled) -> [Piece; 10]
    ensures { result ≡ made_row price counts settled }
{
    row_of(&[
        words::found(
            words::AGREEMENT,
            Value::Terms(settled.terms.agreement),
            words::bytes_at(67, 1),
        ),
        price,
        words::found(
            words::MADE,
            passed(settled.terms.made),
            words::bytes_at(76, 4),
        ),
        words::told(
            either(
                settled.customer,
                words::WITH_CUSTOMER,
                words::WITHOUT_CUSTOMER,
            ),
            passed(settled.allowed),
        ),
        words::said(verdict(counts, settled.ignored)),
    ])
}

#[tactic(auto, unfolding(crate::specs::Agreed::agreement_row, crate::specs::Agreed::none_row))]
fn agreement_row(settled: Settled) -> [Piece; 10]
    ensures { result ≡ agreement_row settled }
{
    match settled.terms.agreement {
        Agreement::NotMade => row_of(&[
            words::found(
                words::AGREEMENT,
                Value::Terms(settled.terms.agreement),
                words::bytes_at(67, 1),
            ),
            words::said(words::NO_AGREEMENT),
        ]),
        Agreement::OnPrice => made_row(
            words::found(
                words::COMMA,
                Value::Dollars(settled.terms.agreed),
                words::bytes_at(68, 4),
            ),
            words::PRICE_COUNTS,
            settled,
        ),
        Agreement::ToNullify => made_row(
            words::said(words::NOTHING),
            words::NULLIFY_COUNTS,
            settled,
        ),
    }
}

// ---- the act

fn move_words(side: Side) -> u8
    ensures { result ≡ move_words side }
{
    parties::by_side(side, words::PLUS, words::MINUS)
}

#[tactic(auto, unfolding(crate::specs::Act::near_row, crate::specs::Act::undone_row))]
fn obvious_row(side: Side, tp: Mills, near: Near) -> [Piece; 10]
    ensures { result ≡ obvious_row side tp near }
{
    let buyer = words::found(
        words::ACT_BUYER,
        Value::Who(near.buyer),
        words::bytes_at(64, 1),
    );
    let seller = words::found(
        words::SELLER_IS,
        Value::Who(near.seller),
        words::bytes_at(65, 1),
    );
    if near.customer {
        return row_of(&[buyer, seller, words::said(words::UNDONE)]);
    }
    row_of(&[
        buyer,
        seller,
        words::told(words::COLON, money(tp)),
        words::told(move_words(side), money(near.by)),
        words::told(words::EQUALS, money(near.price)),
        words::said(words::RULE_OBVIOUS_ACT),
    ])
}

#[tactic(auto, unfolding(crate::specs::Act::itself_row))]
fn itself_row(tp: Mills) -> [Piece; 10]
    ensures { result ≡ itself_row tp }
{
    row_of(&[
        words::told(words::ACT_ITSELF, money(tp)),
        words::said(words::RULE_OPENING_ACT),
    ])
}

#[tactic(auto, unfolding(crate::specs::Act::far_row))]
fn far_row(side: Side, tp: Mills, far: Far) -> [Piece; 10]
    ensures { result ≡ far_row side tp far }
{
    row_of(&[
        words::told(words::ACT, money(tp)),
        words::told(move_words(side), money(far.by)),
        words::told(words::EQUALS, money(far.price)),
        words::said(words::RULE_CATASTROPHIC_ACT),
    ])
}

fn violated(limit: Limit) -> u8
    ensures { result ≡ violated limit }
{
    match (limit.stopped, limit.side) {
        (true, Side::Buy) => words::IS_ABOVE,
        (true, Side::Sell) => words::IS_BELOW,
        (false, _) => words::KEEPS,
    }
}

#[tactic(auto, unfolding(crate::specs::Act::limit_row))]
fn limit_row(rule: u8, limit: Limit) -> [Piece; 10]
    ensures { result ≡ limit_row rule limit }
{
    row_of(&[
        words::found(
            parties::by_side(limit.side, words::LIMIT_BUYER, words::LIMIT_SELLER),
            Value::Who(limit.kind),
            kind_place(limit.side),
        ),
        words::found(
            words::ITS_LIMIT,
            Value::Dollars(limit.limit),
            limit_place(limit.side),
        ),
        words::told(words::SEMICOLON, money(limit.price)),
        words::said(violated(limit)),
        words::said(rule),
    ])
}

#[tactic(auto, unfolding(crate::specs::Act::acceptance_row))]
fn acceptance_row(far: Far) -> [Piece; 10]
    ensures { result ≡ acceptance_row far }
{
    row_of(&[
        words::found(
            words::ACCEPTANCE,
            Value::Lapse(far.accepted),
            words::bytes_at(80, 4),
        ),
        words::told(words::ALLOWED, passed(Seconds(1800))),
        words::said(either(far.timely, words::IN_TIME, words::NOT_IN_TIME)),
    ])
}

// ---- the head and the contracts

fn outcome_phrase(outcome: u8) -> u8
    ensures { result ≡ outcome_phrase outcome }
{
    match outcome {
        0 => words::NONE,
        1 => words::ADJUST,
        2 => words::NULLIFY,
        _ => words::WAIT,
    }
}

#[tactic(auto, unfolding(crate::specs::Counts::head_row))]
fn head_row(n: Figures) -> [Piece; 10]
    ensures { result ≡ head_row n }
{
    row_of(&[
        words::told(words::TRADE, Value::Number(n.trade)),
        words::said(outcome_phrase(n.outcome)),
        words::told(words::REASON, Value::Number(u32::from(n.reason))),
        words::said(words::END),
    ])
}

fn cover_of(reached: Reached) -> Cover
    ensures { result ≡ cover_of reached }
{
    let Reached::Priced(judged) = reached else {
        return Cover::Every;
    };
    match (judged.way, judged.source.origin) {
        (Way::Opening, Origin::Quoted(size)) => Cover::UpTo(size),
        (Way::Opening, Origin::Official) => Cover::ByOfficial,
        _ => Cover::Every,
    }
}

fn size_piece(side: Side, cover: Cover) -> Piece
    ensures { result ≡ size_piece side cover }
{
    match cover {
        Cover::UpTo(size) => words::found(
            words::QUOTE_SIZE,
            Value::Count(size.0),
            size_place(side),
        ),
        _ => words::said(words::NOTHING),
    }
}

fn cover_rule(cover: Cover) -> u8
    ensures { result ≡ cover_rule cover }
{
    match cover {
        Cover::Every => words::RULE_EVERY_CONTRACT,
        Cover::UpTo(_) => words::RULE_QUOTED_SIZE,
        Cover::ByOfficial => words::RULE_OFFICIAL_SIZE,
    }
}

fn of_traded(traded: Contracts) -> Piece
    ensures { result ≡ of_traded traded }
{
    words::found(words::OF, Value::Count(traded.0), words::bytes_at(12, 4))
}

#[tactic(auto, unfolding(crate::specs::Counts::adjusted_row))]
fn adjusted_row(traded: Contracts, side: Side, cover: Cover, n: Figures) -> [Piece; 10]
    ensures { result ≡ adjusted_row traded side cover n }
{
    row_of(&[
        words::told(words::CONTRACTS, Value::Count(n.adjusted)),
        of_traded(traded),
        words::told(words::ADJUSTED_TO, Value::Dollars(facts::price_of(n.price))),
        words::told(words::COMMA, Value::Count(n.standing)),
        words::said(words::STAND),
        size_piece(side, cover),
        words::said(cover_rule(cover)),
    ])
}

#[tactic(auto, unfolding(crate::specs::Counts::all_row))]
fn all_row(traded: Contracts, count: u32, phrase: u8) -> [Piece; 10]
    ensures { result ≡ all_row traded count phrase }
{
    row_of(&[
        words::told(words::CONTRACTS, Value::Count(count)),
        of_traded(traded),
        words::said(phrase),
    ])
}

fn contracts_row(traded: Contracts, side: Side, cover: Cover, n: Figures) -> [Piece; 10]
    ensures { result ≡ contracts_row traded side cover n }
{
    match n.outcome {
        1 => adjusted_row(traded, side, cover, n),
        2 => all_row(traded, n.nullified, words::NULLIFIED),
        _ => all_row(traded, n.standing, words::ALL_STAND),
    }
}

// ---- the rows written

// Why the obvious and the opening way were shut.
#[tactic(auto, using(words::proofs::Runs::more_rows))]
fn add_shut(out: &mut [u8], at: usize, clock: Clock, obvious: u8, opening: u8) -> usize
    requires { at + 2080 ≤ length out.old }
    ensures { (result ≡ at + length (rows_text (obvious_shut obvious clock ∷ opening_shut opening clock ∷ []))) × (out.new ≡ laid_at at (rows_text (obvious_shut obvious clock ∷ opening_shut opening clock ∷ [])) out.old) × (result ≤ at + 2080) }
{
    let next = words::add_row(out, at, obvious_shut(obvious, clock));
    words::add_row(out, next, opening_shut(opening, clock))
}

// Why each way before the open one was shut.
#[tactic(auto, using(words::proofs::Runs::more_rows))]
fn add_before(out: &mut [u8], at: usize, clock: Clock, tried: Tried) -> usize
    requires { at + 3120 ≤ length out.old }
    ensures { (result ≡ at + length (rows_text (before_rows clock tried))) × (out.new ≡ laid_at at (rows_text (before_rows clock tried)) out.old) × (result ≤ at + 3120) }
{
    match tried {
        Tried::First => at,
        Tried::Second(obvious) => words::add_row(out, at, obvious_shut(obvious, clock)),
        Tried::Third(shut) => add_shut(out, at, clock, shut.obvious, shut.opening),
        Tried::NoWay(shut) => {
            let next = add_shut(out, at, clock, shut.obvious, shut.opening);
            words::add_row(out, next, catastrophic_shut(shut.catastrophic, clock))
        }
    }
}

#[tactic(auto, using(words::proofs::Runs::more_rows))]
fn add_way(out: &mut [u8], at: usize, clock: Clock, tried: Tried) -> usize
    requires { at + 4160 ≤ length out.old }
    ensures { (result ≡ at + length (rows_text (way_rows clock tried))) × (out.new ≡ laid_at at (rows_text (way_rows clock tried)) out.old) × (result ≤ at + 4160) }
{
    let next = words::add_row(out, at, filed_row(clock, tried));
    add_before(out, next, clock, tried)
}

#[tactic(auto, using(words::proofs::Runs::few_rows))]
fn add_spread(out: &mut [u8], at: usize, spread: Option<Gap>) -> usize
    requires { at + 1040 ≤ length out.old }
    ensures { (result ≡ at + length (rows_text (spread_rows spread))) × (out.new ≡ laid_at at (rows_text (spread_rows spread)) out.old) × (result ≤ at + 1040) }
{
    match spread {
        None => at,
        Some(gap) => words::add_row(out, at, gap_row(gap)),
    }
}

#[tactic(auto, using(words::proofs::Runs::more_rows))]
fn add_unpriced(out: &mut [u8], at: usize, side: Side, looked: Looked) -> usize
    requires { at + 2080 ≤ length out.old }
    ensures { (result ≡ at + length (rows_text (unpriced_rows side looked))) × (out.new ≡ laid_at at (rows_text (unpriced_rows side looked)) out.old) × (result ≤ at + 2080) }
{
    let next = add_spread(out, at, looked.spread);
    words::add_row(out, next, unpriced_row(side, looked))
}

#[tactic(auto, using(words::proofs::Runs::few_rows))]
fn add_counted(out: &mut [u8], at: usize, limit: Limit) -> usize
    requires { at + 1040 ≤ length out.old }
    ensures { (result ≡ at + length (rows_text (counted_rows limit))) × (out.new ≡ laid_at at (rows_text (counted_rows limit)) out.old) × (result ≤ at + 1040) }
{
    if limit.counts {
        return words::add_row(out, at, limit_row(words::RULE_CUSTOMER_LIMIT, limit));
    }
    at
}

#[tactic(auto, using(words::proofs::Runs::few_rows))]
fn add_acceptance(out: &mut [u8], at: usize, far: Far) -> usize
    requires { at + 1040 ≤ length out.old }
    ensures { (result ≡ at + length (rows_text (acceptance_rows far))) × (out.new ≡ laid_at at (rows_text (acceptance_rows far)) out.old) × (result ≤ at + 1040) }
{
    if far.buyer.stopped || far.seller.stopped {
        return words::add_row(out, at, acceptance_row(far));
    }
    at
}

#[tactic(auto, using(words::proofs::Runs::more_rows))]
fn add_far(out: &mut [u8], at: usize, side: Side, tp: Mills, far: Far) -> usize
    requires { at + 4160 ≤ length out.old }
    ensures { (result ≡ at + length (rows_text (far_rows side tp far))) × (out.new ≡ laid_at at (rows_text (far_rows side tp far)) out.old) × (result ≤ at + 4160) }
{
    let priced = words::add_row(out, at, far_row(side, tp, far));
    let bought = add_counted(out, priced, far.buyer);
    let sold = add_counted(out, bought, far.seller);
    add_acceptance(out, sold, far)
}

#[tactic(auto, using(words::proofs::Runs::more_rows))]
fn add_even(out: &mut [u8], at: usize, tp: Mills, even: Even) -> usize
    requires { at + 2080 ≤ length out.old }
    ensures { (result ≡ at + length (rows_text (even_rows tp even))) × (out.new ≡ laid_at at (rows_text (even_rows tp even)) out.old) × (result ≤ at + 2080) }
{
    let rule = either(even.maker, words::RULE_OWN_LIMIT, words::RULE_OTHER_LIMIT);
    let next = words::add_row(out, at, itself_row(tp));
    words::add_row(out, next, limit_row(rule, even.tested))
}

#[tactic(auto, using(words::proofs::Runs::few_rows))]
fn add_act(out: &mut [u8], at: usize, side: Side, tp: Mills, acting: Acting) -> usize
    requires { at + 4160 ≤ length out.old }
    ensures { (result ≡ at + length (rows_text (act_rows side tp acting))) × (out.new ≡ laid_at at (rows_text (act_rows side tp acting)) out.old) × (result ≤ at + 4160) }
{
    match acting {
        Acting::OnObvious(near) => words::add_row(out, at, obvious_row(side, tp, near)),
        Acting::OnOpening(even) => add_even(out, at, tp, even),
        Acting::OnCatastrophic(far) => add_far(out, at, side, tp, far),
    }
}

#[tactic(auto, using(words::proofs::Runs::few_rows))]
fn add_end(out: &mut [u8], at: usize, side: Side, tp: Mills, end: End) -> usize
    requires { at + 4160 ≤ length out.old }
    ensures { (result ≡ at + length (rows_text (end_rows side tp end))) × (out.new ≡ laid_at at (rows_text (end_rows side tp end)) out.old) × (result ≤ at + 4160) }
{
    match end {
        End::PriceCounts(_) | End::NullifyCounts => at,
        End::Acted(acting) => add_act(out, at, side, tp, acting),
    }
}

#[tactic(auto, using(words::proofs::Runs::more_rows))]
fn add_settled(out: &mut [u8], at: usize, side: Side, tp: Mills, settled: Settled) -> usize
    requires { at + 5200 ≤ length out.old }
    ensures { (result ≡ at + length (rows_text (settled_rows side tp settled))) × (out.new ≡ laid_at at (rows_text (settled_rows side tp settled)) out.old) × (result ≤ at + 5200) }
{
    let next = words::add_row(out, at, agreement_row(settled));
    add_end(out, next, side, tp, settled.end)
}

#[tactic(auto, using(words::proofs::Runs::few_rows))]
fn add_after(out: &mut [u8], at: usize, side: Side, tp: Mills, after: Option<Settled>) -> usize
    requires { at + 5200 ≤ length out.old }
    ensures { (result ≡ at + length (rows_text (after_rows side tp after))) × (out.new ≡ laid_at at (rows_text (after_rows side tp after)) out.old) × (result ≤ at + 5200) }
{
    match after {
        None => at,
        Some(settled) => add_settled(out, at, side, tp, settled),
    }
}

#[tactic(auto, using(words::proofs::Runs::more_rows), unfolding(crate::specs::Explained::judged_rows))]
fn add_judged(out: &mut [u8], at: usize, side: Side, judged: Judged) -> usize
    requires { at + 8320 ≤ length out.old }
    ensures { (result ≡ at + length (rows_text (judged_rows side judged))) × (out.new ≡ laid_at at (rows_text (judged_rows side judged)) out.old) × (result ≤ at + 8320) }
{
    let quoted = add_spread(out, at, judged.looked.spread);
    let row = source_row(side, judged.looked, judged.source);
    let priced = words::add_row(out, quoted, row);
    let tested = words::add_row(out, priced, error_row(side, judged.way, judged.off));
    add_after(out, tested, side, judged.source.price, judged.after)
}

#[tactic(auto, using(words::proofs::Runs::few_rows))]
fn add_reached(out: &mut [u8], at: usize, clock: Clock, reached: Reached) -> usize
    requires { at + 8320 ≤ length out.old }
    ensures { (result ≡ at + length (rows_text (reached_rows clock reached))) × (out.new ≡ laid_at at (rows_text (reached_rows clock reached)) out.old) × (result ≤ at + 8320) }
{
    match reached {
        Reached::Late => at,
        Reached::Decided => words::add_row(out, at, panel_row(clock)),
        Reached::Unpriced(looked) => add_unpriced(out, at, clock.side, looked),
        Reached::Priced(judged) => add_judged(out, at, clock.side, judged),
    }
}

// The rows of a ruled case: the head, each step that was reached, the contracts.
#[tactic(auto, using(words::proofs::Runs::more_rows), unfolding(crate::specs::Explained::ruled_rows))]
pub fn add_steps(out: &mut [u8], at: usize, steps: Steps, n: Figures) -> usize
    requires { at + 14560 ≤ length out.old }
    ensures { (result ≡ at + length (rows_text (ruled_rows steps n))) × (out.new ≡ laid_at at (rows_text (ruled_rows steps n)) out.old) × (result ≤ at + 14560) }
{
    let head = words::add_row(out, at, head_row(n));
    let way = add_way(out, head, steps.clock, steps.tried);
    let last = add_reached(out, way, steps.clock, steps.reached);
    let cover = cover_of(steps.reached);
    let row = contracts_row(steps.trade.contracts, steps.clock.side, cover, n);
    words::add_row(out, last, row)
}
