// The rows that warn of a price which may be turned. What is written goes into a lent buffer from a place on, every other byte stays, and the answer
// is the place after it. Nothing is refused here: whoever asks has tested the room, 1,040 bytes for each row.
#![tactic(auto)]

ghost use Rattle.std.specs.Prelude.{◌≡◌, ◌+◌, ◌≤◌, length};
ghost use Rattle.text.specs.Text.{laid_at};
ghost use Rattle.words.specs.Rows.{rows_text};
ghost use Rattle.careful_lines.specs.Lines.{warning_row, caution_rows, careful_rows};

use careful::{Cautions, Warning};
use words::{Piece, Value};

#[tactic(auto, unfolding(crate::specs::Lines::warning_row))]
fn warning_row(phrase: u8, warning: Warning) -> [Piece; 10]
    ensures { result ≡ warning_row phrase warning }
{
    let none = words::said(words::NOTHING);
    [
        words::found(
            phrase,
            Value::Dollars(Some(warning.stands)),
            words::bytes_at(warning.at, 4),
        ),
        words::told(words::TURNED, Value::Dollars(Some(warning.turned))),
        words::found(
            words::NEARER,
            Value::Dollars(Some(warning.execution)),
            words::bytes_at(8, 4),
        ),
        words::said(words::END),
        none,
        none,
        none,
        none,
        none,
        none,
    ]
}

fn add_caution(out: &mut [u8], at: usize, phrase: u8, caution: Option<Warning>) -> usize
    requires { at + 1040 ≤ length out.old }
    ensures { (result ≡ at + length (rows_text (caution_rows phrase caution))) × (out.new ≡ laid_at at (rows_text (caution_rows phrase caution)) out.old) × (result ≤ at + 1040) }
{
    match caution {
        None => at,
        Some(warning) => words::add_row(out, at, warning_row(phrase, warning)),
    }
}

// The rows of all five prices; none where there is nothing to warn of.
pub fn add_cautions(out: &mut [u8], at: usize, cautions: Cautions) -> usize
    requires { at + 5200 ≤ length out.old }
    ensures { (result ≡ at + length (rows_text (careful_rows cautions))) × (out.new ≡ laid_at at (rows_text (careful_rows cautions)) out.old) × (result ≤ at + 5200) }
{
    let after_bid = add_caution(out, at, words::CAREFUL_BID, cautions.bid);
    let after_offer = add_caution(out, after_bid, words::CAREFUL_OFFER, cautions.offer);
    let after_official = add_caution(out, after_offer, words::CAREFUL_OFFICIAL, cautions.official);
    let after_buyer = add_caution(out, after_official, words::CAREFUL_BUYER, cautions.buyer);
    add_caution(out, after_buyer, words::CAREFUL_SELLER, cautions.seller)
}
