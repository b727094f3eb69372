// The printer's lines: a ruled case, a refused one, the header, the end, a sheet refused whole. Each is written over the start of a lent
// buffer, every byte after it stays, and the answer is its length. Nothing is refused here: whoever asks has tested the room.
#![tactic(auto)]

ghost use Rattle.std.specs.Prelude.{◌≡◌, ◌+◌, ◌≤◌, length};
ghost use Rattle.wire.specs.Laid.{laid};
ghost use Rattle.facts.specs.Numbers.{price_of};
ghost use Rattle.text.specs.Text.{laid_at, decimal_of, price_text};
ghost use Rattle.lines.specs.Lines.{ended, header, outcome_word, line, last_fields, ruled_line, refused_line, end_line, sheet_line};

use figures::Figures;

// ---- a field and the byte after it

fn add_number(out: &mut [u8], at: usize, n: u32, end: u8) -> usize
    requires { at + 11 ≤ length out.old }
    ensures { (result ≡ at + length (ended (decimal_of n) end)) × (out.new ≡ laid_at at (ended (decimal_of n) end) out.old) × (result ≤ at + 11) }
{
    let next = text::add_decimal(out, at, n);
    text::add_byte(out, next, end)
}

fn add_price(out: &mut [u8], at: usize, p: u32) -> usize
    requires { at + 11 ≤ length out.old }
    ensures { (result ≡ at + length (ended (price_text (price_of p)) 32)) × (out.new ≡ laid_at at (ended (price_text (price_of p)) 32) out.old) × (result ≤ at + 11) }
{
    let next = text::add_price(out, at, facts::price_of(p));
    text::add_byte(out, next, b' ')
}

fn add_outcome(out: &mut [u8], at: usize, outcome: u8) -> usize
    requires { at + 8 ≤ length out.old }
    ensures { (result ≡ at + length (ended (outcome_word outcome) 32)) × (out.new ≡ laid_at at (ended (outcome_word outcome) 32) out.old) × (result ≤ at + 8) }
{
    match outcome {
        0 => text::add_word(out, at, b"NONE "),
        1 => text::add_word(out, at, b"ADJUST "),
        2 => text::add_word(out, at, b"NULLIFY "),
        _ => text::add_word(out, at, b"WAIT "),
    }
}

// The contracts adjusted, nullified and standing, and the origin of TP, which end the line.
fn add_last(out: &mut [u8], at: usize, n: Figures) -> usize
    requires { at + 44 ≤ length out.old }
    ensures { (result ≡ at + length (line (last_fields n))) × (out.new ≡ laid_at at (line (last_fields n)) out.old) }
{
    let adjusted = add_number(out, at, n.adjusted, b' ');
    let nullified = add_number(out, adjusted, n.nullified, b' ');
    let standing = add_number(out, nullified, n.standing, b' ');
    add_number(out, standing, n.origin as u32, b'\n')
}

// ---- the lines

// The line of a ruled case.
pub fn put_ruled(out: &mut [u8], n: Figures) -> usize
    requires { 96 ≤ length out.old }
    ensures { (result ≡ length (ruled_line n)) × (out.new ≡ laid (ruled_line n) out.old) }
{
    let trade = add_number(out, 0, n.trade, b' ');
    let outcome = add_outcome(out, trade, n.outcome);
    let reason = add_number(out, outcome, n.reason as u32, b' ');
    let tp = add_price(out, reason, n.tp);
    let price = add_price(out, tp, n.price);
    add_last(out, price, n)
}

// The line of a refused case.
pub fn put_refused(out: &mut [u8], index: u32, number: u8) -> usize
    requires { 96 ≤ length out.old }
    ensures { (result ≡ length (refused_line index number)) × (out.new ≡ laid (refused_line index number) out.old) }
{
    let mark = text::add_byte(out, 0, b'#');
    let place = add_number(out, mark, index, b' ');
    let word = text::add_word(out, place, b"REFUSED ");
    add_number(out, word, number as u32, b'\n')
}

// The header.
pub fn put_header(out: &mut [u8]) -> usize
    requires { 96 ≤ length out.old }
    ensures { (result ≡ length header) × (out.new ≡ laid header out.old) }
{
    text::add_word(out, 0, b"TRADE OUTCOME REASON TP NEW ADJ NUL OLD FROM\n")
}

// The last line: how many cases were ruled and refused.
pub fn put_end(out: &mut [u8], ruled: u32, refused: u32) -> usize
    requires { 96 ≤ length out.old }
    ensures { (result ≡ length (end_line ruled refused)) × (out.new ≡ laid (end_line ruled refused) out.old) }
{
    let word = text::add_word(out, 0, b"END ");
    let first = add_number(out, word, ruled, b' ');
    add_number(out, first, refused, b'\n')
}

// The one line of a sheet refused whole.
pub fn put_sheet(out: &mut [u8], number: u8) -> usize
    requires { 96 ≤ length out.old }
    ensures { (result ≡ length (sheet_line number)) × (out.new ≡ laid (sheet_line number) out.old) }
{
    let words = text::add_word(out, 0, b"SHEET REFUSED ");
    add_number(out, words, number as u32, b'\n')
}
