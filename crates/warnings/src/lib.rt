// The warnings of a sheet: what is told beside its printed rulings, case by case, of prices that may be turned. It refuses nothing, and asks nothing:
// the buffer holds the longest warning of a case.
#![tactic(auto)]

ghost use Rattle.std.specs.Prelude.{◌≡◌, ◌≤◌, length, take};
ghost use Rattle.wire.specs.Laid.{laid};
ghost use Rattle.cut.specs.Cut.{IsCase};
ghost use Rattle.sheet.specs.Sheet.{cases_in};
ghost use Rattle.warnings.specs.Warned.{trade_row, warned_text, warned_case, warned_at, warned_piece};

use careful::Cautions;
use words::{Piece, Value};

fn trade_row(trade: u32) -> [Piece; 10]
    ensures { result ≡ trade_row trade }
{
    let none = words::said(0);
    [
        words::told(words::TRADE, Value::Number(trade)),
        words::said(words::END),
        none,
        none,
        none,
        none,
        none,
        none,
        none,
        none,
    ]
}

fn put_warned(out: &mut [u8], index: u32, trade: u32, cautions: Cautions) -> usize
    requires { 8192 ≤ length out.old }
    ensures { (result ≡ length (warned_text index trade cautions)) × (out.new ≡ laid (warned_text index trade cautions) out.old) × (result ≤ 8192) }
{
    let next = words::add_index(out, 0, index);
    let head = words::add_row(out, next, trade_row(trade));
    careful_lines::add_cautions(out, head, cautions)
}

fn put_case(case: &[u8], index: u32, out: &mut [u8]) -> usize
    requires { IsCase case.now × (8192 ≤ length out.old) }
    ensures { (result ≡ length (warned_case index case.now)) × (out.new ≡ laid (warned_case index case.now) out.old) × (result ≤ 8192) }
{
    let cautions = careful::find_cautions(case);
    if careful::any_caution(cautions) {
        return put_warned(out, index, wire::read_u32(case, 4), cautions);
    }
    0
}

// Of a sheet of whole cases. A case is found by its place, walking from the first.
fn put_at(sheet: &[u8], n: usize, k: usize, out: &mut [u8]) -> usize
    requires { (n ≡ cases_in sheet.now) × (n ≤ 600) × (8192 ≤ length out.old) }
    ensures { (result ≡ length (warned_at sheet.now n k)) × (out.new ≡ laid (warned_at sheet.now n k) out.old) × (result ≤ 8192) }
{
    if k < n {
        let from = cut::start_of(sheet, k);
        let step = cut::length_at(sheet, from);
        return put_case(&sheet[from..from + step], k as u32, out);
    }
    0
}

// Warns of case k of a sheet over the start of the buffer; every byte after it stays. Answers how many bytes it has: 0 where there is nothing to warn of.
pub fn warn_piece(sheet: &[u8], k: usize, out: &mut [u8; 8192]) -> usize
    ensures value { (result ≡ length (warned_piece sheet.now k)) × (out.new ≡ laid (warned_piece sheet.now k) out.old) }
    ensures upper_bound { (result ≤ length out.new) × (result ≡ length (take result out.new)) }
{
    let c = sheet::whole_cases(sheet);
    if c.whole {
        return put_at(sheet, c.cases, k, out);
    }
    0
}
