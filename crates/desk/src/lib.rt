// The desk for other programs: seven functions on numbers and byte slices. Each passes its callee's promise on in the page's numbers, and asks
// nothing beyond what its types say. In C's calling form they stand in `desk_c`.
#![tactic(auto)]

ghost use Rattle.std.specs.Prelude.{◌≡◌, length};
ghost use Rattle.wire.specs.Laid.{laid};
ghost use Rattle.cases.specs.Cases.{refusal_of};
ghost use Rattle.answer.specs.Answer.{case_of};
ghost use Rattle.sheet.specs.Sheet.{sheet_of};
ghost use Rattle.report.specs.Report.{text_of};
ghost use Rattle.earlier.specs.Earlier.{quotes_before_of};
ghost use Rattle.best.specs.Looked.{looked_of};
ghost use Rattle.filling.specs.Filling.{filling_of};
ghost use Rattle.desk.specs.Desk.{desk_sheet, desk_best};

use best::Looked;
use sheet::SheetAnswer;

// What became of a sheet: the number where it was refused whole, else 0; the bytes written; the cases ruled and refused.
#[repr(C)]
#[derive(Clone, Copy)]
pub struct DeskSheet {
    pub refusal: u64,
    pub written: u64,
    pub ruled: u64,
    pub refused: u64,
}

impl From<SheetAnswer> for DeskSheet {
    ghost from_gives = { λ a r. r ≡ desk_sheet a };

    fn from(a: SheetAnswer) -> DeskSheet {
        DeskSheet {
            refusal: a.refusal as u64,
            written: a.written as u64,
            ruled: a.ruled as u64,
            refused: a.refused as u64,
        }
    }
}

// What a lookup answers: the number where it was refused, else 0; bid and offer in mills, 4,294,967,295 for none, and their sizes; how many quotes were
// read.
#[repr(C)]
#[derive(Clone, Copy)]
pub struct DeskBest {
    pub refusal: u64,
    pub bid: u64,
    pub offer: u64,
    pub bid_size: u64,
    pub offer_size: u64,
    pub examined: u64,
}

impl From<Looked> for DeskBest {
    ghost from_gives = { λ l r. r ≡ desk_best l };

    fn from(l: Looked) -> DeskBest {
        DeskBest {
            refusal: l.found.refusal as u64,
            bid: facts::price_number(l.found.bid.price) as u64,
            offer: facts::price_number(l.found.offer.price) as u64,
            bid_size: l.found.bid.size.0 as u64,
            offer_size: l.found.offer.size.0 as u64,
            examined: l.examined as u64,
        }
    }
}

// Tests a case: its number, 0 if it is accepted.
pub fn desk_check_case(case: &[u8]) -> u32
    ensures { result ≡ refusal_of case.now }
{
    cases::check_case(case) as u32
}

// Rules a case into the first 96 bytes of a buffer: its number, 0 if it is ruled.
pub fn desk_rule_case(case: &[u8], out: &mut [u8]) -> u32
    ensures { (result ≡ (case_of case.now (length out.old)).0) × (out.new ≡ laid (case_of case.now (length out.old)).1 out.old) }
{
    answer::rule_case(case, out) as u32
}

// Rules a sheet into a buffer.
pub fn desk_rule_sheet(sheet: &[u8], out: &mut [u8]) -> DeskSheet
    ensures { (result ≡ desk_sheet (sheet_of sheet.now (length out.old)).0) × (out.new ≡ laid (sheet_of sheet.now (length out.old)).1 out.old) }
{
    DeskSheet::from(sheet::rule_sheet(sheet, out))
}

// Prints a sheet: how many bytes of the buffer are its text.
pub fn desk_print_sheet(sheet: &[u8], out: &mut [u8; 65536]) -> u64
    ensures { (result ≡ length (text_of sheet.now)) × (out.new ≡ laid (text_of sheet.now) out.old) }
{
    report::print_sheet(sheet, out) as u64
}

// The number of quotes strictly before a trade: 0 where the quotes or the time are refused.
pub fn desk_quotes_before(quotes: &[u8], trade_time: u32) -> u64
    ensures { result ≡ quotes_before_of quotes.now trade_time }
{
    earlier::quotes_before(quotes, trade_time) as u64
}

// Finds the best bid and offer of the exchanges' quotes at a trade, with the number of quotes strictly before it.
pub fn desk_best_quotes(quotes: &[u8], trade_time: u32, before: u64) -> DeskBest
    ensures { result ≡ desk_best (looked_of quotes.now trade_time before) }
{
    DeskBest::from(best::find_best(quotes, trade_time, before as usize))
}

// Fills a case with the best bid and offer at its own execution time: its number, 0 if it is filled.
pub fn desk_fill_case(quotes: &[u8], case: &mut [u8]) -> u32
    ensures { (result ≡ (filling_of quotes.now case.old).0) × (case.new ≡ (filling_of quotes.now case.old).1) }
{
    filling::fill_case(quotes, case) as u32
}
