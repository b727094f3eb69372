// The desk in C's calling form: the seven functions of `desk`, under the same names and with the same clauses (include/desk.h declares them).
#![tactic(auto)]

ghost use Rattle.std.specs.Prelude.{◌≡◌, length};
ghost use Rattle.wire.specs.Laid.{laid};
ghost use Rattle.cases.specs.Cases.{refusal_of};
ghost use Rattle.answer.specs.Answer.{case_of};
ghost use Rattle.sheet.specs.Sheet.{sheet_of};
ghost use Rattle.report.specs.Report.{text_of};
ghost use Rattle.earlier.specs.Earlier.{quotes_before_of};
ghost use Rattle.best.specs.Looked.{looked_of};
ghost use Rattle.filling.specs.Filling.{filling_of};
ghost use Rattle.desk.specs.Desk.{desk_sheet, desk_best};

use desk::{DeskBest, DeskSheet};

// Tests a case: its number, 0 if it is accepted.
#[unsafe(no_mangle)]
pub extern "C" fn desk_check_case(case: &[u8]) -> u32
    ensures { result ≡ refusal_of case.now }
{
    desk::desk_check_case(case)
}

// Rules a case into the first 96 bytes of a buffer: its number, 0 if it is ruled.
#[unsafe(no_mangle)]
pub extern "C" fn desk_rule_case(case: &[u8], out: &mut [u8]) -> u32
    ensures { (result ≡ (case_of case.now (length out.old)).0) × (out.new ≡ laid (case_of case.now (length out.old)).1 out.old) }
{
    desk::desk_rule_case(case, out)
}

// Rules a sheet into a buffer.
#[unsafe(no_mangle)]
pub extern "C" fn desk_rule_sheet(sheet: &[u8], out: &mut [u8]) -> DeskSheet
    ensures { (result ≡ desk_sheet (sheet_of sheet.now (length out.old)).0) × (out.new ≡ laid (sheet_of sheet.now (length out.old)).1 out.old) }
{
    desk::desk_rule_sheet(sheet, out)
}

// Prints a sheet: how many bytes of the buffer are its text.
#[unsafe(no_mangle)]
pub extern "C" fn desk_print_sheet(sheet: &[u8], out: &mut [u8; 65536]) -> u64
    ensures { (result ≡ length (text_of sheet.now)) × (out.new ≡ laid (text_of sheet.now) out.old) }
{
    desk::desk_print_sheet(sheet, out)
}

// The number of quotes strictly before a trade: 0 where the quotes or the time are refused.
#[unsafe(no_mangle)]
pub extern "C" fn desk_quotes_before(quotes: &[u8], trade_time: u32) -> u64
    ensures { result ≡ quotes_before_of quotes.now trade_time }
{
    desk::desk_quotes_before(quotes, trade_time)
}

// Finds the best bid and offer of the exchanges' quotes at a trade, with the number of quotes strictly before it.
#[unsafe(no_mangle)]
pub extern "C" fn desk_best_quotes(quotes: &[u8], trade_time: u32, before: u64) -> DeskBest
    ensures { result ≡ desk_best (looked_of quotes.now trade_time before) }
{
    desk::desk_best_quotes(quotes, trade_time, before)
}

// Fills a case with the best bid and offer at its own execution time: its number, 0 if it is filled.
#[unsafe(no_mangle)]
pub extern "C" fn desk_fill_case(quotes: &[u8], case: &mut [u8]) -> u32
    ensures { (result ≡ (filling_of quotes.now case.old).0) × (case.new ≡ (filling_of quotes.now case.old).1) }
{
    desk::desk_fill_case(quotes, case)
}
