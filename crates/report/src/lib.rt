// The report of a sheet: what the printer writes, as bytes in a lent buffer. A row of whole cases, 52,800 bytes at most, has the header, a line for
// each case and END; any other has the one line that refuses it, with 10. Nothing is asked: the buffer holds the longest report, or, where
// the report is taken piece by piece, the longest line.
#![tactic(auto)]

ghost use Rattle.std.specs.Prelude.{◌≡◌, ◌++◌, ◌+◌, ◌*◌, ◌≤◌, length, take};
ghost use Rattle.wire.specs.Laid.{laid, row};
ghost use Rattle.cases.specs.Cases.{reading_of};
ghost use Rattle.cut.specs.Cut.{IsCase};
ghost use Rattle.sheet.specs.Sheet.{cases_in, ruled_one, ruled_in};
ghost use Rattle.lines.specs.Lines.{header};
ghost use Rattle.report.specs.Report.{case_line, line_of, ruled_text, text_of};
ghost use Rattle.report.specs.Pieces.{ruled_piece, piece_of};

// What has been printed: how many bytes, and how many cases were ruled.
#[derive(Clone, Copy)]
struct Printed {
    bytes: usize,
    ruled: usize,
}

// The line of one case, at the start of the buffer.
fn put_case(case: &[u8], index: u32, out: &mut [u8]) -> Printed
    requires { IsCase case.now × (96 ≤ length out.old) }
    ensures { (result.bytes ≡ length (case_line index (reading_of case.now))) × (result.ruled ≡ ruled_one (reading_of case.now)) × (out.new ≡ laid (case_line index (reading_of case.now)) out.old) }
{
    let number = cases::check_known(case);
    if number == 0 {
        return Printed {
            bytes: lines::put_ruled(out, figures::judge(case)),
            ruled: 1,
        };
    }
    Printed {
        bytes: lines::put_refused(out, index, number),
        ruled: 0,
    }
}

// The header and the lines of the cases, one after the other.
fn put_lines(sheet: &[u8], n: usize, out: &mut [u8]) -> Printed
    requires { (n ≡ cases_in sheet.now) × (n ≤ 600) × (65536 ≤ length out.old) }
    ensures bytes_value { (result.bytes ≡ length (header ++ row (line_of sheet.now) n)) × (result.ruled ≡ ruled_in sheet.now n) × (out.new ≡ laid (header ++ row (line_of sheet.now) n) out.old) }
    ensures bytes_bound { (result.bytes ≤ 96 + n * 96) × (result.ruled ≤ n) }
{
    let mut from: usize = 0;
    let mut at = lines::put_header(out);
    let mut ruled: usize = 0;
    for i in 0..n {
        let next = from + cut::said_length(sheet, from);
        let p = put_case(&sheet[from..next], i as u32, &mut out[at..]);
        from = next;
        at += p.bytes;
        ruled += p.ruled;
    }
    Printed { bytes: at, ruled }
}

// The header, the lines, END.
fn put_whole(sheet: &[u8], n: usize, out: &mut [u8]) -> usize
    requires { (n ≡ cases_in sheet.now) × (n ≤ 600) × (65536 ≤ length out.old) }
    ensures { (result ≡ length (ruled_text sheet.now n)) × (out.new ≡ laid (ruled_text sheet.now n) out.old) × (result ≤ 65536) }
{
    let p = put_lines(sheet, n, out);
    let end = p.bytes;
    end + lines::put_end(&mut out[end..], p.ruled as u32, (n - p.ruled) as u32)
}

// Prints a sheet over the start of the buffer; every byte after the text stays. Answers how many bytes the text has.
pub fn print_sheet(sheet: &[u8], out: &mut [u8; 65536]) -> usize
    ensures value { (result ≡ length (text_of sheet.now)) × (out.new ≡ laid (text_of sheet.now) out.old) }
    ensures upper_bound { (result ≤ length out.new) × (result ≡ length (take result out.new)) }
{
    let c = sheet::whole_cases(sheet);
    if c.whole {
        return put_whole(sheet, c.cases, out);
    }
    lines::put_sheet(out, 10)
}

// ---- piece by piece, with no room for more than a line: nothing is carried from one call to the next

// How a case counts: 1 if it is ruled.
fn ruled_one(case: &[u8]) -> usize
    requires { IsCase case.now }
    ensures { result ≡ ruled_one (reading_of case.now) }
{
    if cases::check_known(case) == 0 { 1 } else { 0 }
}

// How many cases are ruled.
fn count_ruled(sheet: &[u8], n: usize) -> usize
    requires { n ≡ cases_in sheet.now }
    ensures { (result ≡ ruled_in sheet.now n) × (result ≤ n) }
{
    let mut at: usize = 0;
    let mut ruled: usize = 0;
    for _i in 0..n {
        let step = cut::length_at(sheet, at);
        ruled += ruled_one(&sheet[at..at + step]);
        at += step;
    }
    ruled
}

// A piece of a sheet of whole cases: the header, a case's line, END, or nothing. A case is found by its place, walking from the first.
fn put_piece(sheet: &[u8], n: usize, k: usize, out: &mut [u8]) -> usize
    requires { (n ≡ cases_in sheet.now) × (n ≤ 600) × (96 ≤ length out.old) }
    ensures { (result ≡ length (ruled_piece sheet.now n k)) × (out.new ≡ laid (ruled_piece sheet.now n k) out.old) }
{
    if k == 0 {
        return lines::put_header(out);
    }
    let i = k - 1;
    if i < n {
        let from = cut::start_of(sheet, i);
        let step = cut::length_at(sheet, from);
        let p = put_case(&sheet[from..from + step], i as u32, out);
        return p.bytes;
    }
    if i == n {
        let ruled = count_ruled(sheet, n);
        return lines::put_end(out, ruled as u32, (n - ruled) as u32);
    }
    0
}

// Prints piece k of a sheet over the start of the buffer; every byte after it stays. Answers how many bytes it has: 0 after the last.
pub fn print_piece(sheet: &[u8], k: usize, out: &mut [u8; 96]) -> usize
    ensures value { (result ≡ length (piece_of sheet.now k)) × (out.new ≡ laid (piece_of sheet.now k) out.old) }
    ensures upper_bound { (result ≤ length out.new) × (result ≡ length (take result out.new)) }
{
    let c = sheet::whole_cases(sheet);
    if c.whole {
        return put_piece(sheet, c.cases, k, out);
    }
    if k == 0 {
        return lines::put_sheet(out, 10);
    }
    0
}
