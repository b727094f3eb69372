// The explanation of a case and of a sheet, for the desk alone: what each step of a ruling found, or the field that broke a test, and what to be
// careful of. It refuses nothing, and asks nothing: the buffer holds the longest explanation of a case.
#![tactic(auto)]

ghost use Rattle.std.specs.Prelude.{◌≡◌, ◌+◌, ◌≤◌, length, take};
ghost use Rattle.wire.specs.Laid.{laid};
ghost use Rattle.text.specs.Text.{laid_at};
ghost use Rattle.cut.specs.Cut.{IsCase};
ghost use Rattle.words.specs.Rows.{rows_text};
ghost use Rattle.sheet.specs.Sheet.{cases_in};
ghost use Rattle.report.specs.Pieces.{piece_of, pieces_in};
ghost use Rattle.explanation.specs.Explained.{told_rows, explained_rows, explained_of};
ghost use Rattle.explanation.specs.Pieces.{desk_alone, wanted, indexed, case_piece, explain_piece, explained_piece};

// ---- a case

fn add_told(out: &mut [u8], at: usize, case: &[u8]) -> usize
    requires { at + 14560 ≤ length out.old }
    ensures { (result ≡ at + length (rows_text (told_rows case.now))) × (out.new ≡ laid_at at (rows_text (told_rows case.now)) out.old) × (result ≤ at + 14560) }
{
    if cases::check_case(case) == 0 {
        let found = steps::find_steps(record::facts_of(case));
        let figures = figures::judge(case);
        return step_lines::add_steps(out, at, found, figures);
    }
    let blame = blame::find_blame(case);
    blame_lines::add_blame(out, at, case, blame)
}

fn add_case(out: &mut [u8], at: usize, case: &[u8]) -> usize
    requires { at + 19760 ≤ length out.old }
    ensures { (result ≡ at + length (explained_of case.now)) × (out.new ≡ laid_at at (explained_of case.now) out.old) × (result ≤ at + 19760) }
{
    let next = add_told(out, at, case);
    let cautions = careful::find_cautions(case);
    careful_lines::add_cautions(out, next, cautions)
}

// Explains a case over the start of the buffer; every byte after the text stays. Answers how many bytes the text has.
pub fn explain_case(case: &[u8], out: &mut [u8; 20480]) -> usize
    ensures value { (result ≡ length (explained_of case.now)) × (out.new ≡ laid (explained_of case.now) out.old) }
    ensures upper_bound { (result ≤ length out.new) × (result ≡ length (take result out.new)) }
{
    add_case(out, 0, case)
}

// ---- a sheet, piece by piece: nothing is carried from one call to the next

fn is_wanted(case: &[u8], want: Option<u32>) -> bool
    requires { IsCase case.now }
    ensures { result ≡ wanted want case.now }
{
    match want {
        None => true,
        Some(n) => wire::read_u32(case, 4) == n,
    }
}

fn put_indexed(case: &[u8], index: u32, out: &mut [u8]) -> usize
    requires { 20480 ≤ length out.old }
    ensures { (result ≡ length (indexed index case.now)) × (out.new ≡ laid (indexed index case.now) out.old) × (result ≤ 20480) }
{
    let next = words::add_index(out, 0, index);
    add_case(out, next, case)
}

fn put_case(case: &[u8], index: u32, want: Option<u32>, out: &mut [u8]) -> usize
    requires { IsCase case.now × (20480 ≤ length out.old) }
    ensures { (result ≡ length (case_piece want index case.now)) × (out.new ≡ laid (case_piece want index case.now) out.old) × (result ≤ 20480) }
{
    if is_wanted(case, want) {
        return put_indexed(case, index, out);
    }
    0
}

// What follows the cases, as in a report.
fn put_report(sheet: &[u8], k: usize, out: &mut [u8]) -> usize
    requires { 20480 ≤ length out.old }
    ensures { (result ≡ length (piece_of sheet.now k)) × (out.new ≡ laid (piece_of sheet.now k) out.old) × (result ≤ 20480) }
{
    let mut line = [0u8; 96];
    let n = report::print_piece(sheet, k, &mut line);
    text::add_word(out, 0, &line[..n])
}

// A piece of a sheet of whole cases. A case is found by its place, walking from the first.
fn put_piece(sheet: &[u8], n: usize, k: usize, want: Option<u32>, out: &mut [u8]) -> usize
    requires { (n ≡ cases_in sheet.now) × (n ≤ 600) × (20480 ≤ length out.old) }
    ensures { (result ≡ length (explain_piece sheet.now n want k)) × (out.new ≡ laid (explain_piece sheet.now n want k) out.old) × (result ≤ 20480) }
{
    if k == 0 {
        return text::add_word(out, 0, b"FOR THE DESK ALONE: limits are shown\n");
    }
    let i = k - 1;
    if i < n {
        let from = cut::start_of(sheet, i);
        let step = cut::length_at(sheet, from);
        return put_case(&sheet[from..from + step], i as u32, want, out);
    }
    put_report(sheet, k, out)
}

// Explains piece k of a sheet over the start of the buffer; every byte after it stays. Answers how many bytes it has.
pub fn explain_piece(sheet: &[u8], k: usize, want: Option<u32>, out: &mut [u8; 20480]) -> usize
    ensures value { (result ≡ length (explained_piece sheet.now want k)) × (out.new ≡ laid (explained_piece sheet.now want k) out.old) }
    ensures upper_bound { (result ≤ length out.new) × (result ≡ length (take result out.new)) }
{
    let c = sheet::whole_cases(sheet);
    if c.whole {
        return put_piece(sheet, c.cases, k, want, out);
    }
    put_report(sheet, k, out)
}

// How many pieces a sheet has.
pub fn count_pieces(sheet: &[u8]) -> usize
    ensures { (result ≡ pieces_in sheet.now) × (result ≤ 602) }
{
    let c = sheet::whole_cases(sheet);
    if c.whole {
        return c.cases + 2;
    }
    1
}
