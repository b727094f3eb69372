// A sheet: a row of cases, each ruled as by itself, 96 bytes of answer for a ruled case and 12 for a refused one.
// Refused whole with 10 (no row of whole cases of known kinds, or more than 52,800 bytes) or 11 (room for less than
// 96 bytes a case), and then nothing is written.
#![tactic(auto)]

ghost use Rattle.std.specs.Prelude.{◌≡◌, ◌≤◌, length};
ghost use Rattle.wire.specs.Laid.{laid};
ghost use Rattle.cases.specs.Cases.{reading_of};
ghost use Rattle.cut.specs.Cut.{IsCase};
ghost use Rattle.sheet.specs.Sheet.{refusal_bytes, entry_bytes, ruled_one, cases_in, whole_cases, sheet_of};

use cut::Count;

// What became of a sheet: the number where it was refused whole, with counts of 0; else 0, the bytes written, and how many
// cases were ruled and refused.
#[derive(Clone, Copy)]
pub struct SheetAnswer {
    pub refusal: u8,
    pub written: usize,
    pub ruled: usize,
    pub refused: usize,
}

// What a case adds: the bytes written, and 1 if it was ruled.
#[derive(Clone, Copy)]
struct Entry {
    bytes: usize,
    ruled: usize,
}

fn put_refusal(out: &mut [u8], index: u32, number: u16)
    requires { 12 ≤ length out.old }
    ensures { out.new ≡ laid (refusal_bytes index number) out.old }
{
    wire::put_u16(out, 0, 12);
    wire::put_u16(out, 2, 18);
    wire::put_u32(out, 4, index);
    wire::put_u16(out, 8, number);
    wire::put_u16(out, 10, 0);
}

// The entry of one case, at the start of the buffer. What `answer::answer_case` does is done here by its two calls: the case is then lent to the
// test and to the ruling as one, which spares the stack a second slice.
fn rule_entry(case: &[u8], index: u32, out: &mut [u8]) -> Entry
    requires { IsCase case.now × (96 ≤ length out.old) }
    ensures { (result.bytes ≡ length (entry_bytes index (reading_of case.now))) × (result.ruled ≡ ruled_one (reading_of case.now)) × (out.new ≡ laid (entry_bytes index (reading_of case.now)) out.old) }
{
    let n = cases::check_known(case);
    if n == 0 {
        let f = figures::judge(case);
        notices::put_answer(out, f, wire::read_u32(case, 48), wire::read_u32(case, 56));
        return Entry {
            bytes: 96,
            ruled: 1,
        };
    }
    put_refusal(out, index, n as u16);
    Entry {
        bytes: 12,
        ruled: 0,
    }
}

fn refuse(number: u8) -> SheetAnswer
    ensures { result ≡ record { refusal = number; written = 0; ruled = 0; refused = 0 } }
{
    SheetAnswer {
        refusal: number,
        written: 0,
        ruled: 0,
        refused: 0,
    }
}

// Whether a sheet is whole cases to its end, of 52,800 bytes at most, and how many they are.
pub fn whole_cases(sheet: &[u8]) -> Count
    ensures { (result.whole ≡ whole_cases sheet.now) × (result.cases ≡ cases_in sheet.now) }
{
    let c = cut::count_cases(sheet);
    Count {
        whole: c.whole & (sheet.len() <= 52800),
        cases: c.cases,
    }
}

// Rules a sheet: 10, 11, then each case by itself.
pub fn rule_sheet(sheet: &[u8], out: &mut [u8]) -> SheetAnswer
    ensures { (result ≡ (sheet_of sheet.now (length out.old)).0) × (out.new ≡ laid (sheet_of sheet.now (length out.old)).1 out.old) }
{
    let c = whole_cases(sheet);
    if !c.whole {
        return refuse(10);
    }
    let n = c.cases;
    if out.len() < n * 96 {
        return refuse(11);
    }
    let mut from: usize = 0;
    let mut at: usize = 0;
    let mut ruled: usize = 0;
    for i in 0..n {
        let next = from + cut::said_length(sheet, from);
        let e = rule_entry(&sheet[from..next], i as u32, &mut out[at..]);
        from = next;
        at += e.bytes;
        ruled += e.ruled;
    }
    SheetAnswer {
        refusal: 0,
        written: at,
        ruled,
        refused: n - ruled,
    }
}
