// A sheet cut into its cases, each as long as its head says (RULE R1.3, R3.10). Whoever walks over a sheet asks here how long the next case is.
#![tactic(auto)]

ghost use Rattle.std.specs.Prelude.{◌≡◌, ◌+◌, ◌≤◌, length, drop};
ghost use Rattle.cut.specs.Cut.{case_length, cases_in, whole, start_of};

// How long the case at the start is; 0 where there is none: under four bytes, an unknown pair, or fewer bytes than it says.
fn case_length(s: &[u8]) -> usize
    ensures { result ≡ case_length s.now }
{
    if s.len() < 4 {
        return 0;
    }
    let size = wire::read_u16(s, 0);
    if !forms::is_known(size, wire::read_u16(s, 2)) {
        return 0;
    }
    let n = size as usize;
    if s.len() < n {
        return 0;
    }
    n
}

// The same of the case that begins at a place; it ends within the bytes.
pub fn length_at(s: &[u8], from: usize) -> usize
    requires { from ≤ length s.now }
    ensures { (result ≡ case_length (drop from s.now)) × (from + result ≤ length s.now) }
{
    case_length(&s[from..])
}

// The length of the case that is known to begin at a place: what its head says, and no look at where the bytes end, which a walk over a whole
// sheet would carry along.
pub fn said_length(s: &[u8], from: usize) -> usize
    requires { (from ≤ length s.now) × (case_length (drop from s.now) ≡ 0 → ⊥) }
    ensures { (result ≡ case_length (drop from s.now)) × (from + result ≤ length s.now) }
{
    wire::read_u16(s, from) as usize
}

// Whether a sheet is cases to its end, and how many there are before what is left.
#[derive(Clone, Copy)]
pub struct Count {
    pub whole: bool,
    pub cases: usize,
}

pub fn count_cases(sheet: &[u8]) -> Count
    ensures { (result.whole ≡ whole sheet.now) × (result.cases ≡ cases_in sheet.now) }
{
    let mut from: usize = 0;
    let mut n: usize = 0;
    let mut step = length_at(sheet, 0);
    while step > 0 {
        from += step;
        n += 1;
        step = length_at(sheet, from);
    }
    Count {
        whole: from == sheet.len(),
        cases: n,
    }
}

// Where case k begins; where there are not so many, the end of the last.
pub fn start_of(sheet: &[u8], k: usize) -> usize
    ensures { result ≡ start_of sheet.now k }
{
    let mut at: usize = 0;
    let mut i: usize = 0;
    let mut step = length_at(sheet, 0);
    while (i < k) & (step > 0) {
        at += step;
        i += 1;
        step = length_at(sheet, at);
    }
    at
}
