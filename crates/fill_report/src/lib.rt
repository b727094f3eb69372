// What is said of a sheet that is filled, as bytes in a lent buffer: a line for each case that is left as it was and a last line with the counts, or
// the one line that refuses the whole. Nothing is asked: the buffer holds the longest text, 600 lines of 118 bytes and the counts.
#![tactic(auto)]

ghost use Rattle.std.specs.Prelude.{◌≡◌, ◌*◌, ◌≤◌, length, take};
ghost use Rattle.wire.specs.Laid.{laid, row};
ghost use Rattle.sheet.specs.Sheet.{cases_in};
ghost use Rattle.filling.specs.Filling.{filling_of, fill_read_of};
ghost use Rattle.fillings.specs.Fillings.{filled_one, filled_in, read_in};
ghost use Rattle.fill_report.specs.Told.{left_line, told_of, told, count_line, cases_text, owner_word, whole_line, fill_text};

// What has been said: how many bytes, how many cases are filled, and how many quotes were read for them.
#[derive(Clone, Copy)]
struct Said {
    bytes: usize,
    filled: usize,
    read: usize,
}

// ---- the lines, each at the start of the buffer

// The line of a case that is left as it was.
fn put_left(out: &mut [u8], index: u32, number: u8) -> usize
    requires { 118 ≤ length out.old }
    ensures { (result ≡ length (left_line index number)) × (out.new ≡ laid (left_line index number) out.old) × (result ≤ 118) }
{
    let mark = text::add_byte(out, 0, b'#');
    let place = text::add_decimal(out, mark, index);
    let words = text::add_word(out, place, b" left as it was: ");
    phrases::add_refusal(out, words, number)
}

// The last line.
fn put_counts(out: &mut [u8], filled: u32, left: u32, read: u32) -> usize
    requires { 74 ≤ length out.old }
    ensures { (result ≡ length (count_line filled left read)) × (out.new ≡ laid (count_line filled left read) out.old) × (result ≤ 74) }
{
    let first = text::add_decimal(out, 0, filled);
    let middle = text::add_word(out, first, b" filled, ");
    let second = text::add_decimal(out, middle, left);
    let word = text::add_word(out, second, b" left; ");
    let third = text::add_decimal(out, word, read);
    text::add_word(out, third, b" quotes read over all cases\n")
}

// Whose bytes are refused.
fn put_owner(out: &mut [u8], number: u8) -> usize
    requires { 7 ≤ length out.old }
    ensures { (result ≡ length (owner_word number)) × (out.new ≡ laid (owner_word number) out.old) × (result ≤ 7) }
{
    if number == 10 {
        return text::add_word(out, 0, b"SHEET ");
    }
    text::add_word(out, 0, b"QUOTES ")
}

// The one line where nothing is filled.
fn put_refused(out: &mut [u8], number: u8) -> usize
    requires { 97 ≤ length out.old }
    ensures { (result ≡ length (whole_line number)) × (out.new ≡ laid (whole_line number) out.old) × (result ≤ 97) }
{
    let owner = put_owner(out, number);
    phrases::add_refusal(out, owner, number)
}

// ---- the cases

// What is said of one case: nothing where it is filled.
fn put_case(quotes: &[u8], case: &[u8], index: u32, out: &mut [u8]) -> Said
    requires { 118 ≤ length out.old }
    ensures bytes_value { (result.bytes ≡ length (told_of index (filling_of quotes.now case.now).0)) × (result.filled ≡ filled_one (filling_of quotes.now case.now).0) × (out.new ≡ laid (told_of index (filling_of quotes.now case.now).0) out.old) }
    ensures read_value { result.read ≡ fill_read_of quotes.now case.now }
    ensures bytes_bound { (result.bytes ≤ 118) × (result.filled ≤ 1) × (result.read ≤ 2000) }
{
    let tried = filling::check_fill(quotes, case);
    if tried.refusal == 0 {
        return Said {
            bytes: 0,
            filled: 1,
            read: tried.examined,
        };
    }
    Said {
        bytes: put_left(out, index, tried.refusal),
        filled: 0,
        read: tried.examined,
    }
}

// What is said of each case, one after the other.
fn put_cases(quotes: &[u8], sheet: &[u8], n: usize, out: &mut [u8]) -> Said
    requires { (n ≡ cases_in sheet.now) × (n ≤ 600) × (n * 118 ≤ length out.old) }
    ensures bytes_value { (result.bytes ≡ length (row (told quotes.now sheet.now) n)) × (result.filled ≡ filled_in quotes.now sheet.now n) × (out.new ≡ laid (row (told quotes.now sheet.now) n) out.old) }
    ensures read_value { result.read ≡ read_in quotes.now sheet.now n }
    ensures bytes_bound { (result.bytes ≤ n * 118) × (result.filled ≤ n) × (result.read ≤ n * 2000) }
{
    let mut from: usize = 0;
    let mut at: usize = 0;
    let mut filled: usize = 0;
    let mut read: usize = 0;
    for i in 0..n {
        let step = cut::length_at(sheet, from);
        let p = put_case(quotes, &sheet[from..from + step], i as u32, &mut out[at..]);
        from += step;
        at += p.bytes;
        filled += p.filled;
        read += p.read;
    }
    Said {
        bytes: at,
        filled,
        read,
    }
}

// The cases, then the counts.
fn put_whole(quotes: &[u8], sheet: &[u8], n: usize, out: &mut [u8]) -> usize
    requires { (n ≡ cases_in sheet.now) × (n ≤ 600) × (131072 ≤ length out.old) }
    ensures { (result ≡ length (cases_text quotes.now sheet.now n)) × (out.new ≡ laid (cases_text quotes.now sheet.now n) out.old) × (result ≤ 131072) }
{
    let p = put_cases(quotes, sheet, n, out);
    let end = p.bytes;
    end + put_counts(
        &mut out[end..],
        p.filled as u32,
        (n - p.filled) as u32,
        p.read as u32,
    )
}

// Says what filling does to a sheet, over the start of the buffer; every byte after the text stays. Answers how many bytes the text has.
pub fn print_filling(quotes: &[u8], sheet: &[u8], out: &mut [u8; 131072]) -> usize
    ensures value { (result ≡ length (fill_text quotes.now sheet.now)) × (out.new ≡ laid (fill_text quotes.now sheet.now) out.old) }
    ensures upper_bound { (result ≤ length out.new) × (result ≡ length (take result out.new)) }
{
    let number = fillings::check_filling(quotes, sheet);
    if number == 0 {
        let c = cut::count_cases(sheet);
        return put_whole(quotes, sheet, c.cases, out);
    }
    put_refused(out, number)
}
