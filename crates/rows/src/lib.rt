// The changes of a record that stand in the rows of the tables that programs are run on. Refuses nothing: what is no change, or has no room in the
// record, changes nothing, and is told.
#![tactic(auto)]

ghost use Rattle.std.specs.Prelude.{◌≡◌, true, false, is_some, unwrap_or, MatchOption};
ghost use Rattle.rows.specs.Rows.{number_in, has, front, rest, with_word, with_byte, changed_by};

// A number in decimal; it ends before the first byte that is no digit, and before the digit that would pass four bytes.
fn number(text: &[u8]) -> u32
    ensures { result ≡ number_in text.now }
{
    let mut n: u32 = 0;
    for b in text {
        let Some(digit) = char::from(*b).to_digit(10) else {
            break;
        };
        let Some(more) = n.checked_mul(10).and_then(|tens| tens.checked_add(digit)) else {
            break;
        };
        n = more;
    }
    n
}

// What stands before and behind the first such byte.
fn cut(text: &[u8], mark: u8) -> Option<(&[u8], &[u8])>
    ensures { MatchOption result (has mark text.now ≡ false) (λ x. (has mark text.now ≡ true) × (x.0.now ≡ front mark text.now) × (x.1.now ≡ rest mark text.now)) }
{
    let at = text.iter().position(|b| *b == mark)?;
    Some((&text[..at], &text[at + 1..]))
}

// AT=N puts a four-byte number into the record, where it has room for it.
fn put_word(case: &mut [u8], text: &[u8]) -> bool
    ensures { (result ≡ is_some (with_word case.old text.now)) × (case.new ≡ unwrap_or (with_word case.old text.now) case.old) }
{
    let Some((at, n)) = cut(text, b'=') else {
        return false;
    };
    let at = number(at) as usize;
    let fits = at + 4 <= case.len();
    if fits {
        wire::put_u32(case, at, number(n));
    }
    fits
}

// AT.N puts a byte into the record, where it has such a place.
fn put_byte(case: &mut [u8], text: &[u8]) -> bool
    ensures { (result ≡ is_some (with_byte case.old text.now)) × (case.new ≡ unwrap_or (with_byte case.old text.now) case.old) }
{
    let Some((at, n)) = cut(text, b'.') else {
        return false;
    };
    let at = number(at) as usize;
    let n = number(n);
    let fits = at < case.len() && n < 256;
    if fits {
        case[at] = n as u8;
    }
    fits
}

// Makes a change. Whether it is one, and has room.
pub fn change(case: &mut [u8], text: &[u8]) -> bool
    ensures { (result ≡ is_some (changed_by case.old text.now)) × (case.new ≡ unwrap_or (changed_by case.old text.now) case.old) }
{
    put_word(case, text) || put_byte(case, text)
}
