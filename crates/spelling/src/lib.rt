// Clock times and dollars as people at the counter write them: a time read, a time and a price spelt. What is spelt goes into a lent buffer
// from a place on, every other byte stays, and the answer is the place after it: whoever asks has tested the room. Reading asks nothing.
#![tactic(auto)]

ghost use Rattle.std.specs.Prelude.{◌≡◌, ◌+◌, ◌-◌, ◌*◌, ◌%◌, ◌≤◌, min, length};
ghost use Rattle.std.specs.Option.{MatchOption};
ghost use Rattle.text.specs.Text.{laid_at, digit};
ghost use Rattle.spelling.specs.Times.{two_digits, clock_of, clock_in, count_in, time_in, clock_text, time_text};
ghost use Rattle.spelling.specs.Dollars.{decimals, mills_text, dollars_text};

use facts::Mills;

// ---- a time read

// The number that two digits say.
#[tactic(auto, unfolding(crate::specs::Times::two_digits, wire::specs::Tests::in_range))]
fn two_digits(a: u8, b: u8) -> Option<u8>
    ensures { MatchOption result (two_digits a b ≡ 100) (λ n. n ≡ two_digits a b) }
{
    if a.is_ascii_digit() && b.is_ascii_digit() {
        return Some((a - b'0') * 10 + (b - b'0'));
    }
    None
}

#[tactic(auto, unfolding(crate::specs::Times::clock_of))]
fn clock_of(h: u8, m: u8, s: u8) -> Option<u32>
    ensures { result ≡ clock_of h m s }
{
    (h <= 99 && m <= 59 && s <= 59).then_some(h as u32 * 3600 + m as u32 * 60 + s as u32)
}

#[tactic(auto, unfolding(crate::specs::Times::clock_in, crate::specs::Times::clock_of))]
fn read_clock(w: &[u8]) -> Option<u32>
    requires { length w.now ≡ 8 }
    ensures { result ≡ clock_in w.now }
{
    let h = two_digits(w[0], w[1])?;
    let m = two_digits(w[3], w[4])?;
    let s = two_digits(w[6], w[7])?;
    clock_of(h, m, s)
}

// One digit more, and never above the largest number of four bytes: where a sum has reached it, more digits keep it there.
fn push(n: u32, b: u8) -> u32
    requires { 48 ≤ b }
    ensures { result ≡ min (n * 10 + (b - 48)) 4294967295 }
{
    n.saturating_mul(10).saturating_add((b - b'0') as u32)
}

fn read_count(w: &[u8]) -> Option<u32>
    ensures { result ≡ count_in w.now }
{
    if w.is_empty() {
        return None;
    }
    let mut n: u32 = 0;
    for &b in w {
        if !b.is_ascii_digit() {
            return None;
        }
        n = push(n, b);
    }
    Some(n)
}

// The seconds that a word says, typed as HH:MM:SS or as a number.
pub fn read_time(w: &[u8]) -> Option<u32>
    ensures { result ≡ time_in w.now }
{
    if w.len() == 8 && w[2] == b':' && w[5] == b':' {
        return read_clock(w);
    }
    read_count(w)
}

// ---- a time spelt

fn last_digit(n: u32) -> u8
    ensures { result ≡ digit (n % 10) }
{
    b'0' + (n % 10) as u8
}

fn clock_text(h: u32, m: u32, s: u32) -> [u8; 8]
    ensures { result ≡ clock_text h m s }
{
    [
        last_digit(h / 10),
        last_digit(h),
        b':',
        last_digit(m / 10),
        last_digit(m),
        b':',
        last_digit(s / 10),
        last_digit(s),
    ]
}

// Seconds as HH:MM:SS.
#[tactic(auto, unfolding(crate::specs::Times::time_text))]
pub fn add_time(out: &mut [u8], at: usize, n: u32) -> usize
    requires { at + 8 ≤ length out.old }
    ensures { (result ≡ at + length (time_text n)) × (out.new ≡ laid_at at (time_text n) out.old) × (result ≡ at + 8) }
{
    text::add_word(out, at, &clock_text(n / 3600, n / 60 % 60, n % 60))
}

// ---- a price spelt

fn decimals_of(n: u32) -> [u8; 4]
    ensures { result ≡ decimals n }
{
    [b'.', last_digit(n / 100), last_digit(n / 10), last_digit(n)]
}

fn add_mills(out: &mut [u8], at: usize, n: u32) -> usize
    requires { at + 14 ≤ length out.old }
    ensures { (result ≡ at + length (mills_text n)) × (out.new ≡ laid_at at (mills_text n) out.old) × (result ≤ at + 14) }
{
    let point = text::add_decimal(out, at, n / 1000);
    text::add_word(out, point, &decimals_of(n))
}

// A price in dollars with three decimals, or `none`.
#[tactic(auto, unfolding(crate::specs::Dollars::dollars_text))]
pub fn add_dollars(out: &mut [u8], at: usize, p: Option<Mills>) -> usize
    requires { at + 14 ≤ length out.old }
    ensures { (result ≡ at + length (dollars_text p)) × (out.new ≡ laid_at at (dollars_text p) out.old) × (result ≤ at + 14) }
{
    match p {
        Some(Mills(n)) => add_mills(out, at, n),
        None => text::add_word(out, at, b"none"),
    }
}
