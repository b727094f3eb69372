// The tests behind "Numbers given back instead of a ruling" (RULE R3), in the table's order.
// Here the tests on bytes, 1 to 3; `faults` runs those on facts, 4 to 9, by the definitions that stand here beside each other.
#![tactic(auto)]

ghost use Rattle.std.specs.Prelude.{◌≡◌, ◌≤◌, length};
ghost use Rattle.wire.specs.Tests.{pick, in_range};
ghost use Rattle.refusals.specs.Tests.{head_ok, zeros_ok, lists_ok, coded_ok, head_fault_of};

// ---- 2 and 3: tests on the bytes of a case

fn head_ok(s: &[u8]) -> bool
    requires { 88 ≤ length s.now }
    ensures { result ≡ head_ok s.now }
{
    let size = wire::read_u16(s, 0);
    let kind = wire::read_u16(s, 2);
    forms::is_known(size, kind) & (size as usize == s.len())
}

fn zeros_ok(s: &[u8]) -> bool
    requires { 88 ≤ length s.now }
    ensures { result ≡ zeros_ok s.now }
{
    let first = wire::read_u32(s, 36);
    let second = wire::read_u32(s, 84);
    (first == 0) & (second == 0)
}

fn zero_or_one(b: u8) -> bool
    ensures { result ≡ in_range 0 1 b }
{
    matches!(b, 0..=1)
}

fn zero_to_two(b: u8) -> bool
    ensures { result ≡ in_range 0 2 b }
{
    matches!(b, 0..=2)
}

fn one_or_two(b: u8) -> bool
    ensures { result ≡ in_range 1 2 b }
{
    matches!(b, 1..=2)
}

fn one_to_three(b: u8) -> bool
    ensures { result ≡ in_range 1 3 b }
{
    matches!(b, 1..=3)
}

fn lists_ok(s: &[u8]) -> bool
    requires { 88 ≤ length s.now }
    ensures { result ≡ lists_ok s.now }
{
    one_or_two(s[44])
        & zero_or_one(s[45])
        & zero_or_one(s[46])
        & zero_or_one(s[47])
        & one_to_three(s[64])
        & one_to_three(s[65])
        & zero_to_two(s[66])
        & zero_to_two(s[67])
}

// The number of the first of the tests 1 and 2 that these bytes fail, or 0.
pub fn head_fault(s: &[u8]) -> u8
    ensures { result ≡ head_fault_of s.now }
{
    if !forms::is_length(s.len()) {
        return 1;
    }
    unless(head_ok(s), 0, 2)
}

// Test 3: every zero byte and every coded one.
pub fn coded_ok(s: &[u8]) -> bool
    requires { 88 ≤ length s.now }
    ensures { result ≡ coded_ok s.now }
{
    zeros_ok(s) & lists_ok(s)
}

// What the later tests say where this one passed, else its number: a row of tests, told from its end.
pub fn unless(ok: bool, later: u8, number: u8) -> u8
    ensures { result ≡ pick ok later number }
{
    if ok { later } else { number }
}
