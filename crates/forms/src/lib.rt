// The form of a case record: each kind has its length, and says behind the 88 bytes that all kinds have what it says besides (RULE R2.6.88).
// A further kind is a pair and a case more in each function here. Refuses nothing: the tests of `refusals` hold length and head against
// the pairs that stand here.
#![tactic(auto)]

ghost use Rattle.std.specs.Prelude.{◌≡◌, ◌≤◌, length};
ghost use Rattle.wire.specs.Numbers.{stored};
ghost use Rattle.forms.specs.Heads.{is_length, known};
ghost use Rattle.forms.specs.Forms.{form_length, form_kind, differential_of, form_tail, form_of};

use facts::{Form, Mills};

// ---- the pairs of length and kind

// Whether a kind of case has this length.
pub fn is_length(n: usize) -> bool
    ensures { result ≡ is_length n }
{
    (n == 88) | (n == 92)
}

// Whether a kind of case has this length and this number.
pub fn is_known(size: u16, kind: u16) -> bool
    ensures { result ≡ known size kind }
{
    match size {
        88 => kind == 1,
        92 => kind == 2,
        _ => false,
    }
}

// ---- a form in the page's numbers

pub fn length_of(form: Form) -> u16
    ensures { result ≡ form_length form }
{
    match form {
        Form::One => 88,
        Form::Two(_) => 92,
    }
}

pub fn kind_of(form: Form) -> u16
    ensures { result ≡ form_kind form }
{
    match form {
        Form::One => 1,
        Form::Two(_) => 2,
    }
}

// The permitted differential, or none.
pub fn differential_of(form: Form) -> Option<Mills>
    ensures { result ≡ differential_of form }
{
    match form {
        Form::One => None,
        Form::Two(d) => Some(d),
    }
}

// ---- a form in bytes

// The form that a case says, by its length.
pub fn form_of(s: &[u8]) -> Form
    ensures { result ≡ form_of s.now }
{
    if s.len() < 92 {
        return Form::One;
    }
    Form::Two(Mills(wire::read_u32(s, 88)))
}

// What a form says behind the 88 bytes; every other byte stays.
pub fn put_form(out: &mut [u8], form: Form)
    requires { form_length form ≤ length out.old }
    ensures { out.new ≡ stored out.old 88 (form_tail form) }
{
    if let Form::Two(differential) = form {
        wire::put_u32(out, 88, differential.0);
    }
}
