// One case ruled: the ruling and its two notices in a lent buffer, or the number of the first test that the case fails.
// Refused with 1, 11 and 2 to 9, in that order; a refused case leaves the buffer as it was.
#![tactic(auto)]

ghost use Rattle.std.specs.Prelude.{◌≡◌, ◌≤◌, length};
ghost use Rattle.wire.specs.Laid.{laid};
ghost use Rattle.record.specs.Record.{facts_of};
ghost use Rattle.answer.specs.Answer.{answer_of, case_of};

// Rules a case and writes the 96 bytes over the start of the buffer; every byte after them stays. Whoever asks has tested the case
// and the room.
pub fn answer_case(out: &mut [u8], case: &[u8])
    requires { (96 ≤ length out.old) × (88 ≤ length case.now) }
    ensures { out.new ≡ laid (answer_of (facts_of case.now)) out.old }
{
    let n = figures::judge(case);
    notices::put_answer(out, n, wire::read_u32(case, 48), wire::read_u32(case, 56));
}

// Rules a case: tests 1, 11, then 2 to 9. Answers the number, 0 where the 96 bytes are written.
pub fn rule_case(case: &[u8], out: &mut [u8]) -> u8
    ensures { (result ≡ (case_of case.now (length out.old)).0) × (out.new ≡ laid (case_of case.now (length out.old)).1 out.old) }
{
    if !forms::is_length(case.len()) {
        return 1;
    }
    if out.len() < 96 {
        return 11;
    }
    let n = cases::check_case(case);
    if n != 0 {
        return n;
    }
    answer_case(out, case);
    0
}
