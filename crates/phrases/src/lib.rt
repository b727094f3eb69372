// The words of a refusal, for people: `REFUSED`, the number and what it stands for. They go into a lent buffer from a place on, every other byte
// stays, and the answer is the place after them. Nothing is refused here: whoever asks has tested the room.
#![tactic(auto)]

ghost use Rattle.std.specs.Prelude.{◌≡◌, ◌+◌, ◌≤◌, length};
ghost use Rattle.text.specs.Text.{laid_at};
ghost use Rattle.phrases.specs.Phrases.{refusal_words, refusal_text};

// What a number stands for: 1 to 9 of a case, 10 of a sheet, 20 to 23 of quotes; no words for a number that nobody gives.
fn words_of(number: u8) -> &'static [u8]
    ensures { result.now ≡ refusal_words number }
{
    match number {
        1 => b"the case is neither 88 nor 92 bytes long",
        2 => b"its head is not that of a case of its length",
        3 => b"a zero byte or a coded byte is wrong",
        4 => b"a member code is not of A to Z and 0 to 9",
        5 => b"a price or the differential is out of range, or wrongly none",
        6 => b"contracts or a size are out of range",
        7 => b"a time is out of range, or the filing precedes the execution",
        8 => b"the execution is past a limit",
        9 => b"the agreement's fields do not fit each other",
        10 => b"no row of whole cases, or more than 52,800 bytes",
        20 => b"no whole number of quotes, or more than 2,000",
        21 => b"a quote has a bad field",
        22 => b"the times of the quotes go back",
        23 => b"the trade time is above 23:59:59",
        _ => b"",
    }
}

// The line of a refusal.
pub fn add_refusal(out: &mut [u8], at: usize, number: u8) -> usize
    requires { at + 90 ≤ length out.old }
    ensures { (result ≡ at + length (refusal_text number)) × (out.new ≡ laid_at at (refusal_text number) out.old) × (result ≤ at + 90) }
{
    let word = text::add_word(out, at, b"REFUSED ");
    let figures = text::add_decimal(out, word, number as u32);
    let colon = text::add_word(out, figures, b": ");
    let words = text::add_word(out, colon, words_of(number));
    text::add_byte(out, words, b'\n')
}
