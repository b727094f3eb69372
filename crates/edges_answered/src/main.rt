// Answers and sheets brought out of the desk byte by byte: run and compared with `stdout`, which was worked out by hand from document 01
// (docs/RULE.md). A whole answer is the ruling and the two notices in hex; a refused call says whether its buffer is as it was; a sheet's line
// gives its number, the bytes written, and the cases ruled and refused. The record that each starts from is `specimen`'s.
#![tactic(auto)]

ghost use Rattle.std.specs.Prelude.{◌<◌, ◌≤◌, ◌++◌, length, OnOk, codes, decimal};
ghost use Rattle.std.specs.Io.KnownBytes.{Appends};

use specimen::{Record, byte, good, good_two, word};
use std::io;
use std::io::Write;

// The mark "none".
const NONE: u32 = 4294967295;

// What stands in a buffer before a call.
const FRESH: u8 = 238;

// ---- what is printed

fn say_number<W: Write>(out: &mut W, name: &str, n: u8) -> io::Result<()>
    ensures { OnOk result (Appends (W.contents out.old) (W.contents out.new) (name.now ++ (codes ": " ++ decimal n))) }
{
    write!(out, "{name}: {n}")
}

fn say_hex<W: Write>(out: &mut W, bytes: &[u8]) -> io::Result<()> {
    for b in bytes {
        write!(out, "{b:02x}")?;
    }
    writeln!(out)
}

// ---- a case

// The whole answer: the ruling, the buyer's notice, the seller's notice.
fn spell<W: Write>(out: &mut W, name: &str, case: &Record) -> io::Result<()> {
    let mut answer = [0u8; 96];
    say_number(out, name, answer::rule_case(case, &mut answer))?;
    writeln!(out)?;
    for part in answer.chunks(32) {
        say_hex(out, part)?;
    }
    Ok(())
}

fn answers<W: Write>(out: &mut W) -> io::Result<()> {
    let cases = [
        ("adjusted", good()),
        ("no relief", byte(good(), 66, 2)),
        ("nullified", byte(good(), 64, 1)),
        ("waiting", word(word(good(), 24, NONE), 32, 0)),
    ];
    for (name, case) in &cases {
        spell(out, name, case)?;
    }
    Ok(())
}

// A case that is refused, and the first `room` bytes of a buffer afterwards.
fn refuse<W: Write>(out: &mut W, name: &str, case: &[u8], room: usize) -> io::Result<()>
    requires { room ≤ 96 }
{
    let mut buffer = [FRESH; 96];
    let answer = &mut buffer[..room];
    say_number(out, name, answer::rule_case(case, answer))?;
    let untouched = answer.iter().all(|b| *b == FRESH);
    writeln!(out, "{}", if untouched { ", untouched" } else { "" })
}

// A good case, and one whose 88 bytes say kind 2: no pair of length and kind (RULE R2.12).
fn refusals<W: Write>(out: &mut W) -> io::Result<()> {
    let case = good();
    let other = byte(case, 2, 2);
    refuse(out, "kind 2 into 96", &other, 96)?;
    refuse(out, "kind 2 into 95", &other, 95)?;
    refuse(out, "good into 95", &case, 95)?;
    refuse(out, "87 bytes into 95", &case[..87], 95)
}

// ---- a sheet

// The number, then bytes written, ruled and refused, where there are `room` bytes for the answers.
fn say_sheet<W: Write>(out: &mut W, name: &str, sheet: &[u8], room: usize) -> io::Result<()>
    requires { room ≤ 57696 }
{
    let mut answers = [FRESH; 57696];
    let r = sheet::rule_sheet(sheet, &mut answers[..room]);
    writeln!(
        out,
        "{name}: {} {} {} {}",
        r.refusal, r.written, r.ruled, r.refused
    )
}

// The answer of the second case, and what stands behind the third's.
fn say_answers<W: Write>(out: &mut W, sheet: &[u8]) -> io::Result<()> {
    let mut answers = [FRESH; 288];
    sheet::rule_sheet(sheet, &mut answers);
    say_hex(out, &answers[96..108])?;
    say_hex(out, &answers[200..208])
}

// Good, one without contracts, good.
fn sheets<W: Write>(out: &mut W) -> io::Result<()> {
    let cases = [good(), word(good(), 12, 0), good()];
    let sheet = cases.as_flattened();
    say_sheet(out, "no case", b"", 288)?;
    say_sheet(out, "three cases, the last cut", &sheet[..263], 288)?;
    say_sheet(out, "three cases into 287", sheet, 287)?;
    say_sheet(out, "three cases", sheet, 288)?;
    say_answers(out, sheet)
}

// ---- sheets as large as they get (RULE R3.10, R3.0.14)

// The whole sheet, its first `end` bytes with one more, and without. The calls stand apart from the cases, and the end is no number here: either would
// take the prover several times as long.
fn say_large<W: Write>(out: &mut W, sheet: &[u8], end: usize) -> io::Result<()>
    requires { end < length sheet.now }
{
    say_sheet(out, "601 cases", sheet, 57696)?;
    say_sheet(out, "52801 bytes", &sheet[..end + 1], 57696)?;
    say_sheet(out, "600 cases", &sheet[..end], 57696)?;
    say_sheet(out, "600 cases into 57599", &sheet[..end], 57599)
}

// 600 good cases have 52,800 bytes, and are ruled, 96 bytes each: 57,600.
fn large_sheets<W: Write>(out: &mut W) -> io::Result<()> {
    say_large(out, [good(); 601].as_flattened(), 52800)
}

fn say_large_two<W: Write>(out: &mut W, sheet: &[u8], end: usize) -> io::Result<()>
    requires { end ≤ length sheet.now }
{
    say_sheet(out, "574 cases of kind 2", sheet, 55104)?;
    say_sheet(out, "573 cases of kind 2", &sheet[..end], 55104)?;
    say_sheet(out, "573 cases of kind 2 into 55007", &sheet[..end], 55007)
}

// 573 cases of kind 2 have 52,716 bytes, and 55,008 bytes of answers. One more, and the sheet has 52,808.
fn large_sheets_two<W: Write>(out: &mut W) -> io::Result<()> {
    say_large_two(out, [good_two(); 574].as_flattened(), 52716)
}

// 599 cases of kind 1 have 52,712 bytes; one of kind 2 behind them makes 52,804. Whole cases they are, and four bytes too many.
fn large_mixed<W: Write>(out: &mut W) -> io::Result<()> {
    let mut sheet = [0u8; 52804];
    let (ones, two) = sheet.split_at_mut(52712);
    ones.copy_from_slice([good(); 599].as_flattened());
    two.copy_from_slice(&good_two());
    say_sheet(out, "599 cases of kind 1 and one of kind 2", &sheet, 57600)
}

fn main(rt: HostRuntime) -> io::Result<()> {
    let mut said = Vec::new(rt.alloc());
    answers(&mut said)?;
    refusals(&mut said)?;
    sheets(&mut said)?;
    large_sheets(&mut said)?;
    large_sheets_two(&mut said)?;
    large_mixed(&mut said)?;
    rt.write_all(said.as_slice())
}
