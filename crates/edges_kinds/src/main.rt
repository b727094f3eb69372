// Cases of kind 2 and of kind 1, ruled side by side, each refusal of kind 2, and sheets that hold both kinds: run and compared with `stdout`,
// which was worked out by hand from docs/RULE.md; `stdin` has the cases as rows, and with them the working. A ruled case's line gives its number
// (0), outcome, reason, TP, new price, the contracts adjusted, nullified and standing, and the origin of TP; 4294967295 is none. A refused one's
// says whether the buffer is as it was. The records that each starts from are `specimen`'s. The largest sheets stand in `edges_answered`.
#![tactic(auto)]

ghost use Rattle.std.specs.Prelude.{◌≤◌, ◌++◌, OnOk, codes, decimal};
ghost use Rattle.std.specs.Io.KnownBytes.{Appends};

use facts::Facts;
use specimen::{good, good_two};
use std::io;
use std::io::{Read, Write};

// What stands in a buffer before a call.
const FRESH: u8 = 238;

// ---- what is printed

fn say_number<W: Write>(out: &mut W, before: &[u8], n: u32) -> io::Result<()>
    ensures { OnOk result (Appends (W.contents out.old) (W.contents out.new) (before.now ++ decimal n)) }
{
    out.write_all(before)?;
    write!(out, "{n}")
}

// The ruling's fields, from the answer's first 32 bytes.
fn say_ruling<W: Write>(out: &mut W, answer: &[u8; 96]) -> io::Result<()> {
    let numbers = [
        u32::from(answer[8]),
        u32::from(answer[9]),
        wire::read_u32(answer, 12),
        wire::read_u32(answer, 16),
        wire::read_u32(answer, 20),
        wire::read_u32(answer, 24),
        wire::read_u32(answer, 28),
        u32::from(answer[10]),
    ];
    for n in numbers {
        say_number(out, b" ", n)?;
    }
    Ok(())
}

// ---- a case

// Ruled into the first `room` bytes of a buffer.
fn rule<W: Write>(out: &mut W, name: &[u8], case: &[u8], room: usize) -> io::Result<()>
    requires { room ≤ 96 }
{
    let mut answer = [FRESH; 96];
    let refusal = answer::rule_case(case, &mut answer[..room]);
    out.write_all(name)?;
    say_number(out, b": ", u32::from(refusal))?;
    if refusal == 0 {
        say_ruling(out, &answer)?;
    } else if answer == [FRESH; 96] {
        write!(out, ", untouched")?;
    }
    writeln!(out)
}

// ---- rows of the table that is brought on standard input

fn say_changed<W: Write>(out: &mut W, row: &[u8], case: &mut [u8]) -> io::Result<()> {
    let mut parts = row.split(|b| *b == b'|');
    let name = parts.next().unwrap_or(b"");
    for text in parts {
        if !rows::change(case, text) {
            out.write_all(b"(no change) ")?;
        }
    }
    rule(out, name, case, 96)
}

// A row begins with "kind 1" or "kind 2".
fn say_row<W: Write>(out: &mut W, row: &[u8]) -> io::Result<()> {
    match row {
        [_, _, _, _, _, b'2', ..] => say_changed(out, row, &mut good_two()),
        _ => say_changed(out, row, &mut good()),
    }
}

// The table is read whole before a row is answered, so that nothing is said where it can't be read. A row that begins with '#' has the working, and says
// nothing.
fn table<W: Write>(rt: &(impl Input + AllocGlobal), out: &mut W) -> io::Result<()> {
    let mut rows = Vec::new(rt.alloc());
    rt.reader().read_to_end(&mut rows)?;
    for line in rows.as_slice().split_inclusive(|b| *b == b'\n') {
        if !line.starts_with(b"#") {
            say_row(out, line.strip_suffix(b"\n").unwrap_or(line))?;
        }
    }
    Ok(())
}

// ---- lengths, and 11

// RULE R3.1: no kind has any of these lengths, whatever the head says; 1 comes before 11 (R3.0.4).
fn lengths<W: Write>(out: &mut W) -> io::Result<()> {
    let mut longer = [0u8; 94];
    longer[..92].copy_from_slice(&good_two());
    rule(out, b"89 bytes", &longer[..89], 96)?;
    rule(out, b"91 bytes", &longer[..91], 96)?;
    rule(out, b"93 bytes", &longer[..93], 96)?;
    rule(out, b"93 bytes into 95", &longer[..93], 95)
}

// RULE R3.11: 96 bytes for the answer, of whatever kind the case is; 11 comes before 2.
fn rooms<W: Write>(out: &mut W) -> io::Result<()> {
    let mut case = good_two();
    rule(out, b"kind 2 into 95", &case, 95)?;
    case[2] = 1;
    rule(out, b"head 92 and 1 into 95", &case, 95)
}

// ---- written: room for the kind's own length (RULE R3.11, R3.0.3)

fn write_into<W: Write>(out: &mut W, name: &[u8], case: &[u8], room: usize) -> io::Result<()>
    requires { room ≤ 92 }
{
    let f: Facts = cases::read_case(case).facts;
    let mut buffer = [FRESH; 92];
    let written = &mut buffer[..room];
    say_number(out, name, u32::from(cases::write_case(f, written)))?;
    if &*written == case {
        write!(out, ", written")?;
    }
    writeln!(out)
}

fn writings<W: Write>(out: &mut W) -> io::Result<()> {
    let two = good_two();
    write_into(out, b"kind 2 written into 88: ", &two, 88)?;
    write_into(out, b"kind 2 written into 91: ", &two, 91)?;
    write_into(out, b"kind 2 written into 92: ", &two, 92)?;
    write_into(out, b"kind 1 written into 88: ", &good(), 88)
}

// ---- a sheet

// The number, then bytes written, ruled and refused, where there are `room` bytes for the answers.
fn say_sheet<W: Write>(out: &mut W, name: &str, sheet: &[u8], room: usize) -> io::Result<()>
    requires { room ≤ 384 }
{
    let mut answers = [FRESH; 384];
    let r = sheet::rule_sheet(sheet, &mut answers[..room]);
    writeln!(
        out,
        "{name}: {} {} {} {}",
        r.refusal, r.written, r.ruled, r.refused
    )
}

// The good record of kind 1, of kind 2, one of kind 2 with differential 0, kind 1 again: they begin at 0, 88, 180, 272 and end at 360.
fn four() -> [u8; 360] {
    let mut sheet = [0u8; 360];
    sheet[..88].copy_from_slice(&good());
    sheet[88..180].copy_from_slice(&good_two());
    sheet[180..272].copy_from_slice(&good_two());
    sheet[268] = 0;
    sheet[272..].copy_from_slice(&good());
    sheet
}

// Adjusted (6), waiting (14), refused 5, adjusted: 96, 96, 12 and 96 bytes, so 300 (R10.3). The ruled ones by outcome and reason, the refused one
// by its record: length 12, kind 18, index 2, number 5 (R10.4). What stands behind the 300 is as it was.
fn say_whole<W: Write>(out: &mut W, sheet: &[u8]) -> io::Result<()> {
    let mut answers = [FRESH; 384];
    let r = sheet::rule_sheet(sheet, &mut answers);
    writeln!(
        out,
        "kinds 1, 2, 2, 1: {} {} {} {}",
        r.refusal, r.written, r.ruled, r.refused
    )?;
    let numbers = [
        u32::from(answers[8]),
        u32::from(answers[9]),
        u32::from(answers[104]),
        u32::from(answers[105]),
        wire::read_u32(&answers, 192),
        wire::read_u32(&answers, 196),
        wire::read_u32(&answers, 200),
        u32::from(answers[212]),
        u32::from(answers[213]),
        u32::from(answers[300]),
    ];
    for n in numbers {
        say_number(out, b" ", n)?;
    }
    writeln!(out)
}

// RULE R3.0.12: from 272 on there is no case in fewer than four bytes, and none in 4 or in 87.
fn say_rests<W: Write>(out: &mut W, sheet: &[u8; 360]) -> io::Result<()> {
    say_sheet(out, "kinds 1, 2, 2", &sheet[..272], 384)?;
    say_sheet(out, "a rest of 1 byte", &sheet[..273], 384)?;
    say_sheet(out, "a rest of 2 bytes", &sheet[..274], 384)?;
    say_sheet(out, "a rest of 3 bytes", &sheet[..275], 384)?;
    say_sheet(out, "a rest of 4 bytes", &sheet[..276], 384)?;
    say_sheet(out, "the last cut", &sheet[..359], 384)
}

// Four cases ask for 384 bytes, the refused one for as many as the others (R3.0.14); 10 comes before 11.
fn say_rooms<W: Write>(out: &mut W, sheet: &[u8; 360]) -> io::Result<()> {
    say_sheet(out, "four cases into 383", sheet, 383)?;
    say_sheet(out, "the last cut, into 383", &sheet[..359], 383)
}

// Another kind beside the right length, so that every case begins where it should, and the pair alone is unknown (R2.12). And another length: the
// third case would begin in the differential of the second.
fn say_heads<W: Write>(out: &mut W, sheet: &mut [u8; 360]) -> io::Result<()> {
    sheet[2] = 2;
    say_sheet(out, "head 88 and 2 at the start", sheet, 384)?;
    sheet[2] = 1;
    say_sheet(out, "head 88 and 1 at the start", sheet, 384)?;
    sheet[90] = 1;
    say_sheet(out, "head 92 and 1 in the middle", sheet, 384)?;
    sheet[88] = 88;
    say_sheet(out, "head 88 and 1 over 92 bytes", sheet, 384)
}

// One case, as long as its head says, of a kind that there is not.
fn unknown<W: Write>(out: &mut W) -> io::Result<()> {
    let mut sheet = [0u8; 94];
    sheet[..92].copy_from_slice(&good_two());
    sheet[0] = 94;
    sheet[2] = 3;
    rule(out, b"94 bytes, head 94 and 3", &sheet, 96)?;
    say_sheet(out, "a sheet of 94 bytes, head 94 and 3", &sheet, 96)
}

fn sheets<W: Write>(out: &mut W) -> io::Result<()> {
    let mut sheet = four();
    say_whole(out, &sheet)?;
    say_rests(out, &sheet)?;
    say_rooms(out, &sheet)?;
    say_heads(out, &mut sheet)
}

fn main(rt: HostRuntime) -> io::Result<()> {
    let mut said = Vec::new(rt.alloc());
    table(&rt, &mut said)?;
    lengths(&mut said)?;
    rooms(&mut said)?;
    writings(&mut said)?;
    sheets(&mut said)?;
    unknown(&mut said)?;
    rt.write_all(said.as_slice())
}
