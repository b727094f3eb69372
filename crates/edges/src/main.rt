// Records brought to the desk, good and damaged, and what they get: run and compared with `stdout`, which was
// worked out by hand from document 01 (docs/RULE.md, docs/RULEBOOK.md). Each line names the record and gives its number, 0 where it is accepted.
#![tactic(auto)]

ghost use Rattle.std.specs.Prelude.{◌≤◌, ◌++◌, OnOk, codes, decimal, if◌then◌else◌};
ghost use Rattle.std.specs.Io.KnownBytes.{Appends};

use facts::{Contracts, Facts, Mills, Trade};
use specimen::{Record, byte, good, word};
use std::io;
use std::io::{Read, Write};

// The mark "none".
const NONE: u32 = 4294967295;

// What stands in a buffer before a call.
const FRESH: u8 = 238;

// Facts that no reading gives: the good record's with another execution price and number of contracts.
fn facts_with(price: Mills, contracts: Contracts) -> Facts {
    let f = cases::read_case(&good()).facts;
    Facts {
        trade: Trade {
            price,
            contracts,
            ..f.trade
        },
        ..f
    }
}

// ---- a line each

fn say_number<W: Write>(out: &mut W, name: &[u8], n: u8) -> io::Result<()>
    ensures { OnOk result (Appends (W.contents out.old) (W.contents out.new) (name.now ++ (codes ": " ++ decimal n))) }
{
    out.write_all(name)?;
    write!(out, ": {n}")
}

fn say_which<W: Write>(out: &mut W, yes: bool, first: &[u8], second: &[u8]) -> io::Result<()>
    ensures { OnOk result (Appends (W.contents out.old) (W.contents out.new) (if yes then first.now else second.now)) }
{
    out.write_all(if yes { first } else { second })
}

fn reading<W: Write>(out: &mut W, name: &[u8], case: &[u8]) -> io::Result<()> {
    say_number(out, name, cases::read_case(case).refusal)?;
    writeln!(out)
}

// The facts written into the first `room` bytes of a buffer: whether the record now stands at its start, and whether the bytes behind it are as they
// were.
fn writing<W: Write>(
    out: &mut W,
    name: &[u8],
    f: Facts,
    room: usize,
    case: &Record,
) -> io::Result<()>
    requires { room ≤ 96 }
{
    let mut buffer = [FRESH; 96];
    let refusal = cases::write_case(f, &mut buffer[..room]);
    let untouched = buffer == [FRESH; 96];
    let (start, behind) = buffer.split_at(88);
    let written = start == case.as_slice();
    let kept = behind == [FRESH; 8].as_slice();
    say_number(out, name, refusal)?;
    say_which(out, untouched, b", untouched", b"")?;
    say_which(out, written, b", written", b", not written")?;
    say_which(out, kept, b", kept behind it\n", b", changed behind it\n")
}

// ---- read

fn lengths<W: Write>(out: &mut W) -> io::Result<()> {
    let case = good();
    reading(out, b"good", &case)?;
    reading(out, b"no byte at all", b"")?;
    reading(out, b"87 bytes", &case[..87])?;
    reading(out, b"89 bytes", &[0u8; 89])
}

fn whole<W: Write>(out: &mut W) -> io::Result<()> {
    reading(out, b"88 bytes of 0", &[0u8; 88])?;
    reading(out, b"88 bytes of 255", &[255u8; 88])
}

// ---- rows of the table that is brought on standard input

fn say_row<W: Write>(out: &mut W, row: &[u8]) -> io::Result<()> {
    let mut case = good();
    let mut parts = row.split(|b| *b == b'|');
    let name = parts.next().unwrap_or(b"");
    for text in parts {
        if !rows::change(&mut case, text) {
            out.write_all(b"(no change) ")?;
        }
    }
    reading(out, name, &case)
}

// The table is read whole before a row is answered, so that nothing is said where it can't be read.
fn table<W: Write>(rt: &(impl Input + AllocGlobal), out: &mut W) -> io::Result<()> {
    let mut rows = Vec::new(rt.alloc());
    rt.reader().read_to_end(&mut rows)?;
    for line in rows.as_slice().split_inclusive(|b| *b == b'\n') {
        say_row(out, line.strip_suffix(b"\n").unwrap_or(line))?;
    }
    Ok(())
}

// ---- written

fn again<W: Write>(out: &mut W, name: &[u8], case: &Record, room: usize) -> io::Result<()>
    requires { room ≤ 96 }
{
    writing(out, name, cases::read_case(case).facts, room, case)
}

fn writings<W: Write>(out: &mut W) -> io::Result<()> {
    let case = good();
    again(out, b"good into 96", &case, 96)?;
    again(out, b"good into 88", &case, 88)?;
    again(out, b"good into 87", &case, 87)?;
    again(out, b"good into none", &case, 0)?;
    let sell = byte(byte(word(case, 52, 2000), 44, 2), 45, 1);
    again(out, b"sell on the opening into 96", &sell, 96)
}

fn refused_writings<W: Write>(out: &mut W) -> io::Result<()> {
    let case = good();
    let unpriced = facts_with(Mills(NONE), Contracts(10));
    writing(out, b"execution none into 96", unpriced, 96, &case)?;
    writing(out, b"execution none into 87", unpriced, 87, &case)?;
    writing(
        out,
        b"0 contracts into 88",
        facts_with(Mills(2000), Contracts(0)),
        88,
        &case,
    )
}

fn main(rt: HostRuntime) -> io::Result<()> {
    let mut said = Vec::new(rt.alloc());
    lengths(&mut said)?;
    table(&rt, &mut said)?;
    whole(&mut said)?;
    writings(&mut said)?;
    refused_writings(&mut said)?;
    rt.write_all(said.as_slice())
}
