// Cases brought to the desk, and how they are ruled: run and compared with `stdout`, which was worked out by hand from
// document 01 (docs/RULE.md). A ruled case's line gives its number (0), outcome, reason, TP, new price, the contracts adjusted, nullified and
// standing, and the origin of TP; 4294967295 is none. The record that each starts from is `specimen`'s.
#![tactic(auto)]

ghost use Rattle.std.specs.Prelude.{◌++◌, OnOk, codes, decimal};
ghost use Rattle.std.specs.Io.KnownBytes.{Appends};

use specimen::{Record, byte, good, word};
use std::io;
use std::io::Write;

// The mark "none".
const NONE: u32 = 4294967295;

// ---- a case

fn say_number<W: Write>(out: &mut W, n: u32) -> io::Result<()>
    ensures { OnOk result (Appends (W.contents out.old) (W.contents out.new) (codes " " ++ decimal n)) }
{
    write!(out, " {n}")
}

// The ruling's fields, from the answer's first 32 bytes.
fn say_ruling<W: Write>(out: &mut W, answer: &[u8; 96]) -> io::Result<()> {
    let numbers = [
        u32::from(answer[8]),
        u32::from(answer[9]),
        wire::read_u32(answer, 12),
        wire::read_u32(answer, 16),
        wire::read_u32(answer, 20),
        wire::read_u32(answer, 24),
        wire::read_u32(answer, 28),
        u32::from(answer[10]),
    ];
    for n in numbers {
        say_number(out, n)?;
    }
    Ok(())
}

fn rule<W: Write>(out: &mut W, name: &str, case: &Record) -> io::Result<()> {
    let mut answer = [0u8; 96];
    let refusal = answer::rule_case(case, &mut answer);
    write!(out, "{name}: {refusal}")?;
    if refusal == 0 {
        say_ruling(out, &answer)?;
    }
    writeln!(out)
}

fn rule_each<W: Write>(out: &mut W, cases: &[(&str, Record)]) -> io::Result<()> {
    for (name, case) in cases {
        rule(out, name, case)?;
    }
    Ok(())
}

fn days<W: Write>(out: &mut W) -> io::Result<()> {
    rule_each(
        out,
        &[
            ("good", good()),
            ("day 1 at 30600", byte(word(good(), 72, 30600), 66, 1)),
            ("day 1 at 30601", byte(word(good(), 72, 30601), 66, 1)),
            ("day 2", byte(good(), 66, 2)),
            ("a Market Maker after 300 s", word(good(), 72, 34500)),
            ("a Market Maker after 301 s", word(good(), 72, 34501)),
        ],
    )
}

fn deadlines<W: Write>(out: &mut W) -> io::Result<()> {
    rule_each(
        out,
        &[
            (
                "expiry deadline, day 0 at 61200",
                byte(word(good(), 72, 61200), 46, 1),
            ),
            (
                "expiry deadline, day 0 at 61201",
                byte(word(good(), 72, 61201), 46, 1),
            ),
            (
                "no expiry deadline, day 0 at 86399",
                word(good(), 72, 86399),
            ),
            (
                "expiry deadline, day 1 at 0",
                byte(byte(word(good(), 72, 0), 66, 1), 46, 1),
            ),
        ],
    )
}

fn panels<W: Write>(out: &mut W) -> io::Result<()> {
    let late = word(good(), 72, 36000);
    rule_each(
        out,
        &[
            ("panel decided, obvious way", byte(good(), 47, 1)),
            ("panel decided, catastrophic way", byte(late, 47, 1)),
            (
                "panel decided, no price",
                byte(word(word(late, 24, NONE), 32, 0), 47, 1),
            ),
        ],
    )
}

fn prices<W: Write>(out: &mut W) -> io::Result<()> {
    let bare = word(word(good(), 24, NONE), 32, 0);
    rule_each(
        out,
        &[
            ("an offer, official 1200", word(good(), 40, 1200)),
            ("no offer, official 1500", word(bare, 40, 1500)),
            ("no offer, no official", bare),
            ("a sell above the bid", byte(good(), 44, 2)),
            ("a buy far below the offer", word(good(), 8, 100)),
            ("a Customer buys", byte(good(), 64, 1)),
        ],
    )
}

// A Customer buys on the opening, 1,201 s ago.
fn opening() -> Record {
    byte(byte(word(good(), 72, 35401), 45, 1), 64, 1)
}

fn openings<W: Write>(out: &mut W) -> io::Result<()> {
    rule_each(
        out,
        &[
            ("opening", opening()),
            ("opening, 50 contracts", word(opening(), 12, 50)),
            (
                "opening, official 1500, 50 contracts",
                word(
                    word(word(word(opening(), 24, NONE), 32, 0), 40, 1500),
                    12,
                    50,
                ),
            ),
            (
                "opening, offer of zero for none",
                word(word(opening(), 24, 0), 32, 0),
            ),
            ("opening after 1200 s", word(opening(), 72, 35400)),
        ],
    )
}

fn more_openings<W: Write>(out: &mut W) -> io::Result<()> {
    rule_each(
        out,
        &[
            ("opening at 59400", word(opening(), 72, 59400)),
            ("opening at 59401", word(opening(), 72, 59401)),
            (
                "opening, other party's limit 1600",
                byte(word(opening(), 60, 1600), 65, 3),
            ),
            (
                "opening, other party's limit 1500",
                byte(word(opening(), 60, 1500), 65, 3),
            ),
            (
                "opening, a Market Maker's limit 1600",
                word(opening(), 60, 1600),
            ),
        ],
    )
}

// Agreed on 1.700 after so many seconds.
fn agreed(case: Record, after: u32) -> Record {
    byte(word(word(case, 68, 1700), 76, after), 67, 1)
}

fn agreements<W: Write>(out: &mut W) -> io::Result<()> {
    rule_each(
        out,
        &[
            ("agreed on 1700 after 600 s", agreed(good(), 600)),
            ("agreed on 1700 after 601 s", agreed(good(), 601)),
            (
                "a Customer agreed after 1800 s",
                agreed(byte(good(), 64, 1), 1800),
            ),
            (
                "a Customer agreed after 1801 s",
                agreed(byte(good(), 64, 1), 1801),
            ),
            ("agreed to nullify, no Customer", byte(good(), 67, 2)),
            (
                "agreed to nullify on the opening way",
                byte(opening(), 67, 2),
            ),
        ],
    )
}

// Bought at 3.000, 1,800 s ago: the catastrophic way, new price 2.500.
fn absurd() -> Record {
    word(word(good(), 8, 3000), 72, 36000)
}

fn catastrophes<W: Write>(out: &mut W) -> io::Result<()> {
    rule_each(
        out,
        &[
            (
                "a Customer agreed to nullify, catastrophic way",
                byte(byte(absurd(), 64, 1), 67, 2),
            ),
            (
                "a selling Market Maker's limit 2800",
                word(absurd(), 60, 2800),
            ),
            (
                "a selling Customer's limit 2800",
                byte(word(absurd(), 60, 2800), 65, 1),
            ),
            (
                "a selling Customer's limit 2500",
                byte(word(absurd(), 60, 2500), 65, 1),
            ),
            (
                "accepted after 1800 s",
                word(byte(word(absurd(), 60, 2800), 65, 1), 80, 1800),
            ),
            (
                "accepted after 1801 s",
                word(byte(word(absurd(), 60, 2800), 65, 1), 80, 1801),
            ),
        ],
    )
}

fn main(rt: HostRuntime) -> io::Result<()> {
    let mut said = Vec::new(rt.alloc());
    days(&mut said)?;
    deadlines(&mut said)?;
    panels(&mut said)?;
    prices(&mut said)?;
    openings(&mut said)?;
    more_openings(&mut said)?;
    agreements(&mut said)?;
    catastrophes(&mut said)?;
    rt.write_all(said.as_slice())
}
