//! Writing, piece after piece.
ghost use Rattle.std.specs.Fmt.{decimal};
ghost use Rattle.certificate.specs.Body.{Cert};
ghost use Rattle.certificate.specs.ReasonOf.{reason_seen};
ghost use Rattle.certificate.specs.BodyOf.{body_of};
ghost use Rattle.certificate.specs.Spelling.{numbers_text, reason_text, fail_line, fail_lines, level_spelling, level_spellings, chain_line, chain_lines, head_line, count_line, body_text, spelling};
ghost use Rattle.streams.specs.Puts.{Puts};

use crate::body::CertBody;
use crate::value::{CertChain, CertFail, CertLevel, CertReason};
use crate::version::CertVersion;
use itoa::Buffer;
use std::io::Write;
use streams::{Outlet, WriteFailed};

// A number in decimal digits.
fn put_number<W: Write + Drop>(number: u64, out: &mut Outlet<'_, W>) -> Result<(), WriteFailed>
    ensures { Puts W.contents out.old out.new result (decimal number) }
{
    let mut buffer = Buffer::new();
    out.put(buffer.format(number).as_bytes())
}

// Each number after a space.
fn put_numbers<W: Write + Drop>(numbers: &[u64], out: &mut Outlet<'_, W>) -> Result<(), WriteFailed>
    ensures { Puts W.contents out.old out.new result (numbers_text numbers.now) }
{
    for number in numbers {
        out.put(b" ")?;
        put_number(*number, out)?;
    }
    Ok(())
}

// The reason of a failure.
fn put_reason<W: Write + Drop>(
    reason: &CertReason,
    out: &mut Outlet<'_, W>,
) -> Result<(), WriteFailed>
    ensures { Puts W.contents out.old out.new result (reason_text (reason_seen reason.now)) }
{
    match reason {
        CertReason::Chain(numbers) => put_numbers(numbers, out),
        CertReason::Over(other) => {
            out.put(b" over ")?;
            out.put(other.bytes())
        }
    }
}

// A line with a failure, behind a word.
fn put_fail<W: Write + Drop>(
    word: &[u8],
    fail: &CertFail,
    out: &mut Outlet<'_, W>,
) -> Result<(), WriteFailed>
    ensures { Puts W.contents out.old out.new result (fail_line word.now fail.now) }
{
    out.put(word)?;
    out.put(b" ")?;
    out.put(fail.name.bytes())?;
    put_reason(&fail.reason, out)?;
    out.put(b"\n")
}

// A line for each failure, behind a word.
fn put_fails<W: Write + Drop>(
    word: &[u8],
    fails: &[CertFail],
    out: &mut Outlet<'_, W>,
) -> Result<(), WriteFailed>
    ensures { Puts W.contents out.old out.new result (fail_lines word.now fails.now) }
{
    for fail in fails {
        put_fail(word, fail, out)?;
    }
    Ok(())
}

// A line of a word and a number.
fn put_line<W: Write + Drop>(
    word: &[u8],
    number: u64,
    out: &mut Outlet<'_, W>,
) -> Result<(), WriteFailed>
    ensures { Puts W.contents out.old out.new result (count_line word.now number) }
{
    out.put(word)?;
    out.put(b" ")?;
    put_number(number, out)?;
    out.put(b"\n")
}

// The line of a level.
fn put_level<W: Write + Drop>(
    k: u64,
    level: &CertLevel,
    out: &mut Outlet<'_, W>,
) -> Result<(), WriteFailed>
    ensures { Puts W.contents out.old out.new result (level_spelling k level.now) }
{
    out.put(b"level ")?;
    put_number(k, out)?;
    out.put(b" ")?;
    put_line(level.name.bytes(), level.t, out)
}

// The levels with their failures, the lowest first.
fn put_levels<W: Write + Drop>(
    levels: &[CertLevel],
    out: &mut Outlet<'_, W>,
) -> Result<(), WriteFailed>
    ensures { Puts W.contents out.old out.new result (level_spellings 1 levels.now) }
{
    for (i, level) in levels.iter().enumerate() {
        put_level((i + 1) as u64, level, out)?;
        put_fails(b"fails", &level.fails, out)?;
    }
    Ok(())
}

// What stands between the first line and the last one.
fn put_body<W: Write + Drop>(body: &CertBody, out: &mut Outlet<'_, W>) -> Result<(), WriteFailed>
    ensures { Puts W.contents out.old out.new result (body_text (body_of body.now)) }
{
    match body {
        CertBody::Best(levels) => {
            put_line(b"best", levels.len() as u64, out)?;
            put_levels(levels, out)
        }
        CertBody::NoOrder(members) => {
            put_line(b"none", members.len() as u64, out)?;
            put_fails(b"member", members, out)
        }
    }
}

// The line of a chain.
fn put_chain<W: Write + Drop>(chain: &CertChain, out: &mut Outlet<'_, W>) -> Result<(), WriteFailed>
    ensures { Puts W.contents out.old out.new result (chain_line chain.now) }
{
    out.put(b"chain ")?;
    put_line(chain.name.bytes(), chain.number, out)
}

// A line for each chain.
fn put_chains<W: Write + Drop>(
    chains: &[CertChain],
    out: &mut Outlet<'_, W>,
) -> Result<(), WriteFailed>
    ensures { Puts W.contents out.old out.new result (chain_lines chains.now) }
{
    for chain in chains {
        put_chain(chain, out)?;
    }
    Ok(())
}

// The first line.
fn put_head<W: Write + Drop>(
    version: CertVersion,
    out: &mut Outlet<'_, W>,
) -> Result<(), WriteFailed>
    ensures { Puts W.contents out.old out.new result (head_line version) }
{
    match version {
        CertVersion::First => out.put(b"desk-certificate 1\n"),
        CertVersion::Second => out.put(b"desk-certificate 2\n"),
        CertVersion::Fourth => out.put(b"desk-certificate 4\n"),
        CertVersion::Fifth => out.put(b"desk-certificate 5\n"),
    }
}

/// Puts the spelling of a whole certificate.
pub fn put_certificate<W: Write + Drop>(
    version: CertVersion,
    body: &CertBody,
    chains: &[CertChain],
    out: &mut Outlet<'_, W>,
) -> Result<(), WriteFailed>
    ensures { let c : Cert = record { version = version; body = body_of body.now; chains = chains.now } in
        Puts W.contents out.old out.new result (spelling c) }
{
    put_head(version, out)?;
    put_body(body, out)?;
    put_chains(chains, out)?;
    out.put(b"end\n")
}
