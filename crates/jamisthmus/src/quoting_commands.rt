// quote and unquote.
use crate::input::read_input;
use anyhow::{anyhow, bail};
use basics::bytes::count;
use basics::refusal::Reason;
use basics::search::first_zero;
use basics::slices::up_to;
use journal::style::Style;
use quoting::backslash::Backslash;
use quoting::quoter::{LawfulQuoter, Quoter};
use quoting::single::Single;
use quoting::trip::round_trip;
use quoting::unquote::Unread;
use std::io;
use std::io::Write;

// Writes the form of the text to standard output, once it was read back as the text.
fn write_form<Q: LawfulQuoter>(rt: &HostRuntime, quoter: &Q, text: &[u8]) -> anyhow::Result<usize> {
    let length = quoter.measure(text);
    let mut page = vec![in rt.alloc(); 0u8; length]?;
    let mut back = vec![in rt.alloc(); 0u8; text.len()]?;
    round_trip(quoter, text, page.as_mut_slice(), back.as_mut_slice()).map_err(|_| anyhow!(
        "the form does not read back as the text"
    ))?;
    rt.stdout().write_all(page.as_slice())?;
    Ok(length)
}

// Says how the bytes of the text stand in its form: in each style one byte is written otherwise than all others.
fn explain_form(rt: &HostRuntime, style: Style, text: &[u8], length: usize) -> io::Result<()> {
    let (apart, others_stand, apart_stands) = match style {
        Style::Single => (b'\'', "in single quotes", "as '\\''"),
        Style::Backslash => (b'\n', "after a backslash", "in single quotes"),
    };
    let n = text.len();
    let apart = count(text, apart);
    let others = n.saturating_sub(apart);
    eprintln!(rt;
        "{n} bytes of text, a form of {length}: {others} {others_stand}, {apart} {apart_stands}"
    )
}

pub fn quote(rt: &HostRuntime, style: Style, explain: bool) -> anyhow::Result<()> {
    let text = read_input(rt)?;
    let text = text.as_slice();
    if let Some(place) = first_zero(text) {
        let refusal = Reason::ZeroByte.at(place);
        bail!("refused {refusal}: no word of a shell can hold it");
    }
    // Stays: a match from a style to its quoter, whose type the library takes; a quoter of both styles would match in each method.
    let length = match style {
        Style::Single => write_form(rt, &Single, text)?,
        Style::Backslash => write_form(rt, &Backslash, text)?,
    };
    if explain {
        explain_form(rt, style, text, length)?;
    }
    Ok(())
}

pub fn unquote(rt: &HostRuntime, explain: bool) -> anyhow::Result<()> {
    let form = read_input(rt)?;
    let n = form.len();
    let mut text = vec![in rt.alloc(); 0u8; n]?;
    let length = match quoting::unquote::unquote(form.as_slice(), text.as_mut_slice()) {
        Ok(length) => length,
        Err(Unread::Unlawful(0)) if n == 0 => bail!("unlawful form: it is empty"),
        Err(Unread::Unlawful(place)) if place == n => {
            bail!("unlawful form: it breaks off at its end, byte {place}")
        }
        Err(Unread::Unlawful(place)) => { bail!("unlawful form: byte {place} may not stand there") }
        Err(Unread::NoRoom) => bail!("the text is longer than its form"),
    };
    rt.stdout().write_all(up_to(text.as_slice(), length))?;
    if explain {
        eprintln!(rt; "a form of {n} bytes, {length} bytes of text")?;
    }
    Ok(())
}
