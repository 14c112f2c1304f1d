// Requests that come to callbacks, of all bytes heard of them.
use crate::answers::shown;
use std::alloc::Global;
use wf_cases::{Case, CaseFault, bytes_of, hex_of};
use wf_http_serve::{Asker, ReplyCode, Visit, VisitState, reply_bytes};

/// All bytes that were heard, and `open` or `ended`: what is known of the visit, however the bytes
/// are cut.
pub(crate) fn knows(alloc: Global, case: &Case<'_>) -> Result<String, CaseFault> {
    let bytes = bytes_of(alloc, case.item(0)?)?;
    let is_ended = is_ended(case.text(1)?)?;
    let whole = known(alloc, bytes.as_slice(), is_ended)?;
    cut_once(alloc, bytes.as_slice(), is_ended, whole)
}

/// The same of each front of the bytes, from none of them to all, with `;` behind each of them.
pub(crate) fn knows_of_fronts(alloc: Global, case: &Case<'_>) -> Result<String, CaseFault> {
    let bytes = bytes_of(alloc, case.item(0)?)?;
    let bytes = bytes.as_slice();
    let is_ended = is_ended(case.text(1)?)?;
    let mut text = String::new(alloc);
    for length in 0..=bytes.len() {
        text.push_str(known(alloc, &bytes[..length], is_ended)?.as_str())?;
        text.push(';')?;
    }
    Ok(text)
}

/// The number of a status: the bytes of the reply in hex.
pub(crate) fn replies(alloc: Global, case: &Case<'_>) -> Result<String, CaseFault> {
    let code = match case.number(0)? {
        200 => ReplyCode::Accepted,
        400 => ReplyCode::BadRequest,
        404 => ReplyCode::NotFound,
        405 => ReplyCode::MethodNotAllowed,
        413 => ReplyCode::TooLarge,
        429 => ReplyCode::TooMany,
        _ => return Err(CaseFault::NoCase),
    };
    hex_of(alloc, reply_bytes(code))
}

fn is_ended(close: &str) -> Result<bool, CaseFault> {
    match close {
        "open" => Ok(false),
        "ended" => Ok(true),
        _ => Err(CaseFault::NoCase),
    }
}

/// What is known where the bytes came whole. Where something else is known if they are cut, both
/// are told.
fn known(alloc: Global, bytes: &[u8], is_ended: bool) -> Result<String, CaseFault> {
    let mut whole = Visit::new(alloc);
    whole.feed(bytes)?;
    let whole = told(alloc, whole, is_ended)?;
    let cut = told(alloc, fed_in_pieces(alloc, bytes)?, is_ended)?;
    if cut.as_str() == whole.as_str() {
        return Ok(whole);
    }
    Ok(format!(in alloc; "whole {} cut {}", whole.as_str(), cut.as_str())?)
}

/// What is known where the bytes came whole. Where something else is known if they come in two
/// pieces, both are told. Of over 256 bytes nothing is tried.
fn cut_once(
    alloc: Global,
    bytes: &[u8],
    is_ended: bool,
    whole: String,
) -> Result<String, CaseFault> {
    if bytes.len() > 256 {
        return Ok(whole);
    }
    for length in 0..=bytes.len() {
        let cut = told(alloc, fed_in_two(alloc, bytes, length)?, is_ended)?;
        if cut.as_str() != whole.as_str() {
            let both = format!(in alloc; "whole {} at {length} {}", whole.as_str(), cut.as_str())?;
            return Ok(both);
        }
    }
    Ok(whole)
}

/// A visit of which so many bytes came, and then the others.
fn fed_in_two(alloc: Global, bytes: &[u8], length: usize) -> Result<Visit, CaseFault> {
    let (front, rest) = bytes.split_at(length.min(bytes.len()));
    let mut visit = Visit::new(alloc);
    visit.feed(front)?;
    visit.feed(rest)?;
    Ok(visit)
}

/// A visit of which the bytes came one by one; of many bytes all but the last came in long pieces.
fn fed_in_pieces(alloc: Global, bytes: &[u8]) -> Result<Visit, CaseFault> {
    let mut visit = Visit::new(alloc);
    let mut rest = bytes;
    while !rest.is_empty() {
        let length = if rest.len() > 3000 { 2500 } else { 1 };
        let length = if bytes.len() > 3000 && rest.len() > 40 && rest.len() <= 3000 {
            rest.len() - 40
        } else {
            length
        };
        let (piece, behind) = rest.split_at(length);
        visit.feed(piece)?;
        rest = behind;
    }
    Ok(visit)
}

fn told(alloc: Global, mut visit: Visit, is_ended: bool) -> Result<String, CaseFault> {
    if is_ended {
        visit.end();
    }
    state_text(alloc, &visit)
}

/// What is known of a visit, which is lent: so that it is let go is proved once, and not for each way out of here.
fn state_text(alloc: Global, visit: &Visit) -> Result<String, CaseFault> {
    match visit.state() {
        VisitState::NotYet => Ok(String::from_str(alloc, "not yet")?),
        VisitState::Bad => Ok(String::from_str(alloc, "Bad")?),
        VisitState::TooLarge => Ok(String::from_str(alloc, "TooLarge")?),
        VisitState::Asked(asker) => asked(alloc, &asker),
    }
}

fn asked(alloc: Global, asker: &Asker<'_>) -> Result<String, CaseFault> {
    let mut text = String::from_str(alloc, asker.method())?;
    text.push(' ')?;
    text.push_str(shown(alloc, asker.target().as_bytes())?.as_str())?;
    for field in asker.fields() {
        text.push(' ')?;
        text.push_str(shown(alloc, field.0.as_slice())?.as_str())?;
        text.push('=')?;
        text.push_str(shown(alloc, field.1.as_slice())?.as_str())?;
    }
    text.push_str(" |")?;
    if !asker.body().is_empty() {
        text.push(' ')?;
        text.push_str(shown(alloc, asker.body())?.as_str())?;
    }
    Ok(text)
}
