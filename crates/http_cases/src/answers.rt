// The answers of services, of all bytes heard of them.
use sha2::{Digest, Sha256};
use std::alloc::Global;
use wf_cases::{Case, CaseFault, bytes_of, hex_of};
use wf_http_in::{Answer, Head, Reading};

/// How the connection stands once all bytes were heard.
#[derive(Clone, Copy)]
enum Close {
    Open,
    Ended,
    Broke,
}

/// All bytes that were heard, and how the connection stands: the answer, however they are cut.
pub(crate) fn answers(alloc: Global, case: &Case<'_>) -> Result<String, CaseFault> {
    let bytes = bytes_of(alloc, case.item(0)?)?;
    let close = close_of(case.text(1)?)?;
    let whole = heard(alloc, bytes.as_slice(), close)?;
    cut_once(alloc, bytes.as_slice(), close, whole)
}

/// The same of each front of the bytes, from none of them to all, under each close: where the three
/// answers are others than those of the front before, the front's length and they are told.
pub(crate) fn answers_of_fronts(alloc: Global, case: &Case<'_>) -> Result<String, CaseFault> {
    let bytes = bytes_of(alloc, case.item(0)?)?;
    let bytes = bytes.as_slice();
    let mut text = String::new(alloc);
    let mut before = String::new(alloc);
    for length in 0..=bytes.len() {
        let now = heard_under_each(alloc, &bytes[..length])?;
        if now.as_str() != before.as_str() {
            let told = format!(in alloc; "{length} {};", now.as_str())?;
            text.push_str(told.as_str())?;
            before = now;
        }
    }
    Ok(text)
}

fn heard_under_each(alloc: Global, bytes: &[u8]) -> Result<String, CaseFault> {
    let open = heard(alloc, bytes, Close::Open)?;
    let ended = heard(alloc, bytes, Close::Ended)?;
    let broke = heard(alloc, bytes, Close::Broke)?;
    let told = format!(in alloc; "{},{},{}", open.as_str(), ended.as_str(), broke.as_str())?;
    Ok(told)
}

fn close_of(name: &str) -> Result<Close, CaseFault> {
    match name {
        "open" => Ok(Close::Open),
        "ended" => Ok(Close::Ended),
        "broke" => Ok(Close::Broke),
        _ => Err(CaseFault::NoCase),
    }
}

/// The answer of bytes fed whole. Where it is another one if they are cut, both are told.
fn heard(alloc: Global, bytes: &[u8], close: Close) -> Result<String, CaseFault> {
    let mut whole = Reading::new(alloc);
    whole.feed(bytes)?;
    let whole = told(alloc, whole, close)?;
    let cut = told(alloc, fed_in_pieces(alloc, bytes)?, close)?;
    if cut.as_str() == whole.as_str() {
        return Ok(whole);
    }
    Ok(format!(in alloc; "whole {} cut {}", whole.as_str(), cut.as_str())?)
}

/// The answer of the whole bytes. Where it is another one if they come in two pieces, both are told.
/// Of over 256 bytes nothing is tried.
fn cut_once(alloc: Global, bytes: &[u8], close: Close, whole: String) -> Result<String, CaseFault> {
    if bytes.len() > 256 {
        return Ok(whole);
    }
    for length in 0..=bytes.len() {
        let cut = told(alloc, fed_in_two(alloc, bytes, length)?, close)?;
        if cut.as_str() != whole.as_str() {
            let both = format!(in alloc; "whole {} at {length} {}", whole.as_str(), cut.as_str())?;
            return Ok(both);
        }
    }
    Ok(whole)
}

/// A reading that heard so many bytes, and then the others.
fn fed_in_two(alloc: Global, bytes: &[u8], length: usize) -> Result<Reading, CaseFault> {
    let (front, rest) = bytes.split_at(length.min(bytes.len()));
    let mut reading = Reading::new(alloc);
    reading.feed(front)?;
    reading.feed(rest)?;
    Ok(reading)
}

/// A reading that heard the bytes one by one; of many bytes all but the last came in long pieces.
fn fed_in_pieces(alloc: Global, bytes: &[u8]) -> Result<Reading, CaseFault> {
    let mut reading = Reading::new(alloc);
    let mut rest = bytes;
    while !rest.is_empty() {
        let length = if rest.len() > 3000 { 2500 } else { 1 };
        let length = if bytes.len() > 3000 && rest.len() > 40 && rest.len() <= 3000 {
            rest.len() - 40
        } else {
            length
        };
        let (piece, behind) = rest.split_at(length);
        reading.feed(piece)?;
        rest = behind;
    }
    Ok(reading)
}

/// A reading that heard the bytes of a case in pieces, its connection as the case tells.
pub(crate) fn reading_of(alloc: Global, case: &Case<'_>) -> Result<Reading, CaseFault> {
    let bytes = bytes_of(alloc, case.item(0)?)?;
    let close = close_of(case.text(1)?)?;
    Ok(closed(fed_in_pieces(alloc, bytes.as_slice())?, close))
}

fn closed(mut reading: Reading, close: Close) -> Reading {
    match close {
        Close::Open => {}
        Close::Ended => reading.end(),
        Close::Broke => reading.broke(),
    }
    reading
}

fn told(alloc: Global, reading: Reading, close: Close) -> Result<String, CaseFault> {
    let reading = closed(reading, close);
    match reading.answer() {
        None => Ok(String::from_str(alloc, "none")?),
        Some(Answer::Broken) => Ok(String::from_str(alloc, "Broken")?),
        Some(Answer::TooLong) => Ok(String::from_str(alloc, "TooLong")?),
        Some(Answer::Response(head, body)) => response(alloc, head, body),
    }
}

fn response(alloc: Global, head: &Head, body: &[u8]) -> Result<String, CaseFault> {
    let mut text = format!(in alloc; "{}", head.code())?;
    for field in head.fields() {
        text.push(' ')?;
        text.push_str(shown(alloc, field.0.as_slice())?.as_str())?;
        text.push('=')?;
        text.push_str(shown(alloc, field.1.as_slice())?.as_str())?;
    }
    text.push_str(" |")?;
    if !body.is_empty() {
        text.push(' ')?;
        text.push_str(shown(alloc, body)?.as_str())?;
    }
    Ok(text)
}

/// Bytes in hex; over 64 of them are told by their number and their SHA-256 (FIPS 180-4).
pub(crate) fn shown(alloc: Global, bytes: &[u8]) -> Result<String, CaseFault> {
    if bytes.len() <= 64 {
        return hex_of(alloc, bytes);
    }
    let digest = hex_of(alloc, &Sha256::digest(bytes))?;
    Ok(format!(in alloc; "{}:{}", bytes.len(), digest.as_str())?)
}
