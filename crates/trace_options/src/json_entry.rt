//! The members of an entry's object.

use crate::json::JsonText;
use std::alloc::{AllocError, Global};

/// The name of a refusal.
fn refusal_name(number: &str) -> &'static str {
    match number {
        "1" => "InvalidParam",
        "2" => "NoDevice",
        "3" => "NotFound",
        "4" => "Busy",
        "5" => "HeldElsewhere",
        "6" => "NoMem",
        "7" => "NotSupported",
        _ => "",
    }
}

/// Bytes in hexadecimal digits, which are printed as a dash where there are none.
fn data_of(word: &str) -> &str {
    if word == "-" { "" } else { word }
}

/// Puts the members of what a callback is given: transfer, endpoint, round, status, bytes moved and data.
fn put_called(json: &mut JsonText, words: [&str; 6]) -> Result<(), AllocError> {
    let [transfer, endpoint, round, status, actual, data] = words;
    json.put_number("transfer", transfer)?;
    json.put_text("endpoint", endpoint)?;
    json.put_number("round", round)?;
    json.put_text("status", status)?;
    json.put_number("actual", actual)?;
    json.put_text("data", data_of(data))
}

/// Puts the members of an order that was carried out or settled.
fn put_order(
    json: &mut JsonText,
    order: &str,
    endpoint: &str,
    is_ok: bool,
) -> Result<(), AllocError> {
    json.put_text("order", order)?;
    json.put_text("endpoint", endpoint)?;
    json.put_key("ok")?;
    json.put(if is_ok { "true" } else { "false" })
}

/// Puts two numbers.
fn put_numbers(
    json: &mut JsonText,
    number: (&str, &str),
    other: (&str, &str),
) -> Result<(), AllocError> {
    json.put_number(number.0, number.1)?;
    json.put_number(other.0, other.1)
}

/// Puts the members of a reply behind its name; whether it is one.
fn put_reply(json: &mut JsonText, words: &[&str]) -> Result<bool, AllocError> {
    match words {
        ["done" | "idle"] => {}
        ["number" | "nak" | "finished" | "paused", n] => json.put_number("transfer", n)?,
        ["moved", n, bytes] => put_numbers(json, ("transfer", n), ("bytes", bytes))?,
        ["ended", n, "code", code] => put_numbers(json, ("transfer", n), ("code", code))?,
        ["refused", refusal] => {
            json.put_number("refusal", refusal)?;
            json.put_text("name", refusal_name(refusal))?;
        }
        ["ran" | "settled", order, ep, "ok"] => put_order(json, order, ep, true)?,
        ["ran" | "settled", order, ep, "fail"] => put_order(json, order, ep, false)?,
        [
            "called",
            n,
            "ep",
            ep,
            "round",
            round,
            status,
            actual,
            "data",
            data,
        ] => {
            put_called(json, [*n, *ep, *round, *status, *actual, *data])?;
        }
        _ => return Ok(false),
    }
    Ok(true)
}

/// The members of a reply, its name first, with a comma before each; None where it has no form that is known.
pub fn reply_members(alloc: Global, reply: &str) -> Result<Option<JsonText>, AllocError> {
    let words: Vec<&str> = reply.split(' ').collect(alloc)?;
    let (name, _) = reply.split_once(' ').unwrap_or((reply, ""));
    let mut json = JsonText::new(alloc);
    json.put_text("reply", name)?;
    if !put_reply(&mut json, words.as_slice())? {
        return Ok(None);
    }
    Ok(Some(json))
}

/// The member of a packet, with a comma before it; None where it has no form that is known.
pub fn packet_member(alloc: Global, packet: &str) -> Result<Option<JsonText>, AllocError> {
    let words: Vec<&str> = packet.split(' ').collect(alloc)?;
    let [endpoint, direction, bytes, "data", data] = words.as_slice() else {
        return Ok(None);
    };
    let mut json = JsonText::new(alloc);
    json.put_key("packet")?;
    json.put("{")?;
    json.put_text("endpoint", endpoint)?;
    json.put_text("direction", direction)?;
    json.put_number("bytes", bytes)?;
    json.put_text("data", data_of(data))?;
    json.put("}")?;
    Ok(Some(json))
}
