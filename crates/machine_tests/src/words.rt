//! What threads do, in words.

use itoa::Buffer;
use lynx_interp::{Action, LinkRef, Value};
use std::alloc::AllocError;
use std::str;

/// As `0 bind 1 0; `: the thread's number, the action, and with what.
pub(crate) fn push_action(
    told: &mut String,
    thread: u8,
    action: &Action,
) -> Result<(), AllocError> {
    push_number(told, i64::from(thread))?;
    match action {
        Action::New => told.push_str(" new")?,
        Action::Destroy(link) => push_on(told, " destroy", *link)?,
        Action::Bind(link, entry) => push_two(told, " bind", *link, u32::from(*entry))?,
        Action::Unbind(link, entry) => push_two(told, " unbind", *link, u32::from(*entry))?,
        Action::Connect(link, op, values) => {
            push_two(told, " connect", *link, *op)?;
            push_values(told, values)?;
        }
        Action::Accept(link, op) => push_two(told, " accept", *link, *op)?,
        Action::Close => told.push_str(" close")?,
        Action::Reply(values) => {
            told.push_str(" reply")?;
            push_values(told, values)?;
        }
        Action::Write(text) => {
            told.push_str(" write ")?;
            told.push_str(str::from_utf8(text.as_slice()).unwrap_or("?"))?;
        }
        Action::StopAll => told.push_str(" stop")?,
    }
    told.push_str("; ")?;
    Ok(())
}

/// As `finished 3`.
pub(crate) fn push_stop(told: &mut String, stop: &str, left: u32) -> Result<(), AllocError> {
    told.push_str(stop)?;
    told.push_str(" ")?;
    push_number(told, i64::from(left))
}

pub(crate) fn push_number(told: &mut String, number: i64) -> Result<(), AllocError> {
    let mut buffer = Buffer::new();
    told.push_str(buffer.format(number))?;
    Ok(())
}

fn push_on(told: &mut String, word: &str, link: LinkRef) -> Result<(), AllocError> {
    told.push_str(word)?;
    told.push_str(" ")?;
    push_number(told, i64::from(link.0))
}

fn push_two(told: &mut String, word: &str, link: LinkRef, other: u32) -> Result<(), AllocError> {
    push_on(told, word, link)?;
    told.push_str(" ")?;
    push_number(told, i64::from(other))
}

fn push_values(told: &mut String, values: &[Value]) -> Result<(), AllocError> {
    for value in values {
        told.push_str(" ")?;
        push_value(told, value)?;
    }
    Ok(())
}

fn push_value(told: &mut String, value: &Value) -> Result<(), AllocError> {
    match value {
        Value::Int(number) => push_number(told, *number)?,
        Value::Bool(true) => told.push_str("true")?,
        Value::Bool(false) => told.push_str("false")?,
        Value::Text(text) => told.push_str(str::from_utf8(text.as_slice()).unwrap_or("?"))?,
        Value::Link(link) => push_number(told, i64::from(link.0))?,
        Value::Row(_) => told.push_str("row")?,
    }
    Ok(())
}
