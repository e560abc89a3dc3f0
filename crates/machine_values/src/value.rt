//! Values.

use typing_rules::{Row16, ShortText};

/// One of the ends of a process, by its number in the order of getting them, from 1; 0 is none.
#[derive(Clone, Copy, Debug, PartialEq, Eq)]
pub struct LinkRef(pub u32);

/// What a variable can hold.
#[derive(Debug, Drop)]
pub enum Value {
    Int(i64),
    Bool(bool),
    Text(ShortText),
    Row(Row16),
    Link(LinkRef),
}
