//! Values in packets.

use typing_rules::{Row16, ShortText};

/// A value of a request or a reply. A link stands for the end that travels with the packet, or behind it.
#[derive(Debug, Drop)]
pub enum RtValue {
    Int(i64),
    Bool(bool),
    Text(ShortText),
    Row(Row16),
    Link,
}
