ghost use Rattle.std.specs.Prelude.{◌≡◌, IfOk};
ghost use Rattle.compact_calls.specs.Stored.{call_of};

use crate::trimmed::Trimmed;
use charlotte_calls::{Bytes, Call, EndId, Ends, NoMemory, Way};
use std::alloc::Global;
use std::marker::Model;

/// What is sent: the bytes, and the ends that go with them.
#[derive(Debug, Drop)]
pub struct Message {
    pub(crate) bytes: Trimmed<u8, 256>,
    pub(crate) enclose: Trimmed<EndId, 8>,
}

impl Message {
    pub(crate) fn of(alloc: Global, bytes: &Bytes, enclose: &Ends) -> Result<Box<Message>, NoMemory>
        ensures bytes { IfOk result (λ m. m.value.bytes ≡ bytes.now) }
        ensures enclose { IfOk result (λ m. m.value.enclose ≡ enclose.now) }
    {
        let message = Message {
            bytes: Trimmed::of(alloc, bytes)?,
            enclose: Trimmed::of(alloc, enclose)?,
        };
        Ok(Box::new(alloc, message)?)
    }

    /// The bytes, lent.
    pub fn bytes(&self) -> &[u8]
        ensures { result.now ≡ self.now.bytes }
    {
        self.bytes.as_slice()
    }

    /// The ends that go with them, lent.
    pub fn enclose(&self) -> &[EndId]
        ensures { result.now ≡ self.now.enclose }
    {
        self.enclose.as_slice()
    }
}

/// A call as it is kept: what has no fixed length stands apart.
#[derive(Debug, Drop)]
pub enum StoredCall {
    Make,
    Destroy { on: EndId },
    Send { on: EndId, message: Box<Message> },
    Receive { on: EndId },
    Cancel { on: EndId, way: Way },
    Wait,
    Print { bytes: Trimmed<u8, 256> },
    Exit,
}

/// A call that takes only the memory of what it says. Contracts see the call.
#[derive(Debug, Drop)]
pub struct CompactCall {
    stored: StoredCall,
}

impl Model for CompactCall {
    ghost use Rattle.charlotte_calls.specs.declared.calls.Call.{Call};

    ghost Value = { Call };

    ghost use Rattle.compact_calls.specs.Stored.{call_of};

    ghost view = { λ c. call_of c.stored };
}

impl CompactCall {
    /// The same call.
    pub fn of(alloc: Global, call: &Call) -> Result<CompactCall, NoMemory>
        ensures { IfOk result (λ c. c ≡ call.now) }
    {
        let stored = store(alloc, call)?;
        Ok(CompactCall { stored })
    }

    /// The call, with its bytes and ends in the value itself.
    pub fn call(&self) -> Call
        ensures { result ≡ self.now }
    {
        restore(&self.stored)
    }

    /// The call as it is kept, lent.
    pub fn stored(&self) -> &StoredCall
        ensures { call_of result.now ≡ self.now }
    {
        &self.stored
    }

    /// An equal call.
    pub fn copy(&self, alloc: Global) -> Result<CompactCall, NoMemory>
        ensures { IfOk result (λ c. c ≡ self.now) }
    {
        CompactCall::of(alloc, &self.call())
    }
}

fn store(alloc: Global, call: &Call) -> Result<StoredCall, NoMemory>
    ensures { IfOk result (λ k. call_of k ≡ call.now) }
{
    match call {
        Call::Make => Ok(StoredCall::Make),
        Call::Destroy { on } => Ok(StoredCall::Destroy { on: *on }),
        Call::Send { on, bytes, enclose } => Ok(StoredCall::Send {
            on: *on,
            message: Message::of(alloc, bytes, enclose)?,
        }),
        Call::Receive { on } => Ok(StoredCall::Receive { on: *on }),
        Call::Cancel { on, way } => Ok(StoredCall::Cancel { on: *on, way: *way }),
        Call::Wait => Ok(StoredCall::Wait),
        Call::Print { bytes } => Ok(StoredCall::Print {
            bytes: Trimmed::of(alloc, bytes)?,
        }),
        Call::Exit => Ok(StoredCall::Exit),
    }
}

fn restore(stored: &StoredCall) -> Call
    ensures { result ≡ call_of stored.now }
{
    match stored {
        StoredCall::Make => Call::Make,
        StoredCall::Destroy { on } => Call::Destroy { on: *on },
        StoredCall::Send { on, message } => Call::Send {
            on: *on,
            bytes: message.bytes.short(),
            enclose: message.enclose.short(),
        },
        StoredCall::Receive { on } => Call::Receive { on: *on },
        StoredCall::Cancel { on, way } => Call::Cancel { on: *on, way: *way },
        StoredCall::Wait => Call::Wait,
        StoredCall::Print { bytes } => Call::Print {
            bytes: bytes.short(),
        },
        StoredCall::Exit => Call::Exit,
    }
}
