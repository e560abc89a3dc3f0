ghost use Rattle.std.specs.Prelude.{◌≡◌, IfOk};
ghost use Rattle.lynx_plan.specs.Stored.{script_call_of};

use crate::script::ScriptCall;
use charlotte_calls::{NoMemory, Pid};
use compact_calls::CompactCall;
use std::alloc::Global;
use std::marker::Model;

/// What a line asks, as it is kept: a call stands at its own length.
#[derive(Debug, Drop)]
pub enum StoredScriptCall {
    Ask(Pid, CompactCall),
    Take { from: u8, to: u8 },
    Settle,
}

/// What a line of a script asks, in the memory of what it says. Contracts see what it asks.
#[derive(Debug, Drop)]
pub struct CompactScriptCall {
    stored: StoredScriptCall,
}

impl Model for CompactScriptCall {
    ghost use Rattle.lynx_plan.specs.declared.script.ScriptCall.{ScriptCall};

    ghost Value = { ScriptCall };

    ghost use Rattle.lynx_plan.specs.Stored.{script_call_of};

    ghost view = { λ c. script_call_of c.stored };
}

impl CompactScriptCall {
    ghost use Rattle.lynx_plan.specs.declared.script.ScriptCall.TheVariants.{Ask, Take, Settle};

    /// A process makes a call.
    pub(crate) fn ask(process: Pid, call: CompactCall) -> CompactScriptCall
        ensures { result ≡ Ask process call }
    {
        CompactScriptCall {
            stored: StoredScriptCall::Ask(process, call),
        }
    }

    /// Kernel `to` takes the first packet from kernel `from`.
    pub(crate) fn take(from: u8, to: u8) -> CompactScriptCall
        ensures { result ≡ Take from to }
    {
        CompactScriptCall {
            stored: StoredScriptCall::Take { from, to },
        }
    }

    /// Packets are taken until none is left.
    pub(crate) fn settle() -> CompactScriptCall
        ensures { result ≡ Settle }
    {
        CompactScriptCall {
            stored: StoredScriptCall::Settle,
        }
    }

    /// The same.
    pub fn of(alloc: Global, what: &ScriptCall) -> Result<CompactScriptCall, NoMemory>
        ensures { IfOk result (λ c. c ≡ what.now) }
    {
        let stored = match what {
            ScriptCall::Ask(p, call) => StoredScriptCall::Ask(*p, CompactCall::of(alloc, call)?),
            ScriptCall::Take { from, to } => StoredScriptCall::Take {
                from: *from,
                to: *to,
            },
            ScriptCall::Settle => StoredScriptCall::Settle,
        };
        Ok(CompactScriptCall { stored })
    }

    /// What the line asks, with a call's bytes and ends in the value itself.
    pub fn script_call(&self) -> ScriptCall
        ensures { result ≡ self.now }
    {
        match &self.stored {
            StoredScriptCall::Ask(p, call) => ScriptCall::Ask(*p, call.call()),
            StoredScriptCall::Take { from, to } => ScriptCall::Take {
                from: *from,
                to: *to,
            },
            StoredScriptCall::Settle => ScriptCall::Settle,
        }
    }

    /// What the line asks, as it is kept.
    pub fn into_stored(self) -> StoredScriptCall
        ensures { script_call_of result ≡ self }
    {
        self.stored
    }
}
