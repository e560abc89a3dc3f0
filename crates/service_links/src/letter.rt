ghost use Rattle.std.specs.Prelude.{◌≡◌, ◌≤◌, IfOk, length};

use charlotte_calls::{Bytes, EndId, Ends, Items, NoMemory};
use std::alloc::Global;
use std::marker::Model;

/// A message as it is kept: it takes the memory of the bytes and the ends that it has. Contracts see the message.
#[derive(Debug, Drop)]
pub struct Letter {
    bytes: Items<u8>,
    carried: Items<EndId>,
}

impl Model for Letter {
    ghost use Rattle.std.specs.Prelude.{◌≤◌, length};
    ghost use Rattle.service_step.specs.declared.state.Message.{Message};

    ghost Value = { Message };

    ghost view = { λ l. record { bytes = l.bytes; carried = l.carried } };

    ghost invariant = { λ l. (length l.bytes ≤ 256) × (length l.carried ≤ 8) };
}

impl Letter {
    /// The message of these bytes, which carries these ends.
    pub fn of(alloc: Global, bytes: &Bytes, carried: &Ends) -> Result<Letter, NoMemory>
        ensures { IfOk result (λ l. l ≡ record { bytes = bytes.now; carried = carried.now }) }
    {
        let bytes = copied(alloc, bytes.as_slice())?;
        let carried = copied(alloc, carried.as_slice())?;
        Ok(Letter { bytes, carried })
    }

    /// The bytes and the ends that it carries.
    #[inline(always)]
    pub fn into_parts(self) -> (Items<u8>, Items<EndId>)
        ensures bytes { result.0 ≡ self.bytes }
        ensures ends { result.1 ≡ self.carried }
    {
        let Letter { bytes, carried } = self;
        (bytes, carried)
    }

    /// The ends that it carries, in their order, lent.
    #[inline(always)]
    pub fn enclosed(&self) -> &[EndId]
        ensures { result.now ≡ self.now.carried }
    {
        self.carried.as_slice()
    }

    /// The ends that it carries, copied to memory of their own.
    pub fn ends(&self, alloc: Global) -> Result<Items<EndId>, NoMemory>
        ensures { IfOk result (λ xs. xs ≡ self.now.carried) }
    {
        copied(alloc, self.carried.as_slice())
    }

    /// The ends that it carries, in their order, in a value of fixed size.
    pub fn carried(&self) -> Ends
        ensures { result ≡ self.now.carried }
    {
        match Ends::from_slice(self.carried.as_slice()) {
            Some(ends) => ends,
            None => unreachable!(),
        }
    }
}

/// These items, in memory of their own.
#[inline(always)]
fn copied<T: Copy>(alloc: Global, items: &[T]) -> Result<Items<T>, NoMemory>
    ensures { IfOk result (λ xs. xs ≡ items.now) }
{
    let copy = Vec::from_slice(alloc, items)?;
    Ok(Items::of(copy))
}
