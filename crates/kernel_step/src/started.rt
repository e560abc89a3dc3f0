ghost use Rattle.std.specs.Prelude.{◌≡◌, IfSome, option_copied};
ghost use Rattle.end_table.specs.Table.{entries};
ghost use Rattle.end_table.specs.declared.entry.Entry.TheVariants.{Here};
ghost use Rattle.kernel_step.specs.Actions.{is_withdrawing};
ghost use Rattle.kernel_step.specs.Rows.{asks, awaits};

use charlotte_calls::EndId;
use end_table::{Inward, Lent, Living, Sending, Table};

/// An end whose receive w is started, lent.
#[inline(always)]
pub fn receiver(table: &Table, to: EndId, w: u32) -> Option<&Living>
    ensures view { option_copied result ≡ asks w (entries table.now to) }
    ensures here { IfSome result (λ l. entries table.now to ≡ Here l.now) }
{
    match table.lend(to) {
        Lent::Here(living) => match living.inward() {
            Inward::Posted { w: asked } | Inward::Withdrawing { w: asked } if asked == w => Some(
                living,
            ),
            _ => None,
        },
        _ => None,
    }
}

/// An end whose send n is matched, lent.
#[inline(always)]
pub fn sender(table: &Table, to: EndId, n: u32) -> Option<&Living>
    ensures view { option_copied result ≡ awaits n (entries table.now to) }
    ensures here { IfSome result (λ l. entries table.now to ≡ Here l.now) }
    ensures own { IfSome result (λ l. l.now.value.end ≡ to) }
{
    match table.lend(to) {
        Lent::Here(living) => match living.outward() {
            Sending::Matched { n: matched } if *matched == n => Some(living),
            _ => None,
        },
        _ => None,
    }
}

/// Whether a Cancel of a receive waits.
pub fn is_withdrawing(inward: Inward) -> bool
    ensures { result ≡ is_withdrawing inward }
{
    matches!(inward, Inward::Withdrawing { .. })
}
