ghost use Rattle.std.specs.Prelude.{◌≡◌};
ghost use Rattle.end_table.specs.Table.{entries};
ghost use Rattle.move_core.specs.Routes.{route_of};

use crate::forward::Route;
use charlotte_calls::EndId;
use end_table::{Lent, Table};

/// Where a packet for an end goes.
pub fn route(table: &Table, end: EndId) -> Route
    ensures { result ≡ route_of (entries table.now end) }
{
    match table.lend(end) {
        Lent::Here(_) => Route::Here,
        Lent::Left { to, .. } => Route::Forward(to),
        Lent::Nothing | Lent::Destroyed(_) => Route::Stale,
    }
}
