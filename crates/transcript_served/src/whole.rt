//! Steps made whole: what the line of a step leaves out stands in the entry above it.
ghost use Rattle.std.specs.Prelude.{◌≡◌};
ghost use Rattle.transcript_reading.specs.Kinds.{full_step};
ghost use Rattle.transcript_reading.specs.declared.line.ServiceLine.TheVariants.{Send};

use charlotte_calls::{Call, EndId, Ends, ServiceStep};
use charlotte_text::Fault;
use kernel_entries::Happened;
use transcript_reader::ServiceLine;

/// The step of a line below an entry; a fault exactly where the entry does not say what the line leaves out.
pub(crate) fn whole_step(above: &Happened, line: ServiceLine) -> Result<ServiceStep, Fault>
    ensures { result ≡ full_step above.now line }
{
    match line {
        ServiceLine::Make { a, b } => match above {
            Happened::Asked { p, .. } => Ok(ServiceStep::Make { p: *p, a, b }),
            Happened::Took { .. } => Err(Fault::Form),
        },
        ServiceLine::Refuse { p, cause } => match above {
            Happened::Asked { call, .. } => Ok(ServiceStep::Refuse {
                p,
                call: call.call(),
                cause,
            }),
            Happened::Took { .. } => Err(Fault::Form),
        },
        ServiceLine::Send { on, n, enclose } => whole_send(above, on, n, enclose),
        ServiceLine::Destroy { on } => Ok(ServiceStep::Destroy { on }),
        ServiceLine::Receive { on } => Ok(ServiceStep::Receive { on }),
        ServiceLine::Cancel { on, way } => Ok(ServiceStep::Cancel { on, way }),
        ServiceLine::Wait { p } => Ok(ServiceStep::Wait { p }),
        ServiceLine::Report { p, report } => Ok(ServiceStep::Report { p, report }),
        ServiceLine::Exit { p } => Ok(ServiceStep::Exit { p }),
        ServiceLine::Match { on, n } => Ok(ServiceStep::Match { on, n }),
        ServiceLine::Take { on, n, p, late } => Ok(ServiceStep::Take { on, n, p, late }),
        ServiceLine::Complete { on, n } => Ok(ServiceStep::Complete { on, n }),
        ServiceLine::Withdraw { on } => Ok(ServiceStep::Withdraw { on }),
        ServiceLine::Free { on } => Ok(ServiceStep::Free { on }),
        ServiceLine::Notice { on, dead } => Ok(ServiceStep::Notice { on, dead }),
        ServiceLine::Back { on, n, dead } => Ok(ServiceStep::Back { on, n, dead }),
    }
}

/// A send, whose bytes are those of the call.
fn whole_send(above: &Happened, on: EndId, n: u32, enclose: Ends) -> Result<ServiceStep, Fault>
    ensures { result ≡ full_step above.now (Send on n enclose) }
{
    let Happened::Asked { call, .. } = above else {
        return Err(Fault::Form);
    };
    match call.call() {
        Call::Send { bytes, .. } => Ok(ServiceStep::Send {
            on,
            n,
            bytes,
            enclose,
        }),
        _ => Err(Fault::Form),
    }
}
