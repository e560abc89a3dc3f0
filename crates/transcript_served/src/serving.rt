//! The service lines of a transcript, made as steps of the link service.
ghost use Rattle.std.specs.Prelude.{◌<◌, OnOk, IfErr, length};
ghost use Rattle.link_service.specs.Service.{state_of};
ghost use Rattle.transcript_served.specs.Serving.{Makes, IsTroubleOf};

use crate::setting::setting_of;
use crate::trouble::Trouble;
use crate::whole::whole_step;
use kernel_entries::Happened;
use link_service::{ApplyFault, Service};
use std::alloc::Global;
use transcript_reader::{Line, LineKind, ServiceLine, read_transcript};

/// Makes all steps of a transcript, and tells how many there were.
pub(crate) fn served(alloc: Global, bytes: &[u8]) -> Result<u64, Trouble>
    requires { length bytes.now < 4294967295 }
{
    let lines = read_transcript(alloc, bytes)?;
    let setting = setting_of(alloc, lines.as_slice())?;
    if !setting.valid() {
        return Err(Trouble::Header);
    }
    let mut service = Service::start(alloc, &setting)?;
    let mut above: Option<Happened> = None;
    let mut steps: u64 = 0;
    for Line { number, what } in lines {
        match what {
            LineKind::CallEntry { p, call, .. } => above = Some(Happened::asked(alloc, p, &call)?),
            LineKind::PacketEntry { from, picture, .. } => {
                above = Some(Happened::took(alloc, from, &picture)?);
            }
            LineKind::Service(told) => {
                let Some(entry) = &above else {
                    return Err(Trouble::NotWhole(number));
                };
                make(&mut service, number, entry, told)?;
                steps = steps.saturating_add(1);
            }
            _ => {}
        }
    }
    Ok(steps)
}

/// Makes the step of a line, which has this number.
fn make(
    service: &mut Service,
    number: u32,
    above: &Happened,
    line: ServiceLine,
) -> Result<(), Trouble>
    ensures made { OnOk result (Makes above.now line (state_of service.old) (state_of service.new)) }
    ensures trouble { IfErr result (IsTroubleOf number above.now line (state_of service.old)) }
{
    let Ok(step) = whole_step(above, line) else {
        return Err(Trouble::NotWhole(number));
    };
    match service.apply(&step) {
        Ok(()) => Ok(()),
        Err(ApplyFault::NoMemory) => Err(Trouble::NoMemory),
        Err(ApplyFault::NotAllowed(step)) => Err(Trouble::NotAllowed(number, step)),
    }
}
