ghost use Rattle.std.specs.Prelude.{◌≡◌, ◌++◌, map, IfOk, OnOk};
ghost use Rattle.plan_text.specs.Reading.{carrier, with_carriers};

use crate::plan::Hosting;
use charlotte_calls::{Items, NoMemory, Pid, Setting};

/// A setting with a wire more from each process that moves to its host.
pub(crate) fn with_carriers(setting: Setting, hosts: &[Hosting]) -> Result<Setting, NoMemory>
    ensures { IfOk result (λ s. s ≡ with_carriers setting hosts.now) }
{
    let Setting {
        version,
        kernels,
        homes,
        wires,
    } = setting;
    let mut wires = wires.into_vec();
    push_carriers(&mut wires, hosts)?;
    Ok(Setting {
        version,
        kernels,
        homes,
        wires: Items::of(wires),
    })
}

fn push_carriers(wires: &mut Vec<(Pid, Pid)>, hosts: &[Hosting]) -> Result<(), NoMemory>
    ensures { OnOk result (wires.new.items ≡ wires.old.items ++ map carrier hosts.now) }
{
    for hosting in hosts {
        wires.push((hosting.moved, hosting.host))?;
    }
    Ok(())
}
