//! A plan is read, and others are refused with their first line that fails a rule and the least rule there.

ghost use Rattle.std.specs.Prelude.{◌<◌, length, IfOk};
ghost use Rattle.charlotte_calls.specs.Setting.{IsValid};

use crate::journals::holds;
use charlotte_calls::{Items, NoMemory, Pid, Setting};
use lynx_plan::PlanFault;
use plan_text::{Hosting, Name, Plan, read_plan};
use std::alloc::Global;
use std::test::Fail;

/// A name server, an adder, and three clients, of which one moves.
const PLAN: &str = "kernels 3
process 0 on 0 runs names.lynx
process 1 on 1 runs adder.lynx
# clients
process 2 on 1 runs client.lynx
process 3 on 2 runs client.lynx
process 4 on 2 runs client.lynx
process 5 on 0 hosts 3 after 4
wire 0 1
wire 0 2
wire 0 3
wire 0 4
";

fn has_setting(setting: &Setting) -> bool {
    setting.version == 1
        && setting.kernels == 3
        && setting.homes.as_slice() == [0, 1, 1, 2, 2, 0].as_slice()
        && setting.wires.as_slice()
            == [
                (Pid(0), Pid(1)),
                (Pid(0), Pid(2)),
                (Pid(0), Pid(3)),
                (Pid(0), Pid(4)),
                (Pid(3), Pid(5)),
            ]
            .as_slice()
}

/// The names, with a blank behind each.
fn text_of(alloc: Global, names: &[Name]) -> Result<Vec<u8>, NoMemory> {
    let mut text = Vec::new(alloc);
    for name in names {
        text.extend_from_slice(name.as_str().as_bytes())?;
        text.push(b' ')?;
    }
    Ok(text)
}

/// From what a plan is run: its setting, and its files.
fn start_of(alloc: Global, bytes: &[u8]) -> Result<(Setting, Items<Name>), PlanFault>
    requires { length bytes.now < 4294967295 }
    ensures { IfOk result (λ start. IsValid start.0) }
{
    let Plan {
        setting,
        files,
        lines: _,
        hosts: _,
    } = read_plan(alloc, bytes)?;
    Ok((setting, files))
}

#[test]
fn a_plan_is_read(rt: HostRuntime) -> Result<(), Fail> {
    let (setting, files) = start_of(rt.alloc(), PLAN.as_bytes())?;
    holds(has_setting(&setting), "the setting")?;
    let names = text_of(rt.alloc(), files.as_slice())?;
    let want = b"names.lynx adder.lynx client.lynx client.lynx client.lynx ";
    holds(names.as_slice() == want.as_slice(), "the files")
}

#[test]
fn processes_of_a_plan_are_read(rt: HostRuntime) -> Result<(), Fail> {
    let Plan {
        setting: _,
        files: _,
        lines,
        hosts,
    } = read_plan(rt.alloc(), PLAN.as_bytes())?;
    let numbers = [2, 3, 5, 6, 7, 8];
    holds(lines.as_slice() == numbers.as_slice(), "the lines")?;
    let moving = Hosting {
        host: Pid(5),
        moved: Pid(3),
        after: 4,
    };
    holds(hosts.as_slice() == [moving].as_slice(), "the hosts")
}

/// Texts, each with its first line that fails and the least rule there.
const REFUSED: [(&str, u32, u8); 24] = [
    ("", 1, 1),
    ("kernels 1\nprocess 0 on 0\n", 2, 1),
    ("kernels 1\nprocess 0 on 0 runs a b", 2, 1),
    ("kernels 1\nprocess 0 on 0 runs \u{7f}", 2, 1),
    ("kernels 1\nprocess 0 on 0 runs ", 2, 1),
    ("kernels 1\nprocess 0 on 0 hosts 0 after 4294967296", 2, 1),
    ("kernels 1\nprocess 0 on 0 hosts 0", 2, 1),
    ("kernels 1\n\ntake 0 0", 3, 1),
    ("kernels 1\nsettle", 2, 1),
    ("kernels 1\nprocess 0 on 0 runs a\np0 wait", 3, 1),
    ("version 1\n#\nversion 1\nkernels 1", 3, 1),
    (
        "kernels 1\nprocess 0 on 0 runs a\nwire 0 0\nprocess 1 on 0 runs a",
        4,
        1,
    ),
    ("kernels 9", 1, 2),
    ("kernels 1\nprocess 1 on 1 hosts 2 after 0", 2, 3),
    ("kernels 2\nprocess 0 on 2 hosts 1 after 0", 2, 4),
    ("kernels 1\nprocess 0 on 0 runs a\nwire 0 1", 3, 5),
    ("kernels 1\nprocess 0 on 0 hosts 1 after 0", 2, 5),
    ("version 0\nkernels 1", 1, 10),
    ("kernels 1\nprocess 0 on 0 hosts 0 after 0", 2, 11),
    (
        "kernels 1\nprocess 0 on 0 runs a\nprocess 1 on 0 hosts 0 after 1\nwire 0 1",
        4,
        11,
    ),
    (
        "kernels 1\nprocess 0 on 0 runs a\nprocess 1 on 0 hosts 0 after 1\nwire 1 0",
        4,
        11,
    ),
    (
        "kernels 1\nprocess 0 on 0 runs a\nprocess 1 on 0 hosts 0 after 1\nprocess 2 on 0 hosts 0 after 1",
        4,
        11,
    ),
    (
        "kernels 1\nprocess 0 on 0 runs a\nprocess 1 on 0 hosts 0 after 1\nprocess 2 on 0 hosts 1 after 1",
        4,
        11,
    ),
    (
        "kernels 1\nprocess 0 on 0 runs a\nprocess 1 on 0 hosts 0 after 1\nwire 0 2",
        4,
        5,
    ),
];

fn is_refused(alloc: Global, bytes: &[u8], (line, rule): (u32, u8)) -> Result<(), Fail> {
    if bytes.len() > 100_000 {
        return Err("the text is too long".into());
    }
    let refused = read_plan(alloc, bytes).err();
    holds(
        refused == Some(PlanFault::BadPlan { line, rule }),
        "the line and the rule of a plan that is refused",
    )
}

#[test]
fn plans_are_refused(rt: HostRuntime) -> Result<(), Fail> {
    for (text, line, rule) in REFUSED {
        is_refused(rt.alloc(), text.as_bytes(), (line, rule))?;
    }
    Ok(())
}

/// With one host there may be 4,095 wires. The last names the host besides.
#[test]
fn wires_of_hosts_are_counted(rt: HostRuntime) -> Result<(), Fail> {
    let mut text = Vec::new(rt.alloc());
    text.extend_from_slice(b"kernels 1\nprocess 0 on 0 runs a\nprocess 1 on 0 hosts 0 after 0\n")?;
    for _ in 0..4095 {
        text.extend_from_slice(b"wire 0 0\n")?;
    }
    text.extend_from_slice(b"wire 1 1\n")?;
    is_refused(rt.alloc(), text.as_slice(), (4099, 7))
}
