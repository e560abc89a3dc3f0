//! Tests of loading: a plan with its modules, and each failure with its status and its line.

use crate::{LoadFault, Loaded, load_plan};
use lynx_outside::{ListFiles, Status, SureFiles};
use std::alloc::{AllocError, Global};
use std::test::Fail;

/// Fails the test, and tells what was looked at, unless this holds.
fn holds(is_so: bool, what: &str) -> Result<(), Fail> {
    if is_so { Ok(()) } else { Err(what.into()) }
}

/// The modules of these tests, of which the last has a lexical fault.
const MODULES: [(&str, &str); 3] = [
    ("w", "module w; begin write 1; end."),
    ("v", "module v; begin write 2; end."),
    ("bad", "module w; begin write $; end."),
];

/// The plan of this text, under the name p, and the modules.
fn listing(alloc: Global, plan: &str) -> Result<Vec<(String, Vec<u8>)>, AllocError> {
    let mut files = Vec::new(alloc);
    files.push((
        String::from_str(alloc, "p")?,
        plan.as_bytes().to_vec(alloc)?,
    ))?;
    for (name, text) in MODULES {
        files.push((
            String::from_str(alloc, name)?,
            text.as_bytes().to_vec(alloc)?,
        ))?;
    }
    Ok(files)
}

/// Nothing is loaded: the status and the line are these.
fn fails(found: Result<Loaded, LoadFault>, is: Status, line: &str) -> Result<(), Fail> {
    match found {
        Err(LoadFault::Failed { status, text }) => {
            holds(status == is && text.as_slice() == line.as_bytes(), line)
        }
        _ => holds(false, line),
    }
}

/// A plan of this text is refused with this line.
fn refuses(alloc: Global, plan: &str, line: &str) -> Result<(), Fail> {
    let mut files = SureFiles::of(listing(alloc, plan)?);
    fails(load_plan(alloc, "p", &mut files), Status::Refused, line)
}

#[test]
fn a_plan_is_loaded(rt: HostRuntime) -> Result<(), Fail> {
    let plan = "kernels 2\nprocess 0 on 0 runs w\nprocess 1 on 1 runs v\n";
    let mut files = SureFiles::of(listing(rt.alloc(), plan)?);
    match load_plan(rt.alloc(), "p", &mut files) {
        Ok(loaded) => holds(loaded.programs.len() == 2, "two programs"),
        Err(_) => holds(false, "a plan is loaded"),
    }
}

#[test]
fn files_that_are_not_there(rt: HostRuntime) -> Result<(), Fail> {
    let mut none = SureFiles::of(Vec::new(rt.alloc()));
    fails(
        load_plan(rt.alloc(), "p", &mut none),
        Status::NoFile,
        "lynx: p: absent\n",
    )?;
    let plan = "kernels 1\nprocess 0 on 0 runs x\n";
    let mut files = SureFiles::of(listing(rt.alloc(), plan)?);
    fails(
        load_plan(rt.alloc(), "p", &mut files),
        Status::NoFile,
        "lynx: x: absent\n",
    )
}

#[test]
fn texts_that_break_rules(rt: HostRuntime) -> Result<(), Fail> {
    let alloc = rt.alloc();
    refuses(alloc, "kernels 1\nprocess 0 on 1 runs w\n", "p:2: plan 4\n")?;
    refuses(
        alloc,
        "kernels 1\nprocess 0 on 0 runs bad\n",
        "bad:1:23: lex 1\n",
    )?;
    refuses(
        alloc,
        "kernels 1\nprocess 0 on 0 runs w\nprocess 1 on 0 runs v\nwire 1 1\n",
        "p:3: plan 8\n",
    )?;
    let hosts = "kernels 1\nprocess 0 on 0 runs x\nprocess 1 on 0 hosts 0 after 1\n";
    refuses(alloc, hosts, "lynx: hosts: not built\n")
}

/// The third read fails, which is that of the second process.
#[test]
fn a_module_of_two_processes_is_read_twice(rt: HostRuntime) -> Result<(), Fail> {
    let plan = "kernels 1\nprocess 0 on 0 runs w\nprocess 1 on 0 runs w\n";
    let mut files = ListFiles::of(listing(rt.alloc(), plan)?, vec![in rt.alloc(); 3]?);
    let found = load_plan(rt.alloc(), "p", &mut files);
    fails(found, Status::ReadFault, "lynx: w: read fault\n")
}
