//! Nodes whose processes ask the calls of a script, and what their runs leave.
ghost use Rattle.std.specs.Prelude.{◌≡◌, ◌<◌, ◌≤◌, ℕ, None, All, IfOk, OnOk, length, map};
ghost use Rattle.charlotte_calls.specs.Setting.{IsValid};
ghost use Rattle.kernel_net.specs.Ports.{IsFresh, IsNet, place_of};
ghost use Rattle.worker_tests.specs.Nodes.{AreRunnable};

use charlotte_calls::{Call, Items, NoMemory, Setting};
use kernel_net::{Net, Port};
use kernel_worker::{CallList, Course, End, NoWatch, Node, Orders, run_serial};
use lynx_plan::{Script, ScriptCall, ScriptLine, read_script};
use node_start::start_nodes;
use std::alloc::Global;
use std::test::Fail;
use transcript_audit::audit;
use transcript_lines::Last;
use written_journal::{Merged, TranscriptLines, WrittenJournal};

/// How nodes are made.
#[derive(Clone, Copy)]
pub(crate) struct Making {
    /// How many letters a ring holds.
    pub(crate) letters: u16,
    /// How many turns a node may use.
    pub(crate) limit: u32,
    /// After how many turns kernel 0 begins a snapshot, if it is to.
    pub(crate) begins: Option<u32>,
}

impl Making {
    /// What the node of a kernel is to do.
    fn orders(self, kernel: u8) -> Orders
        ensures { result.limit ≡ self.limit }
    {
        let begins = if kernel == 0 { self.begins } else { None };
        Orders {
            limit: self.limit,
            begins,
        }
    }
}

/// Nodes before their first turns.
#[derive(Drop)]
pub(crate) struct Started {
    pub(crate) setting: Setting,
    pub(crate) nodes: Nodes,
}

/// What is left of a run.
#[derive(Drop)]
pub(crate) struct Ran {
    pub(crate) courses: Vec<Course>,
    /// The transcript.
    pub(crate) text: Vec<u8>,
}

/// The nodes of a test.
pub(crate) type Nodes = Vec<Node<CallList, NoWatch>>;

/// Fails the test, and tells what was looked at, unless this holds.
pub(crate) fn holds(is_so: bool, what: &str) -> Result<(), Fail> {
    if is_so { Ok(()) } else { Err(what.into()) }
}

/// The nodes of a script in version 2, whose processes ask its calls, each its own, in their order.
pub(crate) fn start(alloc: Global, making: Making, script: &str) -> Result<Started, Fail>
    ensures { IfOk result (λ started. AreRunnable started.nodes.items) }
{
    let Script { setting, lines } = read(alloc, script)?;
    let programs = programs_of(alloc, setting.homes.len(), lines.as_slice())?;
    let nodes = nodes_of(alloc, making, &setting, programs)?;
    Ok(Started { setting, nodes })
}

/// Runs the nodes of a script one after the other.
pub(crate) fn run(alloc: Global, making: Making, script: &str) -> Result<Ran, Fail> {
    let Started { setting, nodes } = start(alloc, making, script)?;
    let mut nodes = nodes;
    let last = run_of(&mut nodes)?;
    left(alloc, setting, nodes, last)
}

/// What nodes leave, whose transcript is that of a run that ended so.
pub(crate) fn left(alloc: Global, setting: Setting, nodes: Nodes, last: Last) -> Result<Ran, Fail>
    requires { length nodes.items ≤ 8 }
{
    let courses = courses_of(alloc, &nodes)?;
    let text = transcript(alloc, setting, nodes, last)?;
    holds(
        is_transcript(alloc, text.as_slice(), last),
        "a transcript of a run that ended so",
    )?;
    Ok(Ran { courses, text })
}

/// A script in version 2.
pub(crate) fn read(alloc: Global, script: &str) -> Result<Script, Fail>
    ensures valid { IfOk result (λ script. IsValid script.setting) }
    ensures version { IfOk result (λ script. script.setting.version ≡ 2) }
{
    let bytes = script.as_bytes();
    if bytes.len() >= 10_000 {
        return Err("a short script".into());
    }
    let Ok(script) = read_script(alloc, bytes) else {
        return Err("a script".into());
    };
    if script.setting.version == 2 {
        Ok(script)
    } else {
        Err("a script in version 2".into())
    }
}

/// The programs of so many processes.
pub(crate) fn programs_of(
    alloc: Global,
    count: usize,
    lines: &[ScriptLine],
) -> Result<Vec<CallList>, NoMemory>
    ensures count { IfOk result (λ programs. length programs.items ≡ count) }
    ensures fresh { IfOk result (λ programs. All (λ p. (p.last ≡ None) × (p.version ≤ 2)) programs.items) }
{
    let mut programs = Vec::new(alloc);
    for process in 0..count {
        programs.push(CallList::of(calls_of(alloc, process, lines)?))?;
    }
    Ok(programs)
}

/// The calls of a process, in their order.
fn calls_of(alloc: Global, process: usize, lines: &[ScriptLine]) -> Result<Vec<Call>, NoMemory> {
    let mut calls = Vec::new(alloc);
    for line in lines {
        if let ScriptCall::Ask(p, call) = line.what.script_call() {
            if usize::from(p.0) == process {
                calls.push(call)?;
            }
        }
    }
    Ok(calls)
}

/// The nodes of a setting in version 2 before their first turns.
fn nodes_of(
    alloc: Global,
    making: Making,
    setting: &Setting,
    programs: Vec<CallList>,
) -> Result<Nodes, Fail>
    requires valid { IsValid setting.now }
    requires version { setting.now.version ≡ 2 }
    requires count { length programs.items ≡ length setting.now.homes }
    requires fresh { All (λ p. (p.last ≡ None) × (p.version ≤ 2)) programs.items }
    ensures { IfOk result (λ ns. AreRunnable ns.items) }
{
    let Making { letters, limit, .. } = making;
    if letters == 0 || letters > 1_024 || limit > 100_000 {
        return Err("a way to make nodes".into());
    }
    let ports = ports_of(alloc, setting.kernels, letters)?;
    let parts = parts_of(alloc, making, setting.kernels)?;
    let nodes = start_nodes(alloc, setting, programs, ports, parts)?;
    Ok(nodes)
}

/// The ports of a new net.
fn ports_of(alloc: Global, kernels: u8, letters: u16) -> Result<Vec<Port>, NoMemory>
    requires kernels { (0 < kernels) × (kernels ≤ 8) }
    requires letters { (0 < letters) × (letters ≤ 1024) }
    ensures count { IfOk result (λ ports. length ports.items ≡ kernels) }
    ensures net { IfOk result (λ ports. IsNet (map place_of ports.items)) }
    ensures rings { IfOk result (λ ports. (capacity : ℕ) × (0 < capacity) × All (IsFresh capacity) ports.items) }
{
    let ports = Net::make(alloc, kernels, letters)?;
    Ok(ports)
}

/// What each node is to do, without a watch.
fn parts_of(alloc: Global, making: Making, kernels: u8) -> Result<Vec<(Orders, NoWatch)>, NoMemory>
    requires { making.limit ≤ 100000 }
    ensures count { IfOk result (λ parts. length parts.items ≡ kernels) }
    ensures limit { IfOk result (λ parts. All (λ part. part.0.limit ≤ 100000) parts.items) }
{
    let mut parts = Vec::new(alloc);
    for kernel in 0..kernels {
        parts.push((making.orders(kernel), NoWatch))?;
    }
    Ok(parts)
}

/// Runs nodes one after the other: the last line of the transcript.
fn run_of(nodes: &mut Nodes) -> Result<Last, NoMemory>
    requires { AreRunnable nodes.old.items }
    ensures { OnOk result (length nodes.new.items ≤ 8) }
{
    let end = run_serial(nodes)?;
    Ok(last_of(end))
}

/// The last line of a run that ended so.
pub(crate) fn last_of(end: End) -> Last {
    match end {
        End::Quiet => Last::Quiet,
        End::Spent { kernel } => Last::Spent(kernel),
    }
}

/// Whether this is the transcript of a run that ended so.
pub(crate) fn is_transcript(alloc: Global, text: &[u8], last: Last) -> bool {
    text.len() < 1_000_000 && audit(alloc, text) == Ok(last)
}

fn courses_of(alloc: Global, nodes: &Nodes) -> Result<Vec<Course>, NoMemory> {
    let mut courses = Vec::new(alloc);
    for node in nodes {
        courses.push(*node.course())?;
    }
    Ok(courses)
}

fn journals_of(alloc: Global, nodes: Nodes) -> Result<Vec<WrittenJournal>, NoMemory>
    ensures { IfOk result (λ journals. length journals.items ≡ length nodes.items) }
{
    let mut journals = Vec::new(alloc);
    for node in nodes {
        let (journal, _) = node.finish();
        journals.push(journal)?;
    }
    Ok(journals)
}

/// The transcript of the run of these nodes.
fn transcript(
    alloc: Global,
    setting: Setting,
    nodes: Nodes,
    last: Last,
) -> Result<Vec<u8>, NoMemory>
    requires { length nodes.items ≤ 8 }
{
    let merged = Merged::of_journals(alloc, journals_of(alloc, nodes)?)?;
    let mut lines = TranscriptLines::of(setting, merged, Items::of(Vec::new(alloc)), last);
    let mut text = Vec::new(alloc);
    let mut line = Vec::new(alloc);
    while lines.next_line(&mut line)? {
        text.extend_from_slice(line.as_slice())?;
    }
    Ok(text)
}
