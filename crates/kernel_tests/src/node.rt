//! Kernel 0 with two processes, one wire and the packets that it sends to itself, and what is told of an event.
ghost use Rattle.std.specs.Prelude.{◌≡◌, ◌<◌, length, IfOk};
ghost use Rattle.charlotte_calls.specs.Setting.{IsValid};

use charlotte_calls::{Answer, Call, EndId, Items, Pid, ServiceStep, Setting};
use charlotte_packets::{Effect, Packet, PacketList, Unsent, What};
use end_table::Lent;
use kernel_core::{Kernel, NotTaken};
use std::alloc::{AllocError, Global};
use std::collections::VecDeque;
use std::fmt::{Debug, Write};
use std::test::Fail;

/// An event of a test sends fewer packets.
const MOST_SENT: usize = 200;

/// The kernel, and the packets that it has not taken, oldest first.
#[derive(Drop)]
pub(crate) struct Node {
    alloc: Global,
    kernel: Kernel,
    flying: VecDeque<Packet>,
    ghost counted: { 2 ≡ length kernel.processes },
    ghost there: { 0 < kernel.kernels },
}

/// One kernel with two processes and a wire between them.
fn setting(alloc: Global) -> Result<Setting, Fail>
    ensures valid { IfOk result (λ s. IsValid s) }
    ensures there { IfOk result (λ s. 0 < s.kernels) }
    ensures two { IfOk result (λ s. length s.homes ≡ 2) }
{
    let homes = vec![in alloc; 0, 0]?;
    let wires = vec![in alloc; (Pid(0), Pid(1))]?;
    let setting = Setting {
        version: 1,
        kernels: 1,
        homes: Items::of(homes),
        wires: Items::of(wires),
    };
    if setting.valid() && setting.homes.len() == 2 {
        Ok(setting)
    } else {
        Err("a bad setting".into())
    }
}

impl Node {
    pub(crate) fn start(alloc: Global) -> Result<Node, Fail> {
        let setting = setting(alloc)?;
        let kernel = Kernel::start(alloc, 0, &setting)?;
        let flying = VecDeque::new(alloc);
        Ok(Node {
            alloc,
            kernel,
            flying,
        })
    }

    /// A process asks. What is told of this event is added. Whether it could ask.
    pub(crate) fn call(&mut self, text: &mut String, p: Pid, call: Call) -> bool {
        if p.0 >= 2 {
            return false;
        }
        self.kernel.forget_answer(p);
        if !self.kernel.running(p) {
            return false;
        }
        match self.kernel.call(p, call) {
            Ok(effect) => self.tell(text, effect),
            Err(_) => false,
        }
    }

    /// The kernel takes its oldest packet.
    pub(crate) fn take(&mut self, text: &mut String) -> bool {
        match self.flying.pop_front() {
            Some(packet) => self.take_this(text, packet),
            None => false,
        }
    }

    /// The kernel takes a packet that no kernel sent.
    pub(crate) fn take_this(&mut self, text: &mut String, packet: Packet) -> bool {
        match self.kernel.take(0, packet) {
            Ok(effect) => self.tell(text, effect),
            Err(NotTaken { packet: _ }) => false,
        }
    }

    /// Adds what is told of an event: its stamp, which phase each process is in, the answers, the packets, and the steps.
    fn tell(&mut self, text: &mut String, effect: Effect) -> bool {
        let is_told = self.push_event(text, effect.stamp);
        let are_answers = self.push_answers(text, effect.answered.as_slice());
        let are_sent = self.send(text, effect.packets, effect.stamp);
        let are_steps = push_steps(self.alloc, text, effect.steps.as_slice()).is_ok();
        is_told && are_answers && are_sent && are_steps
    }

    /// The stamp of an event, which is the kernel's, and which phase each process is in.
    fn push_event(&self, text: &mut String, stamp: u64) -> bool {
        let (first, second) = (self.phase(Pid(0)), self.phase(Pid(1)));
        self.kernel.stamp() == stamp && write!(text, "{stamp} {first}{second}").is_ok()
    }

    /// Runs, waits, or has ended.
    fn phase(&self, p: Pid) -> char {
        if p.0 >= 2 {
            return '-';
        }
        if self.kernel.waiting(p) {
            'w'
        } else if self.kernel.running(p) {
            'r'
        } else {
            'e'
        }
    }

    /// Takes the standing answers of these processes, and adds them.
    fn push_answers(&mut self, text: &mut String, answered: &[Pid]) -> bool {
        for p in answered {
            if p.0 < 2 && !self.push_taken(text, *p) {
                return false;
            }
        }
        true
    }

    /// Takes the standing answer of a process, and adds it. Whether it is the one that is lent before, and none is lent after.
    fn push_taken(&mut self, text: &mut String, p: Pid) -> bool
        requires { p.0 < 2 }
    {
        let Ok(lent) = shown(self.alloc, self.kernel.standing_answer(p)) else {
            return false;
        };
        let answer = self.kernel.answer(p);
        let Ok(taken) = shown(self.alloc, answer.as_ref()) else {
            return false;
        };
        lent.as_str() == taken.as_str()
            && self.kernel.standing_answer(p).is_none()
            && push_answer(text, p.0, answer).is_ok()
    }

    /// The packets of an event fly, and their kinds are added. Whether they are few, have its stamp, and are for this kernel.
    fn send(&mut self, text: &mut String, packets: PacketList, stamp: u64) -> bool {
        let mut unsent = Unsent::of(packets);
        for _ in 0..MOST_SENT {
            match unsent.pop_front() {
                None => return true,
                Some((to, packet)) => {
                    if to != 0 || !self.fly(text, packet, stamp) {
                        return false;
                    }
                }
            }
        }
        false
    }

    /// A packet flies, and its kind is added. Whether it has this stamp.
    fn fly(&mut self, text: &mut String, packet: Packet, stamp: u64) -> bool {
        let is_own = packet.stamp == stamp;
        let is_told = push_kind(self.alloc, text, " >", &packet.picture().what).is_ok();
        let is_kept = self.flying.push_back(packet).is_ok();
        is_own && is_told && is_kept
    }

    /// The end to which the packet at this place flies, where that tells of destruction.
    pub(crate) fn told_end(&self, at: usize) -> Option<EndId> {
        match self.flying.get(at) {
            Some(packet) => match &packet.what {
                What::Gone { to, .. } => Some(*to),
                _ => None,
            },
            None => None,
        }
    }

    /// Which receive asks an end, where that is here, is added.
    pub(crate) fn tell_asked(&self, text: &mut String, end: EndId) -> bool {
        match self.kernel.table().lend(end) {
            Lent::Here(living) => write!(text, "asked {}", living.value().want).is_ok(),
            _ => text.push_str("not here").is_ok(),
        }
    }
}

/// An answer, where one stands.
fn shown(alloc: Global, answer: Option<&Answer>) -> Result<String, AllocError> {
    match answer {
        None => format!(in alloc; "none"),
        Some(answer) => format!(in alloc; "{answer:?}"),
    }
}

/// As ` p1 Ok`; of a report its way and its outcome, and of a link that was made its number.
fn push_answer(text: &mut String, p: u16, answer: Option<Answer>) -> Result<(), AllocError> {
    match answer {
        None => write!(text, " p{p} none"),
        Some(Answer::Made(a, _)) => write!(text, " p{p} Made {}", a.link.count),
        Some(Answer::Reported(report)) => {
            write!(text, " p{p} {:?} {:?}", report.way, report.outcome)
        }
        Some(answer) => write!(text, " p{p} {answer:?}"),
    }
}

fn push_steps(alloc: Global, text: &mut String, steps: &[ServiceStep]) -> Result<(), AllocError> {
    for step in steps {
        push_kind(alloc, text, " .", step)?;
    }
    Ok(())
}

/// Adds the name of a variant, behind a sign.
fn push_kind<A: Debug>(
    alloc: Global,
    text: &mut String,
    sign: &str,
    value: &A,
) -> Result<(), AllocError> {
    let whole = format!(in alloc; "{value:?}")?;
    text.push_str(sign)?;
    text.push_str(whole.split(' ').next().unwrap_or("?"))
}
