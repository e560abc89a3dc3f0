use crate::PacketList;
use charlotte_calls::{Answer, Pid, Report, ServiceStep};

/// What one event of a kernel gives to the outside.
#[derive(Drop)]
pub struct Effect {
    pub stamp: u64,
    /// The packets sent, each with the kernel that it goes to, in order.
    pub packets: PacketList,
    /// The process for which an answer came to stand in the event, if there is one.
    pub answered: Vec<Pid>,
    /// What the event means to the link service, in order.
    pub steps: Vec<ServiceStep>,
}

/// What the parts of one event add, each list in order.
#[derive(Drop)]
pub struct Work {
    pub stamp: u64,
    /// The packets to be sent, each with the kernel that it goes to.
    pub packets: PacketList,
    /// The reports, each for the process whose list it joins.
    pub reports: Vec<(Pid, Report)>,
    /// The answers to Cancels that waited.
    pub answers: Vec<(Pid, Answer)>,
    /// What the event means to the link service.
    pub steps: Vec<ServiceStep>,
}

/// How much spare room the lists of a `Work` need or have.
#[derive(Clone, Copy, Debug, PartialEq, Eq)]
pub struct Room {
    pub packets: u32,
    pub reports: u32,
    pub answers: u32,
    pub steps: u32,
}
