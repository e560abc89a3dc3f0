//! The kinds of runs: kernels, processes, wires, and the moves of each process.
ghost use Rattle.std.specs.Prelude.{◌≢◌, ◌<◌};

use crate::moves::Move;
use charlotte_calls::{EndId, Items, LinkId, NoMemory, Pid, Setting, Side};
use std::alloc::Global;

/// How many thoughts come before a message.
const THOUGHTS: u32 = 50;

/// A kind of runs.
#[derive(Clone, Copy)]
pub(crate) enum Kind {
    /// Two kernels send each other a message in turn.
    Ping,
    /// A message goes round eight kernels.
    Ring,
    /// Eight kernels, two and two of which send each other a message in turn.
    Pairs,
    /// Each of eight kernels sends each other one a message, and receives one.
    All,
    /// As two of them do, beside six kernels without processes.
    Hot,
    /// As pairs of processes do on one kernel, 32 of them.
    Crowd,
    /// As pairs, with work between the messages.
    Think,
    /// The same work without messages.
    Alone,
}

/// What a run consists of.
#[derive(Drop)]
pub(crate) struct Plan {
    pub(crate) setting: Setting,
    /// The moves of each process.
    pub(crate) moves: Vec<Vec<Move>>,
}

impl Kind {
    pub(crate) fn of(word: &str) -> Option<Kind> {
        match word {
            "ping" => Some(Kind::Ping),
            "ring" => Some(Kind::Ring),
            "pairs" => Some(Kind::Pairs),
            "all" => Some(Kind::All),
            "hot" => Some(Kind::Hot),
            "crowd" => Some(Kind::Crowd),
            "think" => Some(Kind::Think),
            "alone" => Some(Kind::Alone),
            _ => None,
        }
    }

    pub(crate) fn plan(self, alloc: Global) -> Result<Plan, NoMemory> {
        match self {
            Kind::Ping => pairs(alloc, 2, 2, 0),
            Kind::Ring => ring(alloc),
            Kind::Pairs => pairs(alloc, 8, 8, 0),
            Kind::All => all_pairs(alloc),
            Kind::Hot => pairs(alloc, 8, 2, 0),
            Kind::Crowd => pairs(alloc, 1, 64, 0),
            Kind::Think => pairs(alloc, 8, 8, THOUGHTS),
            Kind::Alone => alone(alloc),
        }
    }
}

/// A setting without wires: so many processes, on the kernels in turn.
fn setting(alloc: Global, kernels: u8, processes: u8) -> Result<Setting, NoMemory>
    requires { 0 < kernels }
{
    let mut homes = Vec::new(alloc);
    for process in 0..processes {
        homes.push(process % kernels)?;
    }
    Ok(Setting {
        version: 1,
        kernels,
        homes: Items::of(homes),
        wires: Items::of(Vec::new(alloc)),
    })
}

fn end(maker: u8, count: u32, side: Side) -> EndId {
    EndId {
        link: LinkId { maker, count },
        side,
    }
}

/// So many thoughts, and no other move yet.
fn thoughts(alloc: Global, count: u32) -> Result<Vec<Move>, NoMemory> {
    let mut moves = Vec::new(alloc);
    for _ in 0..count {
        moves.push(Move::Think)?;
    }
    Ok(moves)
}

/// An activity, and the Wait for its report.
fn push(moves: &mut Vec<Move>, activity: Move) -> Result<(), NoMemory> {
    moves.push(activity)?;
    moves.push(Move::Wait)?;
    Ok(())
}

/// Processes two and two of which send each other a message in turn, after so many thoughts.
fn pairs(alloc: Global, kernels: u8, processes: u8, think: u32) -> Result<Plan, NoMemory>
    requires { 0 < kernels }
{
    let mut wires = Vec::new(alloc);
    let mut moves = Vec::new(alloc);
    for pair in 0..processes / 2 {
        let first = 2 * pair;
        let (maker, count) = if kernels == 1 {
            (0, u32::from(pair))
        } else {
            (first, 0)
        };
        let mut one = thoughts(alloc, think)?;
        push(&mut one, Move::Send(end(maker, count, Side::A)))?;
        push(&mut one, Move::Receive(end(maker, count, Side::A)))?;
        let mut other = thoughts(alloc, think)?;
        push(&mut other, Move::Receive(end(maker, count, Side::B)))?;
        push(&mut other, Move::Send(end(maker, count, Side::B)))?;
        wires.push((Pid(u16::from(first)), Pid(u16::from(first) + 1)))?;
        moves.push(one)?;
        moves.push(other)?;
    }
    let setting = Setting {
        wires: Items::of(wires),
        ..setting(alloc, kernels, processes)?
    };
    Ok(Plan { setting, moves })
}

/// A message goes round.
fn ring(alloc: Global) -> Result<Plan, NoMemory> {
    let mut wires = Vec::new(alloc);
    let mut moves = Vec::new(alloc);
    for kernel in 0..8u8 {
        let sends = Move::Send(end(kernel, 0, Side::A));
        let receives = Move::Receive(end((kernel + 7) % 8, 0, Side::B));
        let (first, second) = if kernel == 0 {
            (sends, receives)
        } else {
            (receives, sends)
        };
        let mut own = Vec::new(alloc);
        push(&mut own, first)?;
        push(&mut own, second)?;
        wires.push((Pid(u16::from(kernel)), Pid(u16::from((kernel + 1) % 8))))?;
        moves.push(own)?;
    }
    let setting = Setting {
        wires: Items::of(wires),
        ..setting(alloc, 8, 8)?
    };
    Ok(Plan { setting, moves })
}

/// The end of a process of the link that it has with another, where each two of eight have one.
fn end_with(own: u8, other: u8) -> EndId
    requires { own ≢ other }
{
    if own < other {
        end(own, u32::from(other - own - 1), Side::A)
    } else {
        end(other, u32::from(own - other - 1), Side::B)
    }
}

/// Each sends each other one a message, and receives one.
fn all_pairs(alloc: Global) -> Result<Plan, NoMemory> {
    let mut wires = Vec::new(alloc);
    let mut moves = Vec::new(alloc);
    for own in 0..8u8 {
        let mut asked = Vec::new(alloc);
        for other in 0..8u8 {
            if own < other {
                wires.push((Pid(u16::from(own)), Pid(u16::from(other))))?;
            }
            if own != other {
                asked.push(Move::Send(end_with(own, other)))?;
                asked.push(Move::Receive(end_with(own, other)))?;
            }
        }
        for _ in 0..14 {
            asked.push(Move::Wait)?;
        }
        moves.push(asked)?;
    }
    let setting = Setting {
        wires: Items::of(wires),
        ..setting(alloc, 8, 8)?
    };
    Ok(Plan { setting, moves })
}

/// Eight processes that think.
fn alone(alloc: Global) -> Result<Plan, NoMemory> {
    let mut moves = Vec::new(alloc);
    for _ in 0..8 {
        moves.push(thoughts(alloc, THOUGHTS)?)?;
    }
    Ok(Plan {
        setting: setting(alloc, 8, 8)?,
        moves,
    })
}
