//! What dies with a link.

ghost use Rattle.std.specs.Prelude.{◌≡◌};
ghost use Rattle.end_protocol.specs.Falling.{dies, fallen};

use crate::kept::{Accept, Kept, Response, Wanted};
use crate::line::Line;
use crate::messages::{Connect, Message};
use crate::roll::Roll;
use std::alloc::Global;
use std::mem;

/// What falls when an end dies or is destroyed. DEADLINK is raised in the threads that connect and accept, the ends of the connects and of the
/// queue's requests, replies and enc are held again, and those of the messages in part are destroyed.
#[derive(Drop)]
pub struct Fallen {
    pub queue: Line<Message>,
    pub outstanding: Option<Connect>,
    pub behind: Line<Connect>,
    pub request: Option<Wanted>,
    pub reply: Option<Response>,
    pub accepts: Roll<Accept>,
}

impl Kept {
    /// The end is dead: a call was answered Dead, a report says Destroyed, or it is destroyed. It takes no memory.
    #[tactic(auto, unfolding(crate::specs::Falling::dies, crate::specs::Falling::fallen))]
    pub fn die(&mut self, alloc: Global) -> Fallen
        ensures left { self.new ≡ dies self.old }
        ensures fallen { result ≡ fallen self.old }
    {
        self.dead = true;
        self.barred = false;
        self.bindings = Roll::new(alloc);
        Fallen {
            queue: mem::replace(&mut self.queue, Line::new(alloc)),
            outstanding: self.outstanding.take(),
            behind: mem::replace(&mut self.behind, Line::new(alloc)),
            request: self.request.take(),
            reply: self.reply.take(),
            accepts: mem::replace(&mut self.accepts, Roll::new(alloc)),
        }
    }
}
