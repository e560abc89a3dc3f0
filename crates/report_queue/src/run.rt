ghost use Rattle.std.specs.Prelude.{◌≡◌, ◌+◌, ◌≤◌, ◌++◌, [], OnOk, drop, length, option_to_list, take};

use charlotte_calls::NoMemory;
use std::alloc::Global;
use std::marker::Model;

/// A list to which items are added behind, and from which they are taken in front. They lie one after the other, behind the room of those that
/// were taken. Contracts see the items, and for how many more there is room.
#[derive(Drop)]
pub(crate) struct Run<T> {
    items: Vec<T>,
    taken: usize,
}

impl<T> Model for Run<T> {
    ghost use Rattle.std.specs.Prelude.{◌-◌, ◌≤◌, drop, length, vec_capacity, vec_len};
    ghost use Rattle.report_queue.specs.Run.{RunView};

    ghost Value = { RunView T };

    ghost view = { λ r. record { items = drop r.taken r.items.items; room = vec_capacity r.items - vec_len r.items } };

    ghost invariant = { λ r. r.taken ≤ length r.items.items };
}

impl<T: Copy> Run<T> {
    /// No items, and no room.
    pub(crate) fn new(alloc: Global) -> Run<T>
        ensures { result.items ≡ [] }
    {
        Run {
            items: Vec::new(alloc),
            taken: 0,
        }
    }

    /// The first item, where there is one.
    #[inline(always)]
    pub(crate) fn first(&self) -> Option<T>
        ensures { self.now.items ≡ option_to_list result ++ drop 1 self.now.items }
    {
        if self.taken == self.items.len() {
            return None;
        }
        Some(self.items[self.taken])
    }

    /// Room is made for so many more.
    #[inline(always)]
    pub(crate) fn reserve(&mut self, more: usize) -> Result<(), NoMemory>
        ensures items { self.new.items ≡ self.old.items }
        ensures room { OnOk result (more ≤ self.new.room) }
        ensures kept { self.old.room ≤ self.new.room }
    {
        if more <= self.items.capacity() - self.items.len() {
            return Ok(());
        }
        self.make_room(more)
    }

    /// The same where there is less.
    #[inline(never)]
    fn make_room(&mut self, more: usize) -> Result<(), NoMemory>
        ensures items { self.new.items ≡ self.old.items }
        ensures room { OnOk result (more ≤ self.new.room) }
        ensures kept { self.old.room ≤ self.new.room }
    {
        self.move_down();
        self.items.reserve(more)?;
        Ok(())
    }

    /// The items move to the front of their block where they are no more than were taken.
    #[tactic(auto, using(crate::proofs::Taken::left_first))]
    fn move_down(&mut self)
        ensures items { self.new.items ≡ self.old.items }
        ensures room { self.old.room ≤ self.new.room }
    {
        let left = self.items.len() - self.taken;
        if self.taken < left {
            return;
        }
        self.items.rotate_left(self.taken);
        self.items.truncate(left);
        self.taken = 0;
    }

    /// Items join the others, behind them.
    #[inline(always)]
    pub(crate) fn extend(&mut self, more: &[T])
        requires { length more.now ≤ self.old.room }
        ensures items { self.new.items ≡ self.old.items ++ more.now }
        ensures room { self.old.room ≤ self.new.room + length more.now }
    {
        match self.items.extend_from_slice(more) {
            Ok(()) => {}
            Err(_) => unreachable!(),
        }
    }

    /// The first items, so many.
    #[inline(always)]
    #[tactic(auto, using(crate::proofs::Taken::taken_within))]
    pub(crate) fn front(&self, count: usize) -> &[T]
        requires { count ≤ length self.now.items }
        ensures { result.now ≡ take count self.now.items }
    {
        &self.items[self.taken..self.taken + count]
    }

    /// So many items are taken out in front.
    #[inline(always)]
    #[tactic(auto, using(crate::proofs::Taken::taken_within))]
    pub(crate) fn pass(&mut self, count: usize)
        requires { count ≤ length self.old.items }
        ensures items { self.new.items ≡ drop count self.old.items }
        ensures room { self.old.room ≤ self.new.room }
    {
        self.taken += count;
        if self.taken == self.items.len() {
            self.clear();
        }
    }

    /// All items are taken out.
    #[inline(always)]
    pub(crate) fn clear(&mut self)
        ensures items { self.new.items ≡ [] }
        ensures room { self.old.room ≤ self.new.room }
    {
        self.items.clear();
        self.taken = 0;
    }
}
