ghost use Rattle.std.specs.Prelude.{◌≡◌, ◌+◌, ◌<◌, ◌≤◌, ◌++◌, ◌∷◌, [], OnOk, drop, length, nat_eq, option_to_list};
ghost use Rattle.report_queue.specs.Queue.{report_of};

use crate::run::Run;
use charlotte_calls::{Bytes, EndId, Ends, NoMemory, Outcome, Report, Way};
use std::alloc::Global;
use std::marker::Model;

/// So many bytes a report has at most.
const MOST_BYTES: usize = 256;

/// So many ends a report has at most.
const MOST_ENDS: usize = 8;

/// What a report says beside its bytes and ends, and how many it has of them.
#[derive(Clone, Copy)]
pub(crate) struct Head {
    on: EndId,
    way: Way,
    outcome: Outcome,
    bytes: u16,
    ends: u8,
}

/// The reports of a process that were not asked for yet. Contracts see their list, oldest first, and how many more fit without memory.
#[derive(Drop)]
pub struct ReportQueue {
    heads: Run<Head>,
    /// The bytes of all reports, one after the other.
    bytes: Run<u8>,
    /// The ends of all reports.
    ends: Run<EndId>,
    /// For so many more reports there is room.
    fits: usize,
}

impl Model for ReportQueue {
    ghost use Rattle.report_queue.specs.Queue.{QueueView, IsLaid, reports};

    ghost Value = { QueueView };

    ghost view = { λ q. record { items = reports q.heads.items q.bytes.items q.ends.items; fits = q.fits } };

    ghost invariant = { λ q. IsLaid q.heads q.bytes q.ends q.fits };
}

impl ReportQueue {
    /// No reports. It takes no memory.
    pub fn new(alloc: Global) -> ReportQueue
        ensures { result.items ≡ [] }
    {
        ReportQueue {
            heads: Run::new(alloc),
            bytes: Run::new(alloc),
            ends: Run::new(alloc),
            fits: 0,
        }
    }

    /// Whether there are no reports.
    #[inline(always)]
    pub fn is_empty(&self) -> bool
        ensures { result ≡ nat_eq (length self.now.items) 0 }
    {
        match self.heads.first() {
            Some(_) => false,
            None => true,
        }
    }

    /// Room is made for so many more reports.
    #[inline(always)]
    pub fn reserve(&mut self, more: usize) -> Result<(), NoMemory>
        ensures items { self.new.items ≡ self.old.items }
        ensures room { OnOk result (more ≤ self.new.fits) }
        ensures kept { self.old.fits ≤ self.new.fits }
    {
        if more <= self.fits {
            return Ok(());
        }
        self.make_room(more)
    }

    /// The same where less is known to fit.
    #[inline(never)]
    fn make_room(&mut self, more: usize) -> Result<(), NoMemory>
        requires { self.old.fits < more }
        ensures items { self.new.items ≡ self.old.items }
        ensures room { OnOk result (more ≤ self.new.fits) }
        ensures kept { self.old.fits ≤ self.new.fits }
    {
        let bytes = more.checked_mul(MOST_BYTES).ok_or(NoMemory)?;
        self.heads.reserve(more)?;
        self.bytes.reserve(bytes)?;
        self.ends.reserve(more * MOST_ENDS)?;
        self.fits = more;
        Ok(())
    }

    /// A report joins the others, behind them.
    pub fn push(&mut self, report: &Report)
        requires { 1 ≤ self.old.fits }
        ensures items { self.new.items ≡ self.old.items ++ report.now ∷ [] }
        ensures fits { self.new.fits + 1 ≡ self.old.fits }
    {
        let head = head_of(report);
        let bytes = report.bytes.as_slice();
        let ends = report.enclosed.as_slice();
        self.heads.extend(&[head]);
        self.bytes.extend(bytes);
        self.ends.extend(ends);
        self.fits -= 1;
    }

    /// Takes out the oldest report.
    pub fn pop(&mut self) -> Option<Report>
        ensures first { self.old.items ≡ option_to_list result ++ self.new.items }
        ensures rest { self.new.items ≡ drop 1 self.old.items }
        ensures fits { self.new.fits ≡ self.old.fits }
    {
        let head = match self.heads.first() {
            Some(head) => head,
            None => return None,
        };
        let count = usize::from(head.bytes);
        let many = usize::from(head.ends);
        let report = report_of(head, self.bytes.front(count), self.ends.front(many));
        self.heads.pass(1);
        self.bytes.pass(count);
        self.ends.pass(many);
        Some(report)
    }

    /// A report joins the others, and the oldest is taken out.
    #[inline(always)]
    pub fn exchange(&mut self, report: Report) -> Report
        requires { 1 ≤ self.old.fits }
        ensures items { self.old.items ++ report ∷ [] ≡ result ∷ self.new.items }
        ensures fits { self.old.fits ≤ self.new.fits + 1 }
    {
        match self.pop() {
            Some(oldest) => {
                self.push(&report);
                oldest
            }
            None => report,
        }
    }

    /// All reports are taken out.
    pub fn clear(&mut self)
        ensures items { self.new.items ≡ [] }
        ensures fits { self.new.fits ≡ self.old.fits }
    {
        self.heads.clear();
        self.bytes.clear();
        self.ends.clear();
    }
}

/// What a report says beside its bytes and ends, and how many it has.
#[inline(always)]
fn head_of(report: &Report) -> Head
    ensures bytes { result.bytes ≡ length report.now.bytes }
    ensures ends { result.ends ≡ length report.now.enclosed }
    ensures few { result.bytes ≤ 256 }
    ensures some { result.ends ≤ 8 }
    ensures same { report_of result report.now.bytes report.now.enclosed ≡ report.now }
{
    Head {
        on: report.on,
        way: report.way,
        outcome: report.outcome,
        bytes: report.bytes.as_slice().len() as u16,
        ends: report.enclosed.as_slice().len() as u8,
    }
}

/// The report of a head with these bytes and ends.
#[inline(always)]
fn report_of(head: Head, bytes: &[u8], ends: &[EndId]) -> Report
    requires bytes { length bytes.now ≤ 256 }
    requires ends { length ends.now ≤ 8 }
    ensures { result ≡ report_of head bytes.now ends.now }
{
    Report {
        on: head.on,
        way: head.way,
        outcome: head.outcome,
        bytes: bytes_of(bytes),
        enclosed: ends_of(ends),
    }
}

#[inline(always)]
fn bytes_of(bytes: &[u8]) -> Bytes
    requires { length bytes.now ≤ 256 }
    ensures { result ≡ bytes.now }
{
    match Bytes::from_slice(bytes) {
        Some(bytes) => bytes,
        None => unreachable!(),
    }
}

#[inline(always)]
fn ends_of(ends: &[EndId]) -> Ends
    requires { length ends.now ≤ 8 }
    ensures { result ≡ ends.now }
{
    match Ends::from_slice(ends) {
        Some(ends) => ends,
        None => unreachable!(),
    }
}
