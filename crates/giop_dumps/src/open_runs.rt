//! Runs of fragments that are open, by their numbers.

ghost use Rattle.std.specs.Prelude.{◌≡◌, ◌≤◌, ◌+◌, [], length, true, None, OnOk, IfOk, IfSome, IfNone, nat_lt, nat_le};
ghost use Rattle.giop_messages.specs.Heads.{max_size};
ghost use Rattle.giop_dumps.specs.OpenRuns.{AreWithin, IsOldest, MakesRoom, Opens, has_room as has_room_in, is_before as is_before_in, left_by, run_of, with_run, without};

use crate::open::OpenMessage;
use giop_messages::{cancels, message_id};
use std::alloc::{AllocError, Global};
use std::collections::BTreeMap;
use std::marker::Model;

/// So many runs are open at once, of a direction.
const MAX_OPEN: usize = 64;

/// So many octets they have together.
const MAX_HELD: usize = 4_194_304;

/// The runs of a direction that are open. They are sought by the order of their numbers, so that no choice
/// of these makes that slow.
#[derive(Drop)]
pub(crate) struct OpenRuns {
    runs: BTreeMap<u32, OpenMessage>,
    held: usize,
}

impl Model for OpenRuns {
    ghost use Rattle.giop_dumps.specs.OpenRuns.{AreHeld, Runs};

    ghost Value = { Runs };

    ghost view = { λ r. r.runs.entries };

    ghost invariant = { λ r. AreHeld r.runs.entries r.held };
}

/// Whether a place is before that of the oldest so far.
fn is_before(place: u64, oldest: Option<(u32, u64)>) -> bool
    ensures { result ≡ is_before_in place oldest }
{
    match oldest {
        Some((_, last)) => place < last,
        None => true,
    }
}

impl OpenRuns {
    /// None. Takes no memory.
    pub(crate) fn new(alloc: Global) -> OpenRuns
        ensures { result ≡ [] }
    {
        OpenRuns {
            runs: BTreeMap::new(alloc),
            held: 0,
        }
    }

    /// How many there are.
    pub(crate) fn len(&self) -> usize
        ensures value { result ≡ length self.now }
        ensures few { AreWithin self.now }
    {
        self.runs.len()
    }

    /// Takes out the run with a number.
    pub(crate) fn take(&mut self, id: u32) -> Option<OpenMessage>
        ensures taken { result ≡ run_of id self.old }
        ensures left { self.new ≡ without id self.old }
        ensures none { IfNone result (self.new ≡ self.old) }
    {
        let _count = self.runs.len();
        let run = self.runs.remove(&id)?;
        self.held -= run.octets().len();
        Some(run)
    }

    /// Whether one more of so many octets may be open.
    fn has_room(&self, len: usize) -> bool
        requires { len ≤ 12 + max_size }
        ensures { result ≡ has_room_in len self.now }
    {
        self.runs.len() < MAX_OPEN && self.held + len <= MAX_HELD
    }

    /// The number of the run whose last piece came before that of all others.
    fn oldest(&self) -> Option<u32>
        ensures some { IfSome result (λ id. IsOldest id self.now) }
        ensures none { IfNone result (self.now ≡ []) }
    {
        let _count = self.runs.len();
        let mut oldest: Option<(u32, u64)> = None;
        for (id, run) in &self.runs {
            let last = run.last();
            if is_before(last, oldest) {
                oldest = Some((*id, last));
            }
        }
        match oldest {
            Some((id, _)) => Some(id),
            None => None,
        }
    }

    /// Lets the oldest go until one more of so many octets may be open, and gives a line for each.
    fn make_room(&mut self, alloc: Global, len: usize) -> Result<String, AllocError>
        requires { len ≤ 12 + max_size }
        ensures room { OnOk result (has_room_in len self.new ≡ true) }
        ensures made { OnOk result (MakesRoom len self.old self.new) }
    {
        let mut lines = String::new(alloc);
        while !self.has_room(len) {
            let Some(id) = self.oldest() else {
                unreachable!();
            };
            let _ = self.take(id);
            lines.push_str(unfinished(alloc, id)?.as_str())?;
        }
        Ok(lines)
    }

    /// Opens a run under a number. The lines tell which others are let go of for it.
    ///
    /// # Errors
    /// Want of memory.
    pub(crate) fn put(
        &mut self,
        alloc: Global,
        id: u32,
        run: OpenMessage,
    ) -> Result<String, AllocError>
        ensures { OnOk result (Opens run.last id run.octets self.old self.new) }
    {
        let len = run.octets().len();
        let lines = self.make_room(alloc, len)?;
        let _count = self.runs.len();
        let replaced = match self.runs.insert(id, run)? {
            Some(other) => other.octets().len(),
            None => 0,
        };
        self.held = (self.held + len).saturating_sub(replaced);
        Ok(lines)
    }

    /// Lets go of the run that a message cancels, if it cancels one.
    #[tactic(auto, unfolding(giop_messages::specs::Framing::cancels))]
    pub(crate) fn cancel(&mut self, message: &[u8])
        ensures { self.new ≡ left_by message.now self.old }
    {
        if message.len() < 16 {
            return;
        }
        let id = message_id(message);
        let is_cancelled = match self.runs.get(&id) {
            Some(run) => cancels(run.octets(), message),
            None => false,
        };
        if is_cancelled {
            let _ = self.take(id);
        }
    }
}

/// The line of a run that is let go of before its last piece came.
pub(crate) fn unfinished(alloc: Global, id: u32) -> Result<String, AllocError> {
    format!(in alloc; "  unfinished id {id}\n")
}
