//! The messages of a stream of octets, counted.

ghost use Rattle.std.specs.Prelude.{◌<◌, ◌≤◌, length};

/// So many octets are looked at one by one: those of a head, and of a reply its number and how it
/// ends.
const LOOKED_AT: u64 = 20;

/// The kinds of messages that are counted, and how a reply ends that is a system exception (GIOP).
const REQUEST: u8 = 0;

const REPLY: u8 = 1;

const MESSAGE_ERROR: u8 = 6;

const SYSTEM_EXCEPTION: u32 = 2;

/// How many messages of a kind a stream has had, and how far the one is that is coming.
#[derive(Drop)]
pub(crate) struct Tally {
    pub(crate) requests: u64,
    pub(crate) replies: u64,
    /// Replies that are system exceptions, and messages that say that one before was none.
    pub(crate) refusals: u64,
    /// So many octets of the message have come.
    at: u64,
    kind: u8,
    is_little: bool,
    size: u32,
    status: u32,
}

/// A number with one octet more, in the order of the message.
fn widened(number: u32, octet: u8, is_little: bool) -> u32 {
    if is_little {
        number >> 8 | u32::from(octet) << 24
    } else {
        number << 8 | u32::from(octet)
    }
}

impl Tally {
    pub(crate) fn new() -> Tally {
        Tally {
            requests: 0,
            replies: 0,
            refusals: 0,
            at: 0,
            kind: 0,
            is_little: false,
            size: 0,
            status: 0,
        }
    }

    /// Looks at one octet near the front of a message.
    fn look_at(&mut self, octet: u8) {
        match self.at {
            6 => self.is_little = octet % 2 == 1,
            7 => self.kind = octet,
            8..=11 => self.size = widened(self.size, octet, self.is_little),
            16..=19 => self.status = widened(self.status, octet, self.is_little),
            _ => {}
        }
        self.at = self.at.saturating_add(1);
    }

    /// Passes over octets of a message: how many of so many, which aren't none.
    fn pass(&mut self, most: usize) -> usize
        requires { 0 < most }
        ensures some { 0 < result }
        ensures within { result ≤ most }
    {
        let left = (u64::from(self.size) + 12).saturating_sub(self.at);
        let n = usize::try_from(left).unwrap_or(most).min(most).max(1);
        self.at = self.at.saturating_add(n as u64);
        n
    }

    /// Counts the message, and begins the next.
    fn count(&mut self) {
        let is_refusal = match self.kind {
            REPLY => self.status == SYSTEM_EXCEPTION,
            _ => self.kind == MESSAGE_ERROR,
        };
        if self.kind == REQUEST {
            self.requests = self.requests.saturating_add(1);
        }
        if self.kind == REPLY {
            self.replies = self.replies.saturating_add(1);
        }
        if is_refusal {
            self.refusals = self.refusals.saturating_add(1);
        }
        self.at = 0;
        self.size = 0;
        self.status = 0;
    }

    /// The octets that come next in the stream.
    pub(crate) fn see(&mut self, octets: &[u8]) {
        let mut seen = 0;
        while seen < octets.len() {
            if self.at < LOOKED_AT {
                self.look_at(octets[seen]);
                seen += 1;
            } else {
                seen += self.pass(octets.len() - seen);
            }
            if self.at >= 12 && self.at >= u64::from(self.size) + 12 {
                self.count();
            }
        }
    }
}
