//! Refusals of the broker and its streams.

ghost use Rattle.std.specs.Prelude.{◌≡◌, is_some, option_map};
ghost use Rattle.diagnostic_texts.specs.Headings.{connection_heading, first_line, is_within};

const NO_SUCH_CONNECTION: &str = "100 NoSuchConnection
Octets or an end came for a connection that hasn't begun, or has ended.
Input: a piece for connection 1 of a broker without connections.
To mend it: begin the connection first.
Mended: a begin of connection 1, and then the piece.
";

const ALREADY_THERE: &str = "101 AlreadyThere
A connection begins that is there already.
Input: two begins of connection 1 without an end between.
To mend it: give each open connection a number of its own.
Mended: a begin of connection 1 and a begin of connection 2.
";

const READ_FAILED: &str = "102 ReadFailed
A stream couldn't be read. What was read before has been answered, and the connection has ended.
Input: a socket whose peer has gone away.
To mend it: connect again.
Mended: a new connection.
";

const WRITE_FAILED: &str = "103 WriteFailed
An answer couldn't be written whole. So many octets of the stream's answers went out as the
number behind sent says, and the connection has ended.
Input: a socket whose peer takes no more octets.
To mend it: connect again; the calls whose answers are missing may have been made.
Mended: a new connection.
";

const NO_MEMORY: &str = "104 NoMemory
Memory was refused. At a begin nothing has changed; while octets were served the connection is
closed, and its calls up to some one of them have been made.
Input: a broker that may take no memory.
To mend it: give it more memory, or send smaller messages.
Mended: the same broker with memory.
";

const READ_LIMIT: &str = "105 ReadLimit
A stream was read 4,294,967,296 times, as often as one may be, and hasn't ended.
Input: a connection that sends so often.
To mend it: connect again.
Mended: a new connection.
";

const TOO_MANY: &str = "106 TooMany
A connection begins while 64 others are there.
Input: 65 begins without an end between.
To mend it: end a connection first.
Mended: 65 begins, and an end among them.
";

/// Those with the numbers 100 to 106.
pub(crate) fn of_connections(number: u8) -> Option<&'static str>
    ensures there { is_some result ≡ is_within 100 106 number }
    ensures headed { option_map (λ text. first_line text.now) result ≡ connection_heading number }
{
    match number {
        100 => Some(NO_SUCH_CONNECTION),
        101 => Some(ALREADY_THERE),
        102 => Some(READ_FAILED),
        103 => Some(WRITE_FAILED),
        104 => Some(NO_MEMORY),
        105 => Some(READ_LIMIT),
        106 => Some(TOO_MANY),
        _ => None,
    }
}
