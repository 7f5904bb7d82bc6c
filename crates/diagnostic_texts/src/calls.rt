//! Refusals of calls: references as URLs, and what servers say.

ghost use Rattle.std.specs.Prelude.{◌≡◌, is_some, option_map};
ghost use Rattle.diagnostic_texts.specs.Headings.{call_heading, first_line, is_within};

const BAD_CORBALOC: &str = "130 BadCorbaloc
A URL names no object: its protocol isn't iiop, its version none of 1.0 to 1.2, its port no number
up to 65535, its host or key none, or it has several addresses.
Input, as a reference:
    corbaloc:rir:/NameService
To mend it: name the host, the port and the key.
Mended:
    corbaloc:iiop:1.2@localhost:2809/NameService
";

const BAD_MESSAGE: &str = "131 BadMessage
A server sent what is no message of GIOP 1.2, or a message that no server may send. The number and
name behind it say what is wrong.
Input, from the server:
    58494f50 01020001 00000000
To mend it: call an object at a port of IIOP, whose server speaks GIOP 1.2.
Mended, from the server:
    47494f50 01020001 0000000c 00000001 00000000 00000000
";

const BAD_REPLY: &str = "132 BadReply
The reply to the call has no header that is one: it ends inside, or its status is unknown.
Input, from the server:
    47494f50 01020001 0000000c 00000001 00000006 00000000
To mend it: the server is to send a reply of one of the statuses 0 to 5.
Mended, from the server:
    47494f50 01020001 0000000c 00000001 00000000 00000000
";

const MESSAGE_ERROR: &str = "133 MessageError
The server says that a message that it was sent is none.
Input, from the server:
    47494f50 01020006 00000000
To mend it: call a server that speaks GIOP 1.2.
Mended, from the server:
    47494f50 01020001 0000000c 00000001 00000000 00000000
";

const CLOSE_CONNECTION: &str = "134 CloseConnection
The server closed the connection before it answered the call. The call wasn't made.
Input, from the server:
    47494f50 01020005 00000000
To mend it: call again.
Mended, from the server:
    47494f50 01020001 0000000c 00000001 00000000 00000000
";

const READ_FAILED: &str = "135 ReadFailed
The connection couldn't be read before the answer had come. The call may have been made.
Input: a server that goes away.
To mend it: call again, where the call may be made twice.
Mended: a server that stays.
";

const END_OF_STREAM: &str = "136 EndOfStream
The server ended the connection before the answer had come. The call may have been made.
Input: a server that ends each connection at once.
To mend it: call again, where the call may be made twice.
Mended: a server that answers first.
";

const READ_LIMIT: &str = "137 ReadLimit
As many reads gave octets as may, and no answer has come.
Input: a server that sends replies to other calls without an end.
To mend it: call another server.
Mended: a server that answers the call.
";

const WRITE_FAILED: &str = "138 WriteFailed
The request couldn't be written whole. So many of its octets went out as the number behind sent
says.
Input: a server that takes no more octets.
To mend it: call again.
Mended: a server that reads.
";

const OTHER_BODY: &str = "139 OtherBody
The body of the reply isn't what its status says: no value of the result's type, no exception that
the operation may raise, or none of the other forms.
Input, from the server, for an operation that returns a long:
    47494f50 01020001 0000000c 00000001 00000000 00000000
To mend it: call the object with the table of the interface that its server was built from.
Mended, from the server:
    47494f50 01020001 00000010 00000001 00000000 00000000 00000007
";

const TOO_MANY_FORWARDS: &str = "140 TooManyForwards
The object was said to be elsewhere for the ninth time: a call is forwarded 8 times at most.
Input: a server that forwards each call to its own port.
To mend it: call the object by a reference to where it is.
Mended: a server that answers the call.
";

const NEEDS_ADDRESSING_MODE: &str = "141 NeedsAddressingMode
The server asks for a form of address that can't be had: one that there isn't, or once more for one
when the object was named as it had asked. Asked once, the call is made again in that form.
Input: a server that answers each request with the status NEEDS_ADDRESSING_MODE.
To mend it: call the object by a server that takes the form for which it asks.
Mended: a server that answers the second request.
";

/// Those with the numbers 130 to 141.
pub(crate) fn of_calls(number: u8) -> Option<&'static str>
    ensures there { is_some result ≡ is_within 130 141 number }
    ensures headed { option_map (λ text. first_line text.now) result ≡ call_heading number }
{
    match number {
        130 => Some(BAD_CORBALOC),
        131 => Some(BAD_MESSAGE),
        132 => Some(BAD_REPLY),
        133 => Some(MESSAGE_ERROR),
        134 => Some(CLOSE_CONNECTION),
        135 => Some(READ_FAILED),
        136 => Some(END_OF_STREAM),
        137 => Some(READ_LIMIT),
        138 => Some(WRITE_FAILED),
        139 => Some(OTHER_BODY),
        140 => Some(TOO_MANY_FORWARDS),
        141 => Some(NEEDS_ADDRESSING_MODE),
        _ => None,
    }
}
