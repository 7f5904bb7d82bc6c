//! Refusals of captures, and of what messages in them say.

ghost use Rattle.std.specs.Prelude.{◌≡◌, is_some, option_map};
ghost use Rattle.diagnostic_texts.specs.Headings.{capture_heading, first_line, is_within};

const BAD_CAPTURE: &str = "142 BadCapture
A file is no capture: it begins neither with a message of GIOP nor as what tshark prints of a
connection; or a line of that text isn't of its form. The line is printed.
Input, a file:
    hello
To mend it: capture the octets of one direction, or print both by tshark -q -z follow,tcp,raw,N.
Mended, a file that begins so:
    GIOP
";

const UNKNOWN_OPERATION: &str = "143 UnknownOperation
The table has no operation of the name that a request has. Its body, and that of its reply, are
printed as octets.
Input: a request of the operation ping, and a table without one.
To mend it: name the table of the interface that the server was built from.
Mended: the same request, and the table of interface Hello {void ping();};
";

const NO_REQUEST: &str = "144 NoRequest
The request of a reply isn't in the capture before it, or too many were open since. The body of
the reply is printed as octets.
Input: a capture of what a server sent alone.
To mend it: capture both directions.
Mended: a capture of both directions, in two files or as tshark prints it.
";

const OTHER_ARGUMENTS: &str = "145 OtherArguments
The body of a request isn't the arguments of its operation.
Input: a request of the operation add of interface A {void add(in long n);}; with two octets behind
its header.
To mend it: name the table of the interface that the client was built from.
Mended: the same request with four octets there.
";

const CUT_MESSAGE: &str = "146 CutMessage
A capture ends within a message.
Input, the octets of a direction:
    47494f50 01020005 000000
To mend it: capture to the end of the connection.
Mended, the octets of a direction:
    47494f50 01020005 00000000
";

/// Those with the numbers 142 to 146.
pub(crate) fn of_captures(number: u8) -> Option<&'static str>
    ensures there { is_some result ≡ is_within 142 146 number }
    ensures headed { option_map (λ text. first_line text.now) result ≡ capture_heading number }
{
    match number {
        142 => Some(BAD_CAPTURE),
        143 => Some(UNKNOWN_OPERATION),
        144 => Some(NO_REQUEST),
        145 => Some(OTHER_ARGUMENTS),
        146 => Some(CUT_MESSAGE),
        _ => None,
    }
}
