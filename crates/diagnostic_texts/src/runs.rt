//! Refusals of the runner, which writes octets of tapes and reads octets to tapes.

ghost use Rattle.std.specs.Prelude.{◌≡◌, is_some, option_map};
ghost use Rattle.diagnostic_texts.specs.Headings.{first_line, is_within, run_heading};

const SHORT: &str = "60 Short
The octets or the tape end before the value does, or a count is over what is left of them.
Input:
    idlc decode builtin S big 0 07FFEEDD00000001
To mend it: give the whole value, and look at its position and its byte order.
Mended:
    idlc decode builtin S big 0 070000000000000100000003686900
";

const BAD_BOOL: &str = "61 BadBool
A boolean is an octet other than 0 and 1.
Input: the octet 02 read as a boolean.
To mend it: write 00 or 01; where it is right, look whether the type is the one that was sent.
Mended: the octet 01 read as a boolean.
";

const BAD_ENUM: &str = "62 BadEnum
An enumerator's number is past the last one.
Input: the octets 00000003 in big order, read as an enumeration of three.
To mend it: write a number below the count of enumerators, from 0 in the order of declaration.
Mended: the octets 00000002 in big order, read as an enumeration of three.
";

const BAD_LENGTH: &str = "63 BadLength
The length of a text leaves no room for its terminating zero: it is 0 in octets, or
4,294,967,295 on a tape. The empty text has length 1 in octets.
Input:
    idlc decode builtin S big 0 070000000000000100000000
To mend it: count the zero in octets, and don't count it on a tape.
Mended:
    idlc decode builtin S big 0 07000000000000010000000100
";

const NO_TERMINATOR: &str = "64 NoTerminator
The last octet of a text, which its length counts, isn't zero.
Input:
    idlc decode builtin S big 0 07000000000000010000000141
To mend it: put a zero behind the text, and count it.
Mended:
    idlc decode builtin S big 0 0700000000000001000000024100
";

const ZERO_INSIDE: &str = "65 ZeroInside
A zero octet stands inside a text.
Input:
    idlc decode builtin S big 0 070000000000000100000003410000
To mend it: take it out, or send a sequence of octets in place of a text.
Mended:
    idlc decode builtin S big 0 0700000000000001000000024100
";

const OVER_BOUND: &str = "66 OverBound
A text or a sequence is longer than its type allows.
Input: a text of five letters for string<4>, or a count of 5 for sequence<long, 4>.
To mend it: give at most as many as the bound.
Mended: a text of four letters for string<4>, or a count of 4 for sequence<long, 4>.
";

const VALUE_TOO_DEEP: &str = "67 TooDeep
A value has more than 64 sequences one inside another, empty ones counted.
Input: a chain of 65 nodes of struct Node { octet value; sequence<Node> next; }.
To mend it: send the chain as one sequence of values.
Mended: a sequence of 65 octets.
";

const TAPE_LEFT: &str = "68 TapeLeft
The tape goes on behind the value.
Input:
    idlc encode builtin S big 0 070000000100000002686900
To mend it: give the tape of one value; the terminating zero of a text isn't on it.
Mended:
    idlc encode builtin S big 0 0700000001000000026869
";

/// Those with the numbers 60 to 68.
pub(crate) fn of_runs(number: u8) -> Option<&'static str>
    ensures there { is_some result ≡ is_within 60 68 number }
    ensures headed { option_map (λ text. first_line text.now) result ≡ run_heading number }
{
    match number {
        60 => Some(SHORT),
        61 => Some(BAD_BOOL),
        62 => Some(BAD_ENUM),
        63 => Some(BAD_LENGTH),
        64 => Some(NO_TERMINATOR),
        65 => Some(ZERO_INSIDE),
        66 => Some(OVER_BOUND),
        67 => Some(VALUE_TOO_DEEP),
        68 => Some(TAPE_LEFT),
        _ => None,
    }
}
