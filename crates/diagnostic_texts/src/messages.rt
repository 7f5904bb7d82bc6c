//! Refusals of messages and references.

ghost use Rattle.std.specs.Prelude.{◌≡◌, is_some, option_map};
ghost use Rattle.diagnostic_texts.specs.Headings.{first_line, is_within, message_heading};

const NOT_GIOP: &str = "90 NotGiop
The octets don't begin with the letters GIOP, so they are no message.
Input, a message of these octets:
    47455420 2f204854 54502f31
To mend it: send messages of GIOP; where a browser calls, this isn't its server.
Mended, a message of these octets:
    47494f50 01020005 00000000
";

const GIOP_VERSION: &str = "91 Version
A message is of another version of GIOP than 1.2.
Input, a message of these octets:
    47494f50 01000000 00000000
To mend it: have the peer speak GIOP 1.2, which the profile of the reference says.
Mended, a message of these octets:
    47494f50 01020005 00000000
";

const TOO_LONG: &str = "92 TooLong
A message has more than 1,048,576 octets behind its head, one in fragments when it is joined.
Input, a message of these octets:
    47494f50 01020000 00100001
To mend it: send less at a time.
Mended, a message of these octets:
    47494f50 01020005 00000000
";

const BAD_HEAD: &str = "93 BadHead
A message is of no known type, or of one that no fragments may follow and says that they do; or
the header behind its head isn't that of its type.
Input, a message of these octets:
    47494f50 01020008 00000000
To mend it: look at the type, the flags and the lengths in the header.
Mended, a message of these octets:
    47494f50 01020005 00000000
";

const BAD_IOR: &str = "94 BadIor
A text spells no reference to an object, or there is none with these parts: a zero stands in a
host or an id, or a part is too long for its count.
Input, a text:
    IOR:0
To mend it: copy the whole text, IOR: and an even number of hexadecimal digits.
Mended, a text:
    IOR:00000000000000010000000000000000
";

const BUILT_IN: &str = "95 BuiltIn
The checker refused the program's own table of the types of GIOP. This is proved never to come:
the number is kept free for it.
Input: none gets it.
To mend it: nothing has to be.
Mended: none has to be.
";

const BAD_BODY: &str = "96 BadBody
The body that is to be written isn't a value of the type that was named for it.
Input: the tape 02 for the reply of an operation whose result is a boolean.
To mend it: give the whole tape of a value of that type.
Mended: the tape 01 for that reply.
";

const BAD_FRAGMENT: &str = "97 BadFragment
A rule of fragments is broken: a fragment without a request that it continues or of another one,
a second request begun meanwhile, another byte order, or a piece other than the last whose
length, its head counted, is no multiple of 8.
Input, a message of these octets:
    47494f50 01020007 00000004 00000001
To mend it: send the pieces of one request in order, with whole messages alone between.
Mended, a message of these octets:
    47494f50 01020002 00000004 00000001
";

/// Those with the numbers 90 to 97.
pub(crate) fn of_messages(number: u8) -> Option<&'static str>
    ensures there { is_some result ≡ is_within 90 97 number }
    ensures headed { option_map (λ text. first_line text.now) result ≡ message_heading number }
{
    match number {
        90 => Some(NOT_GIOP),
        91 => Some(GIOP_VERSION),
        92 => Some(TOO_LONG),
        93 => Some(BAD_HEAD),
        94 => Some(BAD_IOR),
        95 => Some(BUILT_IN),
        96 => Some(BAD_BODY),
        97 => Some(BAD_FRAGMENT),
        _ => None,
    }
}
