//! Refusals of the texts of values.

ghost use Rattle.std.specs.Prelude.{◌≡◌, is_some, option_map};
ghost use Rattle.diagnostic_texts.specs.Headings.{first_line, is_within, text_heading};

const NOT_JSON: &str = "110 NotJson
The text isn't JSON (RFC 8259): a token, a comma, a colon or a bracket is wrong or missing, or the
file isn't UTF-8, which has line 0.
Input, a text for P of the IDL struct P {long x;};
    {\"x\":3
To mend it: close what is open; a number has no leading zero, a text stands in quotes.
Mended, a text for the same:
    {\"x\":3}
";

const NOT_WHOLE: &str = "111 NotWhole
An integer isn't a whole number in digits, or not one that the type has.
Input, a text for P of the IDL struct P {long x;};
    {\"x\":3.5}
To mend it: write it without a fraction, an exponent or quotes, within the range of the type.
Mended, a text for the same:
    {\"x\":3}
";

const NOT_BOOLEAN: &str = "112 NotBoolean
A boolean is true or false.
Input, a text for P of the IDL struct P {boolean on;};
    {\"on\":1}
To mend it: write the word.
Mended, a text for the same:
    {\"on\":true}
";

const NOT_CHAR: &str = "113 NotChar
A char is a string of one character up to U+00FF, which stands for the octet of that number.
Input, a text for P of the IDL struct P {char c;};
    {\"c\":\"ab\"}
To mend it: write one character, in quotes.
Mended, a text for the same:
    {\"c\":\"a\"}
";

const NOT_TEXT: &str = "114 NotText
A string is one of characters up to U+00FF, without U+0000, within its bound.
Input, a text for P of the IDL struct P {string<3> s;};
    {\"s\":\"four\"}
To mend it: shorten it; write octets that are no characters as \\u0080 to \\u00ff.
Mended, a text for the same:
    {\"s\":\"for\"}
";

const NOT_ENUMERATOR: &str = "115 NotEnumerator
An enumerator goes by its name, or by its number from 0 on.
Input, a text for E of the IDL enum E {red, blue};
    \"green\"
To mend it: write a name of the enumeration; where only a table is at hand, a number.
Mended, a text for the same:
    \"blue\"
";

const NOT_DIGITS: &str = "116 NotDigits
Octets are a string of two hexadecimal digits each, or a list of numbers.
Input, a text for P of the IDL struct P {sequence<octet> raw;};
    {\"raw\":\"abc\"}
To mend it: write both digits of each octet.
Mended, a text for the same:
    {\"raw\":\"0abc\"}
";

const NOT_A_LIST: &str = "117 NotAList
A sequence or an array is a list, and a union the list of its label and its member.
Input, a text for P of the IDL struct P {sequence<long> list;};
    {\"list\":3}
To mend it: put it between brackets.
Mended, a text for the same:
    {\"list\":[3]}
";

const NOT_MEMBERS: &str = "118 NotMembers
A structure is an object of its members, or the list of them in order. Where only a table is at
hand no names are known, and it is the list.
Input, a text for P of the IDL struct P {long x;};
    3
To mend it: name the member.
Mended, a text for the same:
    {\"x\":3}
";

const NO_SUCH_MEMBER: &str = "119 NoSuchMember
A structure has no member of that name, in that case.
Input, a text for P of the IDL struct P {long x;};
    {\"y\":3}
To mend it: write the name as the IDL has it, or the members as a list.
Mended, a text for the same:
    {\"x\":3}
";

const MEMBER_TWICE: &str = "120 MemberTwice
A member stands in an object twice.
Input, a text for P of the IDL struct P {long x; long y;};
    {\"x\":3,\"x\":4}
To mend it: leave one of them.
Mended, a text for the same:
    {\"x\":3,\"y\":4}
";

const MEMBER_MISSING: &str = "121 MemberMissing
An object hasn't all members of its type.
Input, a text for P of the IDL struct P {long x; long y;};
    {\"x\":3}
To mend it: write the others too; none is left out.
Mended, a text for the same:
    {\"x\":3,\"y\":4}
";

const WRONG_COUNT: &str = "122 WrongCount
A list has more or fewer elements than the type has, or more than its bound allows.
Input, a text for P of the IDL struct P {long a[2];};
    {\"a\":[3]}
To mend it: write as many as the type has.
Mended, a text for the same:
    {\"a\":[3,4]}
";

const TOO_DEEP: &str = "123 TooDeep
More than 64 sequences stand one inside another.
Input: a value of struct N {sequence<N> kids;}; that is 65 such structures deep.
To mend it: share the value out over several.
Mended: one that is 64 deep.
";

const TEXT_BEHIND: &str = "124 TextBehind
Something stands behind the value.
Input, a text for P of the IDL struct P {long x;};
    {\"x\":3} 4
To mend it: write one value alone.
Mended, a text for the same:
    {\"x\":3}
";

/// Those with the numbers 110 to 124.
pub(crate) fn of_texts(number: u8) -> Option<&'static str>
    ensures there { is_some result ≡ is_within 110 124 number }
    ensures headed { option_map (λ text. first_line text.now) result ≡ text_heading number }
{
    match number {
        110 => Some(NOT_JSON),
        111 => Some(NOT_WHOLE),
        112 => Some(NOT_BOOLEAN),
        113 => Some(NOT_CHAR),
        114 => Some(NOT_TEXT),
        115 => Some(NOT_ENUMERATOR),
        116 => Some(NOT_DIGITS),
        117 => Some(NOT_A_LIST),
        118 => Some(NOT_MEMBERS),
        119 => Some(NO_SUCH_MEMBER),
        120 => Some(MEMBER_TWICE),
        121 => Some(MEMBER_MISSING),
        122 => Some(WRONG_COUNT),
        123 => Some(TOO_DEEP),
        124 => Some(TEXT_BEHIND),
        _ => None,
    }
}
