//! Refusals of the grammar.

ghost use Rattle.std.specs.Prelude.{◌≡◌, is_some, option_map};
ghost use Rattle.diagnostic_texts.specs.Headings.{first_line, grammar_heading, is_within};

const UNEXPECTED: &str = "10 Unexpected
A token can't stand where it does.
Input:
    struct Point { long; };
To mend it: write what the grammar of IDL has there, here the name of the member.
Mended:
    struct Point { long x; };
";

const END_OF_FILE: &str = "11 EndOfFile
The file ends inside a definition. The line is the last token's.
Input:
    struct Point { long x;
To mend it: close what is open, and put a semicolon behind each definition.
Mended:
    struct Point { long x; };
";

const LEFT_OUT: &str = "12 LeftOut
A keyword belongs to a part of IDL that isn't served: any, value types, native types, fixed and
floating-point numbers, wide characters, abstract and local interfaces, components, imports.
Input:
    struct Point { double x; };
To mend it: use a type that is served, as a structure of two integers, or take the part out.
Mended:
    struct Decimal { long digits; short scale; };
    struct Point { Decimal x; };
";

const TOO_DEEP: &str = "13 TooDeep
More than 64 modules, structures, unions, enumerations, sequences and parentheses stand one
inside another.
Input: a number in 65 pairs of parentheses.
To mend it: give the inner types names of their own, by typedef.
Mended: the number without parentheses.
";

/// Those with the numbers 10 to 13.
pub(crate) fn of_grammar(number: u8) -> Option<&'static str>
    ensures there { is_some result ≡ is_within 10 13 number }
    ensures headed { option_map (λ text. first_line text.now) result ≡ grammar_heading number }
{
    match number {
        10 => Some(UNEXPECTED),
        11 => Some(END_OF_FILE),
        12 => Some(LEFT_OUT),
        13 => Some(TOO_DEEP),
        _ => None,
    }
}
