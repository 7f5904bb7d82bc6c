//! Refusals of tokens.

ghost use Rattle.std.specs.Prelude.{◌≡◌, is_some, option_map};
ghost use Rattle.diagnostic_texts.specs.Headings.{first_line, is_within, token_heading};

const BAD_CHAR: &str = "1 BadChar
A character begins no token, or isn't ASCII and stands outside a comment. A file that isn't
UTF-8 gets this with line 0. The operator ~ isn't served, so it begins none.
Input:
    struct Point { long x; } @;
To mend it: take the character out, or put it into a comment.
Mended:
    struct Point { long x; };
";

const OPEN_COMMENT: &str = "2 OpenComment
A comment that begins with /* has no */ behind it. The line is the one where it begins.
Input:
    struct Point { long x; }; /* a point
To mend it: close the comment. Comments don't nest, so the first */ ends one.
Mended:
    struct Point { long x; }; /* a point */
";

const OPEN_LITERAL: &str = "3 OpenLiteral
A literal isn't closed on its line, or a character literal has none or several characters.
Input:
    const char LETTER = 'ab';
To mend it: close the literal, or write a text between double quotes.
Mended:
    const char LETTER = 'a';
";

const BAD_NUMBER: &str = "4 BadNumber
An integer has a digit that its base hasn't, is over 18,446,744,073,709,551,615, or has more of
a word behind it. A number that begins with 0 is octal. Floating and fixed point aren't served.
Input:
    const long COUNT = 09;
To mend it: write it in decimal without a 0 in front, or in hexadecimal behind 0x.
Mended:
    const long COUNT = 9;
";

const BAD_ESCAPE: &str = "5 BadEscape
A backslash in a literal begins no escape, an octal escape is over 255, or a text has a zero
octet in it.
Input:
    const char MARK = '\\q';
To mend it: write one of \\n \\t \\v \\b \\r \\f \\a \\\\ \\? \\' \\\", or an octet as \\x and two digits.
Mended:
    const char MARK = '\\n';
";

const BAD_DIRECTIVE: &str = "6 BadDirective
A line that begins with # is none that is left behind a preprocessor: no line marker, no pragma,
or a pragma prefix, ID or version of a wrong form.
Input:
    #include \"point.idl\"
To mend it: run the preprocessor first, as in cpp -undef point.idl > point.i
Mended:
    # 1 \"point.idl\"
    struct Point { long x; };
";

const KEYWORD_CASE: &str = "7 KeywordCase
A word differs from a keyword only in the case of its letters.
Input:
    struct Home { long x; };
To mend it: write the keyword as it is, or put an underscore before a name: _Home is Home.
Mended:
    struct _Home { long x; };
";

/// Those with the numbers 1 to 7.
pub(crate) fn of_tokens(number: u8) -> Option<&'static str>
    ensures there { is_some result ≡ is_within 1 7 number }
    ensures headed { option_map (λ text. first_line text.now) result ≡ token_heading number }
{
    match number {
        1 => Some(BAD_CHAR),
        2 => Some(OPEN_COMMENT),
        3 => Some(OPEN_LITERAL),
        4 => Some(BAD_NUMBER),
        5 => Some(BAD_ESCAPE),
        6 => Some(BAD_DIRECTIVE),
        7 => Some(KEYWORD_CASE),
        _ => None,
    }
}
