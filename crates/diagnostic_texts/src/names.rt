//! Refusals of names, constants and repository ids.

ghost use Rattle.std.specs.Prelude.{◌≡◌, is_some, option_map};
ghost use Rattle.diagnostic_texts.specs.Headings.{first_line, is_within, name_heading};

const UNKNOWN: &str = "20 Unknown
Nothing of the name is declared before it, or a type that was declared ahead is never defined.
Input:
    struct Line { Point from; };
To mend it: declare the name earlier in the file, or write the scopes that it stands in.
Mended:
    struct Point { long x; };
    struct Line { Point from; };
";

const COLLIDES: &str = "21 Collides
The scope has another declaration of the name, or one that differs in case alone; or the name is
that of the scope itself, of another member, or of an inherited operation or attribute.
Input:
    interface Shape {}; interface shape {};
To mend it: give one of the two another name.
Mended:
    interface Shape {}; interface Square {};
";

const CASE_DIFFERS: &str = "22 CaseDiffers
The name is declared, but its letters are of another case there.
Input:
    struct Point { long x; };
    struct Line { point from; };
To mend it: write the name as it is declared.
Mended:
    struct Point { long x; };
    struct Line { Point from; };
";

const AMBIGUOUS: &str = "23 Ambiguous
Two bases of the interface declare the name, each something else.
Input:
    interface A { typedef long T; }; interface B { typedef long T; };
    interface C : A, B { typedef T U; };
To mend it: say which is meant, as in A::T
Mended:
    interface A { typedef long T; }; interface B { typedef long T; };
    interface C : A, B { typedef A::T U; };
";

const NOT_A_TYPE: &str = "24 NotAType
The name is that of no type, as of a constant, a module or an exception; or it stands in a list
of exceptions and is that of no exception.
Input:
    const long SIZE = 1;
    struct Point { SIZE x; };
To mend it: name a type, or an exception where one has to stand.
Mended:
    const long SIZE = 1;
    struct Point { long x; };
";

const ID_TWICE: &str = "25 IdTwice
Two pragmas give one name different ids or versions.
Input:
    struct Point { long x; };
    #pragma version Point 1.1
    #pragma version Point 1.2
To mend it: take one of the two pragmas out.
Mended:
    struct Point { long x; };
    #pragma version Point 1.1
";

const BAD_CONSTANT: &str = "26 BadConstant
An expression has no value, or none that its type has: it leaves 128 bits or its type, divides by
zero, shifts by more than 63, is of another kind of type, or is a bound or a size below 1.
Input:
    const long X = 1 << 40;
To mend it: write a value of the type, or a wider type.
Mended:
    const long long X = 1 << 40;
";

const BAD_BASE: &str = "27 BadBase
A base is no interface that is defined before, or is listed twice, or has an operation or an
attribute of the name of another base's.
Input:
    interface Shape;
    interface Circle : Shape {};
To mend it: define the base before it is used, and list it once.
Mended:
    interface Shape {};
    interface Circle : Shape {};
";

const PREFIX_IN_SCOPE: &str = "28 PrefixInScope
A pragma prefix stands inside a module or an interface.
Input:
    module M {
    #pragma prefix \"acme.org\"
    };
To mend it: put the pragma before the module.
Mended:
    #pragma prefix \"acme.org\"
    module M { interface Shape {}; };
";

const PREFIX_DIFFERS: &str = "29 PrefixDiffers
A type that was declared ahead appears again under another prefix, so it would have two ids.
Input:
    interface Shape;
    #pragma prefix \"acme.org\"
    interface Shape {};
To mend it: put the pragma before the first declaration.
Mended:
    #pragma prefix \"acme.org\"
    interface Shape;
    interface Shape {};
";

/// Those with the numbers 20 to 29.
pub(crate) fn of_names(number: u8) -> Option<&'static str>
    ensures there { is_some result ≡ is_within 20 29 number }
    ensures headed { option_map (λ text. first_line text.now) result ≡ name_heading number }
{
    match number {
        20 => Some(UNKNOWN),
        21 => Some(COLLIDES),
        22 => Some(CASE_DIFFERS),
        23 => Some(AMBIGUOUS),
        24 => Some(NOT_A_TYPE),
        25 => Some(ID_TWICE),
        26 => Some(BAD_CONSTANT),
        27 => Some(BAD_BASE),
        28 => Some(PREFIX_IN_SCOPE),
        29 => Some(PREFIX_DIFFERS),
        _ => None,
    }
}
