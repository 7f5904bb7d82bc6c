//! Refusals of types.

ghost use Rattle.std.specs.Prelude.{◌≡◌, is_some, option_map};
ghost use Rattle.diagnostic_texts.specs.Headings.{first_line, is_within, type_heading};

const SELF_HELD: &str = "30 SelfHeld
A value of the type would hold another one of the same type, without end. The line is that of
the member that closes the circle.
Input:
    struct Node { long value; Node next; };
To mend it: put a sequence between, as in sequence<Node> next.
Mended:
    struct Node { long value; sequence<Node> next; };
";

const LABEL_TWICE: &str = "31 LabelTwice
A label stands twice in a union, or default does.
Input:
    union U switch(long) { case 1: long a; case 1: short b; };
To mend it: take one of the two labels out.
Mended:
    union U switch(long) { case 1: long a; case 2: short b; };
";

const LABEL_RANGE: &str = "32 LabelRange
A label is no value of the type in the union's switch.
Input:
    union U switch(short) { case 40000: long a; };
To mend it: write a label of the type, or switch on a wider one.
Mended:
    union U switch(long) { case 40000: long a; };
";

const DEFAULT_NEEDLESS: &str = "33 DefaultNeedless
A union has a default although its labels are all values of the type in its switch.
Input:
    union U switch(boolean) { case TRUE: long a; case FALSE: long b; default: long c; };
To mend it: take the default out.
Mended:
    union U switch(boolean) { case TRUE: long a; case FALSE: long b; };
";

const BAD_SWITCH: &str = "34 BadSwitch
A union switches on a type that has no labels. Integers, characters, booleans and enumerations
have labels; octets have none here.
Input:
    typedef string Word;
    union U switch(Word) { default: long a; };
To mend it: switch on a type that has labels.
Mended:
    union U switch(long) { default: long a; };
";

const TYPE_LIMIT: &str = "35 Limit
A limit of types is passed: 4,096 types; 1,024 members or labels of one type and 32,768 of all;
65,536 enumerators; 64 types one inside another without a sequence between; 1,048,576 elements
of an array; a bound of 4,294,967,295.
Input:
    typedef long Row[1048577];
To mend it: use a smaller type, a sequence in place of an array, or two files.
Mended:
    typedef sequence<long> Row;
";

const BAD_ONEWAY: &str = "36 BadOneway
A oneway operation has something to answer: a result, an out or inout parameter, or exceptions.
Input:
    interface Counter { oneway long next(); };
To mend it: make the result void and all parameters in, or take oneway out.
Mended:
    interface Counter { oneway void next(); };
";

const BAD_NODE: &str = "37 BadNode
The types or the parts of a model that a program put together by itself keep no rule: a number
out of range, an empty structure, labels that don't rise, a name twice. No IDL file gets this.
Input: a list of nodes with an array of the node 7 and no node 7, given to Graph::from_nodes.
To mend it: number the nodes from 0, and refer to nodes of the list.
Mended: the same list with the node 7, or an array of a node that is there.
";

/// Those with the numbers 30 to 37.
pub(crate) fn of_types(number: u8) -> Option<&'static str>
    ensures there { is_some result ≡ is_within 30 37 number }
    ensures headed { option_map (λ text. first_line text.now) result ≡ type_heading number }
{
    match number {
        30 => Some(SELF_HELD),
        31 => Some(LABEL_TWICE),
        32 => Some(LABEL_RANGE),
        33 => Some(DEFAULT_NEEDLESS),
        34 => Some(BAD_SWITCH),
        35 => Some(TYPE_LIMIT),
        36 => Some(BAD_ONEWAY),
        37 => Some(BAD_NODE),
        _ => None,
    }
}
