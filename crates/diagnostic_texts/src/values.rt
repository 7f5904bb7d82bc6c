//! Refusals of values and their tapes, and of the library for C.

ghost use Rattle.std.specs.Prelude.{◌≡◌, is_some, option_map};
ghost use Rattle.diagnostic_texts.specs.Headings.{first_line, is_within, value_heading};

const NOT_OF_TYPE: &str = "40 NotOfType
A value that is to become a tape isn't one of the type: a number out of range, a string over its
bound or with a zero in it, too many or too few members, another kind of value.
Input: the value 2 of a boolean.
To mend it: give a value of the type; idlc show T --types lists what each type has.
Mended: the value TRUE of a boolean.
";

const NOT_A_TAPE: &str = "41 NotATape
Octets that are to become a value aren't the whole tape of one of the type.
Input: the octets 02 for a boolean, or 0101.
To mend it: give the tape of one value and no more: numbers in big order without gaps, counts
and lengths in 4 octets, a string without its terminating zero.
Mended: the octet 01 for a boolean.
";

const NO_MEMORY: &str = "42 NoMemory
An allocation of the library for C failed: malloc or realloc gave no memory.
Input: idlc_decode of 16,777,216 octets, where the program may have 8 MiB.
To mend it: free memory, or allow the program more, and call again: nothing has changed.
Mended: the same call, where the program may have 64 MiB.
";

const NO_TABLE: &str = "43 NoTable
A call of the library for C was given a table that is none: nothing was loaded, or it was freed.
Input: idlc_find with struct idlc_table table = {0};
To mend it: load a table with idlc_load or idlc_compile first, and see that it returns 0.
Mended: the same call behind idlc_compile, which returned 0.
";

const NO_NAME: &str = "44 NoName
No type of a table that the library for C has loaded has this name or this node, or no name stands
at this place.
Input: idlc_find with \"Point\", where the IDL has module M { struct Point {long x;}; };
To mend it: write a name with its modules; idlc_name returns all names.
Mended: idlc_find with \"M::Point\".
";

const NO_ROOM: &str = "45 NoRoom
The buffer that the library for C is to fill is shorter than the length that is returned.
Input: idlc_encode of a structure of 8 octets into a buffer of 4.
To mend it: ask with a buffer of length 0, which returns the length; then give one so long.
Mended: idlc_encode of a structure of 8 octets into a buffer of 8.
";

const TOO_LONG: &str = "46 TooLong
The library for C was given more than 16,777,216 octets as a table file, which has no more.
Input: idlc_load with 20,000,000 octets.
To mend it: load the table file itself, as idlc compile writes it.
Mended: idlc_load with the octets of that file.
";

const FAULTY_IDL: &str = "47 FaultyIdl
The IDL that the library for C was given has a fault; its number, 1 to 36, and line are returned.
Input: idlc_compile with struct Point { long x };
To mend it: look the number up with idlc explain, and mend the line.
Mended: idlc_compile with struct Point { long x; };
";

/// Those with the numbers 40 to 47.
pub(crate) fn of_values(number: u8) -> Option<&'static str>
    ensures there { is_some result ≡ is_within 40 47 number }
    ensures headed { option_map (λ text. first_line text.now) result ≡ value_heading number }
{
    match number {
        40 => Some(NOT_OF_TYPE),
        41 => Some(NOT_A_TAPE),
        42 => Some(NO_MEMORY),
        43 => Some(NO_TABLE),
        44 => Some(NO_NAME),
        45 => Some(NO_ROOM),
        46 => Some(TOO_LONG),
        47 => Some(FAULTY_IDL),
        _ => None,
    }
}
