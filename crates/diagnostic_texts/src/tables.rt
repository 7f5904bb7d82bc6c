//! Refusals of table files and of planned programs.

ghost use Rattle.std.specs.Prelude.{◌≡◌, is_some, option_map};
ghost use Rattle.diagnostic_texts.specs.Headings.{first_line, is_within, plan_heading, table_heading};

const NOT_A_TABLE: &str = "50 NotATable
The octets are no table file: a wrong start, an unknown tag or flag, a text that isn't ASCII, or
an end inside.
Input, a file of these octets:
    49444c
To mend it: give a file that a compiler of tables wrote, whole.
Mended, a file of these octets:
    49444c5401000000000000000000000000000000000000000000000000
";

const VERSION: &str = "51 Version
The table file is of a version that isn't known, which its fifth octet says; 1 and 2 are.
Input, a file of these octets:
    49444c5403
To mend it: write the table again with this program, or read it with a newer one.
Mended, a file of these octets:
    49444c5401000000000000000000000000000000000000000000000000
";

const TABLE_NUMBER: &str = "52 BadNumber
A number in the table is out of range, a count is 0 or a limit is passed, an entry set is empty,
or its types or names keep no rule.
Input, a file of these octets, an enumeration without enumerators:
    49444c54010000000104000000000000000000000000000000000000000000000000
To mend it: write the table again; where it is made by hand, look at its numbers of nodes.
Mended, a file of these octets:
    49444c54010000000104000000010000000000000000000000000000000000000000
";

const RANK_RISES: &str = "53 RankRises
A routine calls one whose rank isn't lower without a sequence between, so it might not end.
Input, a file of these octets, a routine that calls itself:
    49444c54010000000101000000000000000000000000000000000000000100000000ffffffffffffffffff0000
    0000000000010b00000000
To mend it: give the called routine a lower rank, or call it for the elements of a sequence.
Mended, a file of these octets:
    49444c54010000000101000000000000000000000000000000000000000100000000ffffffffffffffffff0000
    0000000000010100000001
";

const TRAILING: &str = "54 Trailing
Octets stand behind the table's end.
Input, a file of these octets, the empty table and one octet more:
    49444c540100000000000000000000000000000000000000000000000000
To mend it: cut the file off behind the table.
Mended, a file of these octets:
    49444c5401000000000000000000000000000000000000000000000000
";

const EMPTY_ROUTINE: &str = "55 EmptyRoutine
A routine that is called does nothing, or leaves gaps alone, so it takes no octet.
Input, a file of these octets, the second routine of which calls the first:
    49444c54010000000101000000000000000000000000000000000000000200000000ffffffffffffffffff0000
    00000000000000000000ffffffffffffffffff00000001000000010b00000000
To mend it: give the called routine its instructions, or take the call out.
Mended, a file of these octets:
    49444c54010000000101000000000000000000000000000000000000000200000000ffffffffffffffffff0000
    000000000001010000000100000000ffffffffffffffffff00000001000000010b00000000
";

const PLAN_LIMIT: &str = "70 Limit
The faster program of a model would pass a limit: 8,192 routines, 65,536 instructions.
Input: a model whose structures are repeated so often, each for other positions.
To mend it: nothing has to be, as the plain program serves the model; or use fewer types.
Mended: the same model: the plain program serves it.
";

/// Those with the numbers 50 to 55.
pub(crate) fn of_tables(number: u8) -> Option<&'static str>
    ensures there { is_some result ≡ is_within 50 55 number }
    ensures headed { option_map (λ text. first_line text.now) result ≡ table_heading number }
{
    match number {
        50 => Some(NOT_A_TABLE),
        51 => Some(VERSION),
        52 => Some(TABLE_NUMBER),
        53 => Some(RANK_RISES),
        54 => Some(TRAILING),
        55 => Some(EMPTY_ROUTINE),
        _ => None,
    }
}

/// The one with the number 70.
pub(crate) fn of_plans(number: u8) -> Option<&'static str>
    ensures there { is_some result ≡ is_within 70 70 number }
    ensures headed { option_map (λ text. first_line text.now) result ≡ plan_heading number }
{
    match number {
        70 => Some(PLAN_LIMIT),
        _ => None,
    }
}
