//! Refusals of the checker of tables.

ghost use Rattle.std.specs.Prelude.{◌≡◌, is_some, option_map};
ghost use Rattle.diagnostic_texts.specs.Headings.{check_heading, first_line, is_within};

const WRONG_WORK: &str = "80 WrongWork
From this instruction on a routine doesn't do the work of its node. Programs, routines and
instructions are counted from 0.
Input, a file of these octets, whose routine takes a boolean for an octet:
    49444c54010000000101000000010000000153000000000000000000000000000000000000000100000000ffff
    ffffffffffffff00000000000000010300000001
To mend it: write the table again; idlc show lists the routines of one that is right.
Mended, a file of these octets:
    49444c54010000000101000000010000000153000000000000000000000000000000000000000100000000ffff
    ffffffffffffff00000000000000010100000001
";

const WRONG_PADDING: &str = "81 WrongPadding
The gap before the work of an instruction isn't the one that belongs there, at some position
where the routine may start.
Input, a file of these octets, whose routine takes an unsigned long without a gap:
    49444c540100000001000400000000010000000153000000000000000000000000000000000000000100000000
    ffffffffffffffffff0000000000000001020400000001
To mend it: put Align before the work, or let the routine start at multiples alone.
Mended, a file of these octets:
    49444c540100000001000400000000010000000153000000000000000000000000000000000000000100000000
    ffffffffffffffffff00000000000000020004020400000001
";

const ENTRY_OUTSIDE: &str = "82 EntryOutside
An instruction names a routine at a position where that may not start, by its set of entries.
Input, a file of these octets, whose second routine calls the first at every position:
    49444c540100000002010800000001000000000000000000000000000000000000000000000002000000000102
    000000000000000000000000000001010000000100000001ffffffffffffffffff00000001000000010b000000
    00
To mend it: give the routine more entries, or put a gap before the call.
Mended, a file of these octets:
    49444c54010000000201080000000100000000000000000000000000000000000000000000000200000000ffff
    ffffffffffffff0000000000000001010000000100000001ffffffffffffffffff00000001000000010b000000
    00
";

const EXITS_TOO_SMALL: &str = "83 ExitsTooSmall
From this entry a routine may end at a position that its exits don't have.
Input, a file of these octets, whose routine is to end where it starts:
    49444c54010000000101000000000000000000000000000000000000000100000000ff01020408102040800000
    0000000000010100000001
To mend it: add the position, counted modulo 8, to the exits for that entry.
Mended, a file of these octets:
    49444c54010000000101000000000000000000000000000000000000000100000000ff02040810204080010000
    0000000000010100000001
";

const NO_ROUTINE: &str = "84 NoRoutine
A type that has a name has no routine in the program that the name uses.
Input, a file of these octets, with a name and no routine:
    49444c540100000001010000000100000001530000000000000000000000000000000000000000
To mend it: write the table again; a routine of the type has to be there.
Mended, a file of these octets:
    49444c54010000000101000000010000000153000000000000000000000000000000000000000100000000ffff
    ffffffffffffff00000000000000010100000001
";

const NAMED_ENTRY_NOT_FULL: &str = "85 NamedEntryNotFull
A type that has a name has no routine that may start at every position.
Input, a file of these octets, whose routine starts at multiples of 8 alone:
    49444c540100000001010000000100000001530000000000000000000000000000000000000001000000000102
    0000000000000000000000000000010100000001
To mend it: give one routine of the type the entries FF, with the gaps that it needs then.
Mended, a file of these octets:
    49444c54010000000101000000010000000153000000000000000000000000000000000000000100000000ffff
    ffffffffffffff00000000000000010100000001
";

/// Those with the numbers 80 to 85.
pub(crate) fn of_checks(number: u8) -> Option<&'static str>
    ensures there { is_some result ≡ is_within 80 85 number }
    ensures headed { option_map (λ text. first_line text.now) result ≡ check_heading number }
{
    match number {
        80 => Some(WRONG_WORK),
        81 => Some(WRONG_PADDING),
        82 => Some(ENTRY_OUTSIDE),
        83 => Some(EXITS_TOO_SMALL),
        84 => Some(NO_ROUTINE),
        85 => Some(NAMED_ENTRY_NOT_FULL),
        _ => None,
    }
}
