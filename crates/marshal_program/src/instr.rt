//! The instructions of which marshalling routines are made.

ghost use Rattle.std.specs.Prelude.{◌≡◌, ◌↔◌, IsTrue};

use type_graph::{Arms, Items, Node, Width};

/// The discriminator of a union.
#[derive(Clone, Copy, Debug, PartialEq, Eq)]
pub enum Disc {
    Char,
    Boolean,
    Word { width: Width, signed: bool },
    /// An enumeration of `n` enumerators.
    Enum { n: u32 },
}

impl Disc {
    ghost use Rattle.std.specs.Prelude.{◌≡◌};
    ghost use Rattle.marshal_program.specs.Plain.{disc_of};

    /// The discriminator whose type is the node; of a node that can't be one, a character.
    pub fn of(node: &Node) -> Disc
        ensures { result ≡ disc_of node.now }
    {
        match node {
            Node::Boolean => Disc::Boolean,
            Node::Integer { width, signed } => Disc::Word {
                width: *width,
                signed: *signed,
            },
            Node::Enum { n } => Disc::Enum { n: *n },
            _ => Disc::Char,
        }
    }
}

/// One step of a routine: it relates a piece of a tape with octets at a position. A routine is
/// named by its number in the program, a bound of 0 is none, and only `Align` and the `first` of
/// a sequence stand for gaps (ISO/IEC 19500-2, CDR).
#[derive(Drop, PartialEq)]
pub enum Instr {
    /// The gap to the next multiple.
    Align {
        to: Width,
    },
    /// So many octets, the same on the tape.
    Octets {
        n: u32,
    },
    /// So many numbers in the byte order, in big order on the tape.
    Words {
        width: Width,
        n: u32,
    },
    /// So many octets that are 0 or 1.
    Bools {
        n: u32,
    },
    /// A number of 4 octets below the limit.
    EnumWord {
        limit: u32,
    },
    /// The length with the terminating zero, the octets, the zero; on the tape without the zero.
    Text {
        bound: u32,
    },
    /// A count and so many octets.
    SeqOctets {
        bound: u32,
    },
    /// A count and so many octets that are 0 or 1.
    SeqBools {
        bound: u32,
    },
    /// A count, where it isn't 0 the gap to `first`, and so many numbers.
    SeqWords {
        width: Width,
        first: Width,
        bound: u32,
    },
    /// A count, where it isn't 0 the gap to `first`, and the routine for each element.
    SeqOf {
        bound: u32,
        first: Width,
        routine: u32,
    },
    /// The routine so many times.
    Times {
        n: u32,
        routine: u32,
    },
    Call {
        routine: u32,
    },
    /// The discriminator, then the routine of its label, else that of `otherwise`, else nothing.
    Switch {
        disc: Disc,
        arms: Arms,
        otherwise: Option<u32>,
    },
}

fn is_disc(disc: Disc, other: Disc) -> bool
    ensures { IsTrue result ↔ (disc ≡ other) }
{
    disc == other
}

fn is_other(otherwise: Option<u32>, other: Option<u32>) -> bool
    ensures { IsTrue result ↔ (otherwise ≡ other) }
{
    otherwise == other
}

/// The routines that an instruction names: those of labels, and one more.
#[derive(Clone, Copy)]
pub struct Named<'i> {
    pub arms: &'i [(i128, u32)],
    pub other: Option<u32>,
}

impl Instr {
    ghost use Rattle.std.specs.Prelude.{◌≡◌, ◌↔◌, IsTrue, []};
    ghost use Rattle.marshal_program.specs.ProgramRules.{arms_of, named_by, called_by};
    ghost use Rattle.marshal_program.specs.inner.RuleTests.{has_three_fields};

    /// Whether the two are one instruction of three fields.
    fn is_of_three(&self, other: &Instr) -> bool
        ensures { IsTrue result ↔ ((self.now ≡ other.now) × IsTrue (has_three_fields self.now)) }
    {
        match (self, other) {
            (
                Instr::SeqWords {
                    width,
                    first,
                    bound,
                },
                Instr::SeqWords {
                    width: by,
                    first: at,
                    bound: of,
                },
            ) => *width == *by && *first == *at && *bound == *of,
            (
                Instr::SeqOf {
                    bound,
                    first,
                    routine,
                },
                Instr::SeqOf {
                    bound: of,
                    first: at,
                    routine: by,
                },
            ) => *bound == *of && *first == *at && *routine == *by,
            (
                Instr::Switch {
                    disc,
                    arms,
                    otherwise,
                },
                Instr::Switch {
                    disc: by,
                    arms: of,
                    otherwise: or,
                },
            ) => is_disc(*disc, *by) && arms.is(of) && is_other(*otherwise, *or),
            _ => false,
        }
    }

    /// Whether the two are one instruction.
    pub fn is(&self, other: &Instr) -> bool
        ensures { IsTrue result ↔ (self.now ≡ other.now) }
    {
        match (self, other) {
            (Instr::Align { to }, Instr::Align { to: of }) => *to == *of,
            (Instr::Octets { n }, Instr::Octets { n: of })
            | (Instr::Bools { n }, Instr::Bools { n: of })
            | (Instr::EnumWord { limit: n }, Instr::EnumWord { limit: of })
            | (Instr::Text { bound: n }, Instr::Text { bound: of })
            | (Instr::SeqOctets { bound: n }, Instr::SeqOctets { bound: of })
            | (Instr::SeqBools { bound: n }, Instr::SeqBools { bound: of })
            | (Instr::Call { routine: n }, Instr::Call { routine: of }) => *n == *of,
            (Instr::Words { width, n }, Instr::Words { width: by, n: of }) => {
                *width == *by && *n == *of
            }
            (Instr::Times { n, routine }, Instr::Times { n: of, routine: by }) => {
                *n == *of && *routine == *by
            }
            _ => self.is_of_three(other),
        }
    }

    /// The routines that the instruction names.
    pub fn named(&self) -> Named<'_>
        ensures { arms_of result.arms.now result.other ≡ named_by self.now }
    {
        match self {
            Instr::SeqOf { routine, .. } | Instr::Times { routine, .. } | Instr::Call { routine } =>
                Named {
                    arms: &[],
                    other: Some(*routine),
                },
            Instr::Switch {
                arms,
                otherwise,
                ..
            } => Named {
                arms: arms.as_slice(),
                other: *otherwise,
            },
            _ => Named {
                arms: &[],
                other: None,
            },
        }
    }

    /// Those of them that don't stand for the elements of a sequence.
    pub fn called(&self) -> Named<'_>
        ensures { arms_of result.arms.now result.other ≡ called_by self.now }
    {
        match self {
            Instr::SeqOf { .. } => Named {
                arms: &[],
                other: None,
            },
            _ => self.named(),
        }
    }
}

/// The instructions of a routine, in order.
pub type Code = Items<Instr>;

/// How the values of one node of a type graph are marshalled.
#[derive(Drop, PartialEq)]
pub struct Routine {
    /// The node's number.
    pub node: u32,
    /// The positions modulo 8 at which it may start: bit p for position p.
    pub entry: u8,
    /// For each position modulo 8 at which it may start, the set of those at which it may end.
    pub exits: [u8; 8],
    /// Greater than that of each routine that it calls outside a sequence.
    pub rank: u32,
    pub code: Code,
}
