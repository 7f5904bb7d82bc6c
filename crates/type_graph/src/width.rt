//! How wide a number is, and in which order its octets travel.

/// The size of a primitive number, and so its alignment: 1, 2, 4 or 8 octets
/// (ISO/IEC 19500-2, CDR, alignment of primitive types).
#[derive(Clone, Copy, Debug, PartialEq, Eq)]
pub enum Width {
    One,
    Two,
    Four,
    Eight,
}

impl Width {
    ghost use Rattle.std.specs.Prelude.{◌≡◌, ◌≤◌, ◌<◌};
    ghost use Rattle.type_graph.specs.Words.{octets_in, words_of, twos_complement};
    ghost use Rattle.type_graph.specs.Value.{IsSigned, signed_of};

    /// How many octets a number of the width has.
    pub fn octets(self) -> usize
        ensures value { result ≡ octets_in self }
        ensures small { (1 ≤ result) × (result ≤ 8) }
    {
        match self {
            Width::One => 1,
            Width::Two => 2,
            Width::Four => 4,
            Width::Eight => 8,
        }
    }

    /// How many patterns the octets of the width have.
    pub fn patterns(self) -> u128
        ensures { result ≡ words_of self }
    {
        match self {
            Width::One => 0x100,
            Width::Two => 0x1_0000,
            Width::Four => 0x1_0000_0000,
            Width::Eight => 0x1_0000_0000_0000_0000,
        }
    }

    /// The signed number for which a pattern stands in two's complement.
    pub fn signed_number(self, pattern: u64) -> i128
        requires { pattern < words_of self }
        ensures value { result ≡ signed_of self pattern }
        ensures signed { IsSigned self result }
        ensures pattern { twos_complement (octets_in self) result ≡ pattern }
    {
        let count = self.patterns() as i128;
        let n = i128::from(pattern);
        if n < count / 2 { n } else { n - count }
    }
}

/// The byte order of a message or an encapsulation (ISO/IEC 19500-2, CDR, byte ordering).
#[derive(Clone, Copy, Debug, PartialEq, Eq)]
pub enum Order {
    Big,
    Little,
}
