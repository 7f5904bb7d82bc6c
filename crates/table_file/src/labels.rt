//! Labels: numbers of 16 octets in two's complement.

ghost use Rattle.std.specs.Prelude.{◌≡◌, ◌<◌, ◌^◌, ◌+◌, ◌*◌, length, Some};
ghost use Rattle.type_graph.specs.declared.width.Order.TheVariants.{Big};
ghost use Rattle.type_graph.specs.Words.{plain_octets, twos_complement};
ghost use Rattle.type_graph.specs.Value.{IsSignedIn};
ghost use Rattle.table_file.specs.Octets.{spelled_label};

use crate::cursor::Cursor;
use crate::part::Part;
use crate::tail::Tail;
use marshal_program::TableFault;

/// The number of which these are the octets, the highest first.
fn number_of_half(half: &[u8]) -> u64
    requires { length half.now ≡ 8 }
    ensures value { plain_octets Big 8 result ≡ half.now }
    ensures small { result < 2 ^ 64 }
{
    u64::from_be_bytes([
        half[0], half[1], half[2], half[3], half[4], half[5], half[6], half[7],
    ])
}

/// The number of two halves of its pattern.
fn number_of_halves(high: u64, low: u64) -> i128
    ensures pattern { twos_complement 16 result ≡ high * 2 ^ 64 + low }
    ensures sized { IsSignedIn 16 result }
{
    const HALF: i128 = 0x1_0000_0000_0000_0000;
    if high < 0x8000_0000_0000_0000 {
        i128::from(high) * HALF + i128::from(low)
    } else {
        -1 - (i128::from(u64::MAX - high) * HALF + i128::from(u64::MAX - low))
    }
}

/// The label of these octets.
fn label_of(octets: &[u8]) -> i128
    requires { length octets.now ≡ 16 }
    ensures { spelled_label result ≡ Some octets.now }
{
    let (high, low) = octets.split_at(8);
    number_of_halves(number_of_half(high), number_of_half(low))
}

/// The octets of a label.
fn octets_of_label(label: i128) -> [u8; 16]
    ensures { spelled_label label ≡ Some result }
{
    label.to_be_bytes()
}

impl Part for i128 {
    ghost use Rattle.table_file.specs.Octets.{spelled_label};
    ghost use Rattle.table_file.specs.inner.LabelCode.{label_code};
    ghost use Rattle.table_file.specs.inner.Ones.{one_label};

    ghost spelled = { spelled_label };

    fn read(cursor: &mut Cursor<'_>) -> Result<Self, TableFault> {
        let octets = cursor.take(16)?;
        Ok(label_of(octets))
    }

    fn write(&self, out: &mut Vec<u8>) -> Result<(), TableFault> {
        out.extend_from_slice(&octets_of_label(*self))?;
        Ok(())
    }

    fn pass(tail: &mut Tail<'_>) -> bool {
        tail.skip(16)
    }

    ghost is_code = { label_code };

    ghost has_one = { one_label };
}
