//! Octets, words, flags, widths and labels.

ghost use Rattle.std.specs.Prelude.{◌≡◌, ◌<◌, ◌^◌, ◌+◌, ◌*◌, length};
ghost use Rattle.type_graph.specs.declared.width.Order.TheVariants.{Big};
ghost use Rattle.type_graph.specs.Words.{plain_octets};

use crate::cursor::Cursor;
use crate::part::Part;
use crate::tail::Tail;
use marshal_program::TableFault;
use type_graph::Width;

impl Part for u8 {
    ghost use Rattle.table_file.specs.Octets.{spelled_octet};
    ghost use Rattle.table_file.specs.inner.Codes.{octet_code};
    ghost use Rattle.table_file.specs.inner.Ones.{one_octet};

    ghost spelled = { spelled_octet };

    fn read(cursor: &mut Cursor<'_>) -> Result<Self, TableFault> {
        cursor.octet()
    }

    fn write(&self, out: &mut Vec<u8>) -> Result<(), TableFault> {
        out.push(*self)?;
        Ok(())
    }

    fn pass(tail: &mut Tail<'_>) -> bool {
        tail.skip(1)
    }

    ghost is_code = { octet_code };

    ghost has_one = { one_octet };
}

/// The number of which these are the octets, the highest first.
pub(crate) fn word_at(word: &[u8]) -> u32
    requires { length word.now ≡ 4 }
    ensures value { plain_octets Big 4 result ≡ word.now }
    ensures small { result < 2 ^ 32 }
{
    u32::from_be_bytes([word[0], word[1], word[2], word[3]])
}

impl Part for u32 {
    ghost use Rattle.table_file.specs.Octets.{spelled_word};
    ghost use Rattle.table_file.specs.inner.Codes.{word_code};
    ghost use Rattle.table_file.specs.inner.Ones.{one_word};

    ghost spelled = { spelled_word };

    fn read(cursor: &mut Cursor<'_>) -> Result<Self, TableFault> {
        let word = cursor.take(4)?;
        Ok(word_at(word))
    }

    fn write(&self, out: &mut Vec<u8>) -> Result<(), TableFault> {
        out.extend_from_slice(&self.to_be_bytes())?;
        Ok(())
    }

    fn pass(tail: &mut Tail<'_>) -> bool {
        tail.skip(4)
    }

    ghost is_code = { word_code };

    ghost has_one = { one_word };
}

impl Part for bool {
    ghost use Rattle.table_file.specs.Octets.{spelled_flag};
    ghost use Rattle.table_file.specs.inner.Codes.{flag_code};
    ghost use Rattle.table_file.specs.inner.Ones.{one_flag};

    ghost spelled = { spelled_flag };

    fn read(cursor: &mut Cursor<'_>) -> Result<Self, TableFault> {
        match cursor.octet()? {
            0 => Ok(false),
            1 => Ok(true),
            _ => Err(TableFault::NotATable),
        }
    }

    fn write(&self, out: &mut Vec<u8>) -> Result<(), TableFault> {
        out.push(u8::from(*self))?;
        Ok(())
    }

    fn pass(tail: &mut Tail<'_>) -> bool {
        tail.one_of(&[0, 1]).is_some()
    }

    ghost is_code = { flag_code };

    ghost has_one = { one_flag };
}

impl Part for Width {
    ghost use Rattle.table_file.specs.Spelling.{spelled_width};
    ghost use Rattle.table_file.specs.inner.Codes.{width_code};
    ghost use Rattle.table_file.specs.inner.Ones.{one_width};

    ghost spelled = { spelled_width };

    fn read(cursor: &mut Cursor<'_>) -> Result<Self, TableFault> {
        match cursor.octet()? {
            1 => Ok(Width::One),
            2 => Ok(Width::Two),
            4 => Ok(Width::Four),
            8 => Ok(Width::Eight),
            _ => {
                cursor.spoil();
                Ok(Width::One)
            }
        }
    }

    fn write(&self, out: &mut Vec<u8>) -> Result<(), TableFault> {
        out.push(self.octets() as u8)?;
        Ok(())
    }

    fn pass(tail: &mut Tail<'_>) -> bool {
        tail.one_of(&[1, 2, 4, 8]).is_some()
    }

    ghost is_code = { width_code };

    ghost has_one = { one_width };
}

impl Part for Option<u32> {
    ghost use Rattle.table_file.specs.Octets.{spelled_maybe};
    ghost use Rattle.table_file.specs.inner.MaybeCode.{maybe_code};
    ghost use Rattle.table_file.specs.inner.Ones.{one_maybe};

    ghost spelled = { spelled_maybe };

    fn read(cursor: &mut Cursor<'_>) -> Result<Self, TableFault> {
        match cursor.octet()? {
            0 => Ok(None),
            1 => Ok(Some(u32::read(cursor)?)),
            _ => Err(TableFault::NotATable),
        }
    }

    fn write(&self, out: &mut Vec<u8>) -> Result<(), TableFault> {
        match self {
            None => false.write(out),
            Some(number) => (true, *number).write(out),
        }
    }

    fn pass(tail: &mut Tail<'_>) -> bool {
        match tail.below(2) {
            Some(0) => true,
            Some(_) => u32::pass(tail),
            None => false,
        }
    }

    ghost is_code = { maybe_code };

    ghost has_one = { one_maybe };
}
