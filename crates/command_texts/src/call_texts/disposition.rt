//! Which form of address is wanted.

ghost use Rattle.std.specs.Prelude.{◌≡◌, ◌≤◌, ◌++◌, ℕ, length, IfSome, IfNone};
ghost use Rattle.type_graph.specs.declared.width.Width.TheVariants.{Two};
ghost use Rattle.type_graph.specs.Words.{plain_word};
ghost use Rattle.command_texts.specs.Outcomes.{BeginsWithShort};

use type_graph::Order;

fn short_of(order: Order, octets: [u8; 2]) -> u16
    ensures { octets ≡ plain_word order Two result }
{
    match order {
        Order::Big => u16::from_be_bytes(octets),
        Order::Little => u16::from_le_bytes(octets),
    }
}

/// The unsigned short at the front, and the rest.
fn split_short(order: Order, octets: &[u8]) -> (u16, &[u8])
    requires { 2 ≤ length octets.now }
    ensures { octets.now ≡ plain_word order Two result.0 ++ result.1.now }
{
    let (word, rest) = octets.split_at(2);
    (short_of(order, [word[0], word[1]]), rest)
}

/// The unsigned short with which octets at a place of a message begin, as the body of a reply of
/// NEEDS_ADDRESSING_MODE is to; none where they end before.
pub(crate) fn read_disposition(order: Order, place: u64, octets: &[u8]) -> Option<u16>
    ensures found { IfSome result (λ n. BeginsWithShort order place octets.now n) }
    ensures none { IfNone result ((n : ℕ) → BeginsWithShort order place octets.now n → ⊥) }
{
    let gap = (place % 2) as usize;
    if octets.len() < gap || octets.len() - gap < 2 {
        return None;
    }
    let (disposition, _) = split_short(order, octets.split_at(gap).1);
    Some(disposition)
}
