//! The numbers of discriminators.

ghost use Rattle.std.specs.Prelude.{◌≡◌, ◌<◌, IfOk};
ghost use Rattle.type_graph.specs.declared.width.Width.TheVariants.{One, Two, Eight};
ghost use Rattle.type_graph.specs.Words.{words_of, plain_word};
ghost use Rattle.type_graph.specs.Value.{number_width};
ghost use Rattle.marshal_program.specs.Does.{node_of};
ghost use Rattle.program_steps.specs.Steps.{Gives, number_at, disc_number};

use marshal_program::Disc;
use program_steps::RunFault;
use program_steps::text::number_at_front;
use type_graph::{Order, Width};

/// The size of a discriminator.
pub fn disc_width(disc: Disc) -> Width
    ensures { result ≡ number_width (node_of disc) }
{
    match disc {
        Disc::Char | Disc::Boolean => Width::One,
        Disc::Word { width, .. } => width,
        Disc::Enum { .. } => Width::Four,
    }
}

fn octet_at_front(octets: &[u8]) -> Result<u8, RunFault>
    ensures { Gives (λ n. n) result (number_at Order.Big One octets.now) }
{
    match octets.first() {
        None => Err(RunFault::Short),
        Some(octet) => Ok(*octet),
    }
}

fn short_at_front(order: Order, octets: &[u8]) -> Result<u16, RunFault>
    ensures { Gives (λ n. n) result (number_at order Two octets.now) }
{
    if octets.len() < 2 {
        return Err(RunFault::Short);
    }
    let word = [octets[0], octets[1]];
    match order {
        Order::Big => Ok(u16::from_be_bytes(word)),
        Order::Little => Ok(u16::from_le_bytes(word)),
    }
}

fn long_long_at_front(order: Order, octets: &[u8]) -> Result<u64, RunFault>
    ensures { Gives (λ n. n) result (number_at order Eight octets.now) }
{
    if octets.len() < 8 {
        return Err(RunFault::Short);
    }
    let word = [
        octets[0], octets[1], octets[2], octets[3], octets[4], octets[5], octets[6], octets[7],
    ];
    match order {
        Order::Big => Ok(u64::from_be_bytes(word)),
        Order::Little => Ok(u64::from_le_bytes(word)),
    }
}

/// The unsigned number of a width at the front (ISO/IEC 19500-2, CDR, integer data types).
pub fn word_at_front(order: Order, width: Width, octets: &[u8]) -> Result<u64, RunFault>
    ensures value { Gives (λ n. n) result (number_at order width octets.now) }
    ensures small { IfOk result (λ n. n < words_of width) }
{
    match width {
        Width::One => Ok(octet_at_front(octets)? as u64),
        Width::Two => Ok(short_at_front(order, octets)? as u64),
        Width::Four => Ok(number_at_front(order, octets)? as u64),
        Width::Eight => long_long_at_front(order, octets),
    }
}

/// The octets of an unsigned short.
pub fn short_octets(order: Order, n: u16) -> [u8; 2]
    ensures { result ≡ plain_word order Two n }
{
    match order {
        Order::Big => n.to_be_bytes(),
        Order::Little => n.to_le_bytes(),
    }
}

/// The octets of an unsigned long long.
pub fn long_long_octets(order: Order, n: u64) -> [u8; 8]
    ensures { result ≡ plain_word order Eight n }
{
    match order {
        Order::Big => n.to_be_bytes(),
        Order::Little => n.to_le_bytes(),
    }
}

/// The number that the octets of a discriminator stand for.
pub fn disc_number(disc: Disc, n: u64) -> Result<i128, RunFault>
    requires { n < words_of (number_width (node_of disc)) }
    ensures { Gives (λ a. a) result (disc_number disc n) }
{
    match disc {
        Disc::Boolean if n > 1 => Err(RunFault::BadBool),
        Disc::Enum { n: limit } if n >= limit as u64 => Err(RunFault::BadEnum),
        Disc::Word {
            width,
            signed: true,
        } => Ok(width.signed_number(n)),
        _ => Ok(n as i128),
    }
}
