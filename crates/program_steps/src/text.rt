//! Numbers, lengths and strings at the front of an input.

ghost use Rattle.std.specs.Prelude.{◌≡◌, ◌<◌, ◌≤◌, ◌++◌, IfOk, OnOk, length, take};
ghost use Rattle.type_graph.specs.declared.width.Width.TheVariants.{Four};
ghost use Rattle.program_steps.specs.Steps.{number_of, Gives, Passes, number_at, is_over, read_length, tape_length, no_zero, terminated, unterminated};

use crate::fault::RunFault;
use program_output::blocks::push_unless;
use program_output::lanes::Zero;
use program_output::output::Output;
use type_graph::Order;

/// The unsigned long that the first four octets are (ISO/IEC 19500-2, CDR, integer data types).
#[inline(always)]
pub fn number_of_front(order: Order, octets: &[u8]) -> u32
    requires { 4 ≤ length octets.now }
    ensures { result ≡ number_of order Four octets.now }
{
    let word = [octets[0], octets[1], octets[2], octets[3]];
    match order {
        Order::Big => u32::from_be_bytes(word),
        Order::Little => u32::from_le_bytes(word),
    }
}

/// The unsigned long at the front (ISO/IEC 19500-2, CDR, integer data types).
pub fn number_at_front(order: Order, octets: &[u8]) -> Result<u32, RunFault>
    ensures { Gives (λ n. n) result (number_at order Four octets.now) }
{
    if octets.len() < 4 {
        return Err(RunFault::Short);
    }
    Ok(number_of_front(order, octets))
}

/// More than a bound, where there is one.
pub fn is_over_bound(bound: u32, n: u32) -> bool
    ensures { result ≡ is_over bound n }
{
    bound != 0 && n > bound
}

/// How many octets a string has by the length among octets, which counts the zero.
pub fn length_read(bound: u32, said: u32) -> Result<u32, RunFault>
    ensures { Gives (λ n. n) result (read_length bound said) }
{
    if said == 0 {
        return Err(RunFault::BadLength);
    }
    if is_over_bound(bound, said - 1) {
        return Err(RunFault::OverBound);
    }
    Ok(said - 1)
}

/// How many octets a string has by the length on a tape, which doesn't.
pub fn length_on_tape(bound: u32, said: u32) -> Result<u32, RunFault>
    ensures { Gives (λ n. n) result (tape_length bound said) }
{
    if said == u32::MAX {
        return Err(RunFault::BadLength);
    }
    if is_over_bound(bound, said) {
        return Err(RunFault::OverBound);
    }
    Ok(said)
}

/// Refuses a string of so many octets at the front unless they are there and a zero ends them.
pub fn check_terminator(n: usize, octets: &[u8]) -> Result<(), RunFault>
    ensures value { Passes (λ _. no_zero (take n octets.now)) result (terminated n octets.now) }
    ensures within { IfOk result (λ _. n < length octets.now) }
{
    if octets.len() <= n {
        return Err(RunFault::Short);
    }
    if octets[n] != 0 {
        return Err(RunFault::NoTerminator);
    }
    Ok(())
}

/// Refuses a string of so many octets at the front unless they are there.
pub fn check_length(n: usize, octets: &[u8]) -> Result<(), RunFault>
    ensures value { Passes (λ _. no_zero (take n octets.now)) result (unterminated n octets.now) }
    ensures within { IfOk result (λ _. n ≤ length octets.now) }
{
    if octets.len() < n {
        return Err(RunFault::Short);
    }
    Ok(())
}

/// So many octets of a front at the end, of which none may be zero.
#[inline(always)]
pub fn push_text(out: &mut Output<'_>, octets: &[u8], n: usize) -> Result<(), RunFault>
    requires { n ≤ length octets.now }
    ensures value { Gives (λ _. take n octets.now) result (no_zero (take n octets.now)) }
    ensures pushed { OnOk result (out.new ≡ out.old ++ take n octets.now) }
{
    if push_unless::<Zero>(out, octets, n)? {
        return Err(RunFault::ZeroInside);
    }
    Ok(())
}
