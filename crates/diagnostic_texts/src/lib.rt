//! What refusals mean, with inputs that get them and how to mend these.
#![tactic(auto)]

ghost use Rattle.std.specs.Prelude.{◌≡◌, is_some, option_map};
ghost use Rattle.diagnostic_texts.specs.Headings.{first_line, heading, is_refusal};

mod calls;
mod captures;
mod checks;
mod connections;
mod grammar;
mod messages;
mod named;
mod names;
mod runs;
mod tables;
mod texts;
mod tokens;
mod types;
mod values;

pub use named::{explanations, heading, headings};

/// What the refusal of this number means, an input that gets it and how to mend that, in lines each
/// with its end; the first line is the number and the name. None where no refusal has the number.
pub fn explanation(number: u8) -> Option<&'static str>
    ensures there { is_some result ≡ is_refusal number }
    ensures headed { option_map (λ text. first_line text.now) result ≡ heading number }
{
    match number {
        0..=9 => tokens::of_tokens(number),
        10..=19 => grammar::of_grammar(number),
        20..=29 => names::of_names(number),
        30..=39 => types::of_types(number),
        40..=49 => values::of_values(number),
        50..=59 => tables::of_tables(number),
        60..=69 => runs::of_runs(number),
        70..=79 => tables::of_plans(number),
        80..=89 => checks::of_checks(number),
        90..=99 => messages::of_messages(number),
        100..=109 => connections::of_connections(number),
        110..=129 => texts::of_texts(number),
        130..=141 => calls::of_calls(number),
        _ => captures::of_captures(number),
    }
}
