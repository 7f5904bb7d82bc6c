//! The words of a line as `clap` is to read them.

ghost use Rattle.std.specs.Prelude.{◌≡◌, ◌++◌, ◌∷◌, codes, IfNone, IfOk, IfSome};
ghost use Rattle.command_words.specs.Spoken.{glued, is_dashed, joined, spoken};
ghost use Rattle.command_words.specs.Words.{texts};

use std::alloc::{AllocError, Global};

/// Words, of which the one before `value` is `--text`.
#[derive(Clone, Copy)]
struct Pieces<'w, 'a> {
    front: &'w [&'a str],
    word: &'a str,
    value: &'a str,
    behind: &'w [&'a str],
}

/// Whether a value begins with a minus, and isn't one alone.
fn is_dashed(word: &str) -> bool
    ensures { result ≡ is_dashed word.now }
{
    word.len() > 1 && word.as_bytes()[0] == b'-'
}

/// The pieces of words, of which those from `--text` on are apart, if its value begins with a minus.
fn pieces_of<'w, 'a>(front: &'w [&'a str], from: &'w [&'a str]) -> Option<Pieces<'w, 'a>>
    ensures front { IfSome result (λ pieces. pieces.front.now ≡ front.now) }
    ensures some { IfSome result (λ pieces. joined (texts from.now)
        ≡ (pieces.word.now ++ codes "=" ++ pieces.value.now) ∷ texts pieces.behind.now) }
    ensures none { IfNone result (joined (texts from.now) ≡ texts from.now) }
{
    match from {
        [word, value, behind @ ..] if is_dashed(value) => Some(Pieces {
            front,
            word,
            value,
            behind,
        }),
        _ => None,
    }
}

/// The pieces of words with a word `--text`, if no word `--` stands before it and its value begins
/// with a minus.
fn text_pieces<'w, 'a>(words: &'w [&'a str]) -> Option<Pieces<'w, 'a>>
    ensures some { IfSome result (λ pieces. glued (texts words.now) ≡ texts pieces.front.now
        ++ ((pieces.word.now ++ codes "=" ++ pieces.value.now) ∷ texts pieces.behind.now)) }
    ensures none { IfNone result (glued (texts words.now) ≡ texts words.now) }
{
    for (place, word) in words.iter().enumerate() {
        if *word == "--text" {
            return pieces_of(&words[..place], &words[place..]);
        }
        if *word == "--" {
            return None;
        }
    }
    None
}

/// An option and its value as one word, which is kept for good, as long as the words of the run.
fn one_word<'a>(alloc: Global, word: &str, value: &str) -> Result<&'a str, AllocError>
    ensures { IfOk result (λ one. one.now ≡ word.now ++ codes "=" ++ value.now) }
{
    let one = Box::new(alloc, format!(in alloc; "{word}={value}")?)?;
    Ok(Box::leak(one).as_str())
}

/// The words of the command, and those behind it with `--text` and its value as one.
fn joined<'a>(
    alloc: Global,
    command: &[&'a str],
    pieces: &Pieces<'_, 'a>,
) -> Result<&'a [&'a str], AllocError>
    ensures { IfOk result (λ words. texts words.now ≡ texts command.now ++ (texts pieces.now.front.now
        ++ ((pieces.now.word.now ++ codes "=" ++ pieces.now.value.now) ∷ texts pieces.now.behind.now))) }
{
    let mut words = Vec::new(alloc);
    words.extend_from_slice(command)?;
    words.extend_from_slice(pieces.front)?;
    words.push(one_word(alloc, pieces.word, pieces.value)?)?;
    words.extend_from_slice(pieces.behind)?;
    Ok(words.leak())
}

/// The words as `clap` is to read them: of the command `encode` a word `--text` and a value that
/// begins with a minus are one.
///
/// # Errors
/// Want of memory.
pub(crate) fn spoken<'a>(alloc: Global, words: &'a [&'a str]) -> Result<&'a [&'a str], AllocError>
    ensures { IfOk result (λ said. texts said.now ≡ spoken (texts words.now)) }
{
    match words.get(1) {
        Some(command) if *command == "encode" => {}
        _ => return Ok(words),
    }
    match text_pieces(&words[2..]) {
        Some(pieces) => joined(alloc, &words[..2], &pieces),
        None => Ok(words),
    }
}
