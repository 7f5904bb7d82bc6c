//! Laws over the definitions. The functions do nothing: each contract is the law.

ghost use Rattle.std.specs.Prelude.{◌≡◌, List};
ghost use Rattle.std.specs.Str.{IsUtf8};
ghost use Rattle.json.specs.Lex.{tokens};
ghost use Rattle.json.specs.Print.{print};
ghost use Rattle.json.specs.Token.{Token};
ghost use Rattle.value_text.specs.Escaped.{escaped};

/// The print of tokens, if it says these, says them with its characters as escapes too.
pub fn escapes_say_the_same()
    ensures { (said : List Token) → IsUtf8 (print said) → tokens (print said) ≡ said
        → tokens (escaped (print said)) ≡ said }
{}
