//! Laws over the tokens and the fault of a source. The functions do nothing: each contract is the law.

ghost use Rattle.std.specs.Prelude.{◌≡◌, ℕ, List, map};
ghost use Rattle.idl_lexer.specs.declared.fault.LexFault.{LexFault};
ghost use Rattle.idl_lexer.specs.declared.token.Token.{Token};
ghost use Rattle.idl_lexer.specs.Faults.{IsFault};
ghost use Rattle.idl_lexer.specs.Tokens.{HaveLines, Lexed, parts_of};

/// A source has at most one list of tokens.
pub fn tokens_are_one()
    ensures { (source : List ℕ) (tokens others : List Token) → Lexed source tokens → HaveLines source tokens
        → Lexed source others → HaveLines source others → map parts_of tokens ≡ map parts_of others }
{}

/// A source has at most one fault.
pub fn fault_is_one()
    ensures { (source : List ℕ) (fault other : LexFault) → IsFault source fault → IsFault source other → fault ≡ other }
{}

/// A source that has a fault has no tokens.
pub fn tokens_or_fault()
    ensures { (source : List ℕ) (tokens : List Token) (fault : LexFault) → Lexed source tokens
        → IsFault source fault → ⊥ }
{}
