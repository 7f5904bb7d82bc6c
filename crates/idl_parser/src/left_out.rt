//! Keywords of parts of IDL that aren't served.

use idl_lexer::{Kind, Token};

/// The keywords of what isn't served.
const LEFT_OUT: [&str; 32] = [
    "abstract",
    "any",
    "component",
    "consumes",
    "context",
    "custom",
    "double",
    "emits",
    "eventtype",
    "factory",
    "finder",
    "fixed",
    "float",
    "home",
    "import",
    "local",
    "multiple",
    "native",
    "primarykey",
    "private",
    "provides",
    "public",
    "publishes",
    "supports",
    "truncatable",
    "typeid",
    "typeprefix",
    "uses",
    "ValueBase",
    "valuetype",
    "wchar",
    "wstring",
];

/// The keyword, if the token is one of them.
pub(crate) fn left_out(token: &Token<'_>) -> Option<&'static str> {
    if token.kind != Kind::Keyword {
        return None;
    }
    LEFT_OUT
        .iter()
        .copied()
        .find(|word| word.as_bytes() == token.text.as_bytes())
}
