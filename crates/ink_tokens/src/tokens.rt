//! Tokens, and members of objects.

ghost use Rattle.std.specs.Prelude.{◌≡◌, [], ◌∷◌, ◌++◌, OnOk, pos};
ghost use Rattle.json.specs.Print.{IsPrintable};
ghost use Rattle.json.specs.Reads.{token_of};
ghost use Rattle.json.specs.Token as tokens;
ghost use Rattle.serde_json.specs.Data.{number};
ghost use Rattle.serde_json.specs.Find.{of_integer};
ghost use Rattle.ink_tokens.specs.Tokens.{Added, data_tokens};

use json::{Token, Writer};
use std::alloc::AllocError;

/// One token. A number's text is a number of JSON. The one error is a refused request for memory.
#[inline(always)]
pub fn put(out: &mut Writer, token: Token<'_>) -> Result<(), AllocError>
    requires { IsPrintable (token_of token) }
    ensures { OnOk result (Added out.old out.new (token_of token.entry ∷ [])) }
{
    out.token(token)
}

/// An integer. The one error is a refused request for memory.
pub fn put_integer(out: &mut Writer, integer: i32) -> Result<(), AllocError>
    ensures { OnOk result (Added out.old out.new (data_tokens (number (of_integer integer)))) }
{
    out.i64(integer as i64)
}

/// A number that is not negative. The one error is a refused request for memory.
pub fn put_natural(out: &mut Writer, natural: u64) -> Result<(), AllocError>
    ensures { OnOk result (Added out.old out.new (data_tokens (number (of_integer (pos natural))))) }
{
    out.u64(natural)
}

/// A member with a number that is not negative. The one error is a refused request for memory.
pub fn put_number(out: &mut Writer, name: &str, natural: u64) -> Result<(), AllocError>
    ensures { OnOk result (Added out.old out.new (tokens.key name.now ∷ data_tokens (number (of_integer (pos natural))))) }
{
    put(out, Token::Key(name))?;
    put_natural(out, natural)
}

/// A member with a text. The one error is a refused request for memory.
pub fn put_text(out: &mut Writer, name: &str, text: &str) -> Result<(), AllocError>
    ensures { OnOk result (Added out.old out.new (tokens.key name.now ∷ tokens.string text.now ∷ [])) }
{
    put(out, Token::Key(name))?;
    put(out, Token::String(text))
}

/// A member with a truth value. The one error is a refused request for memory.
pub fn put_flag(out: &mut Writer, name: &str, truth: bool) -> Result<(), AllocError>
    ensures { OnOk result (Added out.old out.new (tokens.key name.now ∷ tokens.boolean truth ∷ [])) }
{
    put(out, Token::Key(name))?;
    put(out, Token::Bool(truth))
}
