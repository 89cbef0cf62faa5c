//! The signs of one and two bytes.
ghost use Rattle.std.specs.Prelude.{◌≡◌, ◌∷◌, [], option_map};
ghost use Rattle.hippo_lexer.specs.Spelling.{sign_table, sign_of};
ghost use Rattle.hippo_lexer.specs.Cutting.{sign_first};

use crate::kinds::Symbol;

#[tactic(auto, unfolding(crate::specs::Spelling::sign_of, crate::specs::Spelling::sign_table))]
fn single_sign(byte: u8) -> Option<Symbol>
    ensures { result ≡ sign_of (byte ∷ []) }
{
    match byte {
        b',' => Some(Symbol::Comma),
        b'(' => Some(Symbol::LeftParen),
        b')' => Some(Symbol::RightParen),
        b'=' => Some(Symbol::Equal),
        b'.' => Some(Symbol::Dot),
        b'*' => Some(Symbol::Star),
        b'<' => Some(Symbol::Less),
        b'>' => Some(Symbol::Greater),
        b';' => Some(Symbol::Semicolon),
        _ => None,
    }
}

#[tactic(auto, unfolding(crate::specs::Spelling::sign_of, crate::specs::Spelling::sign_table))]
fn double_sign(first: u8, second: u8) -> Option<Symbol>
    ensures { result ≡ sign_of (first ∷ second ∷ []) }
{
    match (first, second) {
        (b'<', b'>') => Some(Symbol::NotEqual),
        (b'!', b'=') => Some(Symbol::NotEqual),
        (b'<', b'=') => Some(Symbol::LessEqual),
        (b'>', b'=') => Some(Symbol::GreaterEqual),
        _ => None,
    }
}

fn sign_of_one(byte: u8) -> Option<(Symbol, usize)>
    ensures { result ≡ option_map (λ sign. (sign, 1)) (sign_of (byte ∷ [])) }
{
    match single_sign(byte) {
        Some(sign) => Some((sign, 1)),
        None => None,
    }
}

/// The longest sign at the front, and its length.
#[tactic(auto, unfolding(crate::specs::Cutting::sign_first))]
pub fn sign_first(bytes: &[u8]) -> Option<(Symbol, usize)>
    ensures { result ≡ sign_first bytes.now }
{
    match bytes {
        [] => None,
        [only] => sign_of_one(*only),
        [first, second, ..] => match double_sign(*first, *second) {
            Some(sign) => Some((sign, 2)),
            None => sign_of_one(*first),
        },
    }
}
