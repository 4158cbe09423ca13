// Words among tokens.
ghost use Rattle.std.specs.Prelude.{◌≡◌, map};
ghost use Rattle.token.specs.Views.{view_tokens};
ghost use Rattle.definitions.specs.InForce.{index as index_in};

use token::Tokens;

// The index of the first token that spells the word.
pub fn index_of(mut tokens: Tokens<'_>, word: &[u8]) -> Option<usize>
    ensures { result ≡ index_in word.now (map (λ t. t.spelling) (view_tokens tokens.entry)) }
{
    tokens.position(|token| word == token.spelling)
}
