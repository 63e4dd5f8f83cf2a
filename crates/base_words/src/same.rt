// Texts compared.
ghost use Rattle.std.specs.Prelude.{◌≡◌};
ghost use Rattle.base_words.specs.Same.{same, is_dot};

// The two texts are the same, byte for byte.
#[tactic(auto, using(crate::proofs::SameLaws::same_pairs))]
pub fn is_same(s: &[u8], t: &[u8]) -> bool
    ensures { result ≡ same s.now t.now }
{
    s == t
}

// The exact byte `.`: what a column is where its value is missing.
#[tactic(auto, using(crate::proofs::SameLaws::same_dot))]
pub fn is_dot(s: &[u8]) -> bool
    ensures { result ≡ is_dot s.now }
{
    is_same(s, b".")
}
