// The word that asks for the second form.
ghost use Rattle.std.specs.Prelude.{◌≡◌, [], ◌∷◌};
ghost use Rattle.flash.specs.Lists.{is_same};

// Whether an argument is `--originals`.
pub fn asks_originals(word: &[u8]) -> bool
    ensures { result ≡ is_same word.now
        (45 ∷ 45 ∷ 111 ∷ 114 ∷ 105 ∷ 103 ∷ 105 ∷ 110 ∷ 97 ∷ 108 ∷ 115 ∷ []) }
{
    word == b"--originals".as_slice()
}
