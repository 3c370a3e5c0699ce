// What every kind of word answers.
ghost use Rattle.std.specs.Prelude.{◌≡◌, ℕ, Bool};
ghost use Rattle.rulebook.specs.Sets.{key_number};
ghost use Rattle.wording.specs.Sets.{word_of};

// A word means the set of keys that it matches. Its one question refuses and alters nothing.
pub trait Word {
    // a test that says yes of the keys that the word matches
    ghost tells: { Self → ℕ → Bool };

    // Whether the word matches a key; a number that no key can have is matched by none.
    fn matches(&self, key: u16) -> bool
        ensures { result ≡ word_of (tells self.now) key };
}

// Whether a key can have this number.
pub(super) fn is_key_number(number: u16) -> bool
    ensures { result ≡ key_number number }
{
    matches!(number, 33..=64)
}
