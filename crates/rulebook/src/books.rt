// The questions that every make of book answers.
ghost use Rattle.std.specs.Prelude.{◌≡◌, ◌+◌, ◌<◌, ◌≤◌, ◌⊎◌, length, MatchOption, slice_index, slice_index_or};
ghost use Rattle.language.specs.Book.{Meaning, left as left_of, size as size_of, symbol as symbol_of, kind as kind_of, spelling as spelling_of};

// A make of book. No question refuses or alters anything; one outside the book is answered 0.
pub trait Book {
    // what the book means
    ghost meaning: { Self → Meaning };

    // How many parts there are.
    fn parts(&self) -> u16
        ensures { result ≡ (meaning self.now).grammar.parts };

    // How many keys there are; each has one form.
    fn keys(&self) -> u16
        ensures count { result ≡ (meaning self.now).grammar.keys }
        ensures forms { result ≡ length (meaning self.now).forms };

    // The start part.
    fn start(&self) -> u16
        ensures { result ≡ (meaning self.now).grammar.start };

    // How many rules there are.
    fn rules(&self) -> u16
        ensures { result ≡ length (meaning self.now).grammar.rules };

    // The left part of a rule; rules count from 1.
    fn left(&self, rule: u16) -> u16
        ensures { result ≡ left_of (meaning self.now).grammar rule };

    // The length of a rule's right side.
    fn size(&self, rule: u16) -> u16
        ensures { result ≡ size_of (meaning self.now).grammar rule };

    // The symbol at a place of a rule's right side; places count from 0.
    fn symbol(&self, rule: u16, at: u16) -> u16
        ensures { result ≡ symbol_of (meaning self.now).grammar rule at };

    // The kind of a key; keys count from 33. A number, since a book that is not checked may tell any.
    fn kind(&self, key: u16) -> u16
        ensures { result ≡ kind_of (meaning self.now).forms key };

    // The length of a key's spelling.
    fn spelling_len(&self, key: u16) -> u16
        ensures { result ≡ length (spelling_of (meaning self.now).forms key) };

    // The byte at a place of a key's spelling; places count from 0.
    fn spelling_byte(&self, key: u16, at: u16) -> u8
        ensures { result ≡ slice_index (spelling_of (meaning self.now).forms key) at };
}

// Where a number stands among so many that begin at first, counted from 0.
pub fn place_of(number: u16, first: u16, count: u16) -> Option<u16>
    ensures { MatchOption result ((number < first) ⊎ (first + count ≤ number)) (λ i. (i < count) × (first + i ≡ number)) }
{
    number.checked_sub(first).filter(|place| *place < count)
}

// The item at a place, counted from 0, or what stands in for one past the end.
pub fn item_or<T: Copy>(items: &[T], place: u16, past: T) -> T
    ensures { result ≡ slice_index_or items.now place past }
{
    items.get(usize::from(place)).map_or(past, |item| *item)
}
