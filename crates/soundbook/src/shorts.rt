// Lists of a few items in fixed memory.
ghost use Rattle.std.specs.Prelude.{◌≡◌, [], ◌∷◌, ◌-◌, ◌≤◌, cond, length, nat_le, slice_index_or, take, ⊤};

use rulebook::item_or;
use std::alloc::AllocError;

// At most N items: the first ones, as many as the length; what stands past them is not read. An array, and no Vec: the
// memory of a book is fixed.
pub struct Short<T, const N: usize> {
    pub len: u16,
    pub items: [T; N],
    ghost fits: { len ≤ length items },
}

// No derive writes these over a ghost field of a generic struct.
impl<T: Copy, const N: usize> Copy for Short<T, N> {}

impl<T: Copy, const N: usize> Clone for Short<T, N> {
    ghost is_clone = { λ x y. y ≡ x };

    ghost is_infallible = { λ _. ⊤ };

    fn clone(&self) -> Result<Short<T, N>, AllocError> {
        Ok(*self)
    }
}

impl<T: Copy, const N: usize> Short<T, N> {
    // One item; the memory past it holds blanks.
    pub(super) fn single(item: T, blank: T) -> Short<T, N>
        requires { 1 ≤ N }
        ensures len { result.len ≡ 1 }
        ensures items { take result.len result.items ≡ item ∷ [] }
    {
        let mut items = [blank; N];
        items[0] = item;
        Short { len: 1, items }
    }

    // The item at a place, counted from 0, or what stands in for one past the end.
    pub(super) fn item(&self, place: u16, past: T) -> T
        ensures { result ≡ slice_index_or (take self.now.len self.now.items) place past }
    {
        item_or(&self.items[..usize::from(self.len)], place, past)
    }

    // The item of a number, where the first item has the number first.
    pub(super) fn numbered(&self, number: u16, first: u16, past: T) -> T
        ensures { result ≡ cond (nat_le first number) (slice_index_or (take self.now.len self.now.items) (number - first) past) past }
    {
        // Not `map_or`: what its closure returns is not read off its body, for it is generic.
        match number.checked_sub(first) {
            Some(place) => self.item(place, past),
            None => past,
        }
    }
}
