// A stack over a lent slice, for every kind of element.
ghost use Rattle.std.specs.Prelude.{◌≡◌, ◌≤◌, List, [], ◌∷◌, drop, length, replicate, IfNone, IfSome, OnErr, OnOk};

/// What may stand on a stack.
pub trait Blank: Copy {
    // what a place holds that is left blank
    ghost blank: { Self };

    /// What a place holds that is left blank.
    fn blank() -> Self
        ensures { result ≡ blank };
}

impl Blank for u8 {
    ghost blank = { 0 };

    fn blank() -> u8 {
        0
    }
}

// Leaves every place of a room blank.
fn wipe<T: Blank>(room: &mut [T])
    ensures { room.new ≡ replicate (length room.old) T.blank }
{
    // A loop: the library's fill asks for a clone that cannot fail.
    for place in room.iter_mut() {
        *place = T::blank();
    }
}

/// No place is left for an element.
#[derive(Clone, Copy, Debug)]
pub struct Full;

/// A stack over a lent slice, its room. The lowest element stands in the first place of the room, and the places above the
/// top hold what was left there. When the stack is dropped, the whole room is blank.
pub struct Stack<'a, T: Blank> {
    room: &'a mut [T],
    len: usize,
    ghost within: { len ≤ length room.now },
}

impl<'a, T: Blank> Stack<'a, T> {
    ghost use Rattle.reading.specs.Stacks.{above_top, places, stacked, SameRoom};

    /// An empty stack; every place of the room stays as it was lent.
    pub fn over(room: &'a mut [T]) -> Stack<'a, T>
        ensures same_room { result.room.ghost_name ≡ room.entry.ghost_name }
        ensures lent { result.room.now ≡ room.old }
        ensures empty { stacked result ≡ [] }
    {
        Stack { room, len: 0 }
    }

    /// Puts an element on top, in the first place above the old top; every other place stays as it was. A full stack refuses
    /// it, and all stays.
    pub fn push(&mut self, item: T) -> Result<(), Full>
        ensures room { SameRoom self.old self.new }
        ensures pushed { OnOk result (stacked self.new ≡ item ∷ stacked self.old) }
        ensures above { OnOk result (above_top self.new ≡ drop 1 (above_top self.old)) }
        ensures full { OnErr result (length (stacked self.old) ≡ places self.old) }
        ensures unchanged { OnErr result (self.new ≡ self.old) }
    {
        if self.len == self.room.len() {
            return Err(Full);
        }
        self.room[self.len] = item;
        self.len += 1;
        Ok(())
    }

    /// Takes the top off, or none where there is none. Every place of the room stays as it was, the one of the top too.
    #[tactic(auto, using(crate::proofs::Stacked::rest_at))]
    pub fn pop(&mut self) -> Option<T>
        ensures room { SameRoom self.old self.new }
        ensures content { self.new.room.now ≡ self.old.room.now }
        ensures popped { IfSome result (λ x. stacked self.old ≡ x ∷ stacked self.new) }
        ensures none { IfNone result (stacked self.old ≡ []) }
        ensures unchanged { IfNone result (self.new ≡ self.old) }
    {
        let top = self.top()?;
        self.len -= 1;
        Some(top)
    }

    /// The top, or none where there is none. The stack and its room stay.
    pub fn top(&self) -> Option<T>
        ensures top { IfSome result (λ x. (rest : List T) × (stacked self.now ≡ x ∷ rest)) }
        ensures none { IfNone result (stacked self.now ≡ []) }
    {
        let place = self.len.checked_sub(1)?;
        let room = &*self.room;
        Some(room[place])
    }

    /// Takes all elements off, and leaves every place of the room blank.
    pub fn clear(&mut self)
        ensures room { SameRoom self.old self.new }
        ensures empty { stacked self.new ≡ [] }
        ensures blank { self.new.room.now ≡ replicate (places self.old) T.blank }
    {
        wipe(self.room);
        self.len = 0;
    }
}

impl<T: Blank> Drop for Stack<'_, T> {
    fn drop(self)
        ensures blank { self.exit.0.now ≡ replicate (length self.entry.room.now) T.blank }
    {
        let Stack { room, len: _ } = self;
        wipe(room);
    }
}
