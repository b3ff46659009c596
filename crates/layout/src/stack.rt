// One thread's scope stack as a record of its own, and places on a stack.
ghost use Rattle.std.specs.Prelude.{◌≡◌};
ghost use Rattle.layout.specs.Answer.{answer_of};
ghost use Rattle.layout.specs.Stack.{empty_stack, height_of, push_answer, pushed_stack, pop_answer, popped_stack, Pushes, Pops};

use crate::answer::Refusal;

// An entry's place on a stack, from 0 at the bottom. A heap or immortal entry takes a place and no
// depth.
#[derive(Clone, Copy)]
pub struct Place(pub usize);

// At most 32 entries, each the number of an area; the top one is the last.
// An array with a length beside it, since hosts in C hold it (include/scopes.h).
#[repr(C)]
#[derive(Clone, Copy)]
pub struct ScopeStack {
    pub len: u64,
    pub entries: [u8; 32],
}

impl ScopeStack {
    pub fn empty() -> ScopeStack
        ensures { result ≡ empty_stack }
    {
        ScopeStack {
            len: 0,
            entries: [0u8; 32],
        }
    }

    // The place above the top: no more than 32 entries count, whatever the record says.
    fn height(&self) -> Place
        ensures { result.0 ≡ height_of self.now }
    {
        Place(self.len.min(32) as usize)
    }

    // The stack with one entry more, by value: refused by 6 for an area above 63, then by 9 on 32 entries.
    #[tactic(auto, unfolding(crate::specs::Stack::push_answer, crate::specs::Stack::pushed_stack))]
    pub fn pushed(self, area: u64) -> Result<ScopeStack, Refusal>
        ensures { Pushes result self area }
    {
        if 63 < area {
            return Err(Refusal::Area);
        }
        if 32 <= self.len {
            return Err(Refusal::StackFull);
        }
        let mut next = self;
        next.entries[self.len as usize] = area as u8;
        next.len = self.len + 1;
        Ok(next)
    }

    // The stack without its top entry, by value, and the area of that entry: refused by 11 where there is none.
    #[tactic(auto, unfolding(crate::specs::Stack::pop_answer, crate::specs::Stack::popped_stack))]
    pub fn popped(self) -> Result<(ScopeStack, u64), Refusal>
        ensures { Pops result self }
    {
        let above = self.height().0;
        if above == 0 {
            return Err(Refusal::Entries);
        }
        let at = above - 1;
        let mut next = self;
        next.len = at as u64;
        Ok((next, self.entries[at] as u64))
    }

    // An area goes on top; refused, the stack stays as it is.
    pub fn push(&mut self, area: u64) -> Result<u64, Refusal>
        ensures answer { answer_of result ≡ push_answer self.old area }
        ensures stack { self.new ≡ pushed_stack self.old area }
    {
        *self = self.pushed(area)?;
        Ok(0)
    }

    // The top entry goes, and its area is the value; refused, the stack stays as it is.
    pub fn pop(&mut self) -> Result<u64, Refusal>
        ensures answer { answer_of result ≡ pop_answer self.old }
        ensures stack { self.new ≡ popped_stack self.old }
    {
        let (next, area) = self.popped()?;
        *self = next;
        Ok(area)
    }
}

// The stack with one entry more, by value, of any push: as it was where the push is refused.
pub fn pushed(s: ScopeStack, area: u64) -> ScopeStack
    ensures { result ≡ pushed_stack s area }
{
    s.pushed(area).unwrap_or(s)
}

// The stack without its top entry, by value, of any pop: as it was where there is none.
pub fn popped(s: ScopeStack) -> ScopeStack
    ensures { result ≡ popped_stack s }
{
    match s.popped() {
        Ok((next, _)) => next,
        Err(_) => s,
    }
}
