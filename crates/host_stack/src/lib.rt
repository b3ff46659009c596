// One thread's scope stack as a record that is lent.
#![tactic(auto)]

ghost use Rattle.std.specs.Prelude.{◌≡◌};
ghost use Rattle.layout.specs.Stack.{empty_stack, push_answer, pushed_stack, pop_answer, popped_stack};

use layout::answer::Answer;
use layout::stack::ScopeStack;

// A stack with no entry.
pub fn scopes_stack_empty() -> ScopeStack
    ensures { result ≡ empty_stack }
{
    ScopeStack::empty()
}

// Push: 6 for an area above 63, 9 on 32 entries, else 0; refused, the stack stays as it is.
pub fn scopes_stack_push(s: &mut ScopeStack, area: u64) -> Answer
    ensures { (result ≡ push_answer s.old area) × (s.new ≡ pushed_stack s.old area) }
{
    s.push(area).into()
}

// Pop: 11 on no entry, else 0 and the top area.
pub fn scopes_stack_pop(s: &mut ScopeStack) -> Answer
    ensures { (result ≡ pop_answer s.old) × (s.new ≡ popped_stack s.old) }
{
    s.pop().into()
}
