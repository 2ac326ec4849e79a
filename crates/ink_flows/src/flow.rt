//! What a flow has of its own.

ghost use Rattle.std.specs.Prelude.{◌≡◌, [], IfSome, None, false};
ghost use Rattle.ink_choice.specs.Undo.{choices_stood};
ghost use Rattle.ink_flows.specs.Standing.{flow_of};
ghost use Rattle.ink_model.specs.Run.Configuration.{fresh_flow};
ghost use Rattle.ink_model.specs.Flow.Frames.{base_threads};
ghost use Rattle.ink_model.specs.Story.Tree.{StoryTree};
ghost use Rattle.ink_stack.specs.Undo.{threads_stood};
ghost use Rattle.ink_tree.specs.Nodes.{place_of};
ghost use Rattle.ink_value.specs.Undo.{stack_stood};

use ink_choice::Choices;
use ink_stack::Threads;
use ink_tree::Spot;
use ink_value::EvalStack;
use std::alloc::Global;

/// A flow: where it is, what it evaluates, and what it offers.
pub struct Flow {
    pub threads: Threads<Spot>,
    pub stack: EvalStack,
    pub choices: Choices<Spot>,
    /// Whether its last stop was a safe one.
    pub safe: bool,
}

/// Written out, so that wherever a flow is let go that is one call, and a proof there does not go through its contents.
impl Drop for Flow {
    fn drop(self) {
        let Flow {
            threads: _,
            stack: _,
            choices: _,
            safe: _,
        } = self;
    }
}

impl Flow {
    /// A flow at a place, or at none, in which nothing has happened yet, and no mark stands. Takes no memory.
    pub fn new(alloc: Global, place: Option<Spot>) -> Flow
        ensures flow { (s : StoryTree) → IfSome place (λ p. flow_of s result ≡ fresh_flow (place_of s p)) }
        ensures threads { result.threads.threads ≡ base_threads place }
        ensures items { result.stack.items ≡ [] }
        ensures offered { result.choices.items ≡ [] }
        ensures safe { result.safe ≡ false }
        ensures threads_mark { threads_stood result.threads ≡ None }
        ensures stack_mark { stack_stood result.stack ≡ None }
        ensures choices_mark { choices_stood result.choices ≡ None }
    {
        Flow {
            threads: Threads::new(alloc, place),
            stack: EvalStack::new(alloc),
            choices: Choices::new(alloc),
            safe: false,
        }
    }
}
