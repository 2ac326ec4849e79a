//! Room for what is noted while a mark stands. Each call makes it where a mark stands, and takes no memory else; the one error is
//! `OutOfMemory` for a refused request for memory, and then there is less room than was asked for, and nothing has changed.

ghost use Rattle.ink_choice.specs.Undo.{choices_spare, choices_stood};
ghost use Rattle.ink_stack.specs.Undo.{threads_spare, threads_stood};
ghost use Rattle.ink_effects.specs.Marks.{lacks};
ghost use Rattle.ink_value.specs.Undo.{stack_spare, stack_stood};
ghost use Rattle.ink_vars.specs.Undo.{counts_spare, counts_stood};
ghost use Rattle.std.specs.Prelude.{◌≡◌, ◌≤◌, true, IfErr, OnErr, OnOk};

use ink_choice::Choices;
use ink_model::Fault;
use ink_stack::Threads;
use ink_trail::Undo;
use ink_tree::Spot;
use ink_value::EvalStack;
use ink_vars::Counts;

/// Makes room for so many changes of threads to be noted.
#[inline(always)]
pub fn ready_threads(threads: &mut Threads<Spot>, count: usize) -> Result<(), Fault>
    ensures threads { threads.new.threads ≡ threads.old.threads }
    ensures stood { threads_stood threads.new ≡ threads_stood threads.old }
    ensures more { threads_spare threads.old ≤ threads_spare threads.new }
    ensures room { OnOk result (count ≤ threads_spare threads.new) }
    ensures fault { IfErr result (λ f. f ≡ Fault.OutOfMemory) }
    ensures memory { OnErr result (lacks (threads_stood threads.new) (threads_spare threads.new) count ≡ true) }
{
    threads.ready(count)?;
    Ok(())
}

/// Makes room for so many changes of an evaluation stack to be noted.
#[inline(always)]
pub fn ready_stack(stack: &mut EvalStack, count: usize) -> Result<(), Fault>
    ensures items { stack.new.items ≡ stack.old.items }
    ensures stood { stack_stood stack.new ≡ stack_stood stack.old }
    ensures room { OnOk result (count ≤ stack_spare stack.new) }
    ensures fault { IfErr result (λ f. f ≡ Fault.OutOfMemory) }
    ensures memory { OnErr result (lacks (stack_stood stack.new) (stack_spare stack.new) count ≡ true) }
{
    stack.ready(count)?;
    Ok(())
}

/// Makes room for so many changes of choices to be noted.
#[inline(always)]
pub fn ready_choices(choices: &mut Choices<Spot>, count: usize) -> Result<(), Fault>
    ensures items { choices.new.items ≡ choices.old.items }
    ensures stood { choices_stood choices.new ≡ choices_stood choices.old }
    ensures room { OnOk result (count ≤ choices_spare choices.new) }
    ensures fault { IfErr result (λ f. f ≡ Fault.OutOfMemory) }
    ensures memory { OnErr result (lacks (choices_stood choices.new) (choices_spare choices.new) count ≡ true) }
{
    choices.ready(count)?;
    Ok(())
}

/// Makes room for so many changes of counts to be noted.
#[inline(always)]
pub(crate) fn ready_counts(counts: &mut Counts, count: usize) -> Result<(), Fault>
    ensures rows { counts.new.rows ≡ counts.old.rows }
    ensures stood { counts_stood counts.new ≡ counts_stood counts.old }
    ensures room { OnOk result (count ≤ counts_spare counts.new) }
    ensures fault { IfErr result (λ f. f ≡ Fault.OutOfMemory) }
    ensures memory { OnErr result (lacks (counts_stood counts.new) (counts_spare counts.new) count ≡ true) }
{
    counts.ready(count)?;
    Ok(())
}
