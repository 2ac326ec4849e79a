//! Why a story is refused, breaks off, or does not do what is asked, in words.

ghost use Rattle.std.specs.Prelude.{◌≡◌};
ghost use Rattle.ink_page.specs.Sentences.{cause_sentence, fault_sentence, refusal_sentence};

use ink_model::{Cause, Fault, Refusal};

/// Why a story is refused. A word of the story that is not known is told as what is left out.
pub fn cause_words(cause: Cause) -> &'static str
    ensures { result.now ≡ cause_sentence cause }
{
    match cause {
        Cause::NotJson =>
            "The story's file is no JSON: it may be cut, or not what inklecate writes.",
        Cause::Version =>
            "The story is of a version of ink that is not played here: 20 and 21 are.",
        Cause::Shape => "There is something in the story that inklecate does not write.",
        Cause::Unsupported =>
            "The story has something that is not played here: a list, a number with a point, a shuffle or a random number.",
        Cause::BadPath => "The story has a path that leads to nothing.",
        Cause::Limit => "The story has something that is too large or nested too deep.",
        Cause::OutOfMemory => "There is not enough memory for the story.",
    }
}

/// Why a story breaks off.
pub fn fault_words(fault: Fault) -> &'static str
    ensures { result.now ≡ fault_sentence fault }
{
    match fault {
        Fault::StackEmpty => "The story took a value where none was.",
        Fault::BadOperands => "The story reckoned with values that do not go together.",
        Fault::Divide => "The story divided by zero, or the least number by -1.",
        Fault::BadMode => "The story used a command where it has no meaning.",
        Fault::BadPop => "The story came back from where it had not gone.",
        Fault::BadTarget => "The story went to a place that is not there.",
        Fault::BadPointer => "The story followed a reference to a variable that is not there.",
        Fault::NotCounted => "The story asked for visits that are not counted.",
        Fault::NoTemp => "The story used a variable that is not there.",
        Fault::UnsafeInString =>
            "The story called a function with effects in the middle of a text.",
        Fault::Unbound => "The story called a function that nothing answers.",
        Fault::HostRefused => "A function had no answer to give.",
        Fault::StopInString => "The story stopped in the middle of a text.",
        Fault::TooDeep => "The story grew past a limit.",
        Fault::OutOfSteps => "The story ran on and on without saying anything.",
        Fault::OutOfMemory => "There was not enough memory to go on.",
    }
}

/// Why something is not done that was asked.
pub fn refusal_words(refusal: Refusal) -> &'static str
    ensures { result.now ≡ refusal_sentence refusal }
{
    match refusal {
        Refusal::CannotContinue => "The story does not go on here.",
        Refusal::NotAChoice => "There is no such choice.",
        Refusal::NoSuchVariable => "There is no such variable.",
        Refusal::NoSuchPath => "There is no such place.",
        Refusal::BadValue => "That is no value.",
        Refusal::BadSave => "That is no save of this story.",
        Refusal::BadCommand => "That was not understood.",
        Refusal::NoSuchFlow => "There is no such flow.",
        Refusal::DefaultFlow => "The first flow stays.",
        Refusal::TooManyFlows => "There are too many flows.",
        Refusal::Broken(_) =>
            "The story broke off: take back the last choice (b), load (l) or restart (r).",
        Refusal::OutOfMemory => "There is not enough memory for that.",
    }
}
