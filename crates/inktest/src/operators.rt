//! Values: operators on them, their truth, their printed text, copies of them, and the evaluation stack.

use ink_model::{Op, Shared, Value};
use ink_trail::Undo;
use ink_value::{EvalStack, apply, is_true, printed};
use inkcases::{NoAnswer, Report, first_word, number, value_of};
use std::alloc::Global;

/// The answer to an operator and its operands, `truth VALUE`, `printed VALUE`, `copied VALUE`, or `stack CALL..`.
pub(crate) fn answer(said: &mut Report, question: &str) -> Result<(), NoAnswer> {
    let (word, rest) = first_word(question);
    if word == "stack" {
        let mut stack = EvalStack::new(said.alloc());
        answer_calls(said, &mut stack, rest);
        return Ok(());
    }
    let mut values = Vec::new(said.alloc());
    read_values(said, &mut values, rest)?;
    said.value(&result_of(said.alloc(), word, values.as_slice())?);
    Ok(())
}

fn read_values(said: &Report, values: &mut Vec<Value>, words: &str) -> Result<(), NoAnswer> {
    for word in words.split_whitespace() {
        values.push(value_of(said.alloc(), word)?)?;
    }
    Ok(())
}

fn result_of(alloc: Global, word: &str, values: &[Value]) -> Result<Value, NoAnswer> {
    match (word, values) {
        ("truth", [value]) => Ok(Value::Bool(is_true(value)?)),
        ("printed", [value]) => Ok(Value::Text(Shared::new(alloc, printed(alloc, value)?)?)),
        ("copied", [value]) => Ok(value.clone_in(alloc)?),
        _ => Ok(apply(alloc, operator_of(word)?, values)?),
    }
}

/// The operators by their names.
const OPERATORS: [(&str, Op); 22] = [
    ("+", Op::Add),
    ("-", Op::Subtract),
    ("/", Op::Divide),
    ("*", Op::Multiply),
    ("%", Op::Remainder),
    ("_", Op::Negate),
    ("==", Op::Equal),
    (">", Op::Greater),
    ("<", Op::Less),
    (">=", Op::AtLeast),
    ("<=", Op::AtMost),
    ("!=", Op::NotEqual),
    ("!", Op::Not),
    ("&&", Op::And),
    ("||", Op::Or),
    ("MIN", Op::Min),
    ("MAX", Op::Max),
    ("FLOOR", Op::Floor),
    ("CEILING", Op::Ceiling),
    ("INT", Op::Int),
    ("?", Op::Has),
    ("!?", Op::HasNot),
];

fn operator_of(word: &str) -> Result<Op, NoAnswer> {
    for (name, operator) in &OPERATORS {
        if *name == word {
            return Ok(*operator);
        }
    }
    Err(NoAnswer::NoQuestion)
}

// ---- the evaluation stack

/// The answers of calls: `push:VALUE`, `pop`, `peek:DEPTH`, `apply:OPERATOR` and `len`; `mark` starts a mark, `back` goes back to
/// it and answers how many changes were noted, `forget` ends it, `writes` asks how many there were, and `room:COUNT` makes room for
/// so many.
fn answer_calls(said: &mut Report, stack: &mut EvalStack, calls: &str) {
    for call in calls.split_whitespace() {
        said.append("");
        if let Err(why) = answer_call(said, stack, call) {
            said.halt(why);
        }
    }
}

fn answer_call(said: &mut Report, stack: &mut EvalStack, call: &str) -> Result<(), NoAnswer> {
    let (word, rest) = call.split_once(':').unwrap_or((call, ""));
    match word {
        "push" => push(said, stack, rest),
        "apply" => apply_top(said, stack, rest),
        "room" => make_room(said, stack, number(rest)?),
        "peek" => peek(said, stack, number(rest)?),
        "pop" => pop(said, stack),
        "mark" | "forget" => set_mark(said, stack, word == "mark"),
        "len" => tell(said, stack.len() as u64),
        "back" => tell(said, stack.back()),
        "writes" => tell(said, stack.writes()),
        _ => Err(NoAnswer::NoQuestion),
    }
}

fn push(said: &mut Report, stack: &mut EvalStack, word: &str) -> Result<(), NoAnswer> {
    stack.push(value_of(said.alloc(), word)?)?;
    said.put("ok");
    Ok(())
}

fn apply_top(said: &mut Report, stack: &mut EvalStack, word: &str) -> Result<(), NoAnswer> {
    stack.apply_top(said.alloc(), operator_of(word)?)?;
    said.put("ok");
    Ok(())
}

fn make_room(said: &mut Report, stack: &mut EvalStack, count: usize) -> Result<(), NoAnswer> {
    stack.make_room(count)?;
    said.put(if stack.room() < count { "none" } else { "ok" });
    Ok(())
}

fn peek(said: &mut Report, stack: &EvalStack, depth: usize) -> Result<(), NoAnswer> {
    said.value(stack.peek(depth)?);
    Ok(())
}

fn pop(said: &mut Report, stack: &mut EvalStack) -> Result<(), NoAnswer> {
    let value = stack.pop()?;
    said.value(&value);
    Ok(())
}

fn set_mark(said: &mut Report, stack: &mut EvalStack, is_set: bool) -> Result<(), NoAnswer> {
    if is_set {
        stack.mark();
    } else {
        stack.forget();
    }
    said.put("ok");
    Ok(())
}

fn tell(said: &mut Report, count: u64) -> Result<(), NoAnswer> {
    said.show(count);
    Ok(())
}
