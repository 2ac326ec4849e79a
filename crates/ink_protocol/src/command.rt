//! The commands that lines spell (docs/PROTOCOL.md, "Command lines").

ghost use Rattle.std.specs.Prelude.{◌≡◌, ◌≢◌, ◌&&◌, codes, is_none, true, IfOk, OnErr, Some, option_map, option_and_then};
ghost use Rattle.ink_model.specs.Protocol.Command.{choose_command as choose_of, command_asks, command_of, command_word, drop_command as drop_of, flow_command as flow_of, get_command as get_of, jump_command as jump_of, line_asks, load_command as load_of, set_asks, set_command as set_of, visits_command as visits_of};
ghost use Rattle.ink_model.specs.Text.Bytes.{at_space as parts_at_space, is_filled};
ghost use Rattle.ink_protocol.specs.Commands.{command_by};

use crate::given::given_of;
use crate::word::{after, choice_number};
use ink_model::Given;
use std::alloc::{AllocError, Global};

/// A command of a line, with the name or the path where it stands in the line. The value of `Set` is none where the line has no
/// JSON, JSON of another kind than a value has, an integer that has not 32 bits, or a text over its limit.
#[derive(Drop)]
pub enum LineCommand<'a> {
    Continue,
    Through,
    Set { name: &'a str, value: Option<Given> },
    Get { name: &'a str },
    Visits { path: &'a str },
    Choose { number: u32 },
    Jump { path: &'a str },
    Save,
    Load { json: &'a str },
    Restart,
    Flow { name: &'a str },
    Drop { name: &'a str },
}

/// The command of a line, without its newline (docs/PROTOCOL.md, "Command lines"). A line that is no text, or no
/// command, has none. The one error is a refused request for memory, which only `set` makes, unless its value is a truth
/// value, or an integer of 32 bits as it is printed.
pub fn read_command(alloc: Global, line: &[u8]) -> Result<Option<LineCommand<'_>>, AllocError>
    ensures command { IfOk result (λ command. option_map command_by command ≡ command_of line.now) }
    ensures memory { OnErr result (line_asks line.now ≡ true) }
{
    // Most lines are this one.
    if line == b"continue".as_slice() {
        return Ok(Some(LineCommand::Continue));
    }
    match str::from_utf8(line) {
        Ok(text) => command_in(alloc, text),
        Err(_) => Ok(None),
    }
}

// The command of a text that is not `continue`.
fn command_in(alloc: Global, text: &str) -> Result<Option<LineCommand<'_>>, AllocError>
    requires { text.now ≢ codes "continue" }
    ensures command { IfOk result (λ command. option_map command_by command ≡ command_word text.now) }
    ensures memory { OnErr result (command_asks text.now ≡ true) }
{
    if text == "through" {
        return Ok(Some(LineCommand::Through));
    }
    if text == "save" {
        return Ok(Some(LineCommand::Save));
    }
    if text == "restart" {
        return Ok(Some(LineCommand::Restart));
    }
    if let Some(name) = after("get ", text) {
        return Ok(get_command(name));
    }
    if let Some(rest) = after("set ", text) {
        return set_line(alloc, rest);
    }
    if let Some(path) = after("visits ", text) {
        return Ok(visits_command(path));
    }
    if let Some(number) = after("choose ", text) {
        return Ok(choose_command(number));
    }
    if let Some(path) = after("jump ", text) {
        return Ok(jump_command(path));
    }
    if let Some(json) = after("load ", text) {
        return Ok(load_command(json));
    }
    if let Some(name) = after("flow ", text) {
        return Ok(flow_command(name));
    }
    match after("drop ", text) {
        Some(name) => Ok(drop_command(name)),
        None => Ok(None),
    }
}

// What stands before the first space, and what stands after it.
fn at_space(text: &str) -> Option<(&str, &str)>
    ensures { option_map (λ r. (r.0.now, r.1.now)) result ≡ parts_at_space text.now }
{
    text.split_once(' ')
}

fn get_command(name: &str) -> Option<LineCommand<'_>>
    ensures { option_map command_by result ≡ get_of name.now }
{
    if !is_name(name) {
        return None;
    }
    Some(LineCommand::Get { name })
}

// A name is not empty, and has no space.
fn is_name(text: &str) -> bool
    ensures { result ≡ (is_filled text.now && is_none (parts_at_space text.now)) }
{
    !text.is_empty() && at_space(text).is_none()
}

fn flow_command(name: &str) -> Option<LineCommand<'_>>
    ensures { option_map command_by result ≡ flow_of name.now }
{
    if !is_name(name) {
        return None;
    }
    Some(LineCommand::Flow { name })
}

fn drop_command(name: &str) -> Option<LineCommand<'_>>
    ensures { option_map command_by result ≡ drop_of name.now }
{
    if !is_name(name) {
        return None;
    }
    Some(LineCommand::Drop { name })
}

fn visits_command(path: &str) -> Option<LineCommand<'_>>
    ensures { option_map command_by result ≡ visits_of path.now }
{
    if path.is_empty() {
        return None;
    }
    Some(LineCommand::Visits { path })
}

fn choose_command(digits: &str) -> Option<LineCommand<'_>>
    ensures { option_map command_by result ≡ choose_of digits.now }
{
    let number = choice_number(digits)?;
    Some(LineCommand::Choose { number })
}

fn jump_command(path: &str) -> Option<LineCommand<'_>>
    ensures { option_map command_by result ≡ jump_of path.now }
{
    if path.is_empty() {
        return None;
    }
    Some(LineCommand::Jump { path })
}

// Out of the way of the others, since reading a value takes much of the stack.
#[inline(never)]
fn set_line(alloc: Global, text: &str) -> Result<Option<LineCommand<'_>>, AllocError>
    ensures command { IfOk result (λ command. option_map command_by command ≡ option_and_then set_of (parts_at_space text.now)) }
    ensures memory { OnErr result (set_asks (parts_at_space text.now) ≡ true) }
{
    match at_space(text) {
        Some((name, value)) => set_command(alloc, name, value),
        None => Ok(None),
    }
}

fn set_command<'a>(
    alloc: Global,
    name: &'a str,
    text: &str,
) -> Result<Option<LineCommand<'a>>, AllocError>
    ensures command { IfOk result (λ command. option_map command_by command ≡ set_of (name.now, text.now)) }
    ensures memory { OnErr result (set_asks (Some (name.now, text.now)) ≡ true) }
{
    if name.is_empty() || text.is_empty() {
        return Ok(None);
    }
    let value = given_of(alloc, text)?;
    Ok(Some(LineCommand::Set { name, value }))
}

fn load_command(json: &str) -> Option<LineCommand<'_>>
    ensures { option_map command_by result ≡ load_of json.now }
{
    if json.is_empty() {
        return None;
    }
    Some(LineCommand::Load { json })
}
