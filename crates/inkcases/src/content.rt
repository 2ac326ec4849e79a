//! Content as tables have it.

use crate::report::Report;
use ink_model::{Container, Content, Destination, Leaf, Shared, Text};
use std::fmt::Display;

/// Writes content as a table has it: a leaf by its form, a container by its name, its flags, how many contents stand in its list,
/// how many containers by key, and how many contents there are with all in it.
pub fn show_content(said: &mut Report, content: Option<&Content>) {
    match content {
        None => said.put("nothing"),
        Some(Content::Leaf(leaf)) => show_form(said, leaf),
        Some(Content::Container(container)) => show_container(said, container),
    }
}

/// Writes content that holds no other.
pub fn show_leaf(said: &mut Report, leaf: Option<&Leaf>) {
    match leaf {
        None => said.put("nothing"),
        Some(leaf) => show_form(said, leaf),
    }
}

fn show_container(said: &mut Report, container: &Container) {
    said.put("container ");
    match &container.name {
        Some(name) => said.put(name.as_str()),
        None => said.put("-"),
    }
    said.number(" ", u64::from(container.flags));
    said.number(" ", u64::from(container.width));
    said.number(" ", u64::from(container.keys));
    said.number(" ", u64::from(container.size));
}

fn show_form(said: &mut Report, leaf: &Leaf) {
    match leaf {
        Leaf::Text(text) => show_quoted(said, "text", text),
        Leaf::Tag(tag) => show_quoted(said, "tag", tag),
        Leaf::Newline => said.put("newline"),
        Leaf::Glue => said.put("glue"),
        Leaf::Void => said.put("void"),
        Leaf::Int(number) => show_with(said, "int", *number),
        Leaf::Bool(truth) => show_with(said, "bool", *truth),
        Leaf::Control(control) => said.debug(*control),
        Leaf::Op(operator) => said.debug(*operator),
        _ => show_named_form(said, leaf),
    }
}

fn show_named_form(said: &mut Report, leaf: &Leaf) {
    match leaf {
        Leaf::Target(path) => show_name(said, "target", path),
        Leaf::Declare(name) => show_name(said, "declare", name),
        Leaf::Assign(name) => show_name(said, "assign", name),
        Leaf::DeclareTemp(name) => show_name(said, "declare temporary", name),
        Leaf::AssignTemp(name) => show_name(said, "assign temporary", name),
        Leaf::Variable(name) => show_name(said, "variable", name),
        Leaf::Count(path) => show_name(said, "count", path),
        _ => show_long_form(said, leaf),
    }
}

fn show_long_form(said: &mut Report, leaf: &Leaf) {
    match leaf {
        Leaf::Pointer(name, frame) => show_named(said, "pointer", name, *frame),
        Leaf::Choice { target, flags } => show_named(said, "choice", target, *flags),
        Leaf::Divert { to, conditional } => show_jump(said, "divert", to, *conditional),
        Leaf::Call { to, conditional } => show_jump(said, "call", to, *conditional),
        Leaf::Tunnel { to, conditional } => show_jump(said, "tunnel", to, *conditional),
        Leaf::External {
            name,
            arguments,
            conditional,
        } => {
            show_named(said, "external", name, *arguments);
            show_with(said, "", *conditional);
        }
        _ => {}
    }
}

fn show_with<D: Display + Drop>(said: &mut Report, form: &str, item: D) {
    said.put(form);
    said.put(" ");
    said.show(item);
}

fn show_quoted(said: &mut Report, form: &str, text: &Shared<Text>) {
    said.put(form);
    said.put(" \"");
    said.put(text.as_str());
    said.put("\"");
}

fn show_name(said: &mut Report, form: &str, name: &Shared<Text>) {
    said.put(form);
    said.put(" ");
    said.put(name.as_str());
}

fn show_named<D: Display + Drop>(said: &mut Report, form: &str, name: &Shared<Text>, item: D) {
    show_name(said, form, name);
    show_with(said, "", item);
}

fn show_jump(said: &mut Report, form: &str, to: &Destination, conditional: bool) {
    said.put(form);
    match to {
        Destination::Path(path) => show_named(said, " path", path, conditional),
        Destination::Variable(name) => show_named(said, " variable", name, conditional),
    }
}
