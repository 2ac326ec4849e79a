//! Paths, as they are read and written, and places.

use ink_model::{Part, Path, Place};
use ink_path::{Component, Components};
use ink_tree::read_path;
use inkcases::{NoAnswer, Report, decoded, first_word, part_of, parts_of};
use std::alloc::{AllocError, Global};

/// What is written of a path that is read from `"TEXT"`, and whether each part is an index or a name; the components of
/// `components "TEXT"`; or the place that comes of `place PLACE`, `push PLACE PART` or `under PLACE PART`.
pub(crate) fn answer(said: &mut Report, question: &str) -> Result<(), NoAnswer> {
    if let Some(text) = question.strip_prefix('"') {
        return answer_path(said, text.strip_suffix('"').unwrap_or(text));
    }
    let (word, rest) = first_word(question);
    if word == "components" {
        return answer_components(
            said,
            rest.strip_prefix('"')
                .unwrap_or(rest)
                .strip_suffix('"')
                .unwrap_or(rest),
        );
    }
    let (place, part) = first_word(rest);
    let place = place_of(said.alloc(), place)?;
    let moved = moved(said.alloc(), place, word, part)?;
    said.place(moved.parts());
    Ok(())
}

fn answer_path(said: &mut Report, text: &str) -> Result<(), NoAnswer> {
    let text = decoded(said.alloc(), text)?;
    let path = read_path(said.alloc(), text.as_str())?;
    let path = path.clone_in(said.alloc())?;
    show_path(said, &path);
    Ok(())
}

/// A dot where the path is relative, and a letter for each text between the dots: `i` for an index, `n` for a name, `-` for none.
/// The last has a stop behind it.
fn answer_components(said: &mut Report, text: &str) -> Result<(), NoAnswer> {
    let text = decoded(said.alloc(), text)?;
    let (relative, components) = Components::of(text.as_str());
    let mut components = components;
    said.put(if relative { "." } else { "" });
    for _ in 0..text.len() + 1 {
        let Some(component) = components.next() else {
            return Ok(());
        };
        said.put(letter(Component::read(component)));
        said.put(if components.is_empty() { "|" } else { "" });
    }
    Ok(())
}

fn letter(component: Option<Component<'_>>) -> &'static str {
    match component {
        Some(Component::Index(_)) => "i",
        Some(Component::Name(_)) => "n",
        None => "-",
    }
}

/// A path as it is written, a dot where it is relative, and a letter for each part: `i` for an index, `n` for a name.
fn show_path(said: &mut Report, path: &Path) {
    let mut text = Report::new(said.alloc());
    text.path(path);
    said.put("\"");
    said.encode(text.as_str());
    said.put(if path.relative { "\" ." } else { "\" " });
    for part in path.parts.as_slice() {
        said.put(match part {
            Part::Index(_) => "i",
            Part::Name(_) => "n",
        });
    }
    said.note_of(&text);
}

fn place_of(alloc: Global, place: &str) -> Result<Place, AllocError> {
    let parts = parts_of(alloc, place)?;
    if parts.is_empty() {
        return Ok(Place::root(alloc));
    }
    Place::from_parts(alloc, parts.as_slice())
}

/// What becomes of a place.
fn moved(alloc: Global, place: Place, word: &str, part: &str) -> Result<Place, NoAnswer> {
    match word {
        "place" => Ok(place),
        "push" => pushed(place, part_of(alloc, part)?),
        "under" => Ok(place.under(part_of(alloc, part)?)?),
        _ => Err(NoAnswer::NoQuestion),
    }
}

fn pushed(place: Place, part: Part) -> Result<Place, NoAnswer> {
    let mut place = place;
    place.push(part)?;
    Ok(place)
}
