//! A story's content and places by calls of its tree, and where its paths lead.

use ink_check::{Story, check};
use ink_json::read_story;
use ink_model::{Path, Shared};
use ink_tree::{NodeId, Spot, Tree, read_path};
use inkcases::{NoAnswer, Report, expanded, first_word, number, parts_of, show_content, show_leaf};
use std::alloc::AllocError;

/// The most containers that are told one by one.
const MOST_TOLD: usize = 20;

/// The answer to a question about a story, which is read anew:
///
/// - `at PLACE`, `content SPOT`: the content there
/// - `len`: how many contents there are; `flags NODE`: those of a container
/// - `place SPOT`, `spot PLACE`, `node SPOT`, `knot NAME`: places by number, and numbers of places
/// - `start`, `land PLACE`, `next PLACE`: where flow starts, lands and goes on
/// - `entered PLACE PLACE`: the containers that a landing at the second enters, coming from the first, which may be
///   `nowhere`; only their number, if they are more than 20; `flagged PLACE`: whether any around a place has flags
/// - `resolve PLACE PATH`: where a path of the content there leads
/// - `first PLACE`: where a step there performs, and the content; `first_leaf PLACE`: the same with the content only where it
///   holds no other; `leaf_at PLACE`: the content there, where it holds no other
/// - `number NODE`, `holder NODE`, `inside NODE`, `leaf NODE`: a node's own number, the container that holds it, the first
///   content in it, and the content where it holds no other
/// - `target NODE`: where the written path of a content leads; `counted NODE`: the container whose visits it asks for;
///   `pushed NODE`: the path that it pushes; `variable NODE`: the number of its variable
///
/// A node is a number, a spot a node, and behind a colon perhaps an index.
pub(crate) fn answer(said: &mut Report, story: &str, question: &str) -> Result<(), NoAnswer> {
    let (word, rest) = first_word(question);
    let story = expanded(said.alloc(), story)?;
    match word {
        "at" => ask_content(said, story.as_slice(), rest),
        "target" | "counted" | "pushed" | "variable" => {
            ask_checked(said, story.as_slice(), word, rest)
        }
        _ => ask_built(said, story.as_slice(), word, rest),
    }
}

fn ask_content(said: &mut Report, story: &[u8], place: &str) -> Result<(), NoAnswer> {
    let parts = parts_of(said.alloc(), place)?;
    let raw = read_story(said.alloc(), story)?;
    show_content(said, raw.at(parts.as_slice()));
    Ok(())
}

fn ask_checked(said: &mut Report, story: &[u8], word: &str, rest: &str) -> Result<(), NoAnswer> {
    let node = node_of(rest)?;
    let story = check(said.alloc(), read_story(said.alloc(), story)?)?;
    ask_story(said, &story, word, node);
    Ok(())
}

fn ask_built(said: &mut Report, story: &[u8], word: &str, rest: &str) -> Result<(), NoAnswer> {
    let tree = Tree::build(said.alloc(), read_story(said.alloc(), story)?)?;
    ask_tree(said, &tree, word, rest)
}

/// Asks for what is kept of checked content.
fn ask_story(said: &mut Report, story: &Story, word: &str, node: NodeId) {
    let tree = story.tree();
    match word {
        "target" => show_place(said, tree, story.target(node)),
        "counted" => show_container(said, tree, story.counted(node)),
        "pushed" => show_path(said, story.pushed(node)),
        _ => said.number_or(story.variable(node), "none"),
    }
}

fn show_container(said: &mut Report, tree: &Tree, node: Option<NodeId>) {
    match node {
        Some(node) => show_place(said, tree, Some(on(node))),
        None => said.put("nowhere"),
    }
}

fn show_path(said: &mut Report, path: Option<&Shared<Path>>) {
    match path {
        Some(path) => said.path(path.get()),
        None => said.put("nothing"),
    }
}

fn ask_tree(said: &mut Report, tree: &Tree, word: &str, rest: &str) -> Result<(), NoAnswer> {
    match word {
        "len" => {
            said.show(tree.len());
            Ok(())
        },
        "start" => {
            show_place(said, tree, Some(tree.start()));
            Ok(())
        }
        "knot" => {
            show_node(said, tree.knot(rest));
            Ok(())
        }
        "entered" => ask_entered(said, tree, rest),
        "resolve" => ask_path(said, tree, rest),
        "lead" => ask_lead(said, tree, rest),
        "content" | "place" | "node" => {
            ask_spot(said, tree, word, spot_of(rest)?);
            Ok(())
        }
        "number" | "holder" | "inside" | "leaf" | "flags" => {
            ask_node(said, tree, word, node_of(rest)?);
            Ok(())
        }
        _ => {
            let spot = spot_at(said, tree, rest)?;
            ask_place(said, tree, word, spot)
        }
    }
}

fn ask_spot(said: &mut Report, tree: &Tree, word: &str, spot: Spot) {
    match word {
        "content" => show_content(said, tree.content(spot)),
        "place" => show_place(said, tree, Some(spot)),
        _ => show_node(said, tree.node(spot)),
    }
}

fn ask_node(said: &mut Report, tree: &Tree, word: &str, node: NodeId) {
    match word {
        "number" => said.show(tree.number_of(node)),
        "holder" => show_node(said, tree.holder(node)),
        "inside" => show_node(said, tree.first(node)),
        "flags" => said.show(tree.flags(node)),
        _ => show_leaf(said, tree.leaf(node)),
    }
}

fn ask_place(
    said: &mut Report,
    tree: &Tree,
    word: &str,
    spot: Option<Spot>,
) -> Result<(), NoAnswer> {
    if word == "spot" {
        show_spot(said, spot);
        return Ok(());
    }
    let spot = spot.ok_or(NoAnswer::NoQuestion)?;
    match word {
        "land" => {
            show_place(said, tree, Some(tree.land(spot)));
            Ok(())
        }
        "next" => {
            show_place(said, tree, tree.next(spot));
            Ok(())
        }
        "flagged" => {
            said.show(tree.has_flags_around(spot));
            Ok(())
        }
        "leaf_at" => {
            show_leaf(said, tree.leaf_at(spot));
            Ok(())
        }
        "first" => {
            ask_first(said, tree, spot);
            Ok(())
        }
        "first_leaf" => {
            ask_first_leaf(said, tree, spot);
            Ok(())
        }
        _ => Err(NoAnswer::NoQuestion),
    }
}

fn ask_first(said: &mut Report, tree: &Tree, spot: Spot) {
    let (spot, content) = tree.first_content(spot);
    show_place(said, tree, Some(spot));
    said.put(" ");
    show_content(said, content);
}

fn ask_first_leaf(said: &mut Report, tree: &Tree, spot: Spot) {
    let (spot, leaf) = tree.first_leaf(spot);
    show_place(said, tree, Some(spot));
    said.put(" ");
    show_leaf(said, leaf);
}

fn ask_path(said: &mut Report, tree: &Tree, rest: &str) -> Result<(), NoAnswer> {
    let (from, path) = first_word(rest);
    let path = read_path(said.alloc(), path)?;
    let spot = spot_at(said, tree, from)?.ok_or(NoAnswer::NoQuestion)?;
    let from = tree.node(spot).ok_or(NoAnswer::NoQuestion)?;
    show_place(said, tree, tree.resolve(from, &path));
    Ok(())
}

fn ask_lead(said: &mut Report, tree: &Tree, rest: &str) -> Result<(), NoAnswer> {
    let (from, path) = first_word(rest);
    let spot = spot_at(said, tree, from)?.ok_or(NoAnswer::NoQuestion)?;
    let from = tree.node(spot).ok_or(NoAnswer::NoQuestion)?;
    let Some(lead) = tree.lead(from, path) else {
        said.put("nowhere");
        return Ok(());
    };
    show_place(said, tree, Some(lead.spot));
    said.put(if lead.by_index {
        " by index"
    } else {
        " by name"
    });
    Ok(())
}

fn ask_entered(said: &mut Report, tree: &Tree, rest: &str) -> Result<(), NoAnswer> {
    let (previous, at) = first_word(rest);
    let previous = spot_at(said, tree, previous)?;
    let at = spot_at(said, tree, at)?.ok_or(NoAnswer::NoQuestion)?;
    let entered = tree.entered(previous, at)?;
    show_entered(said, tree, entered.as_slice());
    Ok(())
}

// ---- questions

fn node_of(word: &str) -> Result<NodeId, NoAnswer> {
    let number = number(word)?;
    Ok(NodeId { number })
}

fn spot_of(word: &str) -> Result<Spot, NoAnswer> {
    match word.split_once(':') {
        None => Ok(on(node_of(word)?)),
        Some((holder, index)) => Ok(Spot {
            holder: node_of(holder)?,
            index: Some(number(index)?),
        }),
    }
}

/// A container's own spot.
fn on(holder: NodeId) -> Spot {
    Spot {
        holder,
        index: None,
    }
}

/// The spot of a place, none where the story has no such place.
fn spot_at(said: &Report, tree: &Tree, place: &str) -> Result<Option<Spot>, AllocError> {
    let parts = parts_of(said.alloc(), place)?;
    Ok(tree.spot(parts.as_slice()))
}

// ---- answers

fn show_node(said: &mut Report, node: Option<NodeId>) {
    match node {
        Some(node) => said.show(node.number),
        None => said.put("none"),
    }
}

fn show_spot(said: &mut Report, spot: Option<Spot>) {
    let Some(Spot { holder, index }) = spot else {
        return said.put("none");
    };
    said.show(holder.number);
    if let Some(index) = index {
        said.put(":");
        said.show(index);
    }
}

fn show_place(said: &mut Report, tree: &Tree, spot: Option<Spot>) {
    match spot {
        Some(spot) => match tree.place(spot) {
            Ok(place) => said.place(place.parts()),
            Err(_) => said.refuse(),
        },
        None => said.put("nowhere"),
    }
}

fn show_entered(said: &mut Report, tree: &Tree, holders: &[NodeId]) {
    if holders.is_empty() {
        said.put("none");
    }
    if holders.len() > MOST_TOLD {
        said.show(holders.len());
        return said.put(" containers");
    }
    for holder in holders {
        said.append("");
        show_place(said, tree, Some(on(*holder)));
    }
}
