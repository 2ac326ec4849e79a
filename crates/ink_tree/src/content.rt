//! What is asked of a content by itself.

ghost use Rattle.std.specs.Prelude.{◌≡◌, option_map};
ghost use Rattle.ink_tree.specs.Kept.{kept_flags, kept_keys, kept_leaf, kept_name, kept_reaches, kept_size, kept_width};

use ink_model::{Content, Leaf};

/// The leaf, where it is one.
pub(crate) fn leaf_of(content: &Content) -> Option<&Leaf>
    ensures { option_map (λ l. l.now) result ≡ kept_leaf content.now }
{
    match content {
        Content::Leaf(leaf) => Some(leaf),
        Content::Container(_) => None,
    }
}

/// The name that a container gives itself.
pub(crate) fn name_of(content: &Content) -> Option<&str>
    ensures { option_map (λ n. n.now) result ≡ kept_name content.now }
{
    let Content::Container(container) = content else {
        return None;
    };
    match &container.name {
        Some(name) => Some(name.as_str()),
        None => None,
    }
}

/// How many contents it holds by index.
pub(crate) fn width_of(content: &Content) -> u32
    ensures { result ≡ kept_width content.now }
{
    match content {
        Content::Leaf(_) => 0,
        Content::Container(container) => container.width,
    }
}

/// How many containers it has by key.
pub(crate) fn keys_of(content: &Content) -> u32
    ensures { result ≡ kept_keys content.now }
{
    match content {
        Content::Leaf(_) => 0,
        Content::Container(container) => container.keys,
    }
}

/// The flags of a container, 0 of other content.
pub(crate) fn flags_of(content: &Content) -> u8
    ensures { result ≡ kept_flags content.now }
{
    match content {
        Content::Leaf(_) => 0,
        Content::Container(container) => container.flags,
    }
}

/// Whether an index is one of it, or its end.
pub(crate) fn reaches(content: &Content, index: u32) -> bool
    ensures { result ≡ kept_reaches content.now index }
{
    match content {
        Content::Leaf(_) => false,
        Content::Container(container) => index <= container.width,
    }
}

/// How many contents it is, with what is in it.
pub(crate) fn size_of(content: &Content) -> u32
    ensures { result ≡ kept_size content.now }
{
    match content {
        Content::Leaf(_) => 1,
        Content::Container(container) => container.size,
    }
}
