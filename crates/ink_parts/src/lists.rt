//! Lists as JSON values, and as their text: stacks, and what has a JSON value itself.

ghost use Rattle.ink_model.specs.Save.Spelling.{list_data};
ghost use Rattle.ink_model.specs.Protocol.ValueJson.{value_data};

use crate::written::{Written, put_list, write_list};
use ink_model::Seq;
use ink_tree::Tree;
use ink_value::EvalStack;
use json::Writer;
use serde_json::Value as Json;
use std::alloc::{AllocError, Global};

impl<T: Written> Written for Seq<T> {
    ghost spelling = { λ s items. list_data (T.spelling s) items };

    fn write(&self, alloc: Global, tree: &Tree) -> Result<Json, AllocError> {
        write_list(alloc, tree, self.as_slice())
    }

    fn put(&self, alloc: Global, tree: &Tree, out: &mut Writer) -> Result<(), AllocError> {
        put_list(alloc, tree, out, self.as_slice())
    }
}

/// The values on a stack, the bottom one first.
impl Written for EvalStack {
    ghost spelling = { λ s stack. list_data value_data stack.items };

    fn write(&self, alloc: Global, tree: &Tree) -> Result<Json, AllocError> {
        write_list(alloc, tree, self.as_slice())
    }

    fn put(&self, alloc: Global, tree: &Tree, out: &mut Writer) -> Result<(), AllocError> {
        put_list(alloc, tree, out, self.as_slice())
    }
}
