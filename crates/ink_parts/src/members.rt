//! Plain members of objects, put one by one.

ghost use Rattle.std.specs.Prelude.{◌≡◌, OnOk};
ghost use Rattle.serde_json.specs.Data.{boolean, put, string};
ghost use Rattle.serde_json.specs.View.{members_view};
ghost use Rattle.ink_model.specs.Save.Spelling.{count_data};

use crate::writing::write_text;
use serde_json::{Map, Number, Value as Json, put as put_entry};
use std::alloc::{AllocError, Global};

/// Puts a member with a truth value. The one error is a refused request for memory.
pub(crate) fn add_flag(
    alloc: Global,
    members: &mut Map<String, Json>,
    name: &str,
    truth: bool,
) -> Result<(), AllocError>
    ensures { OnOk result (members_view members.new.entries ≡ put name.now (boolean truth) (members_view members.old.entries)) }
{
    put_entry(members, alloc, name, Json::Bool(truth))
}

/// Puts a member with a number that is not negative. The one error is a refused request for memory.
pub(crate) fn add_number(
    alloc: Global,
    members: &mut Map<String, Json>,
    name: &str,
    natural: u64,
) -> Result<(), AllocError>
    ensures { OnOk result (members_view members.new.entries ≡ put name.now (count_data natural) (members_view members.old.entries)) }
{
    put_entry(members, alloc, name, Json::Number(Number::from(natural)))
}

/// Puts a member with a text. The one error is a refused request for memory.
pub(crate) fn add_text(
    alloc: Global,
    members: &mut Map<String, Json>,
    name: &str,
    text: &str,
) -> Result<(), AllocError>
    ensures { OnOk result (members_view members.new.entries ≡ put name.now (string text.now) (members_view members.old.entries)) }
{
    put_entry(members, alloc, name, write_text(alloc, text)?)
}
