//! Options of objects.

ghost use Rattle.std.specs.Prelude.{◌≡◌, option_map};
ghost use Rattle.json_tape.specs.Value.{json_data};
ghost use Rattle.ink_model.specs.Story.Leaves.{switch, whole_or, frame_option};

use json_tape::value::Value;

/// The frame of a pointer that gives none.
const NO_FRAME: i128 = -1;

/// Whether an option is on, which it is not where it is absent; none where it is no boolean.
pub(crate) fn is_on(option: Option<Value<'_, '_>>) -> Option<bool>
    ensures { result ≡ switch (option_map json_data option.entry) }
{
    match option {
        Some(value) => value.as_bool(),
        None => Some(false),
    }
}

/// The number that an option is, or this one where it is absent; none where it is not whole, or below 0.
pub(crate) fn whole_or(default: u64, option: Option<Value<'_, '_>>) -> Option<u64>
    ensures { result ≡ whole_or default (option_map json_data option.entry) }
{
    match option {
        Some(value) => value.as_u64(),
        None => Some(default),
    }
}

/// The frame that an option is, -1 where it is absent; none where it is not whole.
pub(crate) fn frame(option: Option<Value<'_, '_>>) -> Option<i128>
    ensures { result ≡ frame_option (option_map json_data option.entry) }
{
    match option {
        Some(value) => value.as_number()?.as_i128(),
        None => Some(NO_FRAME),
    }
}
