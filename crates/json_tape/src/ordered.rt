//! Values in which the names of each object rise.

ghost use Rattle.std.specs.Prelude.{◌≡◌, ◌∷◌, true, false, option_map, MatchOption};
ghost use Rattle.json.specs.Token.{begin_array, begin_object};
ghost use Rattle.serde_json.specs.Find.{as_array, as_object};
ghost use Rattle.json_tape.specs.Rise.{begins_ordered, objects_rise};
ghost use Rattle.json_tape.specs.Spelled.{is_readable};

use crate::element;
use crate::shape::{Json, Kind, Lent};
use crate::value::Value;

/// A value in which the names of each object rise, so that its members stand in the order of their names, each once.
#[derive(Drop)]
pub struct Ordered<'t, 'a> {
    value: Value<'t, 'a>,
    ghost ordered: { begins_ordered value.element ≡ true },
}

/// The elements of an array that are left, in which the names of each object rise.
#[derive(Drop)]
pub struct OrderedItems<'t, 'a> {
    rest: element::Items<'t, 'a>,
    ghost readable: { is_readable (begin_array ∷ rest) ≡ true },
    ghost ordered: { begins_ordered (begin_array ∷ rest) ≡ true },
}

/// The members of an object that are left. Their names rise, and so do those of each object in them.
#[derive(Drop)]
pub struct OrderedMembers<'t, 'a> {
    rest: element::Members<'t, 'a>,
    ghost readable: { is_readable (begin_object ∷ rest) ≡ true },
    ghost ordered: { begins_ordered (begin_object ∷ rest) ≡ true },
}

impl<'t, 'a> Ordered<'t, 'a> {
    ghost use Rattle.json_tape.specs.Value.{json_data, items_at, members_at};

    /// The same value, with its members in the order of their names, each once. None where the names of some object do not rise, from
    /// this value on to the end of its tape.
    pub fn of(value: Value<'t, 'a>) -> Option<Ordered<'t, 'a>>
        ensures { MatchOption result (objects_rise value.entry.element ≡ false) (λ o. o.value ≡ value.entry) }
    {
        if value.element.objects_rise() {
            Some(Ordered { value })
        } else {
            None
        }
    }

    // The elements, where it is an array.
    #[inline(always)]
    fn items(&self) -> Option<OrderedItems<'t, 'a>>
        ensures { option_map (λ left. items_at left.rest) result ≡ as_array (json_data self.now.value) }
    {
        match self.value.element.items() {
            Some(rest) => Some(OrderedItems { rest }),
            None => None,
        }
    }

    // The members, where it is an object.
    #[inline(always)]
    fn members(&self) -> Option<OrderedMembers<'t, 'a>>
        ensures { option_map (λ left. members_at left.rest) result ≡ as_object (json_data self.now.value) }
    {
        match self.value.element.members() {
            Some(rest) => Some(OrderedMembers { rest }),
            None => None,
        }
    }
}

impl<'t, 'a> Json for Ordered<'t, 'a> {
    ghost use Rattle.json_tape.specs.Value.{json_data, items_at, members_at};

    type Items = OrderedItems<'t, 'a>;

    type Members = OrderedMembers<'t, 'a>;

    type Name = &'a str;

    ghost spells = { λ o. json_data o.value };

    ghost elements = { λ left. items_at left.rest };

    ghost members = { λ left. members_at left.rest };

    ghost named = { λ name. name.now };

    #[inline(always)]
    fn kind(&self) -> Kind<'_, OrderedItems<'t, 'a>, OrderedMembers<'t, 'a>> {
        if let Some(text) = self.value.as_str() {
            Kind::String(text)
        } else if let Some(items) = self.items() {
            Kind::Array(items)
        } else if let Some(members) = self.members() {
            Kind::Object(members)
        } else if let Some(number) = self.value.as_number() {
            Kind::Number(number)
        } else if let Some(truth) = self.value.as_bool() {
            Kind::Bool(truth)
        } else {
            Kind::Null
        }
    }

    #[inline(always)]
    fn next_item(left: &mut OrderedItems<'t, 'a>) -> Option<Ordered<'t, 'a>> {
        match left.rest.next() {
            Some(element) => Some(Ordered {
                value: Value { element },
            }),
            None => None,
        }
    }

    #[inline(always)]
    fn next_member(left: &mut OrderedMembers<'t, 'a>) -> Option<(&'a str, Ordered<'t, 'a>)> {
        match left.rest.next() {
            Some((name, element)) => Some((
                name,
                Ordered {
                    value: Value { element },
                },
            )),
            None => None,
        }
    }

    #[inline(always)]
    fn name_text<'n>(name: &'n &'a str) -> &'n str {
        *name
    }

    fn again(left: &OrderedMembers<'t, 'a>) -> OrderedMembers<'t, 'a> {
        OrderedMembers {
            rest: left.rest.again(),
        }
    }
}

impl<'t, 'a> Lent<'a> for Ordered<'t, 'a> {
    #[inline(always)]
    fn text(&self) -> Option<&'a str> {
        self.value.as_str()
    }
}
