// The enumerations by name, and the shape field that tells how many indices each has.
ghost use Rattle.std.specs.Prelude.{◌≡◌};
ghost use Rattle.selectors.specs.Selected.{selected_of, field_in};

use counts::Field;
use enumeration::Selector;

// The enumerations: by pattern, shape and signs, where each shape has this field; and by magnitude.
#[derive(Clone, Copy)]
pub enum Selected {
    Product(Field),
    Magnitude,
}

// The enumeration that a selector selects. Only here is a number made one, for the table and for the calls that are
// given a selector.
impl From<Selector> for Selected {
    ghost from_gives = { λ selector selected. selected ≡ selected_of selector.0 };

    fn from(selector: Selector) -> Selected {
        match selector.0 {
            0 => Selected::Product(Field::Exact),
            1 => Selected::Magnitude,
            _ => Selected::Product(Field::Bits),
        }
    }
}

impl Selected {
    // The shape field whose ranges have as many numbers as there are indices: the magnitude enumeration has N, as the
    // exact field has.
    pub fn field(self) -> Field
        ensures { result ≡ field_in self }
    {
        match self {
            Selected::Product(field) => field,
            Selected::Magnitude => Field::Exact,
        }
    }
}
