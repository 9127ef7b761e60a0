// A walk over the fields of a value.
ghost use Rattle.std.specs.Prelude.{◌≡◌, ◌≤◌, length};

use sheet::{Field, field_at};

// The fields that are left of a value.
#[derive(Clone, Copy)]
pub struct Walk<'a> {
    s: &'a [u8],
    at: usize,
    end: usize,
    ghost within: { (at ≤ end) × (end ≤ length s.now) },
}

impl<'a> Walk<'a> {
    pub fn of(s: &'a [u8], at: usize, end: usize) -> Self
        requires { (at ≤ end) × (end ≤ length s.now) }
        ensures bytes { result.s.now ≡ s.now }
        ensures begins { result.at ≡ at }
        ensures ends { result.end ≡ end }
    {
        Self { s, at, end }
    }
}

impl<'a> Iterator for Walk<'a> {
    ghost use Rattle.std.specs.Iterator.{at_most};
    ghost use Rattle.std.specs.Prelude.{◌-◌};
    ghost use Rattle.lookup.specs.MirrorWalk.{GivesField};

    type Item = Field;

    ghost next_gives = { GivesField };

    ghost remaining = { λ w. at_most (w.end - w.at) };

    fn next(&mut self) -> Option<Field> {
        let field = field_at(self.s, self.at, self.end)?;
        self.at = field.stop;
        Some(field)
    }
}
