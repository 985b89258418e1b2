// How far a change of a layer with an index may come.
ghost use Rattle.std.specs.Prelude.{◌≡◌, leb};
ghost use Rattle.layer_indexed.specs.inner.Needs.{grade_number};

// How far a change of a layer may come, in the order in which refusals are answered.
#[derive(Clone, Copy, Debug, PartialEq, Eq, PartialOrd)]
pub enum Grade {
    // what is read first is out of range
    Unread,
    // a counter would leave the range
    Above,
    // a visit of its moves is refused
    Unmoved,
    Fine,
}

impl Grade {
    // Whether it comes as far as another.
    pub fn reaches(self, grade: Grade) -> bool
        ensures { result ≡ leb (grade_number grade) (grade_number self) }
    {
        grade <= self
    }
}
