// Why a call is refused. The library answers a refusal as the `Err` of a `Result`; C, texts and the panel have its number.

#![tactic(auto)]

ghost use Rattle.std.specs.Prelude.{◌≡◌};
ghost use Rattle.refusal.specs.Refusals.{number_of, refused};

#[derive(Clone, Copy, Debug, PartialEq, Eq)]
pub enum Refusal {
    // a dimension is 0
    ZeroDimension,
    // more layers than a shape may have
    TooManyLayers,
    // rows and columns take more bits than a hash has
    TooManyHashBits,
    // rows, columns or heap size above the domain
    AboveDomain,
    NegativeWeight,
    // a mode mixed in an update or a merge, or a weight set in terminal mode
    MixedModes,
    // the weight would pass its bound
    WeightAbove,
    // a layer, row or column outside the shape
    OutsideShape,
    // a slice of a wrong length, a header out of range, or something that is read out of range
    OutOfRange,
    // two shapes differ in a merge
    ShapesDiffer,
    // a counter would leave its range
    CounterAbove,
    // a record of a wrong length
    RecordLength,
    // a program line that cannot be read, or one before a shape
    Unreadable,
    // the number of updates would pass its bound
    UpdatesAbove,
    // not the text of a state
    NotAText,
    // a lent space or list that is too short, or slices that are not of the text's shape
    TooShort,
}

impl Refusal {
    // Its number: 1 to 16.
    pub fn number(self) -> u64
        ensures { result ≡ number_of self }
    {
        match self {
            Refusal::ZeroDimension => 1,
            Refusal::TooManyLayers => 2,
            Refusal::TooManyHashBits => 3,
            Refusal::AboveDomain => 4,
            Refusal::NegativeWeight => 5,
            Refusal::MixedModes => 6,
            Refusal::WeightAbove => 7,
            Refusal::OutsideShape => 8,
            Refusal::OutOfRange => 9,
            Refusal::ShapesDiffer => 10,
            Refusal::CounterAbove => 11,
            Refusal::RecordLength => 12,
            Refusal::Unreadable => 13,
            Refusal::UpdatesAbove => 14,
            Refusal::NotAText => 15,
            Refusal::TooShort => 16,
        }
    }
}

// The number that C and texts have for an answer: 0 where nothing was refused.
pub fn number_in<T: Copy>(answer: &Result<T, Refusal>) -> u64
    ensures { result ≡ refused answer.now }
{
    match answer {
        Ok(_) => 0,
        Err(refusal) => refusal.number(),
    }
}
