//! How a run of the program went.

/// How a run went, or a part of it.
#[derive(Clone, Copy, PartialEq, Eq)]
pub enum Grade {
    /// All came as expected.
    Expected,

    /// Something else came, or it is not known what comes.
    Unexpected,

    /// A text or a file is no test.
    Unusable,
}

impl Grade {
    /// The worse of two.
    pub fn worse(self, other: Grade) -> Grade {
        match (self, other) {
            (Grade::Unusable, _) | (_, Grade::Unusable) => Grade::Unusable,
            (Grade::Unexpected, _) | (_, Grade::Unexpected) => Grade::Unexpected,
            _ => Grade::Expected,
        }
    }

    /// The status with which the program ends.
    pub fn status(self) -> u8 {
        match self {
            Grade::Expected => 0,
            Grade::Unexpected => 1,
            Grade::Unusable => 2,
        }
    }
}
