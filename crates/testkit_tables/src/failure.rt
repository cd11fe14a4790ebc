//! What failed, and where.
use std::alloc::AllocError;
use std::fmt;

/// What a test finds: all as it is wanted, or what failed first.
pub type Outcome = Result<(), Failure>;

/// What is not as it is wanted.
#[derive(Clone, Copy)]
pub(crate) enum What {
    /// What these words say.
    Fact(&'static str),
    /// A number.
    Number {
        wanted: u64,
        got: u64,
    },
    /// A byte of a list, by its place. A list that ends before it has none.
    Byte {
        place: usize,
        wanted: Option<u8>,
        got: Option<u8>,
    },
}

/// What failed first, and where: in which random script, by its seed and its number, in which row of a
/// table, and at which step of a script. Rows and steps are counted from 0.
#[derive(Clone, Copy)]
pub struct Failure {
    pub(crate) what: What,
    pub(crate) script: Option<(u64, u64)>,
    pub(crate) row: Option<usize>,
    pub(crate) step: Option<usize>,
}

impl Failure {
    pub(crate) fn of(what: What) -> Failure {
        Failure {
            what,
            script: None,
            row: None,
            step: None,
        }
    }
}

impl From<AllocError> for Failure {
    fn from(_: AllocError) -> Failure {
        Failure::of(What::Fact("memory"))
    }
}

// What a test that fails prints.
impl fmt::Debug for Failure {
    fn fmt<W: fmt::Write>(&self, f: &mut fmt::Formatter<W>) -> fmt::Result {
        if let Some((seed, number)) = self.script {
            write!(f, "seed {seed:x}h, script {number}, ")?;
        }
        if let Some(row) = self.row {
            write!(f, "row {row}, ")?;
        }
        if let Some(step) = self.step {
            write!(f, "step {step}, ")?;
        }
        write!(f, "{}", self.what)
    }
}

impl fmt::Display for What {
    fn fmt<W: fmt::Write>(&self, f: &mut fmt::Formatter<W>) -> fmt::Result {
        match self {
            What::Fact(fact) => write!(f, "not as wanted: {fact}"),
            What::Number { wanted, got } => write!(
                f,
                "wanted {wanted} ({wanted:x}h), got {got} ({got:x}h)"
            ),
            What::Byte { place, wanted, got } => {
                write!(f, "byte {place}: wanted ")?;
                write_byte(f, *wanted)?;
                write!(f, ", got ")?;
                write_byte(f, *got)
            }
        }
    }
}

fn write_byte<W: fmt::Write>(f: &mut fmt::Formatter<W>, byte: Option<u8>) -> fmt::Result {
    match byte {
        Some(byte) => write!(f, "{byte:02x}h"),
        None => write!(f, "none"),
    }
}
