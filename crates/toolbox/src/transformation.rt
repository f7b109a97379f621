//! The shipped transformations, each in a file of its own.

ghost use Rattle.std.specs.Prelude.{◌≡◌};
ghost use Rattle.toolbox.specs.Transformation.{named};

pub(crate) mod column;
pub(crate) mod count;
pub(crate) mod deal;
pub(crate) mod digest;
pub(crate) mod distinct;
pub(crate) mod drop;
pub(crate) mod holds;
pub(crate) mod join;
pub(crate) mod sorted;
pub(crate) mod take;
pub(crate) mod text;
pub(crate) mod total;

/// A shipped transformation.
#[derive(Clone, Copy, PartialEq, Eq)]
pub enum Transformation {
    /// The arguments as a line; it reads no input.
    Text,
    /// The inputs, one after the other.
    Join,
    /// The first lines, as many as the first argument says.
    Take,
    /// The lines after the first, as many as the first argument says.
    Drop,
    /// The lines in turn, one for each output.
    Deal,
    /// The lines in byte order.
    Sorted,
    /// The lines that did not occur before.
    Distinct,
    /// The numbers of lines and of bytes.
    Count,
    /// The lines in which the first argument stands.
    Holds,
    /// Of each line the piece between tabs that the first argument says, from 1.
    Column,
    /// The sum of the lines, each a number of one to eighteen digits.
    Total,
    /// The SHA-256 in hexadecimal digits.
    Digest,
}

impl Transformation {
    pub fn from_name(name: &str) -> Option<Transformation>
        ensures { result ≡ named name.now }
    {
        match name {
            "text" => Some(Transformation::Text),
            "join" => Some(Transformation::Join),
            "take" => Some(Transformation::Take),
            "drop" => Some(Transformation::Drop),
            "deal" => Some(Transformation::Deal),
            "sorted" => Some(Transformation::Sorted),
            "distinct" => Some(Transformation::Distinct),
            "count" => Some(Transformation::Count),
            "holds" => Some(Transformation::Holds),
            "column" => Some(Transformation::Column),
            "total" => Some(Transformation::Total),
            "digest" => Some(Transformation::Digest),
            _ => None,
        }
    }
}
