ghost use Rattle.std.specs.Prelude.{Some, codes, ◌++◌};
ghost use Rattle.std.specs.Fmt.{decimal};

use std::error::Error;
use std::fmt;

/// A frame that hasn't the film's number of bytes.
#[derive(Clone, Copy, Debug, PartialEq, Eq)]
pub struct WrongSize {
    /// The bytes that the film takes: its width times its height.
    pub want: u32,
    /// The bytes that the frame has.
    pub got: u32,
}

impl fmt::Display for WrongSize {
    ghost output = { λ e. Some (decimal e.want ++ codes " bytes wanted and " ++ decimal e.got ++ codes " came") };

    fn fmt<W: fmt::Write>(&self, f: &mut fmt::Formatter<W>) -> fmt::Result {
        let want = self.want;
        let got = self.got;
        write!(f, "{want} bytes wanted and {got} came")
    }
}

impl Error for WrongSize {}
