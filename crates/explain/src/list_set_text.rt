//! Sets of DAQ lists are written as the numbers of their lists.
use std::fmt::{self, Display};
use xcp_base::has_list;

/// A set of DAQ lists, in which bit `l` stands for list `l`: each with a space before it, or that
/// there is none.
#[derive(Clone, Copy)]
pub struct ListSetText {
    pub set: u16,
}

impl Display for ListSetText {
    fn fmt<W: fmt::Write>(&self, f: &mut fmt::Formatter<W>) -> fmt::Result {
        if self.set == 0 {
            return f.write_str(" none");
        }
        for l in 0..16u8 {
            if has_list(self.set, l) {
                write!(f, " {l}")?;
            }
        }
        Ok(())
    }
}
