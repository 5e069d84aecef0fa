// How faults and notes are worded.
ghost use Rattle.inventory.specs.Texts.{field_text, fault_text, remark_text, note_text};
ghost use Rattle.std.specs.Prelude.{Some};

use crate::fault::{Fault, Field};
use crate::note::{Note, Remark};
use kinds::label::NotALabel;
use std::fmt;

impl fmt::Display for Field {
    ghost output = { λ x. Some (field_text x) };

    fn fmt<W: fmt::Write>(&self, f: &mut fmt::Formatter<W>) -> fmt::Result {
        match self {
            Field::Address => write!(f, "address"),
            Field::Label => write!(f, "label"),
            Field::Gigabytes => write!(f, "gigabytes"),
            Field::Day => write!(f, "day"),
        }
    }
}

impl fmt::Display for Fault {
    ghost output = { λ x. Some (fault_text x) };

    fn fmt<W: fmt::Write>(&self, f: &mut fmt::Formatter<W>) -> fmt::Result {
        match self {
            Fault::Missing { field } => write!(f, "{field} is missing"),
            Fault::NotANumber { field } => write!(f, "{field} is not a number"),
            Fault::TooLarge { field } => write!(f, "{field} is too large"),
            Fault::NotALabel(NotALabel::WrongLength) => {
                write!(f, "label does not have eight bytes")
            }
            Fault::NotALabel(NotALabel::WrongByte { place }) => {
                write!(f, "label has a wrong byte at place {place}")
            }
            Fault::ExtraWord => write!(f, "a word follows the day"),
        }
    }
}

impl fmt::Display for Remark {
    ghost output = { λ x. Some (remark_text x) };

    fn fmt<W: fmt::Write>(&self, f: &mut fmt::Formatter<W>) -> fmt::Result {
        match self {
            Remark::Faulty(fault) => write!(f, "refused, {fault}"),
            Remark::Repeated { address } => write!(f, "address {address} again, this line stands"),
        }
    }
}

impl fmt::Display for Note {
    ghost output = { λ x. Some (note_text x) };

    fn fmt<W: fmt::Write>(&self, f: &mut fmt::Formatter<W>) -> fmt::Result {
        let Note { line, remark } = self;
        write!(f, "line {line}: {remark}")
    }
}
