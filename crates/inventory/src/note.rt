// What the report has to say of single lines.
use crate::fault::Fault;

#[derive(Clone, Copy, PartialEq, Eq, Debug)]
pub enum Remark {
    // The line is refused.
    Faulty(Fault),
    // An earlier line has the same address; this one stands.
    Repeated { address: u16 },
}

// A remark with the number of its line, counted from 1.
#[derive(Clone, Copy, PartialEq, Eq, Debug)]
pub struct Note {
    pub line: usize,
    pub remark: Remark,
}
