// Every word of the program: of what is refused, without the end of the line.
use crate::entries::Fault;
use names::BookFault;
use std::fmt;

// Why an input is refused: a text is too long, a line is at fault, by its number; or a book is.
#[derive(Clone, Copy)]
pub enum Complaint {
    TextTooLong,
    Line(usize, Fault),
    Entry(BookFault),
}

impl fmt::Display for Fault {
    fn fmt<W: fmt::Write>(&self, f: &mut fmt::Formatter<W>) -> fmt::Result {
        match *self {
            Fault::NotUtf8 => f.write_str("not UTF-8; the file has to be saved as UTF-8"),
            Fault::Spa => f.write_str("SPA has to be a number from 0 to 255"),
            Fault::Spq => {
                f.write_str("SPQ has to be a number from 0 to 255, behind SPA and a blank")
            }
            Fault::NoName => f.write_str("the name is missing behind SPA and SPQ"),
            Fault::LongName(many) => write!(
                f,
                "the name has {many} octets, and 40 is the most; a letter with an accent counts as two or more"
            ),
            Fault::Again(code, earlier) => {
                let spa = code.spa;
                let spq = code.spq;
                write!(f, "{spa}/{spq} has a name already, in line {earlier}")
            }
        }
    }
}

// What is wrong with a book or an entry of it.
fn refusal(fault: names::Fault) -> &'static str {
    match fault {
        names::Fault::Version => "this is no book of version 1",
        names::Fault::Cut => "the book ends before the entry does",
        names::Fault::Name => "the name's length is 0 or over 40",
        names::Fault::Order => "SPA and SPQ have to be higher than those of the entry before",
    }
}

impl fmt::Display for Complaint {
    fn fmt<W: fmt::Write>(&self, f: &mut fmt::Formatter<W>) -> fmt::Result {
        match *self {
            Complaint::TextTooLong => f.write_str("text too long"),
            Complaint::Line(number, fault) => write!(f, "line {number}: {fault}"),
            Complaint::Entry(why) => {
                let entry = why.entry;
                let refusal = refusal(why.fault);
                write!(f, "entry {entry}: {refusal}")
            }
        }
    }
}
