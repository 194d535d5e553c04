// What can be wrong with a line.
ghost use Rattle.std.specs.Prelude.{◌≡◌};
ghost use Rattle.session.specs.Faults.{fault_number, fault_cause, told_fault};
ghost use Rattle.session.specs.declared.fault.Fault.TheVariants.{InLine as in_line};
ghost use Rattle.session.specs.declared.fault.LineFault.TheVariants.{Field as in_field, Row as in_row};

use crate::field::FieldFault;
use feasibility::RowRefusal;

// The kinds of fault, in the order in which a line is tested for them.
#[derive(Clone, Copy, PartialEq, Eq, Debug)]
pub enum LineFault {
    // A wrong word or a wrong number of fields, or no line at all.
    Shape,
    // A field that is not what belongs there.
    Field(FieldFault),
    // The table refused the row, for this cause.
    Row(RowRefusal),
    // A limit of the session is passed, or a row is unknown.
    Limit,
}

impl LineFault {
    // The number by which the fault is told. A variant with a cause can have no discriminant.
    pub fn number(self) -> u32
        ensures { result ≡ fault_number self }
    {
        match self {
            LineFault::Shape => 24,
            LineFault::Field(_) => 23,
            LineFault::Row(_) => 25,
            LineFault::Limit => 26,
        }
    }

    // The number of what caused it, 0 for none.
    pub fn cause(self) -> u32
        ensures { result ≡ fault_cause self }
    {
        match self {
            LineFault::Row(refusal) => refusal.number(),
            LineFault::Shape | LineFault::Field(_) | LineFault::Limit => 0,
        }
    }

    // The fault with the number of its line.
    pub fn at(self, line: u32) -> PlacedFault
        ensures { (result.fault ≡ self) × (result.line ≡ line) }
    {
        PlacedFault { fault: self, line }
    }
}

// A fault of a line with the number of that line, from 1.
#[derive(Clone, Copy, PartialEq, Eq, Debug)]
pub struct PlacedFault {
    pub fault: LineFault,
    pub line: u32,
}

// Why a file is no session.
#[derive(Clone, Copy, PartialEq, Eq, Debug)]
pub enum Fault {
    TooLong,
    InLine(PlacedFault),
}

impl Fault {
    // The number by which the fault is told.
    pub fn number(self) -> u32
        ensures { result ≡ (told_fault self).number }
    {
        match self {
            Fault::TooLong => 22,
            Fault::InLine(placed) => placed.fault.number(),
        }
    }

    // The number of its line, 0 for the file as a whole.
    pub fn line(self) -> u32
        ensures { result ≡ (told_fault self).line }
    {
        match self {
            Fault::TooLong => 0,
            Fault::InLine(placed) => placed.line,
        }
    }

    // The number of what caused it, 0 for none.
    pub fn cause(self) -> u32
        ensures { result ≡ (told_fault self).cause }
    {
        match self {
            Fault::TooLong => 0,
            Fault::InLine(placed) => placed.fault.cause(),
        }
    }
}

// By hand and not derived, since the contracts of the callers say which fault a `?` makes; so are those below.
impl From<PlacedFault> for Fault {
    ghost from_gives = { λ e r. r ≡ in_line e };

    fn from(e: PlacedFault) -> Fault {
        Fault::InLine(e)
    }
}

impl From<FieldFault> for LineFault {
    ghost from_gives = { λ e r. r ≡ in_field e };

    fn from(e: FieldFault) -> LineFault {
        LineFault::Field(e)
    }
}

impl From<RowRefusal> for LineFault {
    ghost from_gives = { λ e r. r ≡ in_row e };

    fn from(e: RowRefusal) -> LineFault {
        LineFault::Row(e)
    }
}
