//! What a refusal tells: a number for the fault, and its place and its count where it has them.
ghost use Rattle.std.specs.Prelude.{◌≡◌};
ghost use Rattle.cell_texts.specs.FaultNumbers.{at, cell_fault_code, with_count, with_count_at, plain, shift_fault_code};

use cell_base::Place;
use cell_file::CellFault;
use shift_file::ShiftFault;

/// A fault as its line shows it. Faults are numbered from 1 for each kind of file.
#[derive(Clone, Copy, Debug, PartialEq, Eq)]
pub struct FaultCode {
    pub number: u8,
    pub place: Option<Place>,
    pub count: Option<u64>,
}

impl FaultCode {
    /// A fault without place and count.
    pub fn plain(number: u8) -> FaultCode
        ensures { result ≡ plain number }
    {
        FaultCode {
            number,
            place: None,
            count: None,
        }
    }

    // A fault at a place.
    fn at(number: u8, place: Place) -> FaultCode
        ensures { result ≡ at number place }
    {
        FaultCode {
            number,
            place: Some(place),
            count: None,
        }
    }

    /// A fault with a count, or with one offset.
    pub fn with_count(number: u8, count: u64) -> FaultCode
        ensures { result ≡ with_count number count }
    {
        FaultCode {
            number,
            place: None,
            count: Some(count),
        }
    }

    // A fault at a place, with a count.
    fn with_count_at(number: u8, place: Place, count: u64) -> FaultCode
        ensures { result ≡ with_count_at number place count }
    {
        FaultCode {
            number,
            place: Some(place),
            count: Some(count),
        }
    }

    /// The fault of a cell file; want of memory is none.
    pub fn of_cell(fault: CellFault) -> Option<FaultCode>
        ensures { result ≡ cell_fault_code fault }
    {
        Some(match fault {
            CellFault::NotToml => FaultCode::plain(1),
            CellFault::WrongKey { place } => FaultCode::at(2, place),
            CellFault::WrongKind { place } => FaultCode::at(3, place),
            CellFault::BadName { place } => FaultCode::at(4, place),
            CellFault::BadNumber { place } => FaultCode::at(5, place),
            CellFault::Repeated { place } => FaultCode::at(6, place),
            CellFault::UnknownName { place } => FaultCode::at(7, place),
            CellFault::TooMany { place, count } => FaultCode::with_count_at(
                8,
                place,
                u64::from(count),
            ),
            CellFault::Empty { place } => FaultCode::at(9, place),
            CellFault::MixedOrders => FaultCode::plain(10),
            CellFault::TooManyUnits { count } => FaultCode::with_count(11, u64::from(count)),
            CellFault::Memory => return None,
        })
    }

    /// The fault of a shift file; want of memory is none.
    pub fn of_shift(fault: ShiftFault) -> Option<FaultCode>
        ensures { result ≡ shift_fault_code fault }
    {
        Some(match fault {
            ShiftFault::NotToml => FaultCode::plain(1),
            ShiftFault::WrongKey { place } => FaultCode::at(2, place),
            ShiftFault::WrongKind { place } => FaultCode::at(3, place),
            ShiftFault::BadStep { place } => FaultCode::at(4, place),
            ShiftFault::BadNumber { place } => FaultCode::at(5, place),
            ShiftFault::UnknownName { place } => FaultCode::at(6, place),
            ShiftFault::Empty { place } => FaultCode::at(7, place),
            ShiftFault::TooMany { place, count } => FaultCode::with_count_at(
                8,
                place,
                u64::from(count),
            ),
            ShiftFault::TooLong { count } => FaultCode::with_count(9, u64::from(count)),
            ShiftFault::TooManyAsks { count } => FaultCode::with_count(10, count),
            ShiftFault::Memory => return None,
        })
    }
}
