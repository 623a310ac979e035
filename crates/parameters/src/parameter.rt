// The ten parameters: number, lawful values and first value of each.
ghost use Rattle.std.specs.Prelude.{◌≡◌};
ghost use Rattle.parameters.specs.Parameters.{parameter_numbered, row_for, row_numbered};

use frames::numbered::{Numbered, find};

/// A parameter of a card.
#[derive(Clone, Copy, Debug, PartialEq, Eq)]
pub enum Parameter {
    OwnPollingGroup,
    RadioAcknowledge,
    RelayRouteStatus,
    RelayRoute,
    PollingRoute,
    GroupNumber,
    PollingTime,
    UserTimeOut,
    ExchangeStatus,
    SwitchMode,
}

/// Which values are lawful for a parameter.
#[derive(Clone, Copy, Debug, PartialEq, Eq)]
pub enum Lawful {
    /// Any one byte.
    AnyByte,
    /// One byte up to this.
    ByteUpto(u8),
    /// A count of addresses up to this, then six bytes for each.
    RouteUpto(u8),
}

/// What is fixed about a parameter.
#[derive(Clone, Copy)]
pub struct Row {
    pub number: u8,
    pub parameter: Parameter,
    pub lawful: Lawful,
    /// Every first value has one byte: of a route it is the count 0.
    pub first: u8,
}

impl Numbered for Row {
    ghost carried = { λ row. row.number };

    fn number(&self) -> u32 {
        u32::from(self.number)
    }
}

// How many addresses a relay route has at most.
pub(crate) const MOST_RELAYS: usize = 3;

// How many addresses a polling route has at most.
pub(crate) const MOST_POLLED: usize = 40;

/// The ten parameters in rising number.
pub static ROWS: [Row; 10] = [
    Row {
        number: 0x03,
        parameter: Parameter::OwnPollingGroup,
        lawful: Lawful::AnyByte,
        first: 0,
    },
    Row {
        number: 0x04,
        parameter: Parameter::RadioAcknowledge,
        lawful: Lawful::ByteUpto(1),
        first: 1,
    },
    Row {
        number: 0x06,
        parameter: Parameter::RelayRouteStatus,
        lawful: Lawful::ByteUpto(1),
        first: 0,
    },
    Row {
        number: 0x07,
        parameter: Parameter::RelayRoute,
        lawful: Lawful::RouteUpto(MOST_RELAYS as u8),
        first: 0,
    },
    Row {
        number: 0x08,
        parameter: Parameter::PollingRoute,
        lawful: Lawful::RouteUpto(MOST_POLLED as u8),
        first: 0,
    },
    Row {
        number: 0x09,
        parameter: Parameter::GroupNumber,
        lawful: Lawful::AnyByte,
        first: 0,
    },
    Row {
        number: 0x0A,
        parameter: Parameter::PollingTime,
        lawful: Lawful::AnyByte,
        first: 0x0A,
    },
    Row {
        number: 0x0C,
        parameter: Parameter::UserTimeOut,
        lawful: Lawful::AnyByte,
        first: 0x14,
    },
    Row {
        number: 0x0E,
        parameter: Parameter::ExchangeStatus,
        lawful: Lawful::ByteUpto(3),
        first: 0,
    },
    Row {
        number: 0x10,
        parameter: Parameter::SwitchMode,
        lawful: Lawful::ByteUpto(1),
        first: 1,
    },
];

impl Parameter {
    // Which values are lawful for the parameter.
    pub(crate) fn lawful(self) -> Lawful
        ensures lawful { result ≡ (row_for self).lawful }
    {
        ROWS[self as usize].lawful
    }
}

/// The row of the parameter with this number, or that no parameter has it.
pub fn row_of(number: u8) -> Option<Row>
    ensures row { result ≡ row_numbered number }
{
    let place = find(&ROWS, u32::from(number))?;
    Some(ROWS[place])
}

/// The parameter with this number, or that there is none.
pub fn parameter_of(number: u8) -> Option<Parameter>
    ensures parameter { result ≡ parameter_numbered number }
{
    Some(row_of(number)?.parameter)
}
