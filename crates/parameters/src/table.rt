// The table store: each parameter's value is a record of its own.
ghost use Rattle.std.specs.Prelude.{◌≡◌};
ghost use Rattle.parameters.specs.declared.parameter.Parameter.{Parameter};
ghost use Rattle.parameters.specs.Parameters.{first_value};
ghost use Rattle.parameters.specs.Tables.{table_held, table_sound};

use super::parameter::{MOST_POLLED, MOST_RELAYS, Parameter, parameter_of};
use super::route::Route;
use super::store::{Store, Unlawful};
use super::value::{Reports, Value};

/// A store that keeps each value as a record of its own.
// kept: (d) no model: `held` of the trait `Store` is its view, and a model would say the same once more.
#[derive(Clone, Copy)]
pub struct TableStore {
    own_polling_group: u8,
    radio_acknowledge: bool,
    relay_route_status: bool,
    relay_route: Route<MOST_RELAYS>,
    polling_route: Route<MOST_POLLED>,
    group_number: u8,
    polling_time: u8,
    user_time_out: u8,
    exchange_status: Reports,
    switch_mode: bool,
}

impl TableStore {
    /// A store that holds the first values.
    // kept: (d) the first values stand here with their types, and in `ROWS` as bytes: read from the bytes, a flag or `Reports` would be a conversion that could fail, and a byte an index into the table.
    pub fn new() -> TableStore
        ensures first { (p : Parameter) → table_held result p ≡ first_value p }
    {
        TableStore {
            own_polling_group: 0,
            radio_acknowledge: true,
            relay_route_status: false,
            relay_route: Route::new(),
            polling_route: Route::new(),
            group_number: 0,
            polling_time: 0x0A,
            user_time_out: 0x14,
            exchange_status: Reports::Neither,
            switch_mode: true,
        }
    }
}

// Calls a method of the value of a parameter; `unknown` if there is no parameter.
macro_rules! of_value {
    ($table:expr, $parameter:expr, $unknown:expr, $method:ident($($argument:expr),*)) => {
        match $parameter {
            None => $unknown,
            Some(Parameter::OwnPollingGroup) => $table.own_polling_group.$method($($argument),*),
            Some(Parameter::RadioAcknowledge) => $table.radio_acknowledge.$method($($argument),*),
            Some(Parameter::RelayRouteStatus) => $table.relay_route_status.$method($($argument),*),
            Some(Parameter::RelayRoute) => $table.relay_route.$method($($argument),*),
            Some(Parameter::PollingRoute) => $table.polling_route.$method($($argument),*),
            Some(Parameter::GroupNumber) => $table.group_number.$method($($argument),*),
            Some(Parameter::PollingTime) => $table.polling_time.$method($($argument),*),
            Some(Parameter::UserTimeOut) => $table.user_time_out.$method($($argument),*),
            Some(Parameter::ExchangeStatus) => $table.exchange_status.$method($($argument),*),
            Some(Parameter::SwitchMode) => $table.switch_mode.$method($($argument),*),
        }
    };
}

mod opened;

impl Store for TableStore {
    ghost held = { table_held };

    ghost sound = { table_sound };

    ghost over = { λ _ _. Unit {0} };

    fn length(&self, number: u8) -> usize {
        of_value!(self, parameter_of(number), 0, length())
    }

    fn byte(&self, number: u8, place: usize) -> Option<u8> {
        of_value!(self, parameter_of(number), None, byte(place))
    }

    fn write(&mut self, number: u8, value: &[u8]) -> Result<(), Unlawful> {
        of_value!(self, parameter_of(number), Err(Unlawful), write(value))
    }
}
