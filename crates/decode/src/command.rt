// The names of the commands that a card and its host exchange.
ghost use Rattle.std.specs.Prelude.{◌≡◌, true};
ghost use Rattle.std.specs.Ordering.{nat_cmp};
ghost use Rattle.std.specs.FinMap.Entries.{is_sorted};

// The commands by rising number, as the search in `name` needs them, each with the name that its maker gives it.
pub(crate) static NAMES: [(u8, &str); 50] = [
    (0x00, "ERROR"),
    (0x06, "ACK"),
    (0x15, "NAK"),
    (0x20, "REQ_SEND_FRAME"),
    (0x21, "RES_SEND_FRAME"),
    (0x22, "REQ_SEND_MESSAGE"),
    (0x24, "REQ_SEND_BROADCAST_RESPONSE"),
    (0x26, "REQ_SEND_POLLING"),
    (0x28, "REQ_SEND_BROADCAST"),
    (0x2A, "REQ_SEND_BROADCAST_MESSAGE"),
    (0x30, "RECEIVED_FRAME"),
    (0x31, "RECEPTION_ERROR"),
    (0x32, "RECEIVED_FRAME_POLLING"),
    (0x34, "RECEIVED_BROADCAST_RESPONSE"),
    (0x35, "RECEIVED_FRAME_RELAYED"),
    (0x36, "RECEIVED_MULTIFRAME"),
    (0x37, "END_MESSAGE_EXCHANGE"),
    (0x38, "RECEIVED_BROADCAST_FRAME"),
    (0x40, "REQ_WRITE_RADIO_PARAM"),
    (0x41, "RES_WRITE_RADIO_PARAM"),
    (0x42, "REQ_CHANGE_UART_BDRATE"),
    (0x43, "RES_CHANGE_UART_BDRATE"),
    (0x44, "REQ_CHANGE_TX_POWER"),
    (0x45, "RES_CHANGE_TX_POWER"),
    (0x46, "REQ_WRITE_AUTOCORR_STATE"),
    (0x47, "RES_WRITE_AUTOCORR_STATE"),
    (0x50, "REQ_READ_RADIO_PARAM"),
    (0x51, "RES_READ_RADIO_PARAM"),
    (0x54, "REQ_READ_TX_POWER"),
    (0x55, "RES_READ_TX_POWER"),
    (0x5A, "REQ_READ_AUTOCORR_STATE"),
    (0x5B, "RES_READ_AUTOCORR_STATE"),
    (0x60, "REQ_SELECT_CHANNEL"),
    (0x61, "RES_SELECT_CHANNEL"),
    (0x62, "REQ_READ_CHANNEL"),
    (0x63, "RES_READ_CHANNEL"),
    (0x64, "REQ_SELECT_PHYCONFIG"),
    (0x65, "RES_SELECT_PHYCONFIG"),
    (0x66, "REQ_READ_PHYCONFIG"),
    (0x67, "RES_READ_PHYCONFIG"),
    (0x68, "REQ_READ_REMOTE_RSSI"),
    (0x69, "RES_READ_REMOTE_RSSI"),
    (0x6A, "REQ_READ_LOCAL_RSSI"),
    (0x6B, "RES_READ_LOCAL_RSSI"),
    (0x80, "REQ_SEND_SERVICE"),
    (0x81, "RES_SEND_SERVICE"),
    (0x82, "SERVICE_RESPONSE"),
    (0xA0, "REQ_FIRMWARE_VERSION"),
    (0xA1, "RES_FIRMWARE_VERSION"),
    (0xB0, "MODE_TEST"),
];

// The name of a command; another number is shown as unknown.
pub fn name(cmd: u8) -> &'static str
    ensures rising { is_sorted nat_cmp NAMES ≡ true }
{
    match NAMES.binary_search_by_key(&cmd, |row| row.0) {
        Ok(place) => NAMES[place].1,
        Err(_) => "unknown",
    }
}
