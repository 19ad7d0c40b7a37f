//! The tables of the types of packets: of those that move no data of a transfer ("Control packets"), and of those that
//! do ("Data packets").

/// Calls the macro `reader` with what it is given, and then with a row for each type: its variant in `PlainKind` and
/// `RedirControl`, its name, and what the protocol says of it, where its number comes first. A packet of single bytes
/// has the place of each of them behind the header, in the order of the wire; one with a struct of its own has `(_)`.
macro_rules! plain_types {
    ($reader:ident!($($given:tt)*)) => {
        $reader! {
            ($($given)*)
            Hello(_) = "HELLO", both_ways(0, 64, Tail::Words);
            Connect(_) = "DEVICE_CONNECT", to_guest(1, 8).with(Caps::CONNECT_VERSION, 2);
            Disconnect {} = "DEVICE_DISCONNECT", to_guest(2, 0);
            Reset {} = "RESET", to_host(3, 0);
            InterfaceInfo(_) = "INTERFACE_INFO", to_guest(4, 132);
            EpInfo(_) = "EP_INFO", to_guest(5, 96).with(Caps::MAX_PACKET_SIZE, 64);
            SetConfiguration { configuration: 0 } = "SET_CONFIGURATION", to_host(6, 1);
            GetConfiguration {} = "GET_CONFIGURATION", to_host(7, 0);
            ConfigurationStatus { status: 0, configuration: 1 } = "CONFIGURATION_STATUS", to_guest(8, 2);
            SetAlt { interface: 0, alt: 1 } = "SET_ALT_SETTING", to_host(9, 2);
            GetAlt { interface: 0 } = "GET_ALT_SETTING", to_host(10, 1);
            AltStatus { status: 0, interface: 1, alt: 2 } = "ALT_SETTING_STATUS", to_guest(11, 3);
            StartIso { endpoint: 0, pkts_per_urb: 1, no_urbs: 2 } = "START_ISO_STREAM", to_host(12, 3);
            StopIso { endpoint: 0 } = "STOP_ISO_STREAM", to_host(13, 1);
            IsoStatus { status: 0, endpoint: 1 } = "ISO_STREAM_STATUS", to_guest(14, 2);
            StartInterrupt { endpoint: 0 } = "START_INTERRUPT_RECEIVING", to_host(15, 1);
            StopInterrupt { endpoint: 0 } = "STOP_INTERRUPT_RECEIVING", to_host(16, 1);
            InterruptStatus { status: 0, endpoint: 1 } = "INTERRUPT_RECEIVING_STATUS", to_guest(17, 2);
            Cancel {} = "CANCEL_DATA_PACKET", to_host(21, 0);
            DisconnectAck {} = "DEVICE_DISCONNECT_ACK", to_host(24, 0).wanting(Caps::DISCONNECT_ACK);
        }
    };
}

/// The same for a type that moves data, with its variant in `DataKind`.
macro_rules! data_types {
    ($reader:ident!($($given:tt)*)) => {
        $reader! {
            ($($given)*)
            Control {} = "CONTROL", both_ways(100, 10, Tail::Data);
            Bulk {} = "BULK", both_ways(101, 8, Tail::Data).with(Caps::WIDE_BULK_LENGTH, 2);
            Iso {} = "ISO", both_ways(102, 4, Tail::Data);
            Interrupt {} = "INTERRUPT", both_ways(103, 4, Tail::Data);
        }
    };
}

pub(crate) use data_types;
pub(crate) use plain_types;
