//! What numbers in descriptors stand for, in the words of `lsusb -v`.

/// The kind of an endpoint, by its bmAttributes (USB 2.0, table 9-13).
pub(crate) fn transfer_type(attributes: u8) -> &'static str {
    match attributes % 4 {
        0 => "Control",
        1 => "Isochronous",
        2 => "Bulk",
        _ => "Interrupt",
    }
}

/// How an isochronous endpoint is synchronized.
pub(crate) fn synch_type(attributes: u8) -> &'static str {
    match attributes / 4 % 4 {
        0 => "None",
        1 => "Asynchronous",
        2 => "Adaptive",
        _ => "Synchronous",
    }
}

/// What it is used for.
pub(crate) fn usage_type(attributes: u8) -> &'static str {
    match attributes / 16 % 4 {
        0 => "Data",
        1 => "Feedback",
        2 => "Implicit feedback Data",
        _ => "(reserved)",
    }
}

/// How many packets a microframe may have, by bits 12..11 of wMaxPacketSize.
pub(crate) fn packets_of_microframe(size: u64) -> &'static str {
    match size / 2048 % 4 {
        0 => "1x",
        1 => "2x",
        2 => "3x",
        _ => "(?)",
    }
}

/// A type of descriptors that a HID descriptor counts (HID 1.11, 7.1).
pub(crate) fn hid_type(kind: u8) -> &'static str {
    match kind {
        0x21 => "HID",
        0x22 => "Report",
        0x23 => "Physical",
        _ => "",
    }
}

/// What a pipe of a mass storage device carries (UAS 1.0, 5.3.3.5).
pub(crate) fn pipe_name(pipe: u8) -> &'static str {
    match pipe {
        1 => "Command pipe",
        2 => "Status pipe",
        3 => "Data-in pipe",
        4 => "Data-out pipe",
        0xe0..=0xef => "Vendor specific",
        _ => "Reserved",
    }
}

/// The country of a keyboard (HID 1.11, 6.2.1).
pub(crate) fn country(code: u8) -> &'static str {
    COUNTRIES
        .get(usize::from(code))
        .copied()
        .unwrap_or("Unknown")
}

/// Countries, from number 0 on.
static COUNTRIES: [&str; 36] = [
    "Not supported",
    "Arabic",
    "Belgian",
    "Canadian-Bilingual",
    "Canadian-French",
    "Czech Republic",
    "Danish",
    "Finnish",
    "French",
    "German",
    "Greek",
    "Hebrew",
    "Hungary",
    "International (ISO)",
    "Italian",
    "Japan (Katakana)",
    "Korean",
    "Latin American",
    "Netherlands/Dutch",
    "Norwegian",
    "Persian (Farsi)",
    "Poland",
    "Portuguese",
    "Russia",
    "Slovakia",
    "Spanish",
    "Swedish",
    "Swiss/French",
    "Swiss/German",
    "Switzerland",
    "Taiwan",
    "Turkish-Q",
    "UK",
    "US",
    "Yugoslavia",
    "Turkish-F",
];
