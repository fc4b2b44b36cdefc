//! What help says behind the words: the input's form, an example and the statuses.

/// A text of help: its input; an example of a word that names a file; and what stands behind that.
macro_rules! help_over_file {
    ($($input:literal),+; $example:literal; $($behind:literal),+) => {
        concat!(
            $($input,)+
            "\n\nA word with a dot or a slash in it names a file, which is read in the place of standard input: usbtrace ",
            $example,
            "\n\n",
            $($behind),+
        )
    };
}

/// The text of help with an example's words, when the status is 0 and when 1, what stands behind that, and further options.
macro_rules! help_with_options {
    ($words:literal, $good:literal, $failed:literal, [$($behind:literal),*], [$($option:literal),*]) => {
        help_over_file!(
            "Input: a scenario, a line for each device, script and step. Words stand between single spaces.\n",
            "  device D HEX               the next device, 0 to 3, with this configuration descriptor\n",
            "  script D EP A A ..         what a bulk or interrupt endpoint answers: d:HEX, a, a:HEX, n, s or b\n",
            "  feed D EP A A ..           further answers of it, as if they had stood in its script; also amid the steps\n",
            "  open H D                   handle H, 0 to 63, opens a device; so close, claim, release, reset, clear\n",
            "  submit H EP K B ..         a transfer of kind bulk or int, of B bytes, or out with x:HEX; so cancel, expire\n",
            "    ..                       options in this order: flags=SHORT_NOT_OK+ADD_ZERO_PACKET timeout=MS then=again:COMPLETED+STALL:ROUNDS\n",
            "  serve D EP                 the controller serves an endpoint; so command, deliver, take, return, unplug\n",
            "  # ..                       a comment\n\n",
            "Refused: 1 InvalidParam, 2 NoDevice, 3 NotFound, 4 Busy, 5 HeldElsewhere, 6 NoMem, 7 NotSupported; `usbtrace explain` says why\n",
            "Code: 1 Success, 3 Babble, 4 Transaction Error, 6 Stall, 13 Short Packet"
            $(, $option)*;
            "run scenario.txt";
            "Example:\n",
            "  printf 'open 1 0\\ntake\\n' | usbtrace ",
            $words,
            "\n\nStatus: 0 ",
            $good,
            ", 1 ",
            $failed,
            ", 2 for bad words"
            $(, $behind)*
        )
    };
}

/// The same without further options.
macro_rules! help_text {
    ($words:literal, $good:literal, $failed:literal $(, $behind:literal)*) => {
        help_with_options!($words, $good, $failed, [$($behind),*], [])
    };
}

/// The same of a word whose lines may have other forms.
macro_rules! help_of_forms {
    ($words:literal, $good:literal, $failed:literal $(, $behind:literal)*) => {
        help_with_options!(
            $words, $good, $failed, [$($behind),*],
            [
                "\n\nMore options:\n",
                "  --json                     what is printed, as an object of JSON for each line\n",
                "  --color WHEN               always, never, or auto, as without it: on a terminal, where NO_COLOR isn't set"
            ]
        )
    };
}

/// The help of the program.
pub(crate) const PROGRAM: &str = help_text!(
    "run",
    "where all is done",
    "where a line is bad, memory is wanting or a stream fails"
);

/// The help of `run`.
pub(crate) const RUN: &str = help_of_forms!(
    "run",
    "where all entries are printed",
    "where a line is bad, memory is wanting or a stream fails",
    ", 3 where the run wrote something else than its scripts expect, by a:HEX (with --lenient that is only told)"
);

/// The help of `alone`.
pub(crate) const ALONE: &str = help_text!(
    "alone 1",
    "where the handle's entries are printed",
    "where a line is bad, memory is wanting or a stream fails"
);

/// The help of `live`.
pub(crate) const LIVE: &str = help_text!(
    "live",
    "where all that callbacks were told is printed",
    "where a line is bad, memory or a thread is wanting or a stream fails"
);

/// The help of `left`.
pub(crate) const LEFT: &str = help_text!(
    "left",
    "where all that is left is printed",
    "where a line is bad, memory is wanting or a stream fails",
    ", 3 where the run wrote something else than its scripts expect, by a:HEX (with --lenient that is only told)"
);

/// The help of `check`.
pub(crate) const CHECK: &str = help_of_forms!(
    "check",
    "where each line is taken",
    "where one isn't, memory is wanting or a stream fails"
);

/// The help of `draw`.
pub(crate) const DRAW: &str = help_text!(
    "draw > run.svg",
    "where the whole run is drawn",
    "where a line is bad, memory is wanting or a stream fails"
);

/// The help of `capture`.
pub(crate) const CAPTURE: &str = help_text!(
    "capture > run.pcap",
    "where the whole run is written",
    "where a line is bad, memory is wanting or a stream fails"
);

/// The help of `devices`, which reads no scenario.
pub(crate) const DEVICES: &str = help_over_file!(
    "Input: a capture of Linux's usbmon or Windows' USBPcap, as tcpdump or Wireshark write it: a pcap or pcapng file of link type 220, 189 or 249.\n",
    "What is printed is a text of devices, for libusb's own interface: each with its descriptors, its strings, what its endpoints\n",
    "answered, packet by packet, what it answered to control requests, and which answers waited for what. With --scenario it is the\n",
    "beginning of a scenario.\n\n",
    "More options, each with a word behind it, print one device alone:\n",
    "  --device VENDOR:PRODUCT    this one, by four hexadecimal digits each\n",
    "  --descriptors FILE         what the capture lacks is from Linux's file `descriptors` of the device, or a copy, in bytes or as hexadecimal text\n",
    "  --umockdev FILE            it is from a file of umockdev-record";
    "devices recorded.pcap";
    "Example:\n",
    "  usbtrace devices < recorded.pcap > devices.txt\n",
    "  usbtrace devices --scenario < recorded.pcap > scenario.txt\n",
    "  usbtrace devices --descriptors /sys/bus/usb/devices/1-1/descriptors < recorded.pcap > devices.txt\n\n",
    "Status: 0 where a device was found, 1 where none was, the input or the file is none of these, memory is wanting or a stream fails, ",
    "2 for bad words"
);

/// The help of `explain`.
pub(crate) const EXPLAIN: &str = help_of_forms!(
    "explain",
    "where all entries are printed",
    "where a line is bad, memory is wanting or a stream fails"
);

/// The help of `test`.
pub(crate) const TEST: &str = help_over_file!(
    "Input: a scenario, and among its lines:\n",
    "  expect TEXT                the step above prints this; so more than one, in order, and `expect NOTHING`\n",
    "  expect left TEXT           at the run's end this is left, as `usbtrace left` prints it; `expect left NOTHING`\n",
    "  settle                     command, deliver and take, until nothing is to be done\n",
    "  serve 0 81 *3              this step three times; so any other line\n",
    "  macro NAME                 begins a macro, whose body are the lines up to `end`; in it $1 to $9 are the words of a call\n",
    "  NAME WORD ..               a call: the body of the macro above of this name, with these words\n\n",
    "More options:\n",
    "  --json                     what is printed, as an object of JSON for each test\n",
    "  --color WHEN               always, never, or auto, as without it: on a terminal, where NO_COLOR isn't set\n",
    "  --junit FILE               what came of the tests of files is written into FILE too, as the XML of JUnit\n",
    "  --html DIR                 a page is written into DIR for each test of a file that fails\n",
    "  --update                   lines of the files that differ are rewritten, to expect what there is";
    "test first.txt second.txt";
    "Example:\n",
    "  printf 'open 1 0\\nexpect h1 refused 3\\n' | usbtrace test\n\n",
    "Status: 0 where all is as expected, 1 where a line differs or is bad, memory is wanting or a stream fails, 2 for bad words, ",
    "3 where the run wrote something else than its scripts expect, by a:HEX (with --lenient that is only told)"
);

/// The help of `device`, which reads no scenario.
pub(crate) const DEVICE: &str = help_over_file!(
    "Input: a device's descriptors, as Linux has them in /sys/bus/usb/devices/1-1/descriptors: in bytes, or as hexadecimal text.\n",
    "What is printed is the beginning of a scenario: comments that name its interfaces and endpoints, and the device's line.";
    "device ./descriptors";
    "Example:\n",
    "  usbtrace device < /sys/bus/usb/devices/1-1/descriptors > scenario.txt\n\n",
    "Status: 0 where the line is printed, 1 where the input is no such file, memory is wanting or a stream fails, 2 for bad words"
);

/// The help of `describe`, which reads no scenario.
pub(crate) const DESCRIBE: &str = help_over_file!(
    "Input: a device's descriptors, as Linux has them in /sys/bus/usb/devices/1-1/descriptors: in bytes, or as hexadecimal text.";
    "describe ./descriptors";
    "Example:\n",
    "  usbtrace describe < /sys/bus/usb/devices/1-1/descriptors\n\n",
    "Status: 0 where the table is printed, 1 where the input is no such file, memory is wanting or a stream fails, 2 for bad words"
);
