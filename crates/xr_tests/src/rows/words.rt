// Words of no form, among them those that the program answers itself.
use crate::ends::Row;

const ROWS: &[Row] = &[
    Row {
        name: "no words",
        words: &[],
        status: 1,
        line: "xrsim: usage: xrsim serial FILE, xrsim threads FILE, with --device FILE and --places; xrsim load N\n",
        ..Row::EMPTY
    },
    Row {
        name: "words of a run on threads",
        words: &["threads", "scenario.json"],
        status: 1,
        line: "xrsim: usage: xrsim serial FILE, xrsim threads FILE, with --device FILE and --places; xrsim load N\n",
        ..Row::EMPTY
    },
    Row {
        name: "a word that asks for help",
        words: &["--help"],
        status: 1,
        line: "xrsim: usage: xrsim serial FILE, xrsim threads FILE, with --device FILE and --places; xrsim load N\n",
        ..Row::EMPTY
    },
    Row {
        name: "a short word that asks for help",
        words: &["serial", "scenario.json", "-h"],
        status: 1,
        line: "xrsim: usage: xrsim serial FILE, xrsim threads FILE, with --device FILE and --places; xrsim load N\n",
        ..Row::EMPTY
    },
    Row {
        name: "a word that asks for the version",
        words: &["--version"],
        status: 1,
        line: "xrsim: usage: xrsim serial FILE, xrsim threads FILE, with --device FILE and --places; xrsim load N\n",
        ..Row::EMPTY
    },
    Row {
        name: "help that is asked for behind a form",
        words: &["serial", "scenario.json", "--help"],
        status: 1,
        line: "xrsim: usage: xrsim serial FILE, xrsim threads FILE, with --device FILE and --places; xrsim load N\n",
        ..Row::EMPTY
    },
];

/// The rows.
pub(super) fn rows() -> &'static [Row] {
    ROWS
}
