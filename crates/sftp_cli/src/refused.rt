//! The message for arguments and scripts that are refused.
use program_shell::{Command, Operand, TIMEOUT, tell_refusal};

/// The status if the arguments or the script can't be used.
pub(crate) const REFUSED: u8 = 2;

/// The message if the arguments are right and the script is refused.
const SCRIPT: &str = "the script on standard input is invalid; standard output names its line";

/// The message if each number of `bulk` is in its range and the arguments are refused.
const BULK: &str = "LANES times CALLS is at most 16384 (try --help)";

/// The numbers of `bulk`.
const NUMBERS: [Operand; 3] = [
    Operand {
        name: "START",
        range: Some((0, 18446744073709551615)),
    },
    Operand {
        name: "LANES",
        range: Some((0, 256)),
    },
    Operand {
        name: "CALLS",
        range: Some((0, 4096)),
    },
];

/// Returns the message if the arguments are one of the commands.
fn input_message(words: &[String]) -> &'static str {
    match words {
        [word, ..] if word.as_str() == "bulk" => BULK,
        _ => SCRIPT,
    }
}

/// Reports why the arguments or the script are refused.
pub(crate) fn tell_refused(rt: &HostRuntime, words: &[String]) {
    let none: [Operand; 0] = [];
    let path = [Operand {
        name: "PATH",
        range: None,
    }];
    let numbers = NUMBERS;
    tell_by_operands(rt, words, &none, &path, &numbers);
}

/// Reports the same, by the operands of the commands.
fn tell_by_operands<'a>(
    rt: &HostRuntime,
    words: &[String],
    none: &'a [Operand],
    path: &'a [Operand],
    numbers: &'a [Operand],
) {
    let commands = [
        Command {
            word: "script",
            operands: none,
            option: None,
        },
        Command {
            word: "unix",
            operands: path,
            option: Some(TIMEOUT),
        },
        Command {
            word: "bulk",
            operands: numbers,
            option: None,
        },
        Command {
            word: "--help",
            operands: none,
            option: None,
        },
        Command {
            word: "--version",
            operands: none,
            option: None,
        },
    ];
    tell_refusal(rt, "sftp_cli", &commands, words, input_message(words));
}
