//! The commands and their arguments as texts. Help, the manual page and completions are made of it.

ghost use Rattle.std.specs.Prelude.{◌≡◌, map};
ghost use Rattle.command_line.specs.CommandLine.{subcommands};
ghost use Rattle.command_line.specs.Tables.{line_words, table_words};

use crate::help_texts::{
    ABOUT, AS_HELP, CHECK_ABOUT, CHECK_CONFIG_HELP, CHECK_EXAMPLES, CHECK_LONG_ABOUT,
    COMPLETIONS_ABOUT, COMPLETIONS_EXAMPLES, COMPLETIONS_LONG_ABOUT, CONFIG_HELP, CONNECT_ABOUT,
    CONNECT_EXAMPLES, CONNECT_LONG_ABOUT, CONNECT_SOCKET_HELP, CONNECTIONS_HELP, DRAW_ABOUT,
    DRAW_EXAMPLES, DRAW_LONG_ABOUT, DRAW_SCRIPT_HELP, EXAMPLES, EXPORT_ABOUT, EXPORT_CLASS_HELP,
    EXPORT_EXAMPLES, EXPORT_LONG_ABOUT, FEATURES_HELP, FIRST_ID_HELP, FORMAT_HELP, GRID_HELP,
    HTTP_HELP, HTTP_SOCKET_HELP, HTTP_WORKERS_HELP, IDLE_HELP, IMPORT_ABOUT, IMPORT_CLASS_HELP,
    IMPORT_EXAMPLES, IMPORT_FILE_HELP, IMPORT_LONG_ABOUT, IMPORT_SCRIPT_HELP, LONG_ABOUT,
    MAN_ABOUT, MAN_EXAMPLES, MAN_LONG_ABOUT, SCRIPT_ABOUT, SCRIPT_EXAMPLES, SCRIPT_FILE_HELP,
    SCRIPT_LONG_ABOUT, SECRET_ABOUT, SECRET_EXAMPLES, SECRET_LONG_ABOUT, SECRET_NAME_HELP,
    SERVE_ABOUT, SERVE_EXAMPLES, SERVE_LONG_ABOUT, SHELL_HELP, SOCKET_HELP, SPLIT_HELP,
    STORE_ABOUT, STORE_ACTION_HELP, STORE_EXAMPLES, STORE_FEATURES_HELP, STORE_FOLDER_HELP,
    STORE_HELP, STORE_LONG_ABOUT, TAKEOVER_HELP, UNTIL_STDIN_ENDS_HELP, WAIT_HELP, WHOLE_HELP,
    WINDOW_HELP, WORKERS_HELP,
};

/// How many commands there are.
pub const COMMAND_COUNT: usize = 11;

/// An argument of a command.
#[derive(Clone, Copy, Debug)]
pub struct ArgumentText {
    /// `--` of an option; empty if the argument has only its place.
    pub dashes: &'static str,
    /// Its name, without dashes.
    pub name: &'static str,
    /// What the value of an option is called; empty if it has none.
    pub value: &'static str,
    /// What it is for.
    pub help: &'static str,
}

/// A command.
#[derive(Clone, Copy, Debug)]
pub struct CommandText {
    /// Its name.
    pub name: &'static str,
    /// What it does, in one line.
    pub about: &'static str,
    /// What it does, at length.
    pub long_about: &'static str,
    /// Its arguments, without `--help`.
    pub arguments: &'static [ArgumentText],
    /// Examples and exit statuses.
    pub examples: &'static str,
}

/// The program and its commands.
#[derive(Clone, Copy, Debug)]
pub struct HelpTable {
    /// What the program is, in one line.
    pub about: &'static str,
    /// What it is, at length.
    pub long_about: &'static str,
    /// Examples and exit statuses.
    pub examples: &'static str,
    /// Its commands, in the order of help.
    pub commands: [CommandText; COMMAND_COUNT],
}

const CONFIG: ArgumentText = ArgumentText {
    dashes: "--",
    name: "config",
    value: "FILE",
    help: CONFIG_HELP,
};

const STORE_OPTION: ArgumentText = ArgumentText {
    dashes: "--",
    name: "store",
    value: "DIR",
    help: STORE_HELP,
};

const FEATURES_OPTION: ArgumentText = ArgumentText {
    dashes: "--",
    name: "features",
    value: "N",
    help: FEATURES_HELP,
};

const SCRIPT_ARGUMENTS: [ArgumentText; 4] = [
    CONFIG,
    STORE_OPTION,
    FEATURES_OPTION,
    ArgumentText {
        dashes: "",
        name: "FILE",
        value: "",
        help: SCRIPT_FILE_HELP,
    },
];

const SERVE_ARGUMENTS: [ArgumentText; 13] = [
    ArgumentText {
        dashes: "--",
        name: "socket",
        value: "PATH",
        help: SOCKET_HELP,
    },
    CONFIG,
    ArgumentText {
        dashes: "--",
        name: "connections",
        value: "N",
        help: CONNECTIONS_HELP,
    },
    ArgumentText {
        dashes: "--",
        name: "workers",
        value: "N",
        help: WORKERS_HELP,
    },
    ArgumentText {
        dashes: "--",
        name: "idle",
        value: "SECONDS",
        help: IDLE_HELP,
    },
    ArgumentText {
        dashes: "--",
        name: "takeover",
        value: "",
        help: TAKEOVER_HELP,
    },
    ArgumentText {
        dashes: "--",
        name: "until-stdin-ends",
        value: "",
        help: UNTIL_STDIN_ENDS_HELP,
    },
    STORE_OPTION,
    ArgumentText {
        dashes: "--",
        name: "wait",
        value: "WHAT",
        help: WAIT_HELP,
    },
    ArgumentText {
        dashes: "--",
        name: "http",
        value: "ADDRESS:PORT",
        help: HTTP_HELP,
    },
    ArgumentText {
        dashes: "--",
        name: "http-socket",
        value: "PATH",
        help: HTTP_SOCKET_HELP,
    },
    ArgumentText {
        dashes: "--",
        name: "http-workers",
        value: "N",
        help: HTTP_WORKERS_HELP,
    },
    FEATURES_OPTION,
];

const CONNECT_ARGUMENTS: [ArgumentText; 1] = [ArgumentText {
    dashes: "--",
    name: "socket",
    value: "PATH",
    help: CONNECT_SOCKET_HELP,
}];

const CHECK_ARGUMENTS: [ArgumentText; 1] = [ArgumentText {
    dashes: "--",
    name: "config",
    value: "FILE",
    help: CHECK_CONFIG_HELP,
}];

const DRAW_ARGUMENTS: [ArgumentText; 1] = [ArgumentText {
    dashes: "",
    name: "SCRIPT",
    value: "",
    help: DRAW_SCRIPT_HELP,
}];

const EXPORT_ARGUMENTS: [ArgumentText; 6] = [
    ArgumentText {
        dashes: "--",
        name: "socket",
        value: "PATH",
        help: CONNECT_SOCKET_HELP,
    },
    ArgumentText {
        dashes: "--",
        name: "as",
        value: "NAME",
        help: AS_HELP,
    },
    ArgumentText {
        dashes: "--",
        name: "window",
        value: "SHAPE",
        help: WINDOW_HELP,
    },
    ArgumentText {
        dashes: "--",
        name: "class",
        value: "NAME",
        help: EXPORT_CLASS_HELP,
    },
    ArgumentText {
        dashes: "--",
        name: "config",
        value: "FILE",
        help: GRID_HELP,
    },
    ArgumentText {
        dashes: "--",
        name: "format",
        value: "FORMAT",
        help: FORMAT_HELP,
    },
];

const IMPORT_ARGUMENTS: [ArgumentText; 9] = [
    ArgumentText {
        dashes: "--",
        name: "socket",
        value: "PATH",
        help: CONNECT_SOCKET_HELP,
    },
    ArgumentText {
        dashes: "--",
        name: "as",
        value: "NAME",
        help: AS_HELP,
    },
    ArgumentText {
        dashes: "--",
        name: "class",
        value: "NAME",
        help: IMPORT_CLASS_HELP,
    },
    ArgumentText {
        dashes: "--",
        name: "first-id",
        value: "N",
        help: FIRST_ID_HELP,
    },
    ArgumentText {
        dashes: "--",
        name: "whole",
        value: "",
        help: WHOLE_HELP,
    },
    ArgumentText {
        dashes: "--",
        name: "split",
        value: "",
        help: SPLIT_HELP,
    },
    ArgumentText {
        dashes: "--",
        name: "config",
        value: "FILE",
        help: GRID_HELP,
    },
    ArgumentText {
        dashes: "--",
        name: "script",
        value: "",
        help: IMPORT_SCRIPT_HELP,
    },
    ArgumentText {
        dashes: "",
        name: "FILE",
        value: "",
        help: IMPORT_FILE_HELP,
    },
];

const STORE_ARGUMENTS: [ArgumentText; 3] = [
    ArgumentText {
        dashes: "",
        name: "ACTION",
        value: "",
        help: STORE_ACTION_HELP,
    },
    ArgumentText {
        dashes: "",
        name: "DIR",
        value: "",
        help: STORE_FOLDER_HELP,
    },
    ArgumentText {
        dashes: "--",
        name: "features",
        value: "",
        help: STORE_FEATURES_HELP,
    },
];

const SECRET_ARGUMENTS: [ArgumentText; 1] = [ArgumentText {
    dashes: "",
    name: "NAME",
    value: "",
    help: SECRET_NAME_HELP,
}];

const COMPLETIONS_ARGUMENTS: [ArgumentText; 1] = [ArgumentText {
    dashes: "",
    name: "SHELL",
    value: "",
    help: SHELL_HELP,
}];

const SCRIPT: CommandText = CommandText {
    name: "script",
    about: SCRIPT_ABOUT,
    long_about: SCRIPT_LONG_ABOUT,
    arguments: &SCRIPT_ARGUMENTS,
    examples: SCRIPT_EXAMPLES,
};

const SERVE: CommandText = CommandText {
    name: "serve",
    about: SERVE_ABOUT,
    long_about: SERVE_LONG_ABOUT,
    arguments: &SERVE_ARGUMENTS,
    examples: SERVE_EXAMPLES,
};

const CONNECT: CommandText = CommandText {
    name: "connect",
    about: CONNECT_ABOUT,
    long_about: CONNECT_LONG_ABOUT,
    arguments: &CONNECT_ARGUMENTS,
    examples: CONNECT_EXAMPLES,
};

const CHECK: CommandText = CommandText {
    name: "check",
    about: CHECK_ABOUT,
    long_about: CHECK_LONG_ABOUT,
    arguments: &CHECK_ARGUMENTS,
    examples: CHECK_EXAMPLES,
};

const DRAW: CommandText = CommandText {
    name: "draw",
    about: DRAW_ABOUT,
    long_about: DRAW_LONG_ABOUT,
    arguments: &DRAW_ARGUMENTS,
    examples: DRAW_EXAMPLES,
};

const EXPORT: CommandText = CommandText {
    name: "export",
    about: EXPORT_ABOUT,
    long_about: EXPORT_LONG_ABOUT,
    arguments: &EXPORT_ARGUMENTS,
    examples: EXPORT_EXAMPLES,
};

const IMPORT: CommandText = CommandText {
    name: "import",
    about: IMPORT_ABOUT,
    long_about: IMPORT_LONG_ABOUT,
    arguments: &IMPORT_ARGUMENTS,
    examples: IMPORT_EXAMPLES,
};

const STORE: CommandText = CommandText {
    name: "store",
    about: STORE_ABOUT,
    long_about: STORE_LONG_ABOUT,
    arguments: &STORE_ARGUMENTS,
    examples: STORE_EXAMPLES,
};

const SECRET: CommandText = CommandText {
    name: "secret",
    about: SECRET_ABOUT,
    long_about: SECRET_LONG_ABOUT,
    arguments: &SECRET_ARGUMENTS,
    examples: SECRET_EXAMPLES,
};

const MAN: CommandText = CommandText {
    name: "man",
    about: MAN_ABOUT,
    long_about: MAN_LONG_ABOUT,
    arguments: &[],
    examples: MAN_EXAMPLES,
};

const COMPLETIONS: CommandText = CommandText {
    name: "completions",
    about: COMPLETIONS_ABOUT,
    long_about: COMPLETIONS_LONG_ABOUT,
    arguments: &COMPLETIONS_ARGUMENTS,
    examples: COMPLETIONS_EXAMPLES,
};

/// The texts of the program and of its commands. It has just the commands that the command line
/// has, and of each just its arguments.
pub fn help_table() -> HelpTable
    ensures { map table_words result.commands ≡ map line_words subcommands }
{
    HelpTable {
        about: ABOUT,
        long_about: LONG_ABOUT,
        examples: EXAMPLES,
        commands: [
            SCRIPT,
            SERVE,
            CONNECT,
            CHECK,
            DRAW,
            EXPORT,
            IMPORT,
            STORE,
            SECRET,
            MAN,
            COMPLETIONS,
        ],
    }
}
