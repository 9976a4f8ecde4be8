//! The table of commands. A new command is a row here and in specs/Table.antt, a case of `Order` and an arm that makes
//! it.
ghost use Rattle.std.specs.Prelude.{◌≡◌, map};
ghost use Rattle.command_line.specs.Rows.{verb_of};
ghost use Rattle.command_line.specs.Table.{dope_verbs};

/// An option of a command. It is given as `--name` and, as its value, a number from `least` to `greatest`.
#[derive(Clone, Copy)]
pub(crate) struct NumberOption {
    pub(crate) name: &'static str,
    pub(crate) least: u32,
    pub(crate) greatest: u32,
}

/// A command, and the options that it needs, in the order of its plain form.
#[derive(Clone, Copy)]
pub(crate) struct CommandRow {
    pub(crate) name: &'static str,
    pub(crate) options: &'static [NumberOption],
}

const WIDTH: NumberOption = NumberOption {
    name: "width",
    least: 16,
    greatest: 1024,
};

const HEIGHT: NumberOption = NumberOption {
    name: "height",
    least: 16,
    greatest: 768,
};

const BUDGET: NumberOption = NumberOption {
    name: "budget",
    least: 1,
    greatest: 786_432,
};

const SPARE: NumberOption = NumberOption {
    name: "spare",
    least: 1,
    greatest: 786_432,
};

const NUMBER: NumberOption = NumberOption {
    name: "number",
    least: 0,
    greatest: 1_000_000,
};

const ROUNDS: NumberOption = NumberOption {
    name: "rounds",
    least: 0,
    greatest: 2000,
};

const PORT: NumberOption = NumberOption {
    name: "port",
    least: 1024,
    greatest: 65_535,
};

const SESSIONS: NumberOption = NumberOption {
    name: "sessions",
    least: 1,
    greatest: 64,
};

const WORKERS: NumberOption = NumberOption {
    name: "workers",
    least: 1,
    greatest: 16,
};

static NO_OPTIONS: [NumberOption; 0] = [];

static SHAPE_OPTIONS: [NumberOption; 4] = [WIDTH, HEIGHT, BUDGET, SPARE];

static GEN_OPTIONS: [NumberOption; 2] = [NUMBER, ROUNDS];

static SERVE_OPTIONS: [NumberOption; 6] = [PORT, SESSIONS, WIDTH, HEIGHT, BUDGET, SPARE];

static RENDER_OPTIONS: [NumberOption; 5] = [WORKERS, WIDTH, HEIGHT, BUDGET, SPARE];

/// A row of the table.
fn row(name: &'static str, options: &'static [NumberOption]) -> CommandRow
    ensures name { result.name.now ≡ name.entry.now }
    ensures options { result.options.now ≡ options.entry.now }
{
    CommandRow { name, options }
}

/// The commands of the program.
pub(crate) fn commands() -> [CommandRow; 8]
    ensures { map verb_of result ≡ dope_verbs }
{
    [
        row("play", SHAPE_OPTIONS.as_slice()),
        row("gen", GEN_OPTIONS.as_slice()),
        row("serve", SERVE_OPTIONS.as_slice()),
        row("stream", SHAPE_OPTIONS.as_slice()),
        row("view", NO_OPTIONS.as_slice()),
        row("record", SHAPE_OPTIONS.as_slice()),
        row("check", NO_OPTIONS.as_slice()),
        row("render", RENDER_OPTIONS.as_slice()),
    ]
}
