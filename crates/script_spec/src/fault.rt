//! Why a text is no script, and what the lines of a script are.

/// Why a line is no line of a script. On one line the first of these that applies is its fault.
#[derive(Clone, Copy, Debug, PartialEq, Eq, PartialOrd, Ord)]
pub enum Kind {
    /// The text has more than 1,048,576 bytes. The fault is of line 0.
    Large,
    /// The first line that isn't skipped isn't `cygscript 1`, or there is none.
    NoHeader,
    /// The last line has no LF.
    Unfinished,
    /// A byte isn't one of 20 to 7e.
    NotAscii,
    /// The line has more than 200 bytes.
    TooLong,
    /// Another line is needed before this line, or before the end.
    Missing,
    /// The first word isn't one that may stand here.
    Unknown,
    /// Another number of words, or a fixed word, a register, a key byte or a space that isn't as it must be.
    Words,
    /// A number's word isn't its canonical form.
    BadNumber,
    /// A number is outside its range.
    Range,
    /// A name isn't of a name's form.
    BadName,
    /// The name stood before.
    Twice,
    /// One line more than a limit.
    TooMany,
    /// An instruction names a place past the program's end.
    Target,
}

/// The sorts of a script's lines, in the order in which they stand.
#[derive(Clone, Copy, Debug, PartialEq, Eq)]
pub enum Sort {
    /// `cygscript 1`.
    Header,
    /// `slots N`.
    Slots,
    /// `rows N`.
    Rows,
    /// `budget N`.
    Budget,
    /// `module NAME BASE SIZE`.
    Module,
    /// `occupy CREATION PAGE`.
    Occupy,
    /// `program NAME heap N stack N`.
    Program,
    /// An instruction.
    Instruction,
    /// `schedule`.
    Schedule,
    /// `turn S T`, `end S`, `key BB`, `steps N` or `settle`.
    Directive,
}

/// The first words of instructions.
#[derive(Clone, Copy, Debug, PartialEq, Eq)]
pub enum InstrWord {
    /// `set`
    Set,
    /// `add`
    Add,
    /// `load`
    Load,
    /// `store`
    Store,
    /// `push`
    Push,
    /// `pop`
    Pop,
    /// `jump`
    Jump,
    /// `jzero`
    JumpZero,
    /// `jneg`
    JumpNegative,
    /// `getpid`
    GetPid,
    /// `getppid`
    GetPpid,
    /// `getpgid`
    GetPgid,
    /// `getsid`
    GetSid,
    /// `fork`
    Fork,
    /// `exec`
    Exec,
    /// `exit`
    Exit,
    /// `wait`
    Wait,
    /// `kill`
    Kill,
    /// `action`
    Action,
    /// `mask`
    Mask,
    /// `suspend`
    Suspend,
    /// `pause`
    Pause,
    /// `return`
    Return,
    /// `setpgid`
    SetPgid,
    /// `setsid`
    SetSid,
    /// `tcset`
    TcSet,
    /// `tcget`
    TcGet,
    /// `ttyflags`
    TtyFlags,
    /// `read`
    Read,
    /// `write`
    Write,
}

/// The first words of a schedule's lines.
#[derive(Clone, Copy, Debug, PartialEq, Eq)]
pub enum DirectiveWord {
    /// `turn`
    Turn,
    /// `end`
    End,
    /// `key`
    Key,
    /// `steps`
    Steps,
    /// `settle`
    Settle,
}

/// The first words of a script's lines.
#[derive(Clone, Copy, Debug, PartialEq, Eq)]
pub enum FirstWord {
    /// `cygscript`
    CygScript,
    /// `slots`
    Slots,
    /// `rows`
    Rows,
    /// `budget`
    Budget,
    /// `module`
    Module,
    /// `occupy`
    Occupy,
    /// `program`
    Program,
    /// The word of an instruction.
    Instr(InstrWord),
    /// `schedule`
    Schedule,
    /// The word of a schedule's line.
    Directive(DirectiveWord),
}
