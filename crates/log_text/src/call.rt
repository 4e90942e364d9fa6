//! The texts of Win32 calls.

ghost use Rattle.std.specs.Prelude.{◌≡◌, ◌+◌, ◌≤◌, [], ◌∷◌, ◌++◌, length, IsTrue};
ghost use Rattle.std.specs.Fmt.{decimal};
ghost use Rattle.log_spec.specs.EventsText.{is_one_line};
ghost use Rattle.log_spec.specs.Texts.{spaced};
ghost use Rattle.log_spec.specs.Calls.{region_text, operation_words, copy_words, call_text};

use crate::line::Line;
use crate::words::{add_flag, add_list, add_natural, add_word};
use w32_base::call::{Call, Region, TtyOp};
use w32_base::lists::HandleList;
use w32_base::numbers::HandleNo;

/// A word and a number.
pub fn one(line: &mut Line, word: &[u8], a: u64)
    requires room { length line.old ≤ 500 }
    requires short { length word.now ≤ 10 }
    requires one_line { IsTrue (is_one_line word.now) }
    ensures text { line.new ≡ line.old ++ spaced (word.now ∷ decimal a ∷ []) }
    ensures size { length line.new ≤ length line.old + 31 }
{
    line.push_text(word);
    add_natural(line, a);
}

/// A word and two numbers.
pub fn two(line: &mut Line, word: &[u8], a: u64, b: u64)
    requires room { length line.old ≤ 500 }
    requires short { length word.now ≤ 10 }
    requires one_line { IsTrue (is_one_line word.now) }
    ensures text { line.new ≡ line.old ++ spaced (word.now ∷ decimal a ∷ decimal b ∷ []) }
    ensures size { length line.new ≤ length line.old + 52 }
{
    one(line, word, a);
    add_natural(line, b);
}

/// A word and three numbers.
pub fn three(line: &mut Line, word: &[u8], a: u64, b: u64, c: u64)
    requires room { length line.old ≤ 500 }
    requires short { length word.now ≤ 10 }
    requires one_line { IsTrue (is_one_line word.now) }
    ensures text { line.new ≡ line.old ++ spaced (word.now ∷ decimal a ∷ decimal b ∷ decimal c ∷ []) }
    ensures size { length line.new ≤ length line.old + 73 }
{
    two(line, word, a, b);
    add_natural(line, c);
}

// The word of a region.
fn region_word(region: Region) -> &'static [u8]
    ensures text { result.now ≡ region_text region }
    ensures size { length result.now ≤ 7 }
    ensures one_line { IsTrue (is_one_line result.now) }
{
    match region {
        Region::Dat => b"data",
        Region::Heap => b"heap",
        Region::Stack => b"stack",
        Region::Cyg => b"cyg",
        Region::Scratch => b"scratch",
    }
}

// A place of a region.
fn add_place(line: &mut Line, region: Region, place: u32)
    requires { length line.old ≤ 500 }
    ensures text { line.new ≡ line.old ++ 32 ∷ spaced (region_text region ∷ decimal place ∷ []) }
    ensures size { length line.new ≤ length line.old + 29 }
{
    add_word(line, region_word(region));
    add_natural(line, u64::from(place));
}

// A copy between a region of another process and an own one.
fn copy(
    line: &mut Line,
    word: &[u8],
    handle: HandleNo,
    other: (Region, u32),
    own: (Region, u32),
    len: u32,
)
    requires room { length line.old ≤ 400 }
    requires short { length word.now ≤ 10 }
    requires one_line { IsTrue (is_one_line word.now) }
    ensures text { line.new ≡ line.old ++ spaced (word.now ∷ copy_words handle other.0 other.1 own.0 own.1 len) }
    ensures size { length line.new ≤ length line.old + 110 }
{
    one(line, word, u64::from(handle.get()));
    add_place(line, other.0, other.1);
    add_place(line, own.0, own.1);
    add_natural(line, u64::from(len));
}

// What a `tty` call asks of the terminal.
fn operation(line: &mut Line, operation: &TtyOp)
    requires { length line.old ≤ 500 }
    ensures text { line.new ≡ line.old ++ spaced (operation_words operation.now) }
    ensures size { length line.new ≤ length line.old + 75 }
{
    match operation {
        TtyOp::Key => line.push_text(b"key"),
        TtyOp::Take(g, n, place) => three(
            line,
            b"take",
            u64::from(g.get()),
            u64::from(*n),
            u64::from(*place),
        ),
        TtyOp::Put(g, n, place, force) => {
            three(
                line,
                b"put",
                u64::from(g.get()),
                u64::from(*n),
                u64::from(*place),
            );
            add_flag(line, *force);
        }
        TtyOp::SetForeground(g, new, force) => {
            two(line, b"setfg", u64::from(g.get()), u64::from(new.get()));
            add_flag(line, *force);
        }
        TtyOp::Flags(g, n, force) => {
            two(line, b"flags", u64::from(g.get()), u64::from(*n));
            add_flag(line, *force);
        }
        TtyOp::State => line.push_text(b"state"),
    }
}

// `cas H I OLD NEW`.
fn exchange(line: &mut Line, handle: HandleNo, index: u32, old: u64, new: u64)
    requires { length line.old ≤ 400 }
    ensures text { line.new ≡ line.old ++ call_text (Call.CompareExchange handle index old new) }
    ensures size { length line.new ≤ length line.old + 200 }
{
    three(line, b"cas", u64::from(handle.get()), u64::from(index), old);
    add_natural(line, new);
}

// `create P LIST`.
fn creation(line: &mut Line, program: u32, handles: &HandleList)
    requires { length line.old ≤ 400 }
    ensures text { line.new ≡ line.old ++ call_text (Call.Create program handles.now) }
    ensures size { length line.new ≤ length line.old + 200 }
{
    one(line, b"create", u64::from(program));
    add_list(line, handles);
}

// `event MANUAL SET`.
fn event(line: &mut Line, manual: bool, set: bool)
    requires { length line.old ≤ 400 }
    ensures text { line.new ≡ line.old ++ call_text (Call.Event manual set) }
    ensures size { length line.new ≤ length line.old + 200 }
{
    line.push_text(b"event");
    add_flag(line, manual);
    add_flag(line, set);
}

// `mutex OWNED`.
fn mutex(line: &mut Line, owned: bool)
    requires { length line.old ≤ 400 }
    ensures text { line.new ≡ line.old ++ call_text (Call.Mutex owned) }
    ensures size { length line.new ≤ length line.old + 200 }
{
    line.push_text(b"mutex");
    add_flag(line, owned);
}

// `wait LIST`.
fn wait(line: &mut Line, handles: &HandleList)
    requires { length line.old ≤ 400 }
    ensures text { line.new ≡ line.old ++ call_text (Call.WaitAny handles.now) }
    ensures size { length line.new ≤ length line.old + 200 }
{
    line.push_text(b"wait");
    add_list(line, handles);
}

// `tty H OP`.
fn terminal(line: &mut Line, handle: HandleNo, asked: &TtyOp)
    requires { length line.old ≤ 400 }
    ensures text { line.new ≡ line.old ++ call_text (Call.Tty handle asked.now) }
    ensures size { length line.new ≤ length line.old + 200 }
{
    one(line, b"tty", u64::from(handle.get()));
    line.push_text(b" ");
    operation(line, asked);
}

/// Adds the text of a call.
pub fn push_call(line: &mut Line, call: &Call)
    requires { length line.old ≤ 400 }
    ensures text { line.new ≡ line.old ++ call_text call.now }
    ensures size { length line.new ≤ length line.old + 200 }
{
    match call {
        Call::Run => line.push_text(b"run"),
        Call::Load(h, i) => two(line, b"load", u64::from(h.get()), u64::from(*i)),
        Call::CompareExchange(h, i, old, new) => exchange(line, *h, *i, *old, *new),
        Call::FetchAdd(h, i, n) => three(line, b"add", u64::from(h.get()), u64::from(*i), *n),
        Call::Create(program, handles) => creation(line, *program, handles),
        Call::Resume(h, t) => two(line, b"resume", u64::from(h.get()), u64::from(*t)),
        Call::Suspend(h, t) => two(line, b"suspend", u64::from(h.get()), u64::from(*t)),
        Call::Open(w) => one(line, b"open", u64::from(w.get())),
        Call::ExitCode(h) => one(line, b"exitcode", u64::from(h.get())),
        Call::Terminate(h, n) => two(line, b"terminate", u64::from(h.get()), u64::from(*n)),
        Call::ExitSelf(n) => one(line, b"exitself", u64::from(*n)),
        Call::ReadMemory(h, region, place, own, own_place, len) => {
            copy(
                line,
                b"readmem",
                *h,
                (*region, *place),
                (*own, *own_place),
                *len,
            )
        }
        Call::WriteMemory(h, region, place, own, own_place, len) => {
            copy(
                line,
                b"writemem",
                *h,
                (*region, *place),
                (*own, *own_place),
                *len,
            )
        }
        Call::Module(m) => one(line, b"module", u64::from(*m)),
        Call::Event(manual, set) => event(line, *manual, *set),
        Call::Set(h) => one(line, b"set", u64::from(h.get())),
        Call::Reset(h) => one(line, b"reset", u64::from(h.get())),
        Call::Mutex(owned) => mutex(line, *owned),
        Call::Release(h) => one(line, b"release", u64::from(h.get())),
        Call::Pipe => line.push_text(b"pipe"),
        Call::Put(h, b) => two(line, b"put", u64::from(h.get()), u64::from(*b)),
        Call::Get(h) => one(line, b"get", u64::from(h.get())),
        Call::Dup(h, n) => two(line, b"dup", u64::from(h.get()), u64::from(n.get())),
        Call::Close(h) => one(line, b"close", u64::from(h.get())),
        Call::WaitAny(handles) => wait(line, handles),
        Call::Tty(h, asked) => terminal(line, *h, asked),
    }
}
