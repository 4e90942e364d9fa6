//! The numbers that name things of the modelled Win32 and of the layer over it.
//!
//! A contract sees each of them as a bare number. Its type keeps its range.

ghost use Rattle.std.specs.Prelude.{◌≡◌, ◌+◌, ◌-◌, ◌*◌, ◌/◌, ◌%◌, ◌<◌, ◌≤◌, ◌↔◌, ◌^◌, ◌≤ℤ◌, pos, negsuc, IsTrue};
ghost use Rattle.std.specs.Prelude.{IsSome, IfSome};

use std::marker::Model;

/// The Win32 number of a process. The host has 1, the first layer process 2, and each process that is
/// created takes the next number, so that no number names two processes of a run.
#[derive(Clone, Copy, Debug, PartialEq, Eq, PartialOrd, Ord)]
pub struct WinNo(u32);

impl Model for WinNo {
    ghost use Rattle.std.specs.Prelude.{ℕ, ◌<◌, ◌^◌};

    ghost Value = { ℕ };

    ghost view = { λ n. n.0 };

    ghost invariant = { λ n. n.0 < 2 ^ 32 };

    ghost inverse = { λ n. record { 0 = n } };
}

impl WinNo {
    /// What has this number.
    pub fn new(number: u32) -> WinNo
        ensures { result ≡ number }
    {
        WinNo(number)
    }

    /// The number.
    pub fn get(self) -> u32
        ensures value { result ≡ self }
        ensures range { self < 2 ^ 32 }
    {
        self.0
    }
}

/// A place where a process may live, from 0 to 64. The host lives in slot 0, layer processes from 1 up.
#[derive(Clone, Copy, Debug, PartialEq, Eq, PartialOrd, Ord)]
pub struct Slot(u8);

impl Model for Slot {
    ghost use Rattle.std.specs.Prelude.{ℕ, ◌≤◌};

    ghost Value = { ℕ };

    ghost view = { λ n. n.0 };

    ghost invariant = { λ n. n.0 ≤ 64 };

    ghost inverse = { λ n. record { 0 = n } };
}

impl Slot {
    /// What has this number.
    pub fn new(number: u8) -> Slot
        requires { number ≤ 64 }
        ensures { result ≡ number }
    {
        Slot(number)
    }

    /// What has this number, or none where it is out of range.
    pub fn try_new(number: u8) -> Option<Slot>
        ensures valid { IsSome result ↔ (number ≤ 64) }
        ensures value { IfSome result (λ n. n ≡ number) }
    {
        if number <= 64 {
            Some(Slot(number))
        } else {
            None
        }
    }

    /// The number.
    pub fn get(self) -> u8
        ensures value { result ≡ self }
        ensures range { self ≤ 64 }
    {
        self.0
    }
}

/// A thread of a process, from 0 to 2. A layer process has its main thread at 0, its signal thread at 1 and
/// its child watcher at 2. The host has the console at 0 and the starter at 1.
#[derive(Clone, Copy, Debug, PartialEq, Eq, PartialOrd, Ord)]
pub struct ThreadNo(u8);

impl Model for ThreadNo {
    ghost use Rattle.std.specs.Prelude.{ℕ, ◌≤◌};

    ghost Value = { ℕ };

    ghost view = { λ n. n.0 };

    ghost invariant = { λ n. n.0 ≤ 2 };

    ghost inverse = { λ n. record { 0 = n } };
}

impl ThreadNo {
    /// What has this number.
    pub fn new(number: u8) -> ThreadNo
        requires { number ≤ 2 }
        ensures { result ≡ number }
    {
        ThreadNo(number)
    }

    /// What has this number, or none where it is out of range.
    pub fn try_new(number: u8) -> Option<ThreadNo>
        ensures valid { IsSome result ↔ (number ≤ 2) }
        ensures value { IfSome result (λ n. n ≡ number) }
    {
        if number <= 2 {
            Some(ThreadNo(number))
        } else {
            None
        }
    }

    /// The number.
    pub fn get(self) -> u8
        ensures value { result ≡ self }
        ensures range { self ≤ 2 }
    {
        self.0
    }
}

/// A handle of a process, from 1 to 64.
#[derive(Clone, Copy, Debug, PartialEq, Eq, PartialOrd, Ord)]
pub struct HandleNo(u8);

impl Model for HandleNo {
    ghost use Rattle.std.specs.Prelude.{ℕ, ◌≤◌};

    ghost Value = { ℕ };

    ghost view = { λ n. n.0 };

    ghost invariant = { λ n. (1 ≤ n.0) × (n.0 ≤ 64) };

    ghost inverse = { λ n. record { 0 = n } };
}

impl HandleNo {
    /// What has this number.
    pub fn new(number: u8) -> HandleNo
        requires low { 1 ≤ number }
        requires high { number ≤ 64 }
        ensures { result ≡ number }
    {
        HandleNo(number)
    }

    /// What has this number, or none where it is out of range.
    pub fn try_new(number: u8) -> Option<HandleNo>
        ensures valid { IsSome result ↔ ((1 ≤ number) × (number ≤ 64)) }
        ensures value { IfSome result (λ n. n ≡ number) }
    {
        if 1 <= number && number <= 64 {
            Some(HandleNo(number))
        } else {
            None
        }
    }

    /// The number.
    pub fn get(self) -> u8
        ensures value { result ≡ self }
        ensures range { (1 ≤ self) × (self ≤ 64) }
    {
        self.0
    }
}

/// A row of the shared section, from 1 to 4000.
#[derive(Clone, Copy, Debug, PartialEq, Eq, PartialOrd, Ord)]
pub struct RowNo(u16);

impl Model for RowNo {
    ghost use Rattle.std.specs.Prelude.{ℕ, ◌≤◌};

    ghost Value = { ℕ };

    ghost view = { λ n. n.0 };

    ghost invariant = { λ n. (1 ≤ n.0) × (n.0 ≤ 4000) };

    ghost inverse = { λ n. record { 0 = n } };
}

impl RowNo {
    /// What has this number.
    pub fn new(number: u16) -> RowNo
        requires low { 1 ≤ number }
        requires high { number ≤ 4000 }
        ensures { result ≡ number }
    {
        RowNo(number)
    }

    /// What has this number, or none where it is out of range.
    pub fn try_new(number: u16) -> Option<RowNo>
        ensures valid { IsSome result ↔ ((1 ≤ number) × (number ≤ 4000)) }
        ensures value { IfSome result (λ n. n ≡ number) }
    {
        if 1 <= number && number <= 4000 {
            Some(RowNo(number))
        } else {
            None
        }
    }

    /// The number.
    pub fn get(self) -> u16
        ensures value { result ≡ self }
        ensures range { (1 ≤ self) × (self ≤ 4000) }
    {
        self.0
    }

    /// The process number that belongs to this row, which is one more.
    pub fn pid(self) -> Pid
        ensures { result ≡ self + 1 }
    {
        Pid(self.0 + 1)
    }
}

/// The number of a POSIX process, a process group or a session, from 2 to 4001. A process has the number of
/// its row plus 1, and no number is used again in a run.
#[derive(Clone, Copy, Debug, PartialEq, Eq, PartialOrd, Ord)]
pub struct Pid(u16);

impl Model for Pid {
    ghost use Rattle.std.specs.Prelude.{ℕ, ◌≤◌};

    ghost Value = { ℕ };

    ghost view = { λ n. n.0 };

    ghost invariant = { λ n. (2 ≤ n.0) × (n.0 ≤ 4001) };

    ghost inverse = { λ n. record { 0 = n } };
}

impl Pid {
    /// What has this number.
    pub fn new(number: u16) -> Pid
        requires low { 2 ≤ number }
        requires high { number ≤ 4001 }
        ensures { result ≡ number }
    {
        Pid(number)
    }

    /// What has this number, or none where it is out of range.
    pub fn try_new(number: u16) -> Option<Pid>
        ensures valid { IsSome result ↔ ((2 ≤ number) × (number ≤ 4001)) }
        ensures value { IfSome result (λ n. n ≡ number) }
    {
        if 2 <= number && number <= 4001 {
            Some(Pid(number))
        } else {
            None
        }
    }

    /// The number.
    pub fn get(self) -> u16
        ensures value { result ≡ self }
        ensures range { (2 ≤ self) × (self ≤ 4001) }
    {
        self.0
    }

    /// The row that belongs to this process number, which is one less.
    pub fn row(self) -> RowNo
        ensures { result + 1 ≡ self }
    {
        RowNo(self.0 - 1)
    }
}

/// The first number of an event: the process that acts, from 2 to 4001, or 0 for the host.
#[derive(Clone, Copy, Debug, PartialEq, Eq, PartialOrd, Ord)]
pub struct Acting(u16);

impl Model for Acting {
    ghost use Rattle.std.specs.Prelude.{ℕ, ◌≤◌, ◌≢◌};

    ghost Value = { ℕ };

    ghost view = { λ n. n.0 };

    ghost invariant = { λ n. (n.0 ≢ 1) × (n.0 ≤ 4001) };

    ghost inverse = { λ n. record { 0 = n } };
}

impl Acting {
    ghost use Rattle.std.specs.Prelude.{◌≢◌};

    /// The host.
    pub fn host() -> Acting
        ensures { result ≡ 0 }
    {
        Acting(0)
    }

    /// A process.
    pub fn process(pid: Pid) -> Acting
        ensures { result ≡ pid }
    {
        Acting(pid.get())
    }

    /// The number, or none where it is out of range.
    pub fn try_new(number: u16) -> Option<Acting>
        ensures valid { IsSome result ↔ ((number ≢ 1) × (number ≤ 4001)) }
        ensures value { IfSome result (λ n. n ≡ number) }
    {
        if number != 1 && number <= 4001 {
            Some(Acting(number))
        } else {
            None
        }
    }

    /// The number.
    pub fn get(self) -> u16
        ensures value { result ≡ self }
        ensures range { (self ≢ 1) × (self ≤ 4001) }
    {
        self.0
    }
}

/// A number of an event after its first, from -2147483648 to 4294967295. An event says numbers as they were
/// given, so a target may be negative and a group may be above every process number.
#[derive(Clone, Copy, Debug, PartialEq, Eq, PartialOrd, Ord)]
pub struct Number(i64);

impl Model for Number {
    ghost use Rattle.std.specs.Prelude.{ℤ, ◌≤ℤ◌, pos, negsuc};

    ghost Value = { ℤ };

    ghost view = { λ n. n.0 };

    ghost invariant = { λ n. (negsuc 2147483647 ≤ℤ n.0) × (n.0 ≤ℤ pos 4294967295) };

    ghost inverse = { λ n. record { 0 = n } };
}

impl Number {
    /// A number without sign.
    pub fn unsigned(number: u32) -> Number
        ensures { result ≡ pos number }
    {
        Number(i64::from(number))
    }

    /// A number with sign.
    pub fn signed(number: i32) -> Number
        ensures { result ≡ number }
    {
        Number(i64::from(number))
    }

    /// The number, or none where it is out of range.
    pub fn try_new(number: i64) -> Option<Number>
        ensures valid { IsSome result ↔ ((negsuc 2147483647 ≤ℤ number) × (number ≤ℤ pos 4294967295)) }
        ensures value { IfSome result (λ n. n ≡ number) }
    {
        if number >= -2_147_483_648 && number <= 4_294_967_295 {
            Some(Number(number))
        } else {
            None
        }
    }

    /// The number.
    pub fn get(self) -> i64
        ensures value { result ≡ self }
        ensures range { (negsuc 2147483647 ≤ℤ self) × (self ≤ℤ pos 4294967295) }
    {
        self.0
    }
}

/// The number of an object. Its lowest bit tells, in a handle on a pipe, the end (0 read, 1 write), and in a
/// handle on the terminal the face (0 `keys`, 1 `lines`). It is 0 in every other handle.
#[derive(Clone, Copy, Debug, PartialEq, Eq, PartialOrd, Ord)]
pub struct ObjectNo(u32);

impl Model for ObjectNo {
    ghost use Rattle.std.specs.Prelude.{ℕ, ◌<◌, ◌^◌};

    ghost Value = { ℕ };

    ghost view = { λ n. n.0 };

    ghost invariant = { λ n. n.0 < 2 ^ 32 };

    ghost inverse = { λ n. record { 0 = n } };
}

impl ObjectNo {
    /// The object with this number.
    pub fn new(number: u32) -> ObjectNo
        ensures { result ≡ number }
    {
        ObjectNo(number)
    }

    /// The number, with its lowest bit.
    pub fn get(self) -> u32
        ensures value { result ≡ self }
        ensures range { self < 2 ^ 32 }
    {
        self.0
    }
}
