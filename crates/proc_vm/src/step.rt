//! One local instruction. Each function here carries out one where it doesn't fault, and answers whether it did.

ghost use Rattle.std.specs.Prelude.{◌≡◌, ℕ, ◌+◌, ◌+ℤ◌, ◌<◌, ◌≤◌, ◌&&◌, ◌↔◌, length, pos, not, if◌then◌else◌, IsTrue};
ghost use Rattle.std.specs.Prelude.{MatchOption, true};
ghost use Rattle.std.specs.Int.{w32, int_wrap};
ghost use Rattle.vm_spec.specs.Faults.{instr_faults, is_outside};
ghost use Rattle.vm_spec.specs.Image.{image_of, with_image, place_of, in_use, value_of, SameSizes};
ghost use Rattle.vm_spec.specs.Step.{upcoming, LocalInstruction, is_local, after_local, local_step};

use crate::readers::{next_place, operand_value, register, stack_in_use};
use crate::words::{set_word, word};
use crate::writers::{go_to, move_on, set_in_use, set_register};
use w32_base::{Instr, Operand, Own, Program, Register};

/// The place of the heap that an operand names, or none where it is outside.
pub fn heap_place(own: &Own, address: Operand) -> Option<usize>
    requires { length own.now.dat ≡ 64 }
    ensures { MatchOption result
        (is_outside (length own.now.heap) (value_of (image_of own.now) address) ≡ true)
        (λ n. (value_of (image_of own.now) address ≡ pos n) × (n < length own.now.heap)) }
{
    let place = operand_value(own, address);
    if place >= 0 && (place as usize) < own.heap.len() {
        Some(place as usize)
    } else {
        None
    }
}

/// `set R V`.
fn set(own: &mut Own, r: Register, v: Operand)
    requires size { length own.old.dat ≡ 64 }
    requires place { place_of (image_of own.old) < 4294967295 }
    ensures value { own.new ≡ with_image own.old (after_local (Instr.Set r v) (image_of own.old)) }
    ensures len { length own.new.dat ≡ 64 }
    ensures sizes { SameSizes (image_of own.old) (image_of own.new) }
{
    let number = operand_value(own, v);
    move_on(own);
    set_register(own, r, number);
}

/// The sum, wrapped to 32 bits.
fn wrapped_sum(a: i32, b: i32) -> i32
    ensures { result ≡ int_wrap w32 (a +ℤ b) }
{
    a.wrapping_add(b)
}

/// `add R V`.
fn add(own: &mut Own, r: Register, v: Operand)
    requires size { length own.old.dat ≡ 64 }
    requires place { place_of (image_of own.old) < 4294967295 }
    ensures value { own.new ≡ with_image own.old (after_local (Instr.Add r v) (image_of own.old)) }
    ensures len { length own.new.dat ≡ 64 }
    ensures sizes { SameSizes (image_of own.old) (image_of own.new) }
{
    let number = wrapped_sum(register(own, r), operand_value(own, v));
    move_on(own);
    set_register(own, r, number);
}

/// `load R V`.
fn load(own: &mut Own, r: Register, address: Operand) -> bool
    requires size { length own.old.dat ≡ 64 }
    requires place { place_of (image_of own.old) < 4294967295 }
    ensures done { result ≡ not (instr_faults (Instr.Load r address) (image_of own.old)) }
    ensures value { own.new
        ≡ (if result then with_image own.old (after_local (Instr.Load r address) (image_of own.old)) else own.old) }
    ensures len { length own.new.dat ≡ 64 }
    ensures sizes { SameSizes (image_of own.old) (image_of own.new) }
{
    match heap_place(own, address) {
        Some(place) => {
            let byte = own.heap.as_slice()[place];
            move_on(own);
            set_register(own, r, i32::from(byte));
            true
        }
        None => false,
    }
}

/// `store V V`.
fn store(own: &mut Own, address: Operand, v: Operand) -> bool
    requires size { length own.old.dat ≡ 64 }
    requires place { place_of (image_of own.old) < 4294967295 }
    ensures done { result ≡ not (instr_faults (Instr.Store address v) (image_of own.old)) }
    ensures value { own.new
        ≡ (if result then with_image own.old (after_local (Instr.Store address v) (image_of own.old)) else own.old) }
    ensures len { length own.new.dat ≡ 64 }
    ensures sizes { SameSizes (image_of own.old) (image_of own.new) }
{
    match heap_place(own, address) {
        Some(place) => {
            let byte = operand_value(own, v).to_le_bytes()[0];
            move_on(own);
            own.heap.set(place, byte);
            true
        }
        None => false,
    }
}

/// `push V`.
fn push(own: &mut Own, v: Operand) -> bool
    requires size { length own.old.dat ≡ 64 }
    requires place { place_of (image_of own.old) < 4294967295 }
    ensures done { result ≡ not (instr_faults (Instr.Push v) (image_of own.old)) }
    ensures value { own.new
        ≡ (if result then with_image own.old (after_local (Instr.Push v) (image_of own.old)) else own.old) }
    ensures len { length own.new.dat ≡ 64 }
    ensures sizes { SameSizes (image_of own.old) (image_of own.new) }
{
    let used = stack_in_use(own);
    if used as usize + 4 > own.stack.len() {
        return false;
    }
    let number = operand_value(own, v);
    move_on(own);
    set_word(&mut own.stack, used as usize, number.cast_unsigned());
    set_in_use(own, used as usize + 4);
    true
}

/// `pop R`.
fn pop(own: &mut Own, r: Register) -> bool
    requires size { length own.old.dat ≡ 64 }
    requires used { in_use (image_of own.old) ≤ length own.old.stack }
    requires place { place_of (image_of own.old) < 4294967295 }
    ensures done { result ≡ not (instr_faults (Instr.Pop r) (image_of own.old)) }
    ensures value { own.new
        ≡ (if result then with_image own.old (after_local (Instr.Pop r) (image_of own.old)) else own.old) }
    ensures len { length own.new.dat ≡ 64 }
    ensures sizes { SameSizes (image_of own.old) (image_of own.new) }
{
    let used = stack_in_use(own);
    if used < 4 {
        return false;
    }
    let number = word(&own.stack, used as usize - 4).cast_signed();
    move_on(own);
    set_in_use(own, used as usize - 4);
    set_register(own, r, number);
    true
}

/// `jzero V N`.
fn jump_zero(own: &mut Own, v: Operand, place: u16)
    requires size { length own.old.dat ≡ 64 }
    requires place { place_of (image_of own.old) < 4294967295 }
    ensures value { own.new ≡ with_image own.old (after_local (Instr.JumpZero v place) (image_of own.old)) }
    ensures len { length own.new.dat ≡ 64 }
    ensures sizes { SameSizes (image_of own.old) (image_of own.new) }
{
    if operand_value(own, v) == 0 {
        go_to(own, u32::from(place));
    } else {
        move_on(own);
    }
}

/// `jneg V N`.
fn jump_negative(own: &mut Own, v: Operand, place: u16)
    requires size { length own.old.dat ≡ 64 }
    requires place { place_of (image_of own.old) < 4294967295 }
    ensures value { own.new ≡ with_image own.old (after_local (Instr.JumpNegative v place) (image_of own.old)) }
    ensures len { length own.new.dat ≡ 64 }
    ensures sizes { SameSizes (image_of own.old) (image_of own.new) }
{
    if operand_value(own, v) < 0 {
        go_to(own, u32::from(place));
    } else {
        move_on(own);
    }
}

/// Carries out this instruction where it is a local one.
fn carry_out(own: &mut Own, instr: &Instr) -> bool
    requires size { length own.old.dat ≡ 64 }
    requires used { in_use (image_of own.old) ≤ length own.old.stack }
    requires place { place_of (image_of own.old) < 4294967295 }
    ensures done { result ≡ (is_local instr.now && not (instr_faults instr.now (image_of own.old))) }
    ensures value { own.new
        ≡ (if result then with_image own.old (after_local instr.now (image_of own.old)) else own.old) }
    ensures len { length own.new.dat ≡ 64 }
    ensures sizes { SameSizes (image_of own.old) (image_of own.new) }
{
    match *instr {
        Instr::Set(r, v) => set(own, r, v),
        Instr::Add(r, v) => add(own, r, v),
        Instr::Load(r, address) => return load(own, r, address),
        Instr::Store(address, v) => return store(own, address, v),
        Instr::Push(v) => return push(own, v),
        Instr::Pop(r) => return pop(own, r),
        Instr::Jump(place) => go_to(own, u32::from(place)),
        Instr::JumpZero(v, place) => jump_zero(own, v, place),
        Instr::JumpNegative(v, place) => jump_negative(own, v, place),
        _ => return false,
    }
    true
}

/// Carries out the next instruction where it is a local one.
#[tactic(auto, unfolding(vm_spec::specs::Step::upcoming, vm_spec::specs::Step::local_step))]
pub fn step(own: &mut Own, p: &Program) -> bool
    requires { length own.old.dat ≡ 64 }
    ensures done { IsTrue result ↔ (upcoming p.now.code (image_of own.old) ≡ LocalInstruction) }
    ensures value { own.new
        ≡ (if result then with_image own.old (local_step p.now.code (image_of own.old)) else own.old) }
    ensures len { length own.new.dat ≡ 64 }
    ensures sizes { SameSizes (image_of own.old) (image_of own.new) }
{
    if stack_in_use(own) as usize > own.stack.len() {
        return false;
    }
    match p.code.get(next_place(own) as usize) {
        Some(instr) => carry_out(own, &instr),
        None => false,
    }
}
