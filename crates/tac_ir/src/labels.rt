//! Labels, turns and the end of some code.
ghost use Rattle.std.specs.Prelude.{◌≡◌, false};
ghost use Rattle.cheri_c_sem.specs.Compatible.{same_bool};
ghost use Rattle.tac_ir.specs.Meaning.{is_label};
ghost use Rattle.tac_ir.specs.WellFormed.{has_label, label_is_new, labels_differ, ends_there, ends_well, is_turn};
ghost use Rattle.tac_ir.specs.WellFormed.{turn_fits, turns_fit};

use crate::code::TacInstr;
use crate::slices::first_and_rest;

/// Whether this is the label of that number.
fn is_label(i: &TacInstr, label: u32) -> bool
    ensures { result ≡ is_label i.now label }
{
    match i {
        TacInstr::Label(l) => *l == label,
        _ => false,
    }
}

/// Whether two truth values are equal.
fn same(a: bool, b: bool) -> bool
    ensures { result ≡ same_bool a b }
{
    if a { b } else { !b }
}

/// Whether a label stands in some code.
pub fn has_label(code: &[TacInstr], label: u32) -> bool
    ensures { result ≡ has_label code.now label }
{
    let mut left = code;
    while let Some((i, rest)) = first_and_rest(left) {
        if is_label(i, label) {
            return true;
        }
        left = rest;
    }
    false
}

fn label_is_new(i: &TacInstr, later: &[TacInstr]) -> bool
    ensures { result ≡ label_is_new i.now later.now }
{
    match i {
        TacInstr::Label(l) => !has_label(later, *l),
        _ => true,
    }
}

/// Whether each label stands once.
pub fn labels_differ(code: &[TacInstr]) -> bool
    ensures { result ≡ labels_differ code.now }
{
    let mut left = code;
    while let Some((i, rest)) = first_and_rest(left) {
        if !label_is_new(i, rest) {
            return false;
        }
        left = rest;
    }
    true
}

fn ends_there(i: &TacInstr) -> bool
    ensures { result ≡ ends_there i.now }
{
    matches!(i, TacInstr::Return(_) | TacInstr::Jump(_))
}

/// Whether the last instruction is a Return or a Jump.
pub fn ends_well(code: &[TacInstr]) -> bool
    ensures { result ≡ ends_well code.now }
{
    let mut left = code;
    let mut ends = false;
    while let Some((i, rest)) = first_and_rest(left) {
        ends = ends_there(i);
        left = rest;
    }
    ends
}

fn is_turn(i: &TacInstr) -> bool
    ensures { result ≡ is_turn i.now }
{
    matches!(i, TacInstr::Turn)
}

fn turn_fits(turned: bool, i: &TacInstr, later: &[TacInstr]) -> bool
    ensures { result ≡ turn_fits turned i.now later.now }
{
    match i {
        TacInstr::Jump(l) => same(turned, !has_label(later, *l)),
        TacInstr::Branch { label, .. } => same(turned, !has_label(later, *label)),
        _ => !turned,
    }
}

/// Whether a Turn stands directly before each jump or branch to a label that is not later, and nowhere else.
pub fn turns_fit(code: &[TacInstr]) -> bool
    ensures { result ≡ turns_fit false code.now }
{
    let mut left = code;
    let mut turned = false;
    while let Some((i, rest)) = first_and_rest(left) {
        if !turn_fits(turned, i, rest) {
            return false;
        }
        turned = is_turn(i);
        left = rest;
    }
    !turned
}
