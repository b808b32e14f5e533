//! The forms in which the pieces of a function are laid.
ghost use Rattle.std.specs.Prelude.{◌≡◌, ◌*◌, ◌<◌, ◌≤◌, ◌^◌, length, IfOk};
ghost use Rattle.rv_layout_rules.specs.Forms.{branch_words, jump_words, words_of_call, piece_words, branch_reaches, jal_reaches};
ghost use Rattle.rv_layout_rules.specs.Forms.{branch_form, jump_form, none_far, needed_form, form_rank, ranks, longer, grown_from};
ghost use Rattle.rv_layout_rules.specs.Forms.{AreForms};
ghost use Rattle.rv_layout.specs.Tables.{words_of_labels};

use crate::labels::{LabelOffsets, label_bound};
use rv_layout_rules::Form;
use rv_pieces::Piece;
use std::alloc::{AllocError, Global};

fn branch_words(form: Form) -> u64
    ensures exact { result ≡ branch_words form }
    ensures most { result ≤ 3 }
{
    match form {
        Form::Near => 1,
        Form::Middle => 2,
        Form::Far => 3,
    }
}

fn jump_words(form: Form) -> u64
    ensures exact { result ≡ jump_words form }
    ensures most { result ≤ 3 }
{
    match form {
        Form::Near => 1,
        Form::Middle => 2,
        Form::Far => 2,
    }
}

fn call_words(form: Form) -> u64
    ensures exact { result ≡ words_of_call form }
    ensures most { result ≤ 3 }
{
    match form {
        Form::Near => 2,
        Form::Middle => 3,
        Form::Far => 3,
    }
}

/// The words of a piece in a form.
pub fn words_of(piece: &Piece, form: Form) -> u64
    ensures exact { result ≡ piece_words piece.now form }
    ensures most { result ≤ 3 }
{
    match piece {
        Piece::Known(_) => 1,
        Piece::Label(_) => 0,
        Piece::Branch {
            condition: _,
            left: _,
            right: _,
            label: _,
        } => branch_words(form),
        Piece::Jump(_) => jump_words(form),
        Piece::Row(_) => 2,
        Piece::LabelAddress { to: _, label: _ } => 2,
        Piece::Call(_) => call_words(form),
        Piece::TailCall(_) => call_words(form),
        Piece::SymbolAddress { to: _, name: _ } => 2,
        Piece::ExternalNumber { to: _, row: _ } => 2,
        Piece::Descriptor(_) => 0,
    }
}

fn rank(form: Form) -> u64
    ensures exact { result ≡ form_rank form }
    ensures most { result ≤ 2 }
{
    match form {
        Form::Near => 0,
        Form::Middle => 1,
        Form::Far => 2,
    }
}

fn longer(first: Form, second: Form) -> Form
    ensures { result ≡ longer first second }
{
    if rank(first) < rank(second) {
        second
    } else {
        first
    }
}

/// Whether a branch at one word reaches another one: its offset has 13 bits.
fn branch_reaches(from: u64, to: u64) -> bool
    ensures { result ≡ branch_reaches from to }
{
    if from <= to {
        to - from < 1024
    } else {
        from - to <= 1024
    }
}

/// Whether a jal at one word reaches another one: its offset has 21 bits.
fn jal_reaches(from: u64, to: u64) -> bool
    ensures { result ≡ jal_reaches from to }
{
    if from <= to {
        to - from < 262_144
    } else {
        from - to <= 262_144
    }
}

fn branch_form(from: u64, to: u64) -> Form
    requires { from < 2 ^ 59 }
    ensures { result ≡ branch_form from to }
{
    if branch_reaches(from, to) {
        Form::Near
    } else if jal_reaches(from + 1, to) {
        Form::Middle
    } else {
        Form::Far
    }
}

fn jump_form(from: u64, to: u64) -> Form
    ensures { result ≡ jump_form from to }
{
    if jal_reaches(from, to) {
        Form::Near
    } else {
        Form::Far
    }
}

/// The shortest form in which a piece at this word reaches its label. In an image no callee is far.
fn needed(labels: &LabelOffsets, at: u64, piece: &Piece) -> Form
    requires { at < 2 ^ 59 }
    ensures { result ≡ needed_form none_far (words_of_labels labels.now) at piece.now }
{
    match piece {
        Piece::Branch {
            condition: _,
            left: _,
            right: _,
            label,
        } => { branch_form(at, labels.place(*label)) }
        Piece::Jump(label) => jump_form(at, labels.place(*label)),
        Piece::Known(_) => Form::Near,
        Piece::Label(_) => Form::Near,
        Piece::Row(_) => Form::Near,
        Piece::LabelAddress { to: _, label: _ } => Form::Near,
        Piece::Call(_) => Form::Near,
        Piece::TailCall(_) => Form::Near,
        Piece::SymbolAddress { to: _, name: _ } => Form::Near,
        Piece::ExternalNumber { to: _, row: _ } => Form::Near,
        Piece::Descriptor(_) => Form::Near,
    }
}

/// Forms, and the sum of their ranks.
#[derive(Drop)]
struct Grown {
    forms: Vec<Form>,
    ranks: u64,
}

/// Makes each form longer that does not reach its label.
fn grow(
    alloc: Global,
    code: &[Piece],
    forms: &[Form],
    labels: &LabelOffsets,
) -> Result<Grown, AllocError>
    requires few { length code.now < 2 ^ 48 }
    requires same { length forms.now ≡ length code.now }
    ensures grown { IfOk result (λ grown.
        grown.forms.items ≡ grown_from none_far (words_of_labels labels.now) 0 code.now forms.now) }
    ensures ranks { IfOk result (λ grown. grown.ranks ≡ ranks grown.forms.items) }
{
    let mut next = Vec::new(alloc);
    let mut sum: u64 = 0;
    let mut at: u64 = 0;
    for index in 0..code.len() {
        let piece = &code[index];
        let form = forms[index];
        let larger = longer(form, needed(labels, at, piece));
        sum += rank(larger);
        next.push(larger)?;
        at += words_of(piece, form);
    }
    Ok(Grown {
        forms: next,
        ranks: sum,
    })
}

/// The forms of a function's pieces in an image: the least in which each branch and jump reaches its
/// label. Each call is near. The only error is want of memory.
pub fn forms_of(alloc: Global, code: &[Piece]) -> Result<Vec<Form>, AllocError>
    requires { length code.now < 2 ^ 48 }
    ensures { IfOk result (λ forms. AreForms none_far code.now forms.items) }
{
    let bound = label_bound(code);
    let mut forms = vec![in alloc; Form::Near; code.len()]?;
    let mut ranks: u64 = 0;
    loop {
        let labels = LabelOffsets::of(alloc, code, forms.as_slice(), bound)?;
        let Grown {
            forms: next,
            ranks: sum,
        } = grow(alloc, code, forms.as_slice(), &labels)?;
        if sum <= ranks {
            return Ok(forms);
        }
        ranks = sum;
        forms = next;
    }
}
