//! Writing the outcome text piece by piece, with no memory taken.
ghost use Rattle.std.specs.Prelude.{◌≡◌, ◌≤◌, ◌<◌, ◌+◌, ◌++◌, codes, length, take};
ghost use Rattle.std.specs.Fmt.{decimal, signed_decimal};
ghost use Rattle.bs_words.specs.Word.{signed_of};
ghost use Rattle.bs_words.specs.Contents.{contents};
ghost use Rattle.image_form.specs.Tables.{ext};
ghost use Rattle.mover_runtime.specs.Written.{AppendsResult, Counts};
ghost use Rattle.rv_isa.specs.Registers.{a0};
ghost use Rattle.rv_machine.specs.Services.{arguments_from, call_made};
ghost use Rattle.rv_machine.specs.Text.{obs_text, shown_text, made_text, cause_text};

use bs_io::{OutFault, Sink, write_all};
use bs_words::{Comp, List, Name, Obs};
use image_form::ExtRow;
use itoa::Buffer;
use rv_isa::Register;
use rv_machine::{Cause, Machine};

// The first argument register; the others come after it.
const FIRST_ARGUMENT: u8 = Register::A0 as u8;

/// Writes bytes.
///
/// # Errors
///
/// `OutFault::Write` where a write failed or took nothing: the sink then has a part of the bytes, from their front
/// and not all of them.
pub fn put<K: Sink>(bytes: &[u8], out: &mut K) -> Result<(), OutFault>
    ensures text { AppendsResult result (K.held out.old) (K.held out.new) bytes.now }
    ensures counts { Counts result (K.faults out.old) (K.faults out.new) }
{
    write_all(out, bytes)
}

/// Writes an observation: a word as a signed decimal, or a block as `block` and its serial.
///
/// # Errors
///
/// `OutFault::Write` where a write failed or took nothing: the sink then has a part of that text, from its front and
/// not all of it.
pub fn write_obs<K: Sink>(obs: Obs, out: &mut K) -> Result<(), OutFault>
    ensures text { AppendsResult result (K.held out.old) (K.held out.new) (obs_text obs) }
    ensures counts { Counts result (K.faults out.old) (K.faults out.new) }
{
    match obs {
        Obs::Word(word) => write_word(word, out),
        Obs::Block(serial) => write_block(serial, out),
    }
}

fn write_word<K: Sink>(word: u64, out: &mut K) -> Result<(), OutFault>
    ensures text { AppendsResult result (K.held out.old) (K.held out.new)
        (signed_decimal (signed_of word)) }
    ensures counts { Counts result (K.faults out.old) (K.faults out.new) }
{
    let mut digits = Buffer::new();
    put(digits.format(bs_words::signed(word)).as_bytes(), out)
}

fn write_block<K: Sink>(serial: u64, out: &mut K) -> Result<(), OutFault>
    ensures text { AppendsResult result (K.held out.old) (K.held out.new)
        (codes "block " ++ decimal serial) }
    ensures counts { Counts result (K.faults out.old) (K.faults out.new) }
{
    put(b"block ", out)?;
    write_number(serial, out)
}

fn write_number<K: Sink>(number: u64, out: &mut K) -> Result<(), OutFault>
    ensures text { AppendsResult result (K.held out.old) (K.held out.new) (decimal number) }
    ensures counts { Counts result (K.faults out.old) (K.faults out.new) }
{
    let mut digits = Buffer::new();
    put(digits.format(number).as_bytes(), out)
}

// Writes a text and an observation.
fn put_obs<K: Sink>(text: &[u8], obs: Obs, out: &mut K) -> Result<(), OutFault>
    ensures text { AppendsResult result (K.held out.old) (K.held out.new) (text.now ++ obs_text obs) }
    ensures counts { Counts result (K.faults out.old) (K.faults out.new) }
{
    put(text, out)?;
    write_obs(obs, out)
}

/// What the arguments of an external call show before which the machine is, each by its parameter's type,
/// in the first of sixteen places.
pub fn observe_arguments(machine: &Machine<'_>, comps: &List<Comp>) -> [Obs; 16]
    requires { length (contents comps.now) ≤ 16 }
    ensures shown { take (length (contents comps.now)) result
        ≡ arguments_from a0 (contents comps.now) machine.now }
    ensures len { length result ≡ 16 }
{
    let mut shown = [Obs::Word(0); 16];
    for (k, comp) in comps.as_slice().iter().enumerate() {
        let word = machine.register(FIRST_ARGUMENT + k as u8);
        shown[k] = machine.observe(*comp, word);
    }
    shown
}

// Writes observations, each after a space.
fn write_shown<K: Sink>(shown: &[Obs], out: &mut K) -> Result<(), OutFault>
    ensures text { AppendsResult result (K.held out.old) (K.held out.new) (shown_text shown.now) }
    ensures counts { Counts result (K.faults out.old) (K.faults out.new) }
{
    for obs in shown {
        put_obs(b" ", *obs, out)?;
    }
    Ok(())
}

// Writes a text and a name.
fn put_name<K: Sink>(text: &[u8], name: &Name, out: &mut K) -> Result<(), OutFault>
    ensures text { AppendsResult result (K.held out.old) (K.held out.new) (text.now ++ name.now) }
    ensures counts { Counts result (K.faults out.old) (K.faults out.new) }
{
    put(text, out)?;
    put(name.as_bytes(), out)
}

// Writes the front of a line on a call.
fn put_call<K: Sink>(text: &[u8], name: &Name, shown: &[Obs], out: &mut K) -> Result<(), OutFault>
    ensures text { AppendsResult result (K.held out.old) (K.held out.new)
        ((text.now ++ name.now) ++ shown_text shown.now) }
    ensures counts { Counts result (K.faults out.old) (K.faults out.new) }
{
    put_name(text, name, out)?;
    write_shown(shown, out)
}

/// Writes a line of a text and a call of that name whose arguments show so.
///
/// # Errors
///
/// `OutFault::Write` where a write failed or took nothing: the sink then has a part of the line, from its front and
/// not all of it.
pub fn write_call_line<K: Sink>(
    text: &[u8],
    name: &Name,
    shown: &[Obs],
    out: &mut K,
) -> Result<(), OutFault>
    ensures text { AppendsResult result (K.held out.old) (K.held out.new)
        (((text.now ++ name.now) ++ shown_text shown.now) ++ codes "\n") }
    ensures counts { Counts result (K.faults out.old) (K.faults out.new) }
{
    put_call(text, name, shown, out)?;
    put(b"\n", out)
}

/// Writes a line of that text.
///
/// # Errors
///
/// `OutFault::Write` where a write failed or took nothing: the sink then has a part of the line, from its front and
/// not all of it.
pub fn write_line<K: Sink>(text: &[u8], out: &mut K) -> Result<(), OutFault>
    ensures text { AppendsResult result (K.held out.old) (K.held out.new) (text.now ++ codes "\n") }
    ensures counts { Counts result (K.faults out.old) (K.faults out.new) }
{
    put(text, out)?;
    put(b"\n", out)
}

/// Writes a line of a text and an observation.
///
/// # Errors
///
/// `OutFault::Write` where a write failed or took nothing: the sink then has a part of the line, from its front and
/// not all of it.
pub fn write_obs_line<K: Sink>(text: &[u8], obs: Obs, out: &mut K) -> Result<(), OutFault>
    ensures text { AppendsResult result (K.held out.old) (K.held out.new)
        (text.now ++ obs_text obs ++ codes "\n") }
    ensures counts { Counts result (K.faults out.old) (K.faults out.new) }
{
    put_obs(text, obs, out)?;
    put(b"\n", out)
}

/// Writes a line of a text and the external call before which the machine is: its name, and what its
/// arguments show.
///
/// # Errors
///
/// `OutFault::Write` where a write failed or took nothing: the sink then has a part of the line, from its front and
/// not all of it.
pub fn write_made_line<K: Sink>(
    text: &[u8],
    machine: &Machine<'_>,
    row: &ExtRow,
    out: &mut K,
) -> Result<(), OutFault>
    requires { length (contents row.now.params) ≤ 16 }
    ensures text { AppendsResult result (K.held out.old) (K.held out.new)
        (text.now ++ made_text (call_made (ext row.now) machine.now) ++ codes "\n") }
    ensures counts { Counts result (K.faults out.old) (K.faults out.new) }
{
    let shown = observe_arguments(machine, &row.params);
    write_call_line(text, &row.name, &shown[..row.params.len()], out)
}

// The text of a machine that has stopped.
fn stopped_text(cause: Cause) -> &'static str
    ensures { result.now ≡ codes "stopped " ++ cause_text cause }
{
    match cause {
        Cause::BadFetch => "stopped BadFetch",
        Cause::BadWord => "stopped BadWord",
        Cause::BadAccess => "stopped BadAccess",
        Cause::BadService => "stopped BadService",
        Cause::BadRequest => "stopped BadRequest",
        Cause::BadFrame => "stopped BadFrame",
        Cause::BadRoot => "stopped BadRoot",
    }
}

/// Writes the line of a machine that has stopped.
///
/// # Errors
///
/// `OutFault::Write` where a write failed or took nothing: the sink then has a part of the line, from its front and
/// not all of it.
pub fn write_stopped<K: Sink>(cause: Cause, out: &mut K) -> Result<(), OutFault>
    ensures text { AppendsResult result (K.held out.old) (K.held out.new)
        (codes "stopped " ++ cause_text cause ++ codes "\n") }
    ensures counts { Counts result (K.faults out.old) (K.faults out.new) }
{
    write_line(stopped_text(cause).as_bytes(), out)
}
