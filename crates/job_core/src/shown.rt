//! The records of a trace as lines, in one of several forms.

ghost use Rattle.std.specs.Prelude.{◌≡◌, ◌+◌, ◌<◌, ◌^◌, ◌++◌, length, OnOk};
ghost use Rattle.job_core.specs.Shown.{asked_line, children_after, first_lines, forked, is_done, is_exit, is_left, is_other, line_from, lines_from, next_lines, number_of, with_child, without};
ghost use Rattle.job_core.specs.ShownState.{lines_after};
ghost use Rattle.script_text.specs.Lines.{record_line};
ghost use Rattle.text_forms.specs.Scripts.{strung};
ghost use Rattle.text_forms.specs.declared.scripts.Lines.TheVariants as lines;

use call_types::act::{Act, Record};
use call_types::call::Call;
use call_types::limits::PROCESSES_MAX;
use call_types::outcome::{Outcome, Reply};
use command_line::form::Form;
use script_text::lines::{write_act, write_record};
use std::alloc::{AllocError, Global};
use std::marker::Model;
use text_forms::json::write_json;
use text_forms::scripts;
use text_forms::scripts::write_strung;

/// The number that a reply tells.
fn number_of(outcome: &Outcome) -> Option<u64>
    ensures { result ≡ number_of outcome.now }
{
    match outcome {
        Outcome::Reply(Reply::Number(number)) => Some(*number),
        _ => None,
    }
}

/// Whether the call has ended, without a value and without an error.
fn is_done(outcome: &Outcome) -> bool
    ensures { result ≡ is_done outcome.now }
{
    match outcome {
        Outcome::Reply(Reply::Done) => true,
        _ => false,
    }
}

/// The child that a record tells of, if it is a fork that made one.
fn forked(told: &Record) -> Option<u64>
    ensures { result ≡ forked told.now }
{
    match &told.act {
        Act::Call(Call::Fork) => number_of(&told.outcome),
        _ => None,
    }
}

/// Whether a record takes its actor off the list of unattached children: an exit, or an attach that succeeded.
fn is_left(told: &Record) -> bool
    ensures { result ≡ is_left told.now }
{
    match &told.act {
        Act::Exit => true,
        Act::Attach => is_done(&told.outcome),
        _ => false,
    }
}

/// Whether an act is the end of a process.
fn is_exit(act: &Act) -> bool
    ensures { result ≡ is_exit act.now }
{
    match act {
        Act::Exit => true,
        _ => false,
    }
}

/// Adds a child, if there are fewer than may live at once.
fn add_child(children: &mut Vec<u64>, child: u64) -> Result<(), AllocError>
    ensures { OnOk result (children.new.items ≡ with_child children.old.items child) }
{
    if children.len() < PROCESSES_MAX {
        children.push(child)?;
    }
    Ok(())
}

/// Whether two processes differ.
fn is_other(process: u64, gone: u64) -> bool
    ensures { result ≡ is_other process gone }
{
    process != gone
}

/// Takes a process out of the children.
fn drop_child(children: &mut Vec<u64>, gone: u64)
    ensures { children.new.items ≡ without gone children.old.items }
{
    children.retain(|process| is_other(*process, gone));
}

/// Notes what a record means for the children that are not attached.
fn note(children: &mut Vec<u64>, told: &Record) -> Result<(), AllocError>
    ensures { OnOk result (children.new.items ≡ children_after children.old.items told.now) }
{
    match forked(told) {
        Some(child) => add_child(children, child),
        None => {
            if is_left(told) {
                drop_child(children, u64::from(told.actor));
            }
            Ok(())
        }
    }
}

/// Appends the line of a script that asks for what a record tells. The end of a child that was never attached is part of the closing,
/// and no script asks for it by itself.
fn put_asked(out: &mut Vec<u8>, children: &[u64], told: &Record) -> Result<(), AllocError>
    ensures { OnOk result (out.new.items ≡ out.old.items ++ asked_line children.now told.now) }
{
    if is_exit(&told.act) && children.contains(&u64::from(told.actor)) {
        return Ok(());
    }
    write_act(out, told)
}

/// What makes lines of records, one after another. It keeps none of them.
#[derive(Drop)]
pub(crate) struct Lines {
    form: Form,
    place: u64,
    /// The processes that a fork made and that are not attached yet.
    children: Vec<u64>,
    /// The lines of a record before strings stand in them.
    plain: Vec<u8>,
}

impl Model for Lines {
    ghost use Rattle.job_core.specs.Shown.{LinesState};

    ghost Value = { LinesState };

    ghost view = { λ lines. record { form = lines.form; place = lines.place; children = lines.children.items } };
}

impl Lines {
    /// Before the first record.
    pub(crate) fn new(alloc: Global, form: Form) -> Self
        ensures { result ≡ first_lines form }
    {
        Lines {
            form,
            place: 0,
            children: Vec::new(alloc),
            plain: Vec::new(alloc),
        }
    }

    /// Appends the line of the next record, with its place and its outcome, and data of printable bytes as a string.
    fn put_record_in_text(&mut self, out: &mut Vec<u8>, told: &Record) -> Result<(), AllocError>
        ensures same { self.new ≡ self.old }
        ensures text { OnOk result (out.new.items ≡ out.old.items ++ strung lines.Records (record_line self.old.place told.now)) }
    {
        self.plain.clear();
        write_record(&mut self.plain, self.place, told)?;
        write_strung(out, scripts::Lines::Records, self.plain.as_slice())
    }

    /// Appends the line of a script that asks for what the next record tells, with data of printable bytes as a string.
    fn put_asked_in_text(&mut self, out: &mut Vec<u8>, told: &Record) -> Result<(), AllocError>
        ensures same { self.new ≡ self.old }
        ensures text { OnOk result (out.new.items ≡ out.old.items ++ strung lines.Acts (asked_line self.old.children told.now)) }
    {
        self.plain.clear();
        put_asked(&mut self.plain, self.children.as_slice(), told)?;
        write_strung(out, scripts::Lines::Acts, self.plain.as_slice())
    }

    /// Appends the lines of the next record.
    fn put(&mut self, out: &mut Vec<u8>, told: &Record) -> Result<(), AllocError>
        requires few { self.old.place + 1 < 2 ^ 64 }
        ensures text { OnOk result (out.new.items ≡ out.old.items ++ line_from self.old told.now) }
        ensures next { OnOk result (self.new ≡ next_lines self.old told.now) }
    {
        match self.form {
            Form::Records => write_record(out, self.place, told)?,
            Form::Acts => put_asked(out, self.children.as_slice(), told)?,
            Form::RecordsInText => self.put_record_in_text(out, told)?,
            Form::ActsInText => self.put_asked_in_text(out, told)?,
            Form::Objects => write_json(out, self.place, told)?,
        }
        note(&mut self.children, told)?;
        self.place += 1;
        Ok(())
    }

    /// Appends the lines of the next records.
    pub(crate) fn put_all(
        &mut self,
        out: &mut Vec<u8>,
        records: &[Record],
    ) -> Result<(), AllocError>
        requires few { self.old.place + length records.now < 2 ^ 64 }
        ensures text { OnOk result (out.new.items ≡ out.old.items ++ lines_from self.old records.now) }
        ensures next { OnOk result (self.new ≡ lines_after self.old records.now) }
    {
        let mut left = records;
        while let Some((told, rest)) = left.split_first() {
            self.put(out, told)?;
            left = rest;
        }
        Ok(())
    }
}
