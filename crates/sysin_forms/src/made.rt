//! The commands that operands make.

ghost use Rattle.std.specs.Prelude.{◌≡◌, unwrap_or, IfSome, IfNone};
ghost use Rattle.dsn_filter.specs.declared.rename.Rename.TheVariants as renames;
ghost use Rattle.sysin_lang.specs.declared.command.Command.{Command};
ghost use Rattle.sysin_forms.specs.Form.{form_of};
ghost use Rattle.sysin_forms.specs.Made.{IsMade, IsMadeOf, filter_made};

use crate::form::Form;
use crate::operand::Operand;
use crate::parts::{Parts, made_filter};
use ckd_image::Listed;
use dsn_filter::Rename;
use std::alloc::Global;
use sysin_lang::{Command, Filter};

/// The command of a form that these operands make, where they say all that it needs.
pub fn command_of(alloc: Global, form: Form, operands: Listed<Operand>) -> Option<Command>
    ensures made { IfSome result (λ command. (form_of command ≡ form) × IsMadeOf command operands) }
    ensures none { IfNone result ((command : Command) → form_of command ≡ form → ¬ IsMadeOf command operands) }
{
    let parts = Parts::of(operands);
    match form {
        Form::Print => print(parts),
        Form::Release => release(alloc, parts),
        Form::Consolidate => consolidate(parts),
        Form::Defrag => defrag(parts),
        Form::Copy => copy(parts),
        Form::DumpDataset => dump_dataset(parts),
        Form::DumpFull => dump_full(parts),
        Form::RestoreDataset => restore_dataset(parts),
        Form::RestoreFull => restore_full(parts),
    }
}

fn rename_of(rename: Option<Rename>) -> Rename
    ensures { result ≡ unwrap_or rename renames.Keep }
{
    match rename {
        Some(rename) => rename,
        None => Rename::Keep,
    }
}

fn print(parts: Parts) -> Option<Command>
    ensures made { IfSome result (λ command. (form_of command ≡ Form.Print) × IsMade command parts) }
    ensures none { IfNone result ((command : Command) → form_of command ≡ Form.Print → ¬ IsMade command parts) }
{
    let Parts { vtoc, unit, .. } = parts;
    if !vtoc {
        return None;
    }
    let Some(unit) = unit else {
        return None;
    };
    Some(Command::PrintVtoc { unit })
}

fn consolidate(parts: Parts) -> Option<Command>
    ensures made { IfSome result (λ command. (form_of command ≡ Form.Consolidate) × IsMade command parts) }
    ensures none { IfNone result ((command : Command) → form_of command ≡ Form.Consolidate → ¬ IsMade command parts) }
{
    let Parts { filter, unit, .. } = parts;
    let (Some(filter), Some(unit)) = (filter, unit) else {
        return None;
    };
    Some(Command::Consolidate { filter, unit })
}

fn defrag(parts: Parts) -> Option<Command>
    ensures made { IfSome result (λ command. (form_of command ≡ Form.Defrag) × IsMade command parts) }
    ensures none { IfNone result ((command : Command) → form_of command ≡ Form.Defrag → ¬ IsMade command parts) }
{
    let Parts {
        unit,
        index,
        limit,
        ..
    } = parts;
    let Some(unit) = unit else {
        return None;
    };
    Some(Command::Defrag { unit, index, limit })
}

fn copy(parts: Parts) -> Option<Command>
    ensures made { IfSome result (λ command. (form_of command ≡ Form.Copy) × IsMade command parts) }
    ensures none { IfNone result ((command : Command) → form_of command ≡ Form.Copy → ¬ IsMade command parts) }
{
    let Parts {
        filter,
        unit,
        target,
        delete,
        purge,
        replace,
        rename,
        tolerate,
        ..
    } = parts;
    let (Some(filter), Some(unit), Some(target)) = (filter, unit, target) else {
        return None;
    };
    Some(Command::Copy {
        filter,
        unit,
        to: target,
        delete,
        purge,
        replace,
        rename: rename_of(rename),
        tolerate,
    })
}

fn dump_dataset(parts: Parts) -> Option<Command>
    ensures made { IfSome result (λ command. (form_of command ≡ Form.DumpDataset) × IsMade command parts) }
    ensures none { IfNone result ((command : Command) → form_of command ≡ Form.DumpDataset → ¬ IsMade command parts) }
{
    let Parts {
        filter,
        unit,
        outs,
        reset,
        delete,
        purge,
        tolerate,
        ..
    } = parts;
    let (Some(filter), Some(unit), Some(outs)) = (filter, unit, outs) else {
        return None;
    };
    Some(Command::DumpDataset {
        filter,
        unit,
        outs,
        reset,
        delete,
        purge,
        tolerate,
    })
}

fn dump_full(parts: Parts) -> Option<Command>
    ensures made { IfSome result (λ command. (form_of command ≡ Form.DumpFull) × IsMade command parts) }
    ensures none { IfNone result ((command : Command) → form_of command ≡ Form.DumpFull → ¬ IsMade command parts) }
{
    let Parts {
        full,
        unit,
        outs,
        ..
    } = parts;
    if !full {
        return None;
    }
    let (Some(unit), Some(outs)) = (unit, outs) else {
        return None;
    };
    Some(Command::DumpFull { unit, outs })
}

fn restore_dataset(parts: Parts) -> Option<Command>
    ensures made { IfSome result (λ command. (form_of command ≡ Form.RestoreDataset) × IsMade command parts) }
    ensures none { IfNone result ((command : Command) → form_of command ≡ Form.RestoreDataset → ¬ IsMade command parts) }
{
    let Parts {
        filter,
        input,
        target,
        purge,
        replace,
        rename,
        ..
    } = parts;
    let (Some(filter), Some(input), Some(target)) = (filter, input, target) else {
        return None;
    };
    Some(Command::RestoreDataset {
        filter,
        input,
        to: target,
        purge,
        replace,
        rename: rename_of(rename),
    })
}

fn restore_full(parts: Parts) -> Option<Command>
    ensures made { IfSome result (λ command. (form_of command ≡ Form.RestoreFull) × IsMade command parts) }
    ensures none { IfNone result ((command : Command) → form_of command ≡ Form.RestoreFull → ¬ IsMade command parts) }
{
    let Parts {
        full,
        input,
        target,
        purge,
        ..
    } = parts;
    if !full {
        return None;
    }
    let (Some(input), Some(target)) = (input, target) else {
        return None;
    };
    Some(Command::RestoreFull {
        input,
        to: target,
        purge,
    })
}

/// Its filter stands in DATASET, or without it.
fn release(alloc: Global, parts: Parts) -> Option<Command>
    ensures made { IfSome result (λ command. (form_of command ≡ Form.Release) × IsMade command parts) }
    ensures none { IfNone result ((command : Command) → form_of command ≡ Form.Release → ¬ IsMade command parts) }
{
    let unit = parts.unit?;
    if parts.filter.is_none() && !has_parts(&parts) {
        return None;
    }
    let filter = release_filter(alloc, parts);
    Some(Command::Release { filter, unit })
}

fn has_parts(parts: &Parts) -> bool
    ensures { result ≡ Rattle.sysin_forms.specs.Made.has_parts parts.now }
{
    parts.include.is_some() || parts.exclude.is_some() || parts.by.is_some()
}

fn release_filter(alloc: Global, mut parts: Parts) -> Filter
    ensures { result ≡ unwrap_or parts.filter (filter_made parts) }
{
    match parts.filter.take() {
        Some(filter) => filter,
        None => made_filter(alloc, parts),
    }
}
