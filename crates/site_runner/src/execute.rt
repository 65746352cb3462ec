// One command.
ghost use Rattle.std.specs.Prelude.{◌≡◌, length, OnOk, OnErr, true};
ghost use Rattle.command_defs.specs.Commands.{IsFormed, IsWhole};
ghost use Rattle.repl_script.specs.Commands.{command_value};
ghost use Rattle.site_runner.specs.Executes.{Leaves, Executes, IsCutOff};
ghost use Rattle.site_runner.specs.Named.{IsNamed, name_in, row_in};
ghost use Rattle.site_runner.specs.Sites.{is_slot_named, IsReadyOpen, IsReadySlot, AreReady};

use super::answering::refuse;
use super::attach::attach;
use super::cause::Cause;
use super::create::create;
use super::ending::Ended;
use super::epoch::epoch;
use super::extracting::extract;
use super::finding::{find, put_back_swapped};
use super::fusing::{crash_failed, crash_open, fuse_down, fuse_open};
use super::mapping::map;
use super::printing::{print_down, print_open};
use super::recovering::recover;
use super::rolling::rollback;
use super::section::run_section;
use super::setting::set_journal;
use super::showing::{show_down, show_failed, show_open};
use super::slot::Slot;
use super::start::start;
use super::stop::stop;
use super::zwriting::zwrite;
use gvn_key::{Bytes, NoMemory};
use repl_disk::Disk;
use repl_script::Command;
use repl_section::Reign;
use std::alloc::Global;

/// The site that a command names.
fn name_of(command: &Command) -> &Bytes
    requires { IsNamed (command_value command.now) }
    ensures { result.now ≡ name_in (command_value command.now) }
{
    match command {
        Command::Attach => unreachable!(),
        Command::Create { site, .. }
        | Command::Map { site, .. }
        | Command::SetJournal { site, .. }
        | Command::StartPrimary { site }
        | Command::Run { site, .. }
        | Command::Stop { site }
        | Command::Epoch { site }
        | Command::Fuse { site, .. }
        | Command::Crash { site, .. }
        | Command::Extract { site, .. }
        | Command::Zwrite { site, .. }
        | Command::Show { site }
        | Command::Print { site, .. }
        | Command::Resync { site, .. }
        | Command::RecoverBackward { site }
        | Command::RecoverForward { site } => site,
    }
}

/// Executes a command on the site that it names, which is down.
fn on_down<D: Disk>(
    alloc: Global,
    disk: D,
    name: Bytes,
    command: Command,
    text: &mut Bytes,
) -> (Slot<D>, Result<Ended, NoMemory>)
    requires formed { IsFormed (command_value command) }
    requires command { IsNamed (command_value command) }
    ensures ready { OnOk result.1 (IsReadySlot D.disk result.0) }
    ensures left { Leaves D.disk (row_in (command_value command)) (Slot.Down disk name) result text.old text.new }
{
    match command {
        Command::Create { .. } | Command::Attach => unreachable!(),
        Command::Map {
            region,
            pattern,
            ..
        } => map(alloc, disk, name, region, pattern.as_slice(), text),
        Command::SetJournal { region, before, .. } => set_journal(
            alloc, disk, name, region, before, text,
        ),
        Command::StartPrimary { .. } => start(alloc, disk, name, text),
        Command::Resync { number, .. } => rollback(alloc, disk, name, number, text),
        Command::RecoverBackward { .. } => recover(alloc, disk, name, false, text),
        Command::RecoverForward { .. } => recover(alloc, disk, name, true, text),
        Command::Fuse { calls, .. } => fuse_down(disk, name, calls, text),
        Command::Show { .. } => show_down(disk, name, text),
        Command::Print {
            lost,
            generation,
            ..
        } => print_down(disk, name, lost, generation, text),
        Command::Run { .. } => {
            let ended = refuse(text, name.as_slice(), &Cause::NotPrimary);
            (Slot::Down { disk, name }, ended)
        }
        Command::Stop { .. }
        | Command::Epoch { .. }
        | Command::Crash { .. }
        | Command::Extract { .. }
        | Command::Zwrite { .. } => {
            let ended = refuse(text, name.as_slice(), &Cause::NotRunning);
            (Slot::Down { disk, name }, ended)
        }
    }
}

/// Executes a command on the site that it names, which is open.
fn on_open<D: Disk>(
    alloc: Global,
    reign: Box<Reign<D>>,
    name: Bytes,
    command: Command,
    text: &mut Bytes,
) -> (Slot<D>, Result<Ended, NoMemory>)
    requires formed { IsFormed (command_value command) }
    requires whole { IsWhole (command_value command) }
    requires command { IsNamed (command_value command) }
    requires ready { IsReadyOpen D.disk reign.value }
    ensures ready { OnOk result.1 (IsReadySlot D.disk result.0) }
    ensures left { Leaves D.disk (row_in (command_value command)) (Slot.Open reign name) result text.old text.new }
{
    match command {
        Command::Create { .. } | Command::Attach => unreachable!(),
        Command::Run { jobs, order, .. } => {
            run_section(alloc, reign, name, jobs, order.as_slice(), text)
        }
        Command::Stop { .. } => stop(reign, name, text),
        Command::Epoch { .. } => epoch(reign, name, text),
        Command::Fuse { calls, .. } => fuse_open(reign, name, calls, text),
        Command::Crash { pick, .. } => crash_open(reign, name, pick, text),
        Command::Extract { number, .. } => extract(reign, name, number, text),
        Command::Zwrite { top, .. } => zwrite(reign, name, top.as_ref(), text),
        Command::Show { .. } => show_open(reign, name, text),
        Command::Print {
            lost,
            generation,
            ..
        } => print_open(reign, name, lost, generation, text),
        Command::Map { .. }
        | Command::SetJournal { .. }
        | Command::StartPrimary { .. }
        | Command::Resync { .. }
        | Command::RecoverBackward { .. }
        | Command::RecoverForward { .. } => {
            let ended = refuse(text, name.as_slice(), &Cause::Running);
            (Slot::Open { reign, name }, ended)
        }
    }
}

/// Executes a command on the site that it names, which has failed.
fn on_failed<D: Disk>(
    disk: D,
    name: Bytes,
    fault: u64,
    command: Command,
    text: &mut Bytes,
) -> (Slot<D>, Result<Ended, NoMemory>)
    requires { IsNamed (command_value command) }
    ensures ready { OnOk result.1 (IsReadySlot D.disk result.0) }
    ensures left { Leaves D.disk (row_in (command_value command)) (Slot.Failed disk name fault) result text.old text.new }
{
    match command {
        Command::Create { .. } | Command::Attach => unreachable!(),
        Command::Crash { pick, .. } => crash_failed(disk, name, fault, pick, text),
        Command::Show { .. } => show_failed(disk, name, fault, text),
        Command::Map { .. }
        | Command::SetJournal { .. }
        | Command::StartPrimary { .. }
        | Command::Run { .. }
        | Command::Stop { .. }
        | Command::Epoch { .. }
        | Command::Resync { .. }
        | Command::RecoverBackward { .. }
        | Command::RecoverForward { .. }
        | Command::Fuse { .. }
        | Command::Extract { .. }
        | Command::Zwrite { .. }
        | Command::Print { .. } => {
            let ended = refuse(text, name.as_slice(), &Cause::Stopped { fault });
            (Slot::Failed { disk, name, fault }, ended)
        }
    }
}

/// Executes a command on the site that it names, which stands there.
fn execute_at<D: Disk>(
    alloc: Global,
    slot: Slot<D>,
    command: Command,
    text: &mut Bytes,
) -> (Slot<D>, Result<Ended, NoMemory>)
    requires formed { IsFormed (command_value command) }
    requires whole { IsWhole (command_value command) }
    requires command { IsNamed (command_value command) }
    requires site { is_slot_named (name_in (command_value command)) slot ≡ true }
    requires ready { IsReadySlot D.disk slot }
    ensures ready { OnOk result.1 (IsReadySlot D.disk result.0) }
    ensures left { Leaves D.disk (row_in (command_value command)) slot result text.old text.new }
{
    match slot {
        Slot::Down { disk, name } => on_down(alloc, disk, name, command, text),
        Slot::Open { reign, name } => on_open(alloc, reign, name, command, text),
        Slot::Failed { disk, name, fault } => on_failed(disk, name, fault, command, text),
        // no site stands there
        Slot::Free(disk) => {
            let ended = refuse(text, name_of(&command).as_slice(), &Cause::NoSite);
            (Slot::Free(disk), ended)
        }
    }
}

/// Executes a command on the site that it names. Answers whether it was done.
fn execute_named<D: Disk>(
    alloc: Global,
    slots: &mut Vec<Slot<D>>,
    command: Command,
    text: &mut Bytes,
) -> Result<Ended, NoMemory>
    requires formed { IsFormed (command_value command) }
    requires whole { IsWhole (command_value command) }
    requires command { IsNamed (command_value command) }
    requires ready { AreReady D.disk slots.old.items }
    ensures ready { OnOk result (AreReady D.disk slots.new.items) }
    ensures done { OnOk result (Executes D.disk (command_value command) slots.old.items slots.new.items text.old text.new) }
    ensures cut_off { OnErr result (IsCutOff D.disk (command_value command) slots.old.items slots.new.items) }
    ensures length { length slots.new.items ≡ length slots.old.items }
{
    let name = name_of(&command).as_slice();
    match find(slots, name) {
        None => refuse(text, name, &Cause::NoSite),
        Some(i) => {
            // the last slot stands there meanwhile, so that no slot moves but these two
            let slot = slots.swap_remove(i);
            let (slot, ended) = execute_at(alloc, slot, command, text);
            put_back_swapped(slots, i, slot);
            ended
        }
    }
}

/// Executes a command, and adds what it answers. Answers whether it was done.
pub fn execute<D: Disk>(
    alloc: Global,
    slots: &mut Vec<Slot<D>>,
    command: Command,
    text: &mut Bytes,
) -> Result<Ended, NoMemory>
    requires formed { IsFormed (command_value command) }
    requires whole { IsWhole (command_value command) }
    requires ready { AreReady D.disk slots.old.items }
    ensures ready { OnOk result (AreReady D.disk slots.new.items) }
    ensures done { OnOk result (Executes D.disk (command_value command) slots.old.items slots.new.items text.old text.new) }
    ensures cut_off { OnErr result (IsCutOff D.disk (command_value command) slots.old.items slots.new.items) }
    ensures length { length slots.new.items ≡ length slots.old.items }
{
    match command {
        Command::Create { site, regions } => create(alloc, slots, site, regions, text),
        Command::Attach => attach(alloc, slots, text),
        named => execute_named(alloc, slots, named, text),
    }
}
