//! Completions for fish: the names of the commands and the options of each, with what they are for.

ghost use Rattle.std.specs.Prelude.{◌≡◌, fold, OnOk};
ghost use Rattle.manual.specs.Pages.{fish_command, fish_option};

use crate::texts::{Style, put, put_spelled};
use command_line::{ArgumentText, CommandText};
use memory::NoMemory;
use std::alloc::Allocator;

/// An option of the command of this name. Other arguments are left out.
fn put_option<A: Allocator>(
    name: &str,
    argument: &ArgumentText,
    page: &mut Vec<u8, A>,
) -> Result<(), NoMemory>
    ensures { OnOk result (page.new.items ≡ fish_option name.now page.old.items argument.now) }
{
    if argument.dashes.is_empty() {
        return Ok(());
    }
    put("complete -c landmap -n '__fish_seen_subcommand_from ", page)?;
    put(name, page)?;
    put("' -l ", page)?;
    put(argument.name, page)?;
    put(" -d '", page)?;
    put_spelled(Style::Fish, argument.help, page)?;
    put("'\n", page)
}

/// The options of the command of this name.
fn put_options<A: Allocator>(
    name: &str,
    arguments: &[ArgumentText],
    page: &mut Vec<u8, A>,
) -> Result<(), NoMemory>
    ensures { OnOk result
        (page.new.items ≡ fold (fish_option name.now) page.old.items arguments.now) }
{
    for argument in arguments {
        put_option(name, argument, page)?;
    }
    Ok(())
}

/// A command.
fn put_command<A: Allocator>(command: &CommandText, page: &mut Vec<u8, A>) -> Result<(), NoMemory>
    ensures { OnOk result (page.new.items ≡ fish_command page.old.items command.now) }
{
    put("complete -c landmap -n __fish_use_subcommand -f -a ", page)?;
    put(command.name, page)?;
    put(" -d '", page)?;
    put_spelled(Style::Fish, command.about, page)?;
    put("'\n", page)?;
    put_options(command.name, command.arguments, page)
}

/// The completions of these commands.
pub(crate) fn put_fish<A: Allocator>(
    commands: &[CommandText],
    page: &mut Vec<u8, A>,
) -> Result<(), NoMemory>
    ensures { OnOk result (page.new.items ≡ fold fish_command page.old.items commands.now) }
{
    for command in commands {
        put_command(command, page)?;
    }
    Ok(())
}
