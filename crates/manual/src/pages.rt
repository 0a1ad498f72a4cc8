//! The manual page; and completions, for each shell.

ghost use Rattle.std.specs.Prelude.{◌≡◌, [], fold, IfOk, OnOk};
ghost use Rattle.manual.specs.Pages.{completions_for, man_argument, man_command, man_head, man_page};

use crate::bash::put_bash;
use crate::fish::put_fish;
use crate::texts::{Style, put, put_spelled};
use crate::zsh::put_zsh;
use command_line::{ArgumentText, CommandText, HelpTable, Shell};
use memory::NoMemory;
use std::alloc::Allocator;

/// An argument of a command.
fn put_argument<A: Allocator>(
    argument: &ArgumentText,
    page: &mut Vec<u8, A>,
) -> Result<(), NoMemory>
    ensures { OnOk result (page.new.items ≡ man_argument page.old.items argument.now) }
{
    put(".TP\n.BI \"", page)?;
    put_spelled(Style::Roff, argument.dashes, page)?;
    put_spelled(Style::Roff, argument.name, page)?;
    put(" \" \"", page)?;
    put_spelled(Style::Roff, argument.value, page)?;
    put("\"\n", page)?;
    put_spelled(Style::Roff, argument.help, page)?;
    put("\n", page)
}

/// The arguments of a command, in order.
fn put_arguments<A: Allocator>(
    arguments: &[ArgumentText],
    page: &mut Vec<u8, A>,
) -> Result<(), NoMemory>
    ensures { OnOk result (page.new.items ≡ fold man_argument page.old.items arguments.now) }
{
    for argument in arguments {
        put_argument(argument, page)?;
    }
    Ok(())
}

/// A command.
fn put_command<A: Allocator>(command: &CommandText, page: &mut Vec<u8, A>) -> Result<(), NoMemory>
    ensures { OnOk result (page.new.items ≡ man_command page.old.items command.now) }
{
    put(".SS landmap ", page)?;
    put_spelled(Style::Roff, command.name, page)?;
    put("\n.nf\n", page)?;
    put_spelled(Style::Roff, command.long_about, page)?;
    put("\n.fi\n", page)?;
    put_arguments(command.arguments, page)?;
    put(".PP\n.nf\n", page)?;
    put_spelled(Style::Roff, command.examples, page)?;
    put("\n.fi\n", page)
}

/// What stands before the commands.
fn put_head<A: Allocator>(table: &HelpTable, page: &mut Vec<u8, A>) -> Result<(), NoMemory>
    ensures { OnOk result (page.new.items ≡ man_head page.old.items table.now) }
{
    put(".TH LANDMAP 1\n.SH NAME\nlandmap \\- ", page)?;
    put_spelled(Style::Roff, table.about, page)?;
    put(
        "\n.SH SYNOPSIS\n.B landmap\n.I COMMAND\n.SH DESCRIPTION\n.nf\n",
        page,
    )?;
    put_spelled(Style::Roff, table.long_about, page)?;
    put("\n.fi\n.SH COMMANDS\n", page)
}

/// The commands, in order.
fn put_commands<A: Allocator>(
    commands: &[CommandText],
    page: &mut Vec<u8, A>,
) -> Result<(), NoMemory>
    ensures { OnOk result (page.new.items ≡ fold man_command page.old.items commands.now) }
{
    for command in commands {
        put_command(command, page)?;
    }
    Ok(())
}

/// The manual page of a table of help, as roff. The error is that an allocation was refused.
pub fn manual_page<A: Allocator>(alloc: A, table: &HelpTable) -> Result<Vec<u8, A>, NoMemory>
    ensures { IfOk result (λ page. page.items ≡ man_page [] table.now) }
{
    let mut page = Vec::new(alloc);
    put_head(table, &mut page)?;
    put_commands(&table.commands, &mut page)?;
    put(".SH EXAMPLES\n.nf\n", &mut page)?;
    put_spelled(Style::Roff, table.examples, &mut page)?;
    put("\n.fi\n", &mut page)?;
    Ok(page)
}

/// What a shell reads to complete the words of a table of help. The error is that an allocation was
/// refused.
pub fn completions<A: Allocator>(
    alloc: A,
    shell: Shell,
    table: &HelpTable,
) -> Result<Vec<u8, A>, NoMemory>
    ensures { IfOk result (λ page. page.items ≡ completions_for shell table.now) }
{
    let mut page = Vec::new(alloc);
    match shell {
        Shell::Bash => put_bash(table, &mut page)?,
        Shell::Zsh => put_zsh(table, &mut page)?,
        Shell::Fish => put_fish(&table.commands, &mut page)?,
    }
    Ok(page)
}
