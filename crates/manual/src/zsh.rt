//! Completions for zsh: the names of the commands and the options of each, with what they are for,
//! and files.

ghost use Rattle.std.specs.Prelude.{◌≡◌, fold, OnOk};
ghost use Rattle.manual.specs.Pages.{zsh_case, zsh_option, zsh_page, zsh_word};

use crate::texts::{Style, put, put_spelled};
use command_line::{ArgumentText, CommandText, HelpTable};
use memory::NoMemory;
use std::alloc::Allocator;

/// The names of the commands.
fn put_words<A: Allocator>(commands: &[CommandText], page: &mut Vec<u8, A>) -> Result<(), NoMemory>
    ensures { OnOk result (page.new.items ≡ fold zsh_word page.old.items commands.now) }
{
    for command in commands {
        put("        '", page)?;
        put(command.name, page)?;
        put(":", page)?;
        put_spelled(Style::Zsh, command.about, page)?;
        put("'\n", page)?;
    }
    Ok(())
}

/// The options of a command.
fn put_options<A: Allocator>(
    arguments: &[ArgumentText],
    page: &mut Vec<u8, A>,
) -> Result<(), NoMemory>
    ensures { OnOk result (page.new.items ≡ fold zsh_option page.old.items arguments.now) }
{
    for argument in arguments {
        put("'", page)?;
        put(argument.dashes, page)?;
        put(argument.name, page)?;
        put(":", page)?;
        put_spelled(Style::Zsh, argument.help, page)?;
        put("' ", page)?;
    }
    Ok(())
}

/// The case of a command.
fn put_case<A: Allocator>(command: &CommandText, page: &mut Vec<u8, A>) -> Result<(), NoMemory>
    ensures { OnOk result (page.new.items ≡ zsh_case page.old.items command.now) }
{
    put("        ", page)?;
    put(command.name, page)?;
    put(") options=(", page)?;
    put_options(command.arguments, page)?;
    put("--help) ;;\n", page)
}

/// The cases of the commands.
fn put_cases<A: Allocator>(commands: &[CommandText], page: &mut Vec<u8, A>) -> Result<(), NoMemory>
    ensures { OnOk result (page.new.items ≡ fold zsh_case page.old.items commands.now) }
{
    for command in commands {
        put_case(command, page)?;
    }
    Ok(())
}

/// The completions of a table of help.
pub(crate) fn put_zsh<A: Allocator>(
    table: &HelpTable,
    page: &mut Vec<u8, A>,
) -> Result<(), NoMemory>
    ensures { OnOk result (page.new.items ≡ zsh_page page.old.items table.now) }
{
    put(
        "#compdef landmap\n_landmap() {\n    local -a commands options\n    commands=(\n",
        page,
    )?;
    put_words(&table.commands, page)?;
    put(
        "    )\n    if (( CURRENT == 2 )); then\n        _describe command commands\n        return\n    fi\n    case $words[2] in\n",
        page,
    )?;
    put_cases(&table.commands, page)?;
    put(
        "    esac\n    if [[ $PREFIX == -* ]]; then\n        _describe option options\n    else\n        _files\n    fi\n}\n_landmap \"$@\"\n",
        page,
    )
}
